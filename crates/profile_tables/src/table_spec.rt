//! What is declared for the rows of a profile table.

ghost use Rattle.std.specs.Prelude.{◌≡◌};
ghost use Rattle.profile_tables.specs.Unique.{most_of, unique_of};

use script_types::{CodeList, FieldCode};
use slee_value::Name;

/// The attributes that each row of a table has, in byte order, and those in which no two of its rows may be the same.
#[derive(Debug, Drop)]
pub struct TableSpec {
    pub attributes: CodeList<FieldCode>,
    pub unique: CodeList<Name>,
}

/// The attributes in which no two rows of the table may be the same.
pub fn unique_of(tables: &[TableSpec], table: u32) -> &[Name]
    ensures { result.now ≡ unique_of tables.now table }
{
    match tables.get(table as usize) {
        Some(spec) => spec.unique.as_slice(),
        None => &[],
    }
}

/// The most attributes in which rows of one table must differ.
pub fn most_of(tables: &[TableSpec]) -> u64
    ensures { result ≡ most_of tables.now }
{
    let mut most = 0;
    for spec in tables {
        most = most.max(spec.unique.as_slice().len() as u64);
    }
    most
}
