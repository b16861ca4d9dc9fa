//! The entries of a row's unique values, counted as it comes and goes.
ghost use Rattle.std.specs.Prelude.{◌≡◌, ◌+◌, ◌*◌, ◌<◌, ◌≤◌, ◌^◌, OnOk, find, length, map};
ghost use Rattle.rows_sorted.specs.Keys.{Rises, is_key};
ghost use Rattle.rows_index.specs.Tallies.{tally_key, all_less, all_more, total, AreCounted, AreSome, IsTally};
ghost use Rattle.profile_tables.specs.Keeping.{numbered_key};
ghost use Rattle.profile_tables.specs.Unique.{row_entries, value_entry, without_old};

use crate::TableSpec;
use crate::numbered::NumberedRow;
use crate::table_spec::unique_of;
use crate::values::value_key;
use rows_index::{Entry, Tally, count_one, uncount_one};
use rows_leaves::Leaves;
use slee_value::{Name, NoMemory, Text, Value};

/// Makes room for the entries of so many rows in all, of which each may have the most unique values.
pub fn reserve_counts(tallies: &mut Leaves<Tally>, most: u64, rows: u64) -> Result<(), NoMemory>
    ensures rows { tallies.new.rows ≡ tallies.old.rows }
    ensures kept { tallies.old.room ≤ tallies.new.room }
    ensures fits { OnOk result (most * rows < 2 ^ 64) }
    ensures room { OnOk result (most * rows ≤ tallies.new.room + length tallies.new.rows) }
{
    let counts = match most.checked_mul(rows) {
        Some(counts) => counts,
        None => return Err(NoMemory),
    };
    let more = counts.saturating_sub(tallies.len() as u64);
    tallies.reserve(more as usize)?;
    Ok(())
}

/// A row's number under the key of an attribute's value.
fn value_entry(table: u32, fields: &[(Name, Value)], number: u64, name: &Name) -> Entry
    ensures { result ≡ value_entry table fields.now number name.now }
{
    Entry {
        key: value_key(table, fields, name),
        number,
    }
}

/// The entries of the row's unique values are counted.
pub fn count_row(
    tallies: &mut Leaves<Tally>,
    unique: &[Name],
    table: u32,
    fields: &[(Name, Value)],
    number: u64,
)
    requires rises { Rises tally_key tallies.old.rows }
    requires some { AreSome tallies.old.rows }
    requires fits { total tallies.old.rows + length unique.now < 2 ^ 64 }
    requires room { total tallies.old.rows + length unique.now ≤ tallies.old.room + length tallies.old.rows }
    ensures rows { tallies.new.rows ≡ all_more (map (value_entry table fields.now number) unique.now) tallies.old.rows }
    ensures capacity { tallies.old.room + length tallies.old.rows ≤ tallies.new.room + length tallies.new.rows }
{
    for name in unique {
        count_one(tallies, value_entry(table, fields, number, name));
    }
}

/// The entries of the row's unique values are counted no more.
fn uncount_row(
    tallies: &mut Leaves<Tally>,
    unique: &[Name],
    table: u32,
    fields: &[(Name, Value)],
    number: u64,
)
    requires rises { Rises tally_key tallies.old.rows }
    requires counted { AreCounted (map (value_entry table fields.now number) unique.now) tallies.old.rows }
    ensures rows { tallies.new.rows ≡ all_less (map (value_entry table fields.now number) unique.now) tallies.old.rows }
    ensures capacity { tallies.old.room + length tallies.old.rows ≤ tallies.new.room + length tallies.new.rows }
{
    for name in unique {
        uncount_one(tallies, value_entry(table, fields, number, name));
    }
}

/// The entries of the table's row of this number and name are counted no more, where there is one.
pub fn uncount_old(
    tallies: &mut Leaves<Tally>,
    tables: &[TableSpec],
    rows: &Leaves<NumberedRow>,
    number: u64,
    table: u32,
    row: &Text,
)
    requires rises { Rises numbered_key rows.now.rows }
    requires counted { IsTally (row_entries tables.now) rows.now.rows tallies.old.rows }
    ensures rows { tallies.new.rows ≡ without_old tables.now (find (λ old. is_key (numbered_key old) (record { first = number; second = table; text = row.now })) rows.now.rows) tallies.old.rows }
    ensures capacity { tallies.old.room + length tallies.old.rows ≤ tallies.new.room + length tallies.new.rows }
{
    match rows.row_of(number, table as u64, row.as_bytes()) {
        Some(old) => {
            let unique = unique_of(tables, old.item.table);
            uncount_row(
                tallies,
                unique,
                old.item.table,
                old.item.attributes.as_slice(),
                old.number,
            );
        }
        None => {}
    }
}
