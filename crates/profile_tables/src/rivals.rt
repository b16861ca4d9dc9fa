//! Rows that have a value that is to be unique. They are found under the numbers of the values.
ghost use Rattle.std.specs.Prelude.{◌≡◌, ◌==◌, ◌&&◌, find, option_copied};
ghost use Rattle.std.specs.List.{AllByRecursion, position_from};
ghost use Rattle.router_state.specs.Profiles.{is_row, row_before};
ghost use Rattle.rows_index.specs.Numbers.{number_of};
ghost use Rattle.profile_tables.specs.Faults.{is_rival};
ghost use Rattle.profile_tables.specs.Keeping.{as_kept, in_byte_order, AreFiled};
ghost use Rattle.profile_tables.specs.Unique.{earlier, is_rival_in, AreUnder};

use crate::numbered::NumberedRow;
use crate::same::is_alike;
use crate::values::value_key;
use router_state::ProfileRow;
use rows_index::{Tally, number_of};
use rows_leaves::{Leaves, Run};
use slee_value::{Name, Text, Value};

/// Whether the other row is another one of the table, and has the value of this attribute.
fn is_rival_in(
    name: &Name,
    table: u32,
    row: &Text,
    fields: &[(Name, Value)],
    other: &ProfileRow,
) -> bool
    ensures { result ≡ is_rival_in (record { table = table; row = row.now; attributes = fields.now }) name.now other.now }
{
    other.table == table
        && other.row.as_bytes() != row.as_bytes()
        && is_alike(fields, other.attributes.as_slice(), name)
}

/// The first of these rows that has the value of this attribute.
fn first_rival<'a>(
    among: Run<'a, NumberedRow>,
    name: &Name,
    table: u32,
    row: &Text,
    fields: &[(Name, Value)],
) -> Option<&'a ProfileRow>
    ensures { option_copied result ≡ find (is_rival_in (record { table = table; row = row.now; attributes = fields.now }) name.now) (as_kept among.entry) }
{
    for other in among {
        if is_rival_in(name, table, row, fields, &other.item) {
            return Some(&other.item);
        }
    }
    None
}

/// Of the rows of one number, the least that has the value of this attribute.
fn rival_numbered<'a>(
    rows: &'a Leaves<NumberedRow>,
    number: u64,
    name: &Name,
    table: u32,
    row: &Text,
    fields: &[(Name, Value)],
) -> Option<&'a ProfileRow>
    requires { AreFiled rows.now.rows }
    ensures { option_copied result ≡ find (λ other. is_rival_in (record { table = table; row = row.now; attributes = fields.now }) name.now other && (number_of other.row == number)) (in_byte_order rows.now.rows) }
{
    rows.rises();
    let among = rows.rows_of_pair(number, table as u64);
    first_rival(among, name, table, row, fields)
}

fn is_before(one: &ProfileRow, other: &ProfileRow) -> bool
    ensures { result ≡ row_before one.now other.now }
{
    one.table < other.table
        || (one.table == other.table && one.row.as_bytes().cmp(other.row.as_bytes()).is_lt())
}

/// The lesser one of two rows, or the only one.
fn earlier<'a>(one: Option<&'a ProfileRow>, other: Option<&'a ProfileRow>) -> Option<&'a ProfileRow>
    ensures { option_copied result ≡ earlier (option_copied one.entry) (option_copied other.entry) }
{
    match (one, other) {
        (None, other) => other,
        (one, None) => one,
        (Some(one), Some(other)) => if is_before(other, one) {
            Some(other)
        } else {
            Some(one)
        },
    }
}

/// The least other row of the table that has the value of this attribute. Rows are looked at only under the value's number.
fn rival_in<'a>(
    rows: &'a Leaves<NumberedRow>,
    tallies: &Leaves<Tally>,
    name: &Name,
    table: u32,
    row: &Text,
    fields: &[(Name, Value)],
) -> Option<&'a ProfileRow>
    requires filed { AreFiled rows.now.rows }
    requires under { AreUnder (in_byte_order rows.now.rows) tallies.now.rows (record { table = table; row = row.now; attributes = fields.now }) name.now }
    ensures { option_copied result ≡ find (is_rival_in (record { table = table; row = row.now; attributes = fields.now }) name.now) (in_byte_order rows.now.rows) }
{
    let mut least = None;
    for tally in tallies.rows_of(value_key(table, fields, name)) {
        let rival = rival_numbered(rows, tally.entry.number, name, table, row, fields);
        least = earlier(least, rival);
    }
    least
}

/// The least other row of the table that has one of the unique values.
pub fn least_rival<'a>(
    rows: &'a Leaves<NumberedRow>,
    tallies: &Leaves<Tally>,
    unique: &[Name],
    table: u32,
    row: &Text,
    fields: &[(Name, Value)],
) -> Option<&'a ProfileRow>
    requires filed { AreFiled rows.now.rows }
    requires under { AllByRecursion (AreUnder (in_byte_order rows.now.rows) tallies.now.rows (record { table = table; row = row.now; attributes = fields.now })) unique.now }
    ensures { option_copied result ≡ find (is_rival unique.now (record { table = table; row = row.now; attributes = fields.now })) (in_byte_order rows.now.rows) }
{
    let mut least = None;
    for name in unique {
        let rival = rival_in(rows, tallies, name, table, row, fields);
        least = earlier(least, rival);
    }
    least
}

/// Where the row stands among those that are kept.
pub fn place_of_row(rows: &Leaves<NumberedRow>, item: &ProfileRow) -> Option<u64>
    requires { AreFiled rows.now.rows }
    ensures { result ≡ position_from (is_row item.now.table item.now.row) 0 (as_kept rows.now.rows) }
{
    let name = item.row.as_bytes();
    match rows.place_of(number_of(name), item.table as u64, name) {
        Some(place) => Some(place as u64),
        None => None,
    }
}
