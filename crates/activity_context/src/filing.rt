//! Names found by their texts, and by their activities.
ghost use Rattle.std.specs.Prelude.{◌≡◌, ◌+◌, ◌<◌, ◌≤◌, not, None, filter, find, option_copied};
ghost use Rattle.std.specs.List.{list_any};
ghost use Rattle.std.specs.Str.{bytes_eq};
ghost use Rattle.router_state.specs.Contexts.{with_name, without_name, without_names_of};
ghost use Rattle.rows_sorted.specs.Keys.{is_key, is_pair};
ghost use Rattle.activity_context.specs.Naming.{AreFiled, AreFound, AreNeeded, in_byte_order, numbered_key};

use crate::numbered::NumberedName;
use router_state::Named;
use rows_index::{Entry, number_of};
use rows_leaves::{Leaves, Run};
use slee_value::{ActivityId, Text};

/// The first of these names that has the text.
fn named_among<'a>(rows: Run<'a, NumberedName>, name: &Text) -> Option<&'a NumberedName>
    ensures { option_copied result ≡ find (λ row. bytes_eq row.named.name name.now) rows.entry }
{
    for row in rows {
        if row.named.name.as_bytes() == name.as_bytes() {
            return Some(row);
        }
    }
    None
}

/// The name of this text. Those under its number are looked at.
pub fn row_named<'a>(
    rows: &'a Leaves<NumberedName>,
    entries: &Leaves<Entry>,
    name: &Text,
) -> Option<&'a NumberedName>
    requires { AreFiled rows.now.rows entries.now.rows }
    ensures { option_copied result ≡ find (λ row. bytes_eq row.named.name name.now) rows.now.rows }
{
    named_among(rows.rows_of(number_of(name.as_bytes())), name)
}

/// A name that is new.
pub fn file(rows: &mut Leaves<NumberedName>, entries: &mut Leaves<Entry>, named: Named)
    requires filed { AreFiled rows.old.rows entries.old.rows }
    requires row_room { 0 < rows.old.room }
    requires entry_room { 0 < entries.old.room }
    requires absent { find (λ row. bytes_eq row.named.name named.name) rows.old.rows ≡ None }
    ensures names { in_byte_order rows.new.rows ≡ with_name (in_byte_order rows.old.rows) named.name named.activity.0 }
    ensures filed { AreFiled rows.new.rows entries.new.rows }
    ensures row_room { rows.old.room ≤ rows.new.room + 1 }
    ensures entry_room { entries.old.room ≤ entries.new.room + 1 }
{
    rows.rises();
    let number = number_of(named.name.as_bytes());
    entries.put_row(Entry {
        key: named.activity.0,
        number,
    });
    rows.put_row(NumberedName { number, named });
}

/// The name goes. Its number stays under its activity where another name of that number does.
fn cut_numbered(
    rows: &mut Leaves<NumberedName>,
    entries: &mut Leaves<Entry>,
    number: u64,
    activity: ActivityId,
    name: &Text,
)
    ensures rows { rows.new.rows ≡ filter (λ row. not (is_key (numbered_key row) (record { first = number; second = activity.0; text = name.now }))) rows.old.rows }
    ensures found { AreFound rows.old.rows entries.old.rows → AreFound rows.new.rows entries.new.rows }
    ensures needed { AreNeeded rows.old.rows entries.old.rows → AreNeeded rows.new.rows entries.new.rows }
    ensures row_room { rows.old.room ≤ rows.new.room }
    ensures entry_room { entries.old.room ≤ entries.new.room }
{
    rows.cut_row(number, activity.0, name.as_bytes());
    if !rows.has_row_of_pair(number, activity.0) {
        entries.cut_row(activity.0, number, &[]);
    }
}

/// The name of this text goes.
pub fn cut_named(rows: &mut Leaves<NumberedName>, entries: &mut Leaves<Entry>, name: &Text)
    requires { AreFiled rows.old.rows entries.old.rows }
    ensures names { in_byte_order rows.new.rows ≡ without_name (in_byte_order rows.old.rows) name.now }
    ensures gone { find (λ row. bytes_eq row.named.name name.now) rows.new.rows ≡ None }
    ensures filed { AreFiled rows.new.rows entries.new.rows }
    ensures row_room { rows.old.room ≤ rows.new.room }
    ensures entry_room { entries.old.room ≤ entries.new.room }
{
    match row_named(rows, entries, name) {
        Some(row) => {
            let (number, activity) = (row.number, row.named.activity);
            cut_numbered(rows, entries, number, activity, name);
        }
        None => {}
    }
}

/// The names of the activity under these numbers go.
fn cut_under(rows: &mut Leaves<NumberedName>, entries: Run<'_, Entry>, activity: ActivityId)
    ensures rows { rows.new.rows ≡ filter (λ row. not (list_any (λ e. is_pair e.number activity.0 (numbered_key row)) entries.entry)) rows.old.rows }
    ensures room { rows.old.room ≤ rows.new.room }
{
    for entry in entries {
        rows.cut_rows_of_pair(entry.number, activity.0);
    }
}

/// The names of the activity go.
pub fn cut_names_of(
    rows: &mut Leaves<NumberedName>,
    entries: &mut Leaves<Entry>,
    activity: ActivityId,
)
    requires { AreFiled rows.old.rows entries.old.rows }
    ensures names { in_byte_order rows.new.rows ≡ without_names_of (in_byte_order rows.old.rows) activity.0 }
    ensures filed { AreFiled rows.new.rows entries.new.rows }
    ensures row_room { rows.old.room ≤ rows.new.room }
    ensures entry_room { entries.old.room ≤ entries.new.room }
{
    cut_under(rows, entries.rows_of(activity.0), activity);
    entries.cut_rows_of(activity.0);
}
