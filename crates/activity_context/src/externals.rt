//! External activities by their names.
ghost use Rattle.std.specs.Prelude.{◌≡◌, option_copied};
ghost use Rattle.router_state.specs.Contexts.{activity_at, has_name};
ghost use Rattle.rows_index.specs.Found.{first_found};
ghost use Rattle.activity_context.specs.Indexed.{name_entry, name_number};

use router_state::{AcKind, Activity};
use rows_index::{Entry, number_of};
use rows_leaves::{Leaves, Run};
use slee_value::Name;

/// Above the numbers of all names: here stand the activities that have none.
const NAMELESS: u64 = u64::MAX;

fn has_name(kind: &AcKind, name: &Name) -> bool
    ensures { result ≡ has_name kind.now name.now }
{
    match kind {
        AcKind::External(own) => own.as_bytes() == name.as_bytes(),
        _ => false,
    }
}

/// The number of an activity's name.
pub fn name_number(kind: &AcKind) -> u64
    ensures { result ≡ name_number kind.now }
{
    match kind {
        AcKind::External(name) => number_of(name.as_bytes()),
        _ => NAMELESS,
    }
}

/// The activity under the number of its name.
pub fn name_entry(activity: &Activity) -> Entry
    ensures { result ≡ name_entry activity.now }
{
    Entry {
        key: name_number(&activity.kind),
        number: activity.number.0,
    }
}

/// The first activity of these entries that is the external one of the name.
pub fn external_among<'a>(
    rows: &'a Leaves<Activity>,
    entries: Run<'_, Entry>,
    name: &Name,
) -> Option<&'a Activity>
    ensures { option_copied result ≡ first_found (activity_at rows.now.rows) (λ row. has_name row.kind name.now) entries.entry }
{
    for entry in entries {
        if let Some(row) = rows.first_row_of(entry.number) {
            if has_name(&row.kind, name) {
                return Some(row);
            }
        }
    }
    None
}
