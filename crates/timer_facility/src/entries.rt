//! A timer's entries in the indices, and the entries one after the other.
ghost use Rattle.std.specs.Prelude.{◌≡◌, find, option_copied};
ghost use Rattle.timer_facility.specs.Indexed.{moment_entry, activity_entry, is_behind};

use router_state::Timer;
use rows_index::Entry;
use rows_leaves::Leaves;

/// The timer under its next moment.
pub fn moment_entry(timer: &Timer) -> Entry
    ensures { result ≡ moment_entry timer.now }
{
    Entry {
        key: timer.next,
        number: timer.number.0,
    }
}

/// The timer under its activity.
pub fn activity_entry(timer: &Timer) -> Entry
    ensures { result ≡ activity_entry timer.now }
{
    Entry {
        key: timer.activity.0,
        number: timer.number.0,
    }
}

/// The first entry behind this one; without one the first of all.
pub fn first_behind(entries: &Leaves<Entry>, entry: Option<Entry>) -> Option<&Entry>
    ensures { option_copied result ≡ find (is_behind entry) entries.now.rows }
{
    match entry {
        Some(entry) => entries.row_behind(entry.key, entry.number, &[]),
        None => entries.iter().next(),
    }
}
