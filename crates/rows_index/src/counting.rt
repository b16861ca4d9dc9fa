//! Entries counted as they come and go.
ghost use Rattle.std.specs.Prelude.{◌≡◌, ◌+◌, ◌-◌, ◌<◌, ◌≤◌, ◌||◌, ◌^◌, length, nat_lt, IsTrue};
ghost use Rattle.rows_sorted.specs.Keys.{Rises};
ghost use Rattle.rows_index.specs.Tallies.{tally_key, count_at, one_more, one_less, with_count, without_entry};

use crate::{Entry, Tally};
use rows_leaves::Leaves;

/// How often the entry is counted.
fn count_of(tallies: &Leaves<Tally>, entry: Entry) -> u64
    ensures { result ≡ count_at tallies.now.rows entry }
{
    match tallies.row_of(entry.key, entry.number, &[]) {
        Some(tally) => tally.count,
        None => 0,
    }
}

/// The entry is counted once more.
pub fn count_one(tallies: &mut Leaves<Tally>, entry: Entry)
    requires fits { count_at tallies.old.rows entry < 2 ^ 64 - 1 }
    requires room { IsTrue (nat_lt 0 (count_at tallies.old.rows entry) || nat_lt 0 tallies.old.room) }
    ensures rows { tallies.new.rows ≡ one_more entry tallies.old.rows }
    ensures rises { Rises tally_key tallies.new.rows }
    ensures room { tallies.old.room ≤ tallies.new.room + 1 }
    ensures counted { 0 < count_at tallies.old.rows entry → tallies.old.room ≤ tallies.new.room }
    ensures capacity { tallies.old.room + length tallies.old.rows ≤ tallies.new.room + length tallies.new.rows }
{
    let count = count_of(tallies, entry) + 1;
    tallies.put_row(Tally { entry, count });
}

/// The entry is counted so often, where it was counted.
fn recount(tallies: &mut Leaves<Tally>, entry: Entry, count: u64)
    requires { 0 < count_at tallies.old.rows entry }
    ensures rows { tallies.new.rows ≡ with_count entry count tallies.old.rows }
    ensures rises { Rises tally_key tallies.new.rows }
    ensures room { tallies.old.room ≤ tallies.new.room }
    ensures capacity { tallies.old.room + length tallies.old.rows ≤ tallies.new.room + length tallies.new.rows }
{
    tallies.put_row(Tally { entry, count });
}

/// The entry is counted once less. It goes when it isn't counted any more.
pub fn uncount_one(tallies: &mut Leaves<Tally>, entry: Entry)
    requires { 0 < count_at tallies.old.rows entry }
    ensures rows { tallies.new.rows ≡ one_less entry tallies.old.rows }
    ensures rises { Rises tally_key tallies.new.rows }
    ensures room { tallies.old.room ≤ tallies.new.room }
    ensures capacity { tallies.old.room + length tallies.old.rows ≤ tallies.new.room + length tallies.new.rows }
{
    let count = count_of(tallies, entry);
    if count > 1 {
        recount(tallies, entry, count - 1);
    } else {
        tallies.cut_row(entry.key, entry.number, &[]);
    }
}
