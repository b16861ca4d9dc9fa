//! Attachments near a place that have ranks anew, evenly spread, where they stand too close for one more between them.
ghost use Rattle.std.specs.Prelude.{◌≡◌, ◌+◌, ◌-◌, ◌^◌, ◌<◌, IfSome, IsTrue, Some, length, slice_get, true};
ghost use Rattle.rows_sorted.specs.Keys.{key_before};
ghost use Rattle.router_order.specs.declared.placed.Placed.{Placed};
ghost use Rattle.router_order.specs.Placed.{attachments, placed_key};

use crate::placed::Placed;
use rows_leaves::Leaves;
use slee_value::ActivityId;

/// How far ranks stand apart at least behind a spread, times the number of attachments that are spread.
///
/// The more are spread the wider they stand, so that many more come between them before as many are spread again.
const RANK_SHARE: u64 = 1 << 16;

/// How many attachments at most are spread on each side of the place.
const WIDEST: usize = 1 << 24;

/// Attachments to one activity that stand side by side, from the one place up to the other, and how they are spread.
#[derive(Debug, Clone, Copy)]
struct Window {
    from: usize,
    to: usize,
    /// The rank before the first one.
    low: u64,
    /// How far they stand apart.
    gap: u64,
}

/// Whether the one stands before the other.
fn is_below(row: &Placed, other: &Placed) -> bool
    ensures { result ≡ key_before (placed_key row.now) (placed_key other.now) }
{
    row.activity.0 < other.activity.0
        || (row.activity.0 == other.activity.0 && row.rank < other.rank)
}

/// Whether this one stands behind the one before the place.
fn is_behind(rows: &Leaves<Placed>, place: usize, row: &Placed) -> bool
    requires { place < length rows.now.rows }
    ensures { IsTrue result → (other : Placed) → 0 < place → slice_get rows.now.rows (place - 1) ≡ Some other → key_before (placed_key other) (placed_key row.now) ≡ true }
{
    place == 0 || is_below(rows.at(place - 1), row)
}

/// Whether this one stands before the one behind the place.
fn is_ahead(rows: &Leaves<Placed>, place: usize, row: &Placed) -> bool
    requires { place < length rows.now.rows }
    ensures { IsTrue result → (other : Placed) → slice_get rows.now.rows (place + 1) ≡ Some other → key_before (placed_key row.now) (placed_key other) ≡ true }
{
    rows.len() - 1 <= place || is_below(row, rows.at(place + 1))
}

/// The attachment at the place has this rank, if it stays in its place by it.
fn set_rank(rows: &mut Leaves<Placed>, place: usize, rank: u64)
    ensures rows { attachments rows.new.rows ≡ attachments rows.old.rows }
    ensures room { rows.new.room ≡ rows.old.room }
    ensures whole { rows.new.room + length rows.new.rows ≡ rows.old.room + length rows.old.rows }
{
    rows.rises();
    if rows.len() <= place {
        return;
    }
    let row = *rows.at(place);
    let moved = Placed {
        activity: row.activity,
        rank,
        entity: row.entity,
    };
    if row.rank != rank && is_behind(rows, place, &moved) && is_ahead(rows, place, &moved) {
        rows.cut_row(row.activity.0, row.rank, &[]);
        rows.put_row(moved);
    }
}

/// The attachments have the ranks of the window: the lower ones from the first on, then the higher ones from the last on.
fn spread_window(rows: &mut Leaves<Placed>, window: &Window)
    ensures rows { attachments rows.new.rows ≡ attachments rows.old.rows }
    ensures room { rows.new.room ≡ rows.old.room }
    ensures whole { rows.new.room + length rows.new.rows ≡ rows.old.room + length rows.old.rows }
{
    let mut rank = window.low;
    let mut place = window.from;
    'lower: while place < window.to {
        rank = rank.saturating_add(window.gap);
        set_rank(rows, place, rank);
        place += 1;
    }
    'higher: while window.from < place {
        place -= 1;
        set_rank(rows, place, rank);
        rank = rank.saturating_sub(window.gap);
    }
}

/// The rank of the attachment at the place, where it is one to the activity.
fn rank_at(rows: &Leaves<Placed>, activity: ActivityId, place: usize) -> Option<u64>
    ensures { IfSome result (λ rank. place + 1 < 2 ^ 64) }
{
    if rows.len() <= place {
        return None;
    }
    let row = rows.at(place);
    if row.activity.0 == activity.0 {
        Some(row.rank)
    } else {
        None
    }
}

/// The rank of the attachment before the place, where it is one to the activity.
fn rank_before(rows: &Leaves<Placed>, activity: ActivityId, place: usize) -> Option<u64>
    ensures { IfSome result (λ rank. 0 < place) }
{
    if place == 0 {
        None
    } else {
        rank_at(rows, activity, place - 1)
    }
}

/// The fewest attachments about the place that can be spread wide enough, where there are such.
fn window_about(rows: &Leaves<Placed>, activity: ActivityId, place: usize) -> Option<Window> {
    let mut from = place;
    let mut to = place;
    let mut steps = 0;
    'wider: while steps < WIDEST {
        let below = rank_before(rows, activity, from);
        let above = rank_at(rows, activity, to);
        let low = below.unwrap_or(0);
        let high = above.unwrap_or(u64::MAX);
        let count = (to - from) as u64;
        let gap = high.saturating_sub(low) / count.saturating_add(1);
        if 0 < count && count < gap / RANK_SHARE {
            return Some(Window { from, to, low, gap });
        }
        if below.is_none() && above.is_none() {
            return None;
        }
        match below {
            Some(_) => from -= 1,
            None => {}
        }
        match above {
            Some(_) => to += 1,
            None => {}
        }
        steps += 1;
    }
    None
}

/// The attachments about this one have ranks anew, if few of them can be spread wide enough.
pub fn spread_about(rows: &mut Leaves<Placed>, row: &Placed)
    ensures rows { attachments rows.new.rows ≡ attachments rows.old.rows }
    ensures room { rows.new.room ≡ rows.old.room }
    ensures whole { rows.new.room + length rows.new.rows ≡ rows.old.room + length rows.old.rows }
{
    match rows.place_of(row.activity.0, row.rank, &[]) {
        Some(place) => match window_about(rows, row.activity, place) {
            Some(window) => spread_window(rows, &window),
            None => {}
        },
        None => {}
    }
}
