//! An attachment put in its place among those to its activity.
ghost use Rattle.std.specs.Prelude.{◌≡◌, ◌==◌, ◌+◌, ◌-◌, ◌^◌, ◌<◌, ◌≤◌, [], Some, IfSome, IsTrue, false, filter, length, slice_get, true, vec_capacity};
ghost use Rattle.std.specs.List.{AllByRecursion, prefix_len};
ghost use Rattle.router_state.specs.Contexts.{is_linked};
ghost use Rattle.rows_sorted.specs.Orders.{put};
ghost use Rattle.entity_tree.specs.Kept.{is_entity};
ghost use Rattle.router_order.specs.Listed.{IsListing, listed_before};
ghost use Rattle.router_order.specs.declared.placed.Placed.{Placed};
ghost use Rattle.router_order.specs.Placed.{attachment, attachments};

use crate::laying::{RANK_GAP, copy_run, replace};
use crate::listing::{is_before, put_link};
use crate::placed::{Placed, attachment};
use crate::spreading::spread_about;
use entity_tree::Tree;
use router_state::Link;
use rows_leaves::{Leaves, Run};

/// The rank of an attachment that is the first to its activity.
const FIRST_RANK: u64 = 1 << 63;

/// How far at most an attachment stands from the one of its neighbours that was attached later.
///
/// Children of one entity are mostly attached each behind the one attached last, or each before it: each such one takes
/// this little of the ranks that are left on that side, so that ranks anew are rare.
const RANK_STEP: u64 = 1 << 16;

/// The attachment stands in its place, and those to its activity have ranks anew.
fn insert_anew(tree: &Tree, rows: &mut Leaves<Placed>, spare: &mut Vec<Link>, link: Link)
    requires listing { IsListing tree.now.rows (attachments rows.old.rows) }
    requires there { IsTrue (is_entity tree.now.rows link.entity.0) }
    requires empty { spare.old.items ≡ [] }
    requires memory { length rows.old.rows < vec_capacity spare.old }
    requires room { 0 < rows.old.room }
    ensures rows { attachments rows.new.rows ≡ put (listed_before tree.now.rows) link (attachments rows.old.rows) }
    ensures empty { spare.new.items ≡ [] }
    ensures capacity { vec_capacity spare.old ≤ vec_capacity spare.new }
    ensures room { rows.old.room ≤ rows.new.room + 1 }
    ensures whole { rows.new.room + length rows.new.rows ≡ rows.old.room + length rows.old.rows }
{
    copy_run(rows.rows_of(link.activity.0), spare);
    put_link(tree, spare, link);
    replace(rows, link.activity, spare);
    spare.clear();
    rows.rises();
}

/// How many of these attachments are listed before this one.
fn place_in(tree: &Tree, run: &Run<'_, Placed>, link: &Link) -> usize
    requires listing { IsListing tree.now.rows (attachments run.now) }
    requires count { length run.now < 2 ^ 64 }
    ensures { result ≡ prefix_len (λ row. listed_before tree.now.rows (attachment row) link.now) run.now }
{
    let mut low = 0;
    let mut high = run.len();
    'halves: while low < high {
        let middle = low + (high - low) / 2;
        if is_earlier(tree, run, middle, link) {
            low = middle + 1;
        } else {
            high = middle;
        }
    }
    low
}

/// Whether the attachment at the place is listed before this one.
fn is_earlier(tree: &Tree, run: &Run<'_, Placed>, place: usize, link: &Link) -> bool
    requires { place < length run.now }
    ensures { (row : Placed) → slice_get run.now place ≡ Some row → result ≡ listed_before tree.now.rows (attachment row) link.now }
{
    match run.get(place) {
        Some(row) => is_before(tree, &attachment(row), link),
        None => false,
    }
}

/// The attachment at the place.
fn row_in(run: &Run<'_, Placed>, place: usize) -> Option<Placed>
    ensures { result ≡ slice_get run.now place }
{
    match run.get(place) {
        Some(row) => Some(*row),
        None => None,
    }
}

/// The attachment before the place.
fn row_before(run: &Run<'_, Placed>, place: usize) -> Option<Placed>
    ensures { (row : Placed) → 0 < place → slice_get run.now (place - 1) ≡ Some row → result ≡ Some row }
{
    if place == 0 {
        None
    } else {
        row_in(run, place - 1)
    }
}

/// A rank inside of these two, where there is one.
///
/// It is a step away from the one that was attached later: entities are numbered in the order in which they begin.
fn rank_inside(low: &Placed, high: &Placed) -> Option<u64>
    ensures above { IfSome result (λ rank. low.now.rank < rank) }
    ensures below { IfSome result (λ rank. rank < high.now.rank) }
{
    if high.rank <= low.rank {
        return None;
    }
    let half = (high.rank - low.rank) / 2;
    let step = if half < RANK_STEP { half } else { RANK_STEP };
    if step == 0 {
        None
    } else if low.entity.0 < high.entity.0 {
        Some(high.rank - step)
    } else {
        Some(low.rank + step)
    }
}

/// A rank above the one and below the other, where there is one.
fn rank_between(low: Option<Placed>, high: Option<Placed>) -> Option<u64>
    ensures above { IfSome result (λ rank. (other : Placed) → low ≡ Some other → other.rank < rank) }
    ensures below { IfSome result (λ rank. (other : Placed) → high ≡ Some other → rank < other.rank) }
{
    match (low, high) {
        (None, None) => Some(FIRST_RANK),
        (Some(low), None) => low.rank.checked_add(RANK_GAP),
        (None, Some(high)) => high.rank.checked_sub(RANK_GAP),
        (Some(low), Some(high)) => rank_inside(&low, &high),
    }
}

/// The attachments before the place of this one and behind it.
fn neighbours(tree: &Tree, rows: &Leaves<Placed>, link: &Link) -> (Option<Placed>, Option<Placed>)
    requires { IsListing tree.now.rows (attachments rows.now.rows) }
    ensures before { (row : Placed) → 0 < prefix_len (λ row. listed_before tree.now.rows (attachment row) link.now) (filter (λ row. row.activity.0 == link.now.activity.0) rows.now.rows) → slice_get (filter (λ row. row.activity.0 == link.now.activity.0) rows.now.rows) (prefix_len (λ row. listed_before tree.now.rows (attachment row) link.now) (filter (λ row. row.activity.0 == link.now.activity.0) rows.now.rows) - 1) ≡ Some row → result.0 ≡ Some row }
    ensures behind { result.1 ≡ slice_get (filter (λ row. row.activity.0 == link.now.activity.0) rows.now.rows) (prefix_len (λ row. listed_before tree.now.rows (attachment row) link.now) (filter (λ row. row.activity.0 == link.now.activity.0) rows.now.rows)) }
{
    let _count = rows.len();
    let run = rows.rows_of(link.activity.0);
    let place = place_in(tree, &run, link);
    (row_before(&run, place), row_in(&run, place))
}

/// A rank for the attachment among those to its activity, where there is one.
fn rank_for(tree: &Tree, rows: &Leaves<Placed>, link: &Link) -> Option<u64>
    requires { IsListing tree.now.rows (attachments rows.now.rows) }
    ensures above { IfSome result (λ rank. AllByRecursion (λ row. listed_before tree.now.rows (attachment row) link.now ≡ true → row.rank < rank) (filter (λ row. row.activity.0 == link.now.activity.0) rows.now.rows)) }
    ensures below { IfSome result (λ rank. AllByRecursion (λ row. listed_before tree.now.rows (attachment row) link.now ≡ false → rank < row.rank) (filter (λ row. row.activity.0 == link.now.activity.0) rows.now.rows)) }
{
    rows.rises();
    let beside = neighbours(tree, rows, link);
    rank_between(beside.0, beside.1)
}

/// The attachments about the place of this one have ranks anew, if few of them can be spread wide enough.
fn spread_near(tree: &Tree, rows: &mut Leaves<Placed>, link: &Link)
    requires { IsListing tree.now.rows (attachments rows.old.rows) }
    ensures rows { attachments rows.new.rows ≡ attachments rows.old.rows }
    ensures room { rows.new.room ≡ rows.old.room }
    ensures whole { rows.new.room + length rows.new.rows ≡ rows.old.room + length rows.old.rows }
{
    let beside = neighbours(tree, rows, link);
    match beside.0 {
        Some(row) => spread_about(rows, &row),
        None => match beside.1 {
            Some(row) => spread_about(rows, &row),
            None => {}
        },
    }
}

/// A rank for the attachment among those to its activity. Where there is none, those about its place have ranks anew first.
fn make_rank(tree: &Tree, rows: &mut Leaves<Placed>, link: &Link) -> Option<u64>
    requires { IsListing tree.now.rows (attachments rows.old.rows) }
    ensures rows { attachments rows.new.rows ≡ attachments rows.old.rows }
    ensures room { rows.new.room ≡ rows.old.room }
    ensures whole { rows.new.room + length rows.new.rows ≡ rows.old.room + length rows.old.rows }
    ensures above { IfSome result (λ rank. AllByRecursion (λ row. listed_before tree.now.rows (attachment row) link.now ≡ true → row.rank < rank) (filter (λ row. row.activity.0 == link.now.activity.0) rows.new.rows)) }
    ensures below { IfSome result (λ rank. AllByRecursion (λ row. listed_before tree.now.rows (attachment row) link.now ≡ false → rank < row.rank) (filter (λ row. row.activity.0 == link.now.activity.0) rows.new.rows)) }
{
    match rank_for(tree, rows, link) {
        Some(rank) => Some(rank),
        None => {
            spread_near(tree, rows, link);
            rank_for(tree, rows, link)
        }
    }
}

/// The attachment, which isn't there yet, stands in its place.
pub fn insert_link(tree: &Tree, rows: &mut Leaves<Placed>, spare: &mut Vec<Link>, link: Link)
    requires listing { IsListing tree.now.rows (attachments rows.old.rows) }
    requires there { IsTrue (is_entity tree.now.rows link.entity.0) }
    requires absent { is_linked (attachments rows.old.rows) link.entity.0 link.activity.0 ≡ false }
    requires empty { spare.old.items ≡ [] }
    requires memory { length rows.old.rows < vec_capacity spare.old }
    requires room { 0 < rows.old.room }
    ensures rows { attachments rows.new.rows ≡ put (listed_before tree.now.rows) link (attachments rows.old.rows) }
    ensures empty { spare.new.items ≡ [] }
    ensures capacity { vec_capacity spare.old ≤ vec_capacity spare.new }
    ensures room { rows.old.room ≤ rows.new.room + 1 }
    ensures whole { rows.new.room + length rows.new.rows ≡ rows.old.room + length rows.old.rows }
{
    tree.ordered();
    rows.rises();
    match make_rank(tree, rows, &link) {
        Some(rank) => rows.put_row(Placed {
            activity: link.activity,
            rank,
            entity: link.entity,
        }),
        None => insert_anew(tree, rows, spare, link),
    }
}
