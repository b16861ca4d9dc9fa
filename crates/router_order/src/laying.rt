//! The attachments to one activity, taken out of the rows and laid back with ranks that rise.
ghost use Rattle.std.specs.Prelude.{◌≡◌, ℕ, ◌==◌, ◌+◌, ◌*◌, ◌^◌, ◌<◌, ◌≤◌, [], false, length, vec_capacity, vec_len};
ghost use Rattle.std.specs.List.{AllByRecursion};
ghost use Rattle.router_state.specs.Contexts.{links_on};
ghost use Rattle.router_order.specs.Placed.{attachments};

use crate::listing::push_link;
use crate::placed::{Placed, attachment};
use router_state::Link;
use rows_leaves::{Leaves, Run};
use slee_value::ActivityId;

/// How far ranks stand apart, where there is place enough.
pub const RANK_GAP: u64 = 1 << 32;

/// The first one of so many ranks, and how far they stand apart.
fn spread(count: u64) -> (u64, u64)
    requires { count + 1 < 2 ^ 64 }
    ensures some { 0 < result.1 }
    ensures fits { result.0 + result.1 * count < 2 ^ 64 }
{
    let widest = u64::MAX / (count + 1);
    let gap = if widest < RANK_GAP { widest } else { RANK_GAP };
    ((u64::MAX - gap * count) / 2, gap)
}

/// Copies these attachments.
pub fn copy_run(run: Run<'_, Placed>, into: &mut Vec<Link>)
    requires empty { into.old.items ≡ [] }
    requires room { length run ≤ vec_capacity into.old }
    ensures items { into.new.items ≡ attachments run.entry }
    ensures capacity { vec_capacity into.old ≤ vec_capacity into.new }
{
    'rows: for row in run {
        push_link(into, attachment(row));
    }
}

/// Lays attachments to the activity, of which there are none yet.
fn lay(rows: &mut Leaves<Placed>, activity: ActivityId, links: &[Link])
    requires own { AllByRecursion (λ link. link.activity.0 ≡ activity.0) links.now }
    requires none { links_on (attachments rows.old.rows) activity.0 ≡ [] }
    requires room { length links.now ≤ rows.old.room }
    requires count { length links.now + 1 < 2 ^ 64 }
    ensures run { links_on (attachments rows.new.rows) activity.0 ≡ links.now }
    ensures others { (b : ℕ) → (b == activity.0) ≡ false → links_on (attachments rows.new.rows) b ≡ links_on (attachments rows.old.rows) b }
    ensures room { rows.old.room ≤ rows.new.room + length links.now }
    ensures whole { rows.new.room + length rows.new.rows ≡ rows.old.room + length rows.old.rows }
{
    let (start, gap) = spread(links.len() as u64);
    let mut rank = start;
    'links: for link in links {
        rows.put_row(Placed {
            activity,
            rank,
            entity: link.entity,
        });
        rank += gap;
    }
}

/// These are the attachments to the activity.
pub fn replace(rows: &mut Leaves<Placed>, activity: ActivityId, links: &[Link])
    requires own { AllByRecursion (λ link. link.activity.0 ≡ activity.0) links.now }
    requires room { length links.now ≤ rows.old.room + length (links_on (attachments rows.old.rows) activity.0) }
    requires count { length links.now + 1 < 2 ^ 64 }
    ensures run { links_on (attachments rows.new.rows) activity.0 ≡ links.now }
    ensures others { (b : ℕ) → (b == activity.0) ≡ false → links_on (attachments rows.new.rows) b ≡ links_on (attachments rows.old.rows) b }
    ensures room { rows.old.room + length (links_on (attachments rows.old.rows) activity.0) ≤ rows.new.room + length links.now }
    ensures whole { rows.new.room + length rows.new.rows ≡ rows.old.room + length rows.old.rows }
{
    rows.cut_rows_of(activity.0);
    lay(rows, activity, links);
}
