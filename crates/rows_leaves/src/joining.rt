//! Two leaves that become one where no spare leaf is left.
ghost use Rattle.std.specs.Prelude.{◌≡◌, ◌-◌, ◌+◌, ◌*◌, ◌≤◌, ◌<◌, ◌++◌, [], IsTrue, false, length, slice_index_or, vec_capacity, vec_len};
ghost use Rattle.std.specs.List.{flat_map};
ghost use Rattle.rows_leaves.specs.Invariant.{leaf_rows, Stands};

use crate::leaf::{HALF_LEAF, LEAF_ROWS, Leaf, last_numbers};
use crate::splitting::push_item;
use prefix_sums::Counts;
use rows_sorted::Keyed;

/// Whether one leaf can hold the rows of both.
fn fit_in_one<R>(one: &Leaf<R>, other: &Leaf<R>) -> bool
    ensures fit { IsTrue result → vec_len one.now.rows + vec_len other.now.rows ≤ LEAF_ROWS }
    ensures many { result ≡ false → LEAF_ROWS < vec_len one.now.rows + vec_len other.now.rows }
{
    one.rows.len() <= LEAF_ROWS && other.rows.len() <= LEAF_ROWS - one.rows.len()
}

/// The place of a leaf whose rows and those of the next one can be held by one leaf. Where there are so few rows, each second place can't be without.
fn place_to_join<R>(leaves: &[Leaf<R>]) -> usize
    requires { length (flat_map leaf_rows leaves.now) < HALF_LEAF * (length leaves.now - 1) }
    ensures within { result + 1 < length leaves.now }
    ensures fit { (one other : Leaf R) → one ≡ slice_index_or leaves.now result one → other ≡ slice_index_or leaves.now (result + 1) other → vec_len one.rows + vec_len other.rows ≤ LEAF_ROWS }
{
    let mut place = 0;
    'pairs: while !fit_in_one(&leaves[place], &leaves[place + 1]) {
        place += 2;
    }
    place
}

/// The rows move behind others, for which there is memory.
fn move_behind<R: Drop>(rows: &mut Vec<R>, into: &mut Vec<R>)
    requires { vec_len into.old + vec_len rows.old ≤ vec_capacity into.old }
    ensures items { into.new.items ≡ into.old.items ++ rows.old.items }
    ensures none { rows.new.items ≡ [] }
    ensures memory { vec_capacity into.old ≤ vec_capacity into.new }
    ensures memory_left { vec_capacity rows.old ≤ vec_capacity rows.new }
{
    rows.reverse();
    'moves: while let Some(row) = rows.pop() {
        push_item(into, row);
    }
}

/// The leaf at the place takes the rows of the next one, which goes to the spare ones.
fn join_at<R: Keyed + Drop>(
    leaves: &mut Vec<Leaf<R>>,
    spares: &mut Vec<Leaf<R>>,
    counts: &mut Counts,
    place: usize,
)
    requires stands { Stands R.key leaves.old spares.old counts.old }
    requires within { place + 1 < length leaves.old.items }
    requires fit { (one other : Leaf R) → one ≡ slice_index_or leaves.old.items place one → other ≡ slice_index_or leaves.old.items (place + 1) other → vec_len one.rows + vec_len other.rows ≤ LEAF_ROWS }
    ensures rows { flat_map leaf_rows leaves.new.items ≡ flat_map leaf_rows leaves.old.items }
    ensures stands { Stands R.key leaves.new spares.new counts.new }
    ensures slots { vec_len leaves.new + vec_len spares.new ≡ vec_len leaves.old + vec_len spares.old }
    ensures room { 0 < vec_len spares.new }
{
    let mut next = leaves.remove(place + 1);
    let leaf = &mut leaves[place];
    move_behind(&mut next.rows, &mut leaf.rows);
    leaf.last = last_numbers(leaf.rows.as_slice());
    counts.remove(place + 1);
    counts.set(place, leaf.rows.len());
    push_item(spares, next);
}

/// A spare leaf is made of those that there are.
fn make_spare<R: Keyed + Drop>(
    leaves: &mut Vec<Leaf<R>>,
    spares: &mut Vec<Leaf<R>>,
    counts: &mut Counts,
)
    requires stands { Stands R.key leaves.old spares.old counts.old }
    requires few { length (flat_map leaf_rows leaves.old.items) < HALF_LEAF * (vec_len leaves.old - 1) }
    ensures rows { flat_map leaf_rows leaves.new.items ≡ flat_map leaf_rows leaves.old.items }
    ensures stands { Stands R.key leaves.new spares.new counts.new }
    ensures slots { vec_len leaves.new + vec_len spares.new ≡ vec_len leaves.old + vec_len spares.old }
    ensures room { 0 < vec_len spares.new }
{
    let place = place_to_join(leaves.as_slice());
    join_at(leaves, spares, counts, place);
}

/// Where there is room for a row, a spare leaf is there or is made of those that there are.
pub fn keep_spare<R: Keyed + Drop>(
    leaves: &mut Vec<Leaf<R>>,
    spares: &mut Vec<Leaf<R>>,
    counts: &mut Counts,
    room: usize,
)
    requires stands { Stands R.key leaves.old spares.old counts.old }
    requires few { 0 < room → length (flat_map leaf_rows leaves.old.items) < HALF_LEAF * (vec_len leaves.old + vec_len spares.old - 1) }
    ensures rows { flat_map leaf_rows leaves.new.items ≡ flat_map leaf_rows leaves.old.items }
    ensures stands { Stands R.key leaves.new spares.new counts.new }
    ensures slots { vec_len leaves.new + vec_len spares.new ≡ vec_len leaves.old + vec_len spares.old }
    ensures room { 0 < room → 0 < vec_len spares.new }
{
    if room > 0 && spares.is_empty() {
        make_spare(leaves, spares, counts);
    }
}
