//! Rows put into the leaf in which they belong.
ghost use Rattle.std.specs.Prelude.{◌≡◌, ◌-◌, ◌+◌, ◌^◌, ◌≤◌, ◌<◌, [], ◌∷◌, IsTrue, MatchOption, false, length, map, not, nat_lt, ◌||◌, slice_index_or, vec_capacity, vec_len};
ghost use Rattle.std.specs.List.{AllByRecursion, flat_map, insert, list_any};
ghost use Rattle.rows_sorted.specs.Orders.{put};
ghost use Rattle.rows_sorted.specs.Keys.{Rises, is_key, key_before};
ghost use Rattle.rows_leaves.specs.Invariant.{leaf_rows, row_count, has_place, Belongs, HasMemory, HasRows, IsNumbered, Stands};

use crate::leaf::{LEAF_ROWS, Leaf, last_numbers};
use crate::search::leaf_of;
use crate::splitting::{push_item, put_in_two};
use prefix_sums::Counts;
use rows_sorted::{Keyed, has_row, put_row};

/// The row is put among the rows. The answer says whether there was none of its key.
fn put_among<R: Keyed + Drop>(rows: &mut Vec<R>, row: R) -> bool
    requires rises { Rises R.key rows.old.items }
    requires room { IsTrue (list_any (λ other. is_key (R.key other) (R.key row)) rows.old.items || nat_lt 0 (vec_capacity rows.old - vec_len rows.old)) }
    ensures items { rows.new.items ≡ put (λ x y. key_before (R.key x) (R.key y)) row rows.old.items }
    ensures added { result ≡ not (list_any (λ other. is_key (R.key other) (R.key row)) rows.old.items) }
    ensures memory { vec_capacity rows.old ≤ vec_capacity rows.new }
{
    let before = rows.len();
    put_row(rows, row);
    before < rows.len()
}

/// The row is put into the leaf at the place. The answer says whether there was none of its key.
fn put_at<R: Keyed + Drop>(
    leaves: &mut Vec<Leaf<R>>,
    counts: &mut Counts,
    place: usize,
    row: R,
) -> bool
    requires rises { Rises R.key (flat_map leaf_rows leaves.old.items) }
    requires filled { AllByRecursion HasRows leaves.old.items }
    requires numbered { AllByRecursion (IsNumbered R.key) leaves.old.items }
    requires memory { AllByRecursion HasMemory leaves.old.items }
    requires belongs { Belongs R.key leaves.old.items (R.key row) place }
    requires room { (leaf : Leaf R) → leaf ≡ slice_index_or leaves.old.items place leaf → IsTrue (has_place R.key (R.key row) leaf) }
    requires lengths { counts.old.numbers ≡ map row_count leaves.old.items }
    requires fits { length (put (λ x y. key_before (R.key x) (R.key y)) row (flat_map leaf_rows leaves.old.items)) < 2 ^ 64 }
    ensures rows { flat_map leaf_rows leaves.new.items ≡ put (λ x y. key_before (R.key x) (R.key y)) row (flat_map leaf_rows leaves.old.items) }
    ensures added { result ≡ not (list_any (λ other. is_key (R.key other) (R.key row)) (flat_map leaf_rows leaves.old.items)) }
    ensures filled { AllByRecursion HasRows leaves.new.items }
    ensures numbered { AllByRecursion (IsNumbered R.key) leaves.new.items }
    ensures memory { AllByRecursion HasMemory leaves.new.items }
    ensures len { vec_len leaves.new ≡ vec_len leaves.old }
    ensures capacity { vec_capacity leaves.new ≡ vec_capacity leaves.old }
    ensures lengths { counts.new.numbers ≡ map row_count leaves.new.items }
    ensures places { counts.new.places ≡ counts.old.places }
{
    let leaf = &mut leaves[place];
    let is_new = put_among(&mut leaf.rows, row);
    leaf.last = last_numbers(leaf.rows.as_slice());
    counts.set(place, leaf.rows.len());
    is_new
}

/// Where the leaf stands in which the row belongs.
fn leaf_of_row<R: Keyed>(leaves: &[Leaf<R>], row: &R) -> Option<usize>
    requires rises { Rises R.key (flat_map leaf_rows leaves.now) }
    requires filled { AllByRecursion HasRows leaves.now }
    requires numbered { AllByRecursion (IsNumbered R.key) leaves.now }
    ensures { MatchOption result (leaves.now ≡ []) (λ place. Belongs R.key leaves.now (R.key row.now) place) }
{
    leaf_of(leaves, row.first(), row.second(), row.text())
}

/// Whether the leaf isn't full, or has a row of this row's key.
fn takes<R: Keyed>(leaf: &Leaf<R>, row: &R) -> bool
    requires { Rises R.key leaf.now.rows.items }
    ensures { result ≡ has_place R.key (R.key row.now) leaf.now }
{
    leaf.rows.len() < LEAF_ROWS
        || has_row(leaf.rows.as_slice(), row.first(), row.second(), row.text())
}

/// How many rows of a full leaf move behind. Behind the last leaf rows come most often.
fn count_to_move(is_last: bool) -> usize
    ensures some { 0 < result }
    ensures within { result < LEAF_ROWS }
{
    if is_last { 1 } else { LEAF_ROWS / 2 }
}

fn insert_item<T: Drop>(items: &mut Vec<T>, place: usize, item: T)
    requires within { place ≤ vec_len items.old }
    requires room { vec_len items.old < vec_capacity items.old }
    ensures items { items.new.items ≡ insert items.old.items place item }
    ensures len { vec_len items.new ≡ vec_len items.old + 1 }
    ensures memory { vec_capacity items.old ≤ vec_capacity items.new }
{
    match items.insert(place, item) {
        Ok(()) => {}
        Err(_) => unreachable!(),
    }
}

/// The full leaf at the place is split in two, and the row is put into one of both.
fn split_at<R: Keyed + Drop>(
    leaves: &mut Vec<Leaf<R>>,
    spares: &mut Vec<Leaf<R>>,
    counts: &mut Counts,
    place: usize,
    row: R,
)
    requires stands { Stands R.key leaves.old spares.old counts.old }
    requires belongs { Belongs R.key leaves.old.items (R.key row) place }
    requires room { 0 < vec_len spares.old }
    requires fits { length (put (λ x y. key_before (R.key x) (R.key y)) row (flat_map leaf_rows leaves.old.items)) < 2 ^ 64 }
    requires full { (leaf : Leaf R) → leaf ≡ slice_index_or leaves.old.items place leaf → LEAF_ROWS ≤ vec_len leaf.rows }
    ensures rows { flat_map leaf_rows leaves.new.items ≡ put (λ x y. key_before (R.key x) (R.key y)) row (flat_map leaf_rows leaves.old.items) }
    ensures stands { Stands R.key leaves.new spares.new counts.new }
    ensures room { vec_len spares.old ≤ vec_len spares.new + 1 }
    ensures slots { vec_len leaves.new + vec_len spares.new ≡ vec_len leaves.old + vec_len spares.old }
{
    match spares.pop() {
        Some(spare) => {
            let mut behind = spare;
            let count = count_to_move(place + 1 == leaves.len());
            let leaf = &mut leaves[place];
            put_in_two(&mut leaf.rows, &mut behind.rows, count, row);
            leaf.last = last_numbers(leaf.rows.as_slice());
            behind.last = last_numbers(behind.rows.as_slice());
            counts.set(place, leaf.rows.len());
            counts.insert(place + 1, behind.rows.len());
            insert_item(leaves, place + 1, behind);
        }
        None => unreachable!(),
    }
}

/// The row is put where there are no leaves.
fn put_first<R: Keyed + Drop>(
    leaves: &mut Vec<Leaf<R>>,
    spares: &mut Vec<Leaf<R>>,
    counts: &mut Counts,
    row: R,
)
    requires stands { Stands R.key leaves.old spares.old counts.old }
    requires none { leaves.old.items ≡ [] }
    requires room { 0 < vec_len spares.old }
    ensures rows { flat_map leaf_rows leaves.new.items ≡ row ∷ [] }
    ensures stands { Stands R.key leaves.new spares.new counts.new }
    ensures room { vec_len spares.old ≤ vec_len spares.new + 1 }
    ensures slots { vec_len leaves.new + vec_len spares.new ≡ vec_len leaves.old + vec_len spares.old }
{
    match spares.pop() {
        Some(spare) => {
            let mut leaf = spare;
            push_item(&mut leaf.rows, row);
            leaf.last = last_numbers(leaf.rows.as_slice());
            push_item(leaves, leaf);
            counts.insert(0, 1);
        }
        None => unreachable!(),
    }
}

/// The row stands in its place. Another one of its key gives way. The answer says whether there was none.
pub fn put_in<R: Keyed + Drop>(
    leaves: &mut Vec<Leaf<R>>,
    spares: &mut Vec<Leaf<R>>,
    counts: &mut Counts,
    row: R,
) -> bool
    requires stands { Stands R.key leaves.old spares.old counts.old }
    requires room { IsTrue (list_any (λ other. is_key (R.key other) (R.key row)) (flat_map leaf_rows leaves.old.items) || nat_lt 0 (vec_len spares.old)) }
    requires fits { length (put (λ x y. key_before (R.key x) (R.key y)) row (flat_map leaf_rows leaves.old.items)) < 2 ^ 64 }
    ensures rows { flat_map leaf_rows leaves.new.items ≡ put (λ x y. key_before (R.key x) (R.key y)) row (flat_map leaf_rows leaves.old.items) }
    ensures stands { Stands R.key leaves.new spares.new counts.new }
    ensures room { vec_len spares.old ≤ vec_len spares.new + 1 }
    ensures slots { vec_len leaves.new + vec_len spares.new ≡ vec_len leaves.old + vec_len spares.old }
    ensures added { result ≡ not (list_any (λ other. is_key (R.key other) (R.key row)) (flat_map leaf_rows leaves.old.items)) }
    ensures replaced { result ≡ false → vec_len spares.old ≤ vec_len spares.new }
{
    match leaf_of_row(leaves.as_slice(), &row) {
        Some(place) => {
            if takes(&leaves[place], &row) {
                put_at(leaves, counts, place, row)
            } else {
                split_at(leaves, spares, counts, place, row);
                true
            }
        }
        None => {
            put_first(leaves, spares, counts, row);
            true
        }
    }
}
