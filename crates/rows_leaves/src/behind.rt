//! The first row behind a key.
ghost use Rattle.std.specs.Prelude.{◌≡◌, drop, find, option_copied, slice_get};
ghost use Rattle.std.specs.List.{AllByRecursion, flat_map};
ghost use Rattle.rows_sorted.specs.Keys.{Rises, is_key, key_before};
ghost use Rattle.rows_leaves.specs.Invariant.{leaf_rows, HasRows, IsNumbered};

use crate::leaf::Leaf;
use crate::search::leaf_of;
use rows_sorted::{Keyed, count_before};

fn has_key<R: Keyed>(row: &R, first: u64, second: u64, text: &[u8]) -> bool
    ensures { result ≡ is_key (R.key row.now) (record { first = first; second = second; text = text.now }) }
{
    row.first() == first && (row.second() == second && row.text() == text)
}

fn row_in<R>(rows: &[R], place: usize) -> Option<&R>
    ensures { option_copied result ≡ slice_get rows.now place }
{
    rows.get(place)
}

/// The first one of the rows behind the key.
fn behind_in<'a, R: Keyed>(rows: &'a [R], first: u64, second: u64, text: &[u8]) -> Option<&'a R>
    requires { Rises R.key rows.now }
    ensures { option_copied result ≡ find (λ row. key_before (record { first = first; second = second; text = text.now }) (R.key row)) rows.now }
{
    let place = count_before(rows, first, second, text);
    match row_in(rows, place) {
        Some(row) => {
            if has_key(row, first, second, text) {
                row_in(rows, place + 1)
            } else {
                Some(row)
            }
        }
        None => None,
    }
}

/// The first row of the leaf at the place.
fn first_at<R: Keyed>(leaves: &[Leaf<R>], place: usize) -> Option<&R>
    requires { AllByRecursion HasRows leaves.now }
    ensures { option_copied result ≡ slice_get (flat_map leaf_rows (drop place leaves.now)) 0 }
{
    match leaves.get(place) {
        Some(leaf) => leaf.rows.first(),
        None => None,
    }
}

/// The first row behind the key: in the leaf in which the key belongs, or else the first one of the next leaf.
pub fn row_behind<'a, R: Keyed>(
    leaves: &'a [Leaf<R>],
    first: u64,
    second: u64,
    text: &[u8],
) -> Option<&'a R>
    requires rises { Rises R.key (flat_map leaf_rows leaves.now) }
    requires filled { AllByRecursion HasRows leaves.now }
    requires numbered { AllByRecursion (IsNumbered R.key) leaves.now }
    ensures { option_copied result ≡ find (λ row. key_before (record { first = first; second = second; text = text.now }) (R.key row)) (flat_map leaf_rows leaves.now) }
{
    match leaf_of(leaves, first, second, text) {
        Some(place) => {
            let leaf = &leaves[place];
            match behind_in(leaf.rows.as_slice(), first, second, text) {
                Some(row) => Some(row),
                None => first_at(leaves, place + 1),
            }
        }
        None => None,
    }
}
