//! Rows found in the leaf in which their key belongs.
ghost use Rattle.std.specs.Prelude.{◌≡◌, ◌^◌, ◌<◌, find, length, map, option_copied, slice_get, Some};
ghost use Rattle.std.specs.List.{AllByRecursion, flat_map, list_any, position_from};
ghost use Rattle.rows_sorted.specs.Keys.{Rises, is_key};
ghost use Rattle.rows_leaves.specs.Invariant.{leaf_rows, row_count, HasRows, IsNumbered};
ghost use Rattle.rows_leaves.specs.Shares.{is_in};

use crate::leaf::Leaf;
use crate::search::{leaf_of, start_in};
use crate::share::{Share, first_in};
use prefix_sums::Counts;
use rows_sorted::Keyed;

/// The row of this key.
pub fn row_of<'a, R: Keyed>(
    leaves: &'a [Leaf<R>],
    first: u64,
    second: u64,
    text: &[u8],
) -> Option<&'a R>
    requires rises { Rises R.key (flat_map leaf_rows leaves.now) }
    requires filled { AllByRecursion HasRows leaves.now }
    requires numbered { AllByRecursion (IsNumbered R.key) leaves.now }
    ensures { option_copied result ≡ find (λ row. is_key (R.key row) (record { first = first; second = second; text = text.now })) (flat_map leaf_rows leaves.now) }
{
    match leaf_of(leaves, first, second, text) {
        Some(place) => {
            let leaf = &leaves[place];
            rows_sorted::row_of(leaf.rows.as_slice(), first, second, text)
        }
        None => None,
    }
}

/// Whether there is a row of this key.
pub fn has_row<R: Keyed>(leaves: &[Leaf<R>], first: u64, second: u64, text: &[u8]) -> bool
    requires rises { Rises R.key (flat_map leaf_rows leaves.now) }
    requires filled { AllByRecursion HasRows leaves.now }
    requires numbered { AllByRecursion (IsNumbered R.key) leaves.now }
    ensures { result ≡ list_any (λ row. is_key (R.key row) (record { first = first; second = second; text = text.now })) (flat_map leaf_rows leaves.now) }
{
    match leaf_of(leaves, first, second, text) {
        Some(place) => {
            let leaf = &leaves[place];
            rows_sorted::has_row(leaf.rows.as_slice(), first, second, text)
        }
        None => false,
    }
}

/// The place of the row of this key among all rows.
pub fn place_of<R: Keyed>(
    leaves: &[Leaf<R>],
    counts: &Counts,
    first: u64,
    second: u64,
    text: &[u8],
) -> Option<usize>
    requires rises { Rises R.key (flat_map leaf_rows leaves.now) }
    requires filled { AllByRecursion HasRows leaves.now }
    requires numbered { AllByRecursion (IsNumbered R.key) leaves.now }
    requires lengths { counts.now.numbers ≡ map row_count leaves.now }
    requires fits { length (flat_map leaf_rows leaves.now) < 2 ^ 64 }
    ensures { result ≡ position_from (λ row. is_key (R.key row) (record { first = first; second = second; text = text.now })) 0 (flat_map leaf_rows leaves.now) }
{
    match leaf_of(leaves, first, second, text) {
        Some(place) => {
            let leaf = &leaves[place];
            match rows_sorted::place_of(leaf.rows.as_slice(), first, second, text) {
                Some(inner) => Some(counts.sum_before(place) + inner),
                None => None,
            }
        }
        None => None,
    }
}

/// The first row of the share.
pub fn first_row_of<R: Keyed>(leaves: &[Leaf<R>], share: Share) -> Option<&R>
    requires rises { Rises R.key (flat_map leaf_rows leaves.now) }
    requires filled { AllByRecursion HasRows leaves.now }
    requires numbered { AllByRecursion (IsNumbered R.key) leaves.now }
    ensures { option_copied result ≡ find (λ row. is_in share (R.key row)) (flat_map leaf_rows leaves.now) }
{
    let place = start_in(leaves, share);
    if place < leaves.len() {
        let leaf = &leaves[place];
        first_in(leaf.rows.as_slice(), share)
    } else {
        None
    }
}

/// Whether there is a row of the share.
pub fn has_row_of<R: Keyed>(leaves: &[Leaf<R>], share: Share) -> bool
    requires rises { Rises R.key (flat_map leaf_rows leaves.now) }
    requires filled { AllByRecursion HasRows leaves.now }
    requires numbered { AllByRecursion (IsNumbered R.key) leaves.now }
    ensures { result ≡ list_any (λ row. is_in share (R.key row)) (flat_map leaf_rows leaves.now) }
{
    first_row_of(leaves, share).is_some()
}

/// The row at the place among all rows.
pub fn row_at<'a, R>(leaves: &'a [Leaf<R>], counts: &Counts, place: usize) -> &'a R
    requires lengths { counts.now.numbers ≡ map row_count leaves.now }
    requires within { place < length (flat_map leaf_rows leaves.now) }
    ensures { slice_get (flat_map leaf_rows leaves.now) place ≡ Some result.now }
{
    let (at, inner) = counts.place_in(place);
    let leaf = &leaves[at];
    &leaf.rows[inner]
}
