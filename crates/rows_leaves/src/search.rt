//! Which leaf a key belongs in, and which leaves rows side by side stand in. Of the leaves the numbers of their last rows are read.
ghost use Rattle.std.specs.Prelude.{◌≡◌, ◌≤◌, [], MatchOption, length};
ghost use Rattle.std.specs.List.{AllByRecursion, flat_map, prefix_len};
ghost use Rattle.rows_sorted.specs.Keys.{Rises, key_before};
ghost use Rattle.rows_leaves.specs.Laying.{last_key};
ghost use Rattle.rows_leaves.specs.Shares.{is_ahead, is_up_to};
ghost use Rattle.rows_leaves.specs.Invariant.{leaf_rows, Belongs, HasRows, IsNumbered};

use crate::leaf::Leaf;
use crate::share::{Share, places_of, start_of};
use rows_sorted::{Keyed, count_before};

/// How many leaves have a last row that stands before the key.
fn count_in<R: Keyed>(leaves: &[Leaf<R>], first: u64, second: u64, text: &[u8]) -> usize
    requires rises { Rises R.key (flat_map leaf_rows leaves.now) }
    requires filled { AllByRecursion HasRows leaves.now }
    requires numbered { AllByRecursion (IsNumbered R.key) leaves.now }
    ensures { result ≡ prefix_len (λ leaf. key_before (last_key R.key (leaf_rows leaf)) (record { first = first; second = second; text = text.now })) leaves.now }
{
    count_before(leaves, first, second, text)
}

/// Where the leaf stands in which the key belongs. None stands for no leaves.
pub fn leaf_of<R: Keyed>(leaves: &[Leaf<R>], first: u64, second: u64, text: &[u8]) -> Option<usize>
    requires rises { Rises R.key (flat_map leaf_rows leaves.now) }
    requires filled { AllByRecursion HasRows leaves.now }
    requires numbered { AllByRecursion (IsNumbered R.key) leaves.now }
    ensures { MatchOption result (leaves.now ≡ []) (λ place. Belongs R.key leaves.now (record { first = first; second = second; text = text.now }) place) }
{
    if leaves.is_empty() {
        return None;
    }
    let count = count_in(leaves, first, second, text);
    Some(count.min(leaves.len() - 1))
}

/// How many leaves have a last row that stands before the share.
pub fn start_in<R: Keyed>(leaves: &[Leaf<R>], share: Share) -> usize
    requires rises { Rises R.key (flat_map leaf_rows leaves.now) }
    requires filled { AllByRecursion HasRows leaves.now }
    requires numbered { AllByRecursion (IsNumbered R.key) leaves.now }
    ensures start { result ≡ prefix_len (λ leaf. is_ahead share (last_key R.key (leaf_rows leaf))) leaves.now }
    ensures within { result ≤ length leaves.now }
{
    start_of(leaves, share)
}

/// From which place to which one leaves stand whose last rows are of the share.
pub fn places_in<R: Keyed>(leaves: &[Leaf<R>], share: Share) -> (usize, usize)
    requires rises { Rises R.key (flat_map leaf_rows leaves.now) }
    requires filled { AllByRecursion HasRows leaves.now }
    requires numbered { AllByRecursion (IsNumbered R.key) leaves.now }
    ensures start { result.0 ≡ prefix_len (λ leaf. is_ahead share (last_key R.key (leaf_rows leaf))) leaves.now }
    ensures end { result.1 ≡ prefix_len (λ leaf. is_up_to share (last_key R.key (leaf_rows leaf))) leaves.now }
    ensures order { result.0 ≤ result.1 }
    ensures within { result.1 ≤ length leaves.now }
{
    places_of(leaves, share)
}
