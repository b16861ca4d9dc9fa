//! Rows cut from the leaf in which they stand. A leaf that has no row left goes to the spare ones.
ghost use Rattle.std.specs.Prelude.{◌≡◌, ◌==◌, ◌+◌, ◌≤◌, ◌<◌, find, IsTrue, MatchOption, None, not, filter, length, nat_lt, slice_index_or, vec_capacity, vec_len};
ghost use Rattle.std.specs.List.{AllByRecursion, flat_map, list_any, prefix_len};
ghost use Rattle.rows_sorted.specs.Keys.{Rises, is_key};
ghost use Rattle.rows_sorted.specs.Runs.{without_first};
ghost use Rattle.rows_leaves.specs.Laying.{last_key};
ghost use Rattle.rows_leaves.specs.Invariant.{leaf_rows, Belongs, HasRows, IsNumbered, Stands, StandsBut};
ghost use Rattle.rows_leaves.specs.Shares.{is_in};

use crate::leaf::{Leaf, last_numbers};
use crate::search::{leaf_of, start_in};
use crate::share::{Share, cut_in, first_in};
use crate::splitting::push_item;
use prefix_sums::Counts;
use rows_sorted::{Keyed, cut_first_of, cut_row};

/// The leaf at the place goes to the spare ones if it has no row.
fn release<R: Keyed + Drop>(
    leaves: &mut Vec<Leaf<R>>,
    spares: &mut Vec<Leaf<R>>,
    counts: &mut Counts,
    place: usize,
)
    requires stands { StandsBut R.key leaves.old spares.old counts.old place }
    requires within { place < vec_len leaves.old }
    ensures rows { flat_map leaf_rows leaves.new.items ≡ flat_map leaf_rows leaves.old.items }
    ensures stands { Stands R.key leaves.new spares.new counts.new }
    ensures room { vec_len spares.old ≤ vec_len spares.new }
    ensures slots { vec_len leaves.new + vec_len spares.new ≡ vec_len leaves.old + vec_len spares.old }
{
    if leaves[place].rows.is_empty() {
        let spare = leaves.remove(place);
        counts.remove(place);
        push_item(spares, spare);
    }
}

/// The row of this key is gone. The answer is how many rows went.
fn cut_among<R: Keyed + Drop>(rows: &mut Vec<R>, first: u64, second: u64, text: &[u8]) -> usize
    requires { Rises R.key rows.old.items }
    ensures items { rows.new.items ≡ filter (λ row. not (is_key (R.key row) (record { first = first; second = second; text = text.now }))) rows.old.items }
    ensures count { vec_len rows.new + result ≡ vec_len rows.old }
    ensures memory { vec_capacity rows.old ≤ vec_capacity rows.new }
{
    let before = rows.len();
    cut_row(rows, first, second, text);
    before - rows.len()
}

/// The row of this key is cut from the leaf at the place. The answer is how many rows went.
fn cut_at<R: Keyed + Drop>(
    leaves: &mut Vec<Leaf<R>>,
    spares: &mut Vec<Leaf<R>>,
    counts: &mut Counts,
    place: usize,
    first: u64,
    second: u64,
    text: &[u8],
) -> usize
    requires stands { Stands R.key leaves.old spares.old counts.old }
    requires belongs { Belongs R.key leaves.old.items (record { first = first; second = second; text = text.now }) place }
    ensures rows { flat_map leaf_rows leaves.new.items ≡ filter (λ row. not (is_key (R.key row) (record { first = first; second = second; text = text.now }))) (flat_map leaf_rows leaves.old.items) }
    ensures count { length (flat_map leaf_rows leaves.new.items) + result ≡ length (flat_map leaf_rows leaves.old.items) }
    ensures stands { Stands R.key leaves.new spares.new counts.new }
    ensures room { vec_len spares.old ≤ vec_len spares.new }
    ensures slots { vec_len leaves.new + vec_len spares.new ≡ vec_len leaves.old + vec_len spares.old }
{
    let leaf = &mut leaves[place];
    let count = cut_among(&mut leaf.rows, first, second, text);
    leaf.last = last_numbers(leaf.rows.as_slice());
    counts.set(place, leaf.rows.len());
    release(leaves, spares, counts, place);
    count
}

/// The row of this key is gone. The answer is how many rows went.
pub fn cut_from<R: Keyed + Drop>(
    leaves: &mut Vec<Leaf<R>>,
    spares: &mut Vec<Leaf<R>>,
    counts: &mut Counts,
    first: u64,
    second: u64,
    text: &[u8],
) -> usize
    requires { Stands R.key leaves.old spares.old counts.old }
    ensures rows { flat_map leaf_rows leaves.new.items ≡ filter (λ row. not (is_key (R.key row) (record { first = first; second = second; text = text.now }))) (flat_map leaf_rows leaves.old.items) }
    ensures count { length (flat_map leaf_rows leaves.new.items) + result ≡ length (flat_map leaf_rows leaves.old.items) }
    ensures stands { Stands R.key leaves.new spares.new counts.new }
    ensures room { vec_len spares.old ≤ vec_len spares.new }
    ensures slots { vec_len leaves.new + vec_len spares.new ≡ vec_len leaves.old + vec_len spares.old }
{
    match leaf_of(leaves.as_slice(), first, second, text) {
        Some(place) => cut_at(leaves, spares, counts, place, first, second, text),
        None => 0,
    }
}

/// The first row of this first number goes from the leaf at the place, and is handed out.
fn cut_first_at<R: Keyed + Drop>(
    leaves: &mut Vec<Leaf<R>>,
    spares: &mut Vec<Leaf<R>>,
    counts: &mut Counts,
    place: usize,
    first: u64,
) -> Option<R>
    requires stands { Stands R.key leaves.old spares.old counts.old }
    requires within { place < vec_len leaves.old }
    requires head { place ≡ prefix_len (λ leaf. nat_lt (last_key R.key (leaf_rows leaf)).first first) leaves.old.items }
    ensures row { result ≡ find (λ row. (R.key row).first == first) (flat_map leaf_rows leaves.old.items) }
    ensures rows { flat_map leaf_rows leaves.new.items ≡ without_first (λ row. (R.key row).first == first) (flat_map leaf_rows leaves.old.items) }
    ensures stands { Stands R.key leaves.new spares.new counts.new }
    ensures room { vec_len spares.old ≤ vec_len spares.new }
    ensures slots { vec_len leaves.new + vec_len spares.new ≡ vec_len leaves.old + vec_len spares.old }
{
    let leaf = &mut leaves[place];
    let row = cut_first_of(&mut leaf.rows, first);
    leaf.last = last_numbers(leaf.rows.as_slice());
    counts.set(place, leaf.rows.len());
    release(leaves, spares, counts, place);
    row
}

/// The first row of this first number goes, and is handed out.
pub fn cut_first_from<R: Keyed + Drop>(
    leaves: &mut Vec<Leaf<R>>,
    spares: &mut Vec<Leaf<R>>,
    counts: &mut Counts,
    first: u64,
) -> Option<R>
    requires { Stands R.key leaves.old spares.old counts.old }
    ensures row { result ≡ find (λ row. (R.key row).first == first) (flat_map leaf_rows leaves.old.items) }
    ensures rows { flat_map leaf_rows leaves.new.items ≡ without_first (λ row. (R.key row).first == first) (flat_map leaf_rows leaves.old.items) }
    ensures stands { Stands R.key leaves.new spares.new counts.new }
    ensures room { vec_len spares.old ≤ vec_len spares.new }
    ensures slots { vec_len leaves.new + vec_len spares.new ≡ vec_len leaves.old + vec_len spares.old }
{
    let place = start_in(leaves.as_slice(), Share::First(first));
    if place < leaves.len() {
        cut_first_at(leaves, spares, counts, place, first)
    } else {
        None
    }
}

/// The place of the leaf that has the first row of the share.
fn leaf_with<R: Keyed>(leaves: &[Leaf<R>], share: Share) -> Option<usize>
    requires rises { Rises R.key (flat_map leaf_rows leaves.now) }
    requires filled { AllByRecursion HasRows leaves.now }
    requires numbered { AllByRecursion (IsNumbered R.key) leaves.now }
    ensures { MatchOption result (find (λ row. is_in share (R.key row)) (flat_map leaf_rows leaves.now) ≡ None) (λ place. (place < length leaves.now) × ((leaf : Leaf R) → leaf ≡ slice_index_or leaves.now place leaf → IsTrue (list_any (λ row. is_in share (R.key row)) (leaf_rows leaf)))) }
{
    let place = start_in(leaves, share);
    if place < leaves.len() {
        let leaf = &leaves[place];
        if first_in(leaf.rows.as_slice(), share).is_some() {
            return Some(place);
        }
    }
    None
}

/// The rows of the share go from the leaf at the place. The answer is how many went.
fn cut_share_at<R: Keyed + Drop>(
    leaves: &mut Vec<Leaf<R>>,
    spares: &mut Vec<Leaf<R>>,
    counts: &mut Counts,
    place: usize,
    share: Share,
) -> usize
    requires stands { Stands R.key leaves.old spares.old counts.old }
    requires within { place < vec_len leaves.old }
    requires some { (leaf : Leaf R) → leaf ≡ slice_index_or leaves.old.items place leaf → IsTrue (list_any (λ row. is_in share (R.key row)) (leaf_rows leaf)) }
    ensures others { filter (λ row. not (is_in share (R.key row))) (flat_map leaf_rows leaves.new.items) ≡ filter (λ row. not (is_in share (R.key row))) (flat_map leaf_rows leaves.old.items) }
    ensures count { length (flat_map leaf_rows leaves.new.items) + result ≡ length (flat_map leaf_rows leaves.old.items) }
    ensures fewer { 0 < result }
    ensures stands { Stands R.key leaves.new spares.new counts.new }
    ensures room { vec_len spares.old ≤ vec_len spares.new }
    ensures slots { vec_len leaves.new + vec_len spares.new ≡ vec_len leaves.old + vec_len spares.old }
{
    let leaf = &mut leaves[place];
    let count = cut_in(&mut leaf.rows, share);
    leaf.last = last_numbers(leaf.rows.as_slice());
    counts.set(place, leaf.rows.len());
    release(leaves, spares, counts, place);
    count
}

/// The rows of the share are gone. The count of all rows is taken on, and handed out as it is then.
pub fn cut_share<R: Keyed + Drop>(
    leaves: &mut Vec<Leaf<R>>,
    spares: &mut Vec<Leaf<R>>,
    counts: &mut Counts,
    share: Share,
    count: usize,
) -> usize
    requires stands { Stands R.key leaves.old spares.old counts.old }
    requires count { count ≡ length (flat_map leaf_rows leaves.old.items) }
    ensures rows { flat_map leaf_rows leaves.new.items ≡ filter (λ row. not (is_in share (R.key row))) (flat_map leaf_rows leaves.old.items) }
    ensures count { result ≡ length (flat_map leaf_rows leaves.new.items) }
    ensures fewer { result ≤ count }
    ensures stands { Stands R.key leaves.new spares.new counts.new }
    ensures room { vec_len spares.old ≤ vec_len spares.new }
    ensures slots { vec_len leaves.new + vec_len spares.new ≡ vec_len leaves.old + vec_len spares.old }
{
    let mut left = count;
    'cuts: while let Some(place) = leaf_with(leaves.as_slice(), share) {
        left -= cut_share_at(leaves, spares, counts, place, share);
    }
    left
}
