//! A row changed in its place, with the key that it has.
ghost use Rattle.std.specs.Prelude.{◌≡◌, ◌<◌, ◌≤◌, if◌then◌else◌, Some, map, set, slice_get, slice_index_or, vec_capacity, vec_len};
ghost use Rattle.std.specs.Fn.{FnOnceReturnsAtMut};
ghost use Rattle.std.specs.List.{AllByRecursion, flat_map, list_any};
ghost use Rattle.rows_sorted.specs.Keys.{Rises, is_key};
ghost use Rattle.rows_leaves.specs.Invariant.{leaf_rows, row_count, Belongs, HasMemory, HasRows, IsNumbered};

use crate::leaf::Leaf;
use crate::search::leaf_of;
use rows_sorted::{Keyed, place_of};

fn change_item<R, F: FnOnce(&mut R)>(rows: &mut Vec<R>, place: usize, change: F)
    requires callable { F.IsAlwaysCallable change }
    requires within { place < vec_len rows.old }
    ensures items { (old : R) × (new : R) × (slice_get rows.old.items place ≡ Some old) × FnOnceReturnsAtMut F.FnOnce change old tt new × (rows.new.items ≡ set rows.old.items place new) }
    ensures len { vec_len rows.new ≡ vec_len rows.old }
    ensures capacity { vec_capacity rows.new ≡ vec_capacity rows.old }
{
    change(&mut rows[place]);
}

/// The row of this key is changed. The answer says whether there is one.
fn change_among<R: Keyed, F: FnOnce(&mut R)>(
    rows: &mut Vec<R>,
    first: u64,
    second: u64,
    text: &[u8],
    change: F,
) -> bool
    requires rises { Rises R.key rows.old.items }
    requires callable { F.IsAlwaysCallable change }
    requires key { (old new : R) → FnOnceReturnsAtMut F.FnOnce change old tt new → R.key new ≡ R.key old }
    ensures found { result ≡ list_any (λ row. is_key (R.key row) (record { first = first; second = second; text = text.now })) rows.old.items }
    ensures rows { (f : R → R) → ((old new : R) → FnOnceReturnsAtMut F.FnOnce change old tt new → new ≡ f old) → rows.new.items ≡ map (λ row. if is_key (R.key row) (record { first = first; second = second; text = text.now }) then f row else row) rows.old.items }
    ensures keys { map R.key rows.new.items ≡ map R.key rows.old.items }
    ensures len { vec_len rows.new ≡ vec_len rows.old }
    ensures capacity { vec_capacity rows.new ≡ vec_capacity rows.old }
{
    match place_of(rows, first, second, text) {
        Some(place) => {
            change_item(rows, place, change);
            true
        }
        None => false,
    }
}

/// The row of this key is changed in the leaf at the place. The answer says whether there is one.
fn change_at<R: Keyed, F: FnOnce(&mut R)>(
    leaves: &mut Vec<Leaf<R>>,
    place: usize,
    first: u64,
    second: u64,
    text: &[u8],
    change: F,
) -> bool
    requires rises { Rises R.key (flat_map leaf_rows leaves.old.items) }
    requires filled { AllByRecursion HasRows leaves.old.items }
    requires numbered { AllByRecursion (IsNumbered R.key) leaves.old.items }
    requires memory { AllByRecursion HasMemory leaves.old.items }
    requires belongs { Belongs R.key leaves.old.items (record { first = first; second = second; text = text.now }) place }
    requires callable { F.IsAlwaysCallable change }
    requires key { (old new : R) → FnOnceReturnsAtMut F.FnOnce change old tt new → R.key new ≡ R.key old }
    ensures found { result ≡ list_any (λ row. is_key (R.key row) (record { first = first; second = second; text = text.now })) (flat_map leaf_rows leaves.old.items) }
    ensures rows { (f : R → R) → ((old new : R) → FnOnceReturnsAtMut F.FnOnce change old tt new → new ≡ f old) → flat_map leaf_rows leaves.new.items ≡ map (λ row. if is_key (R.key row) (record { first = first; second = second; text = text.now }) then f row else row) (flat_map leaf_rows leaves.old.items) }
    ensures keys { map R.key (flat_map leaf_rows leaves.new.items) ≡ map R.key (flat_map leaf_rows leaves.old.items) }
    ensures filled { AllByRecursion HasRows leaves.new.items }
    ensures numbered { AllByRecursion (IsNumbered R.key) leaves.new.items }
    ensures memory { AllByRecursion HasMemory leaves.new.items }
    ensures len { vec_len leaves.new ≡ vec_len leaves.old }
    ensures capacity { vec_capacity leaves.new ≡ vec_capacity leaves.old }
    ensures lengths { map row_count leaves.new.items ≡ map row_count leaves.old.items }
{
    let leaf = &mut leaves[place];
    change_among(&mut leaf.rows, first, second, text, change)
}

/// The row of this key is changed. The answer says whether there is one.
pub fn change_in<R: Keyed, F: FnOnce(&mut R)>(
    leaves: &mut Vec<Leaf<R>>,
    first: u64,
    second: u64,
    text: &[u8],
    change: F,
) -> bool
    requires rises { Rises R.key (flat_map leaf_rows leaves.old.items) }
    requires filled { AllByRecursion HasRows leaves.old.items }
    requires numbered { AllByRecursion (IsNumbered R.key) leaves.old.items }
    requires memory { AllByRecursion HasMemory leaves.old.items }
    requires callable { F.IsAlwaysCallable change }
    requires key { (old new : R) → FnOnceReturnsAtMut F.FnOnce change old tt new → R.key new ≡ R.key old }
    ensures found { result ≡ list_any (λ row. is_key (R.key row) (record { first = first; second = second; text = text.now })) (flat_map leaf_rows leaves.old.items) }
    ensures rows { (f : R → R) → ((old new : R) → FnOnceReturnsAtMut F.FnOnce change old tt new → new ≡ f old) → flat_map leaf_rows leaves.new.items ≡ map (λ row. if is_key (R.key row) (record { first = first; second = second; text = text.now }) then f row else row) (flat_map leaf_rows leaves.old.items) }
    ensures keys { map R.key (flat_map leaf_rows leaves.new.items) ≡ map R.key (flat_map leaf_rows leaves.old.items) }
    ensures filled { AllByRecursion HasRows leaves.new.items }
    ensures numbered { AllByRecursion (IsNumbered R.key) leaves.new.items }
    ensures memory { AllByRecursion HasMemory leaves.new.items }
    ensures len { vec_len leaves.new ≡ vec_len leaves.old }
    ensures capacity { vec_capacity leaves.new ≡ vec_capacity leaves.old }
    ensures lengths { map row_count leaves.new.items ≡ map row_count leaves.old.items }
{
    match leaf_of(leaves.as_slice(), first, second, text) {
        Some(place) => change_at(leaves, place, first, second, text, change),
        None => false,
    }
}
