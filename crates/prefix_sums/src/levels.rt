//! Levels above numbers, each with the sums of the one below it.
ghost use Rattle.std.specs.Prelude.{◌≡◌, ℕ, ◌+◌, ◌^◌, ◌<◌, ◌≤◌, length, set, slice_index, take, vec_capacity, vec_len};
ghost use Rattle.std.specs.List.{AllByRecursion, sum};
ghost use Rattle.prefix_sums.specs.Levels.{HasPlaces, IsReached, Stand, Stood};

use crate::level::{BLOCK, Level, place_within, renew_ends, renew_sums, replace_number};

/// So many first numbers taken together.
pub fn sum_before(first: &Level, above: &[Level], place: usize) -> usize
    requires stand { Stand first.now above.now }
    requires reached { IsReached (length first.now.numbers.items) above.now }
    requires within { place ≤ length first.now.numbers.items }
    requires fits { sum first.now.numbers.items < 2 ^ 64 }
    ensures { result ≡ sum (take place first.now.numbers.items) }
{
    if place == 0 {
        return 0;
    }
    let inner = first.ends[place - 1];
    match above.split_first() {
        Some((next, rest)) => sum_before(next, rest, (place - 1) / BLOCK) + inner,
        None => inner,
    }
}

/// The place at which so many are reached, and how many are left there.
pub fn place_in(first: &Level, above: &[Level], rank: usize) -> (usize, usize)
    requires stand { Stand first.now above.now }
    requires reached { IsReached (length first.now.numbers.items) above.now }
    requires within { rank < sum first.now.numbers.items }
    ensures before { sum (take result.0 first.now.numbers.items) + result.1 ≡ rank }
    ensures within { result.0 < length first.now.numbers.items }
    ensures inner { result.1 < slice_index first.now.numbers.items result.0 }
{
    let mut left = above;
    let mut block = 0;
    let mut rest = rank;
    'levels: while let Some((level, below)) = left.split_last() {
        let (place, inner) = place_within(level, block, rest);
        block = place;
        rest = inner;
        left = below;
    }
    place_within(first, block, rest)
}

/// Another number stands at the place, and the levels above take it on.
pub fn replace(first: &mut Level, above: &mut [Level], place: usize, now: usize)
    requires stand { Stand first.old above.old }
    requires within { place < length first.old.numbers.items }
    requires fits { sum (set first.old.numbers.items place now) < 2 ^ 64 }
    ensures stand { Stand first.new above.new }
    ensures numbers { first.new.numbers.items ≡ set first.old.numbers.items place now }
    ensures len { vec_len first.new.numbers ≡ vec_len first.old.numbers }
    ensures count { length above.new ≡ length above.old }
    ensures memory { (places : ℕ) → HasPlaces places first.old → HasPlaces places first.new }
    ensures memory_above { (places : ℕ) → AllByRecursion (HasPlaces places) above.old → AllByRecursion (HasPlaces places) above.new }
{
    let before = replace_number(first, place, now);
    if let Some((next, rest)) = above.split_first_mut() {
        let block = place / BLOCK;
        let sum = next.numbers[block] - before + now;
        replace(next, rest, block, sum);
    }
}

/// The levels take on that the numbers from the place on have changed.
pub fn renew(first: &mut Level, above: &mut [Level], place: usize)
    requires stood { Stood first.old above.old place }
    requires fits { sum first.old.numbers.items < 2 ^ 64 }
    requires memory { length first.old.numbers.items ≤ vec_capacity first.old.ends }
    requires memory_above { AllByRecursion (HasPlaces (length first.old.numbers.items)) above.old }
    ensures stand { Stand first.new above.new }
    ensures numbers { first.new.numbers ≡ first.old.numbers }
    ensures count { length above.new ≡ length above.old }
    ensures memory { vec_capacity first.old.ends ≤ vec_capacity first.new.ends }
    ensures memory_above { (places : ℕ) → AllByRecursion (HasPlaces places) above.old → AllByRecursion (HasPlaces places) above.new }
{
    renew_ends(first.numbers.as_slice(), &mut first.ends, place);
    if let Some((next, rest)) = above.split_first_mut() {
        let block = place / BLOCK;
        renew_sums(first, &mut next.numbers, block);
        renew(next, rest, block);
    }
}
