//! Memory for numbers and for the levels above them, taken ahead.
ghost use Rattle.std.specs.Prelude.{◌≡◌, ℕ, ◌+◌, ◌^◌, ◌<◌, ◌≤◌, List, OnOk, length, vec_capacity, vec_len};
ghost use Rattle.std.specs.List.{AllByRecursion, sum};
ghost use Rattle.prefix_sums.specs.Levels.{AreAbove, AreEnds, HasPlaces, IsReached, Stand, top_of};

use crate::level::{BLOCK, Level, renew_ends, renew_sums};
use std::alloc::{AllocError, Global};

/// Memory for so many numbers.
fn reserve_numbers(numbers: &mut Vec<usize>, places: usize) -> Result<(), AllocError>
    ensures items { numbers.new.items ≡ numbers.old.items }
    ensures len { vec_len numbers.new ≡ vec_len numbers.old }
    ensures memory { OnOk result (places ≤ vec_capacity numbers.new) }
    ensures kept { vec_capacity numbers.old ≤ vec_capacity numbers.new }
{
    numbers.reserve(places.saturating_sub(numbers.len()))
}

/// Memory for so many numbers of a level and for their ends.
pub fn reserve_level(level: &mut Level, places: usize) -> Result<(), AllocError>
    ensures numbers { level.new.numbers.items ≡ level.old.numbers.items }
    ensures ends { level.new.ends.items ≡ level.old.ends.items }
    ensures len { vec_len level.new.numbers ≡ vec_len level.old.numbers }
    ensures memory { OnOk result (HasPlaces places level.new) }
    ensures kept { (fewer : ℕ) → HasPlaces fewer level.old → HasPlaces fewer level.new }
{
    reserve_numbers(&mut level.numbers, places)?;
    reserve_numbers(&mut level.ends, places)
}

/// Memory for so many numbers in each level.
fn reserve_levels(levels: &mut [Level], places: usize) -> Result<(), AllocError>
    ensures above { (numbers : List ℕ) → AreAbove numbers levels.old → AreAbove numbers levels.new }
    ensures memory { OnOk result (AllByRecursion (HasPlaces places) levels.new) }
    ensures kept { (fewer : ℕ) → AllByRecursion (HasPlaces fewer) levels.old → AllByRecursion (HasPlaces fewer) levels.new }
    ensures count { length levels.new ≡ length levels.old }
{
    if let Some((level, above)) = levels.split_first_mut() {
        reserve_level(level, places)?;
        reserve_levels(above, places)?;
    }
    Ok(())
}

/// The level at the top.
fn top<'a>(first: &'a Level, above: &'a [Level]) -> &'a Level
    requires { Stand first.now above.now }
    ensures numbers { result.now.numbers.items ≡ top_of first.now.numbers.items above.now }
    ensures ends { AreEnds result.now.numbers.items result.now.ends.items }
{
    match above.split_first() {
        Some((next, rest)) => top(next, rest),
        None => first,
    }
}

/// One more level at the top.
fn add_level(
    first: &Level,
    above: &mut Vec<Level>,
    alloc: Global,
    places: usize,
) -> Result<(), AllocError>
    requires stand { Stand first.now above.old.items }
    requires fits { sum first.now.numbers.items < 2 ^ 64 }
    requires within { length first.now.numbers.items ≤ places }
    ensures above { AreAbove first.now.numbers.items above.new.items }
    ensures memory { (fewer : ℕ) → fewer ≤ places → AllByRecursion (HasPlaces fewer) above.old.items → AllByRecursion (HasPlaces fewer) above.new.items }
    ensures more { OnOk result (vec_len above.new ≡ vec_len above.old + 1) }
    ensures no_fewer { vec_len above.old ≤ vec_len above.new }
{
    let mut numbers = Vec::with_capacity(alloc, places)?;
    let mut ends = Vec::with_capacity(alloc, places)?;
    renew_sums(top(first, above.as_slice()), &mut numbers, 0);
    renew_ends(numbers.as_slice(), &mut ends, 0);
    above.push(Level { numbers, ends })?;
    Ok(())
}

/// How many levels so many numbers want above them, the last one of which has a block at most.
fn levels_for(places: usize) -> usize
    ensures { places ≤ BLOCK ^ (result + 1) }
{
    let mut reach = BLOCK;
    let mut count = 0;
    'levels: while reach < places {
        reach = reach.saturating_mul(BLOCK);
        count += 1;
    }
    count
}

/// Levels and memory for so many numbers.
pub fn raise_levels(
    first: &Level,
    above: &mut Vec<Level>,
    alloc: Global,
    places: usize,
) -> Result<(), AllocError>
    requires stand { Stand first.now above.old.items }
    requires fits { sum first.now.numbers.items < 2 ^ 64 }
    requires within { length first.now.numbers.items ≤ places }
    ensures above { AreAbove first.now.numbers.items above.new.items }
    ensures memory { OnOk result (AllByRecursion (HasPlaces places) above.new.items) }
    ensures reached { OnOk result (IsReached places above.new.items) }
    ensures kept { (fewer : ℕ) → fewer ≤ places → AllByRecursion (HasPlaces fewer) above.old.items → AllByRecursion (HasPlaces fewer) above.new.items }
    ensures no_fewer { vec_len above.old ≤ vec_len above.new }
{
    reserve_levels(above.as_mut_slice(), places)?;
    let count = levels_for(places);
    'raises: while above.len() < count {
        add_level(first, above, alloc, places)?;
    }
    Ok(())
}
