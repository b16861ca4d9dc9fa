//! Numbers with levels of sums, seen as one list.
ghost use Rattle.std.specs.Prelude.{◌≡◌, ◌+◌, ◌^◌, ◌<◌, ◌≤◌, [], OnOk, length, remove, set, slice_index, take};
ghost use Rattle.std.specs.List.{insert, sum};

use crate::level::Level;
use crate::levels;
use crate::memory::{raise_levels, reserve_level};
use std::alloc::{AllocError, Global};
use std::marker::Model;

/// Numbers one behind another. A contract sees them as a list, and for how many there is memory.
#[derive(Drop)]
pub struct Counts {
    first: Level,
    above: Vec<Level>,
    places: usize,
    alloc: Global,
}

impl Model for Counts {
    ghost use Rattle.prefix_sums.specs.Counted.{Counted, counted_code};

    ghost Value = { Counted };

    ghost coded = { counted_code };

    ghost use Rattle.prefix_sums.specs.Levels.{Holds};

    ghost view = { λ c. record { numbers = c.first.numbers.items; places = c.places } };

    ghost invariant = { λ c. Holds c.first c.above.items c.places };
}

impl Counts {
    /// No numbers, and memory for none.
    pub fn new(alloc: Global) -> Self
        ensures { result ≡ record { numbers = []; places = 0 } }
    {
        Counts {
            first: Level {
                numbers: Vec::new(alloc),
                ends: Vec::new(alloc),
            },
            above: Vec::new(alloc),
            places: 0,
            alloc,
        }
    }

    /// Memory for so many numbers.
    pub fn reserve(&mut self, places: usize) -> Result<(), AllocError>
        ensures numbers { self.new.numbers ≡ self.old.numbers }
        ensures places { OnOk result (places ≤ self.new.places) }
        ensures kept { self.old.places ≤ self.new.places }
    {
        if places <= self.places {
            return Ok(());
        }
        reserve_level(&mut self.first, places)?;
        raise_levels(&self.first, &mut self.above, self.alloc, places)?;
        self.places = places;
        Ok(())
    }

    /// Another number stands at the place.
    pub fn set(&mut self, place: usize, number: usize)
        requires within { place < length self.old.numbers }
        requires fits { sum (set self.old.numbers place number) < 2 ^ 64 }
        ensures numbers { self.new.numbers ≡ set self.old.numbers place number }
        ensures places { self.new.places ≡ self.old.places }
    {
        if self.first.numbers[place] != number {
            levels::replace(&mut self.first, self.above.as_mut_slice(), place, number);
        }
    }

    /// A number comes at the place, ahead of those from there on.
    pub fn insert(&mut self, place: usize, number: usize)
        requires within { place ≤ length self.old.numbers }
        requires room { length self.old.numbers < self.old.places }
        requires fits { sum self.old.numbers + number < 2 ^ 64 }
        ensures numbers { self.new.numbers ≡ insert self.old.numbers place number }
        ensures places { self.new.places ≡ self.old.places }
    {
        match self.first.numbers.insert(place, number) {
            Ok(()) => {}
            Err(_) => unreachable!(),
        }
        levels::renew(&mut self.first, self.above.as_mut_slice(), place);
    }

    /// The number at the place goes.
    pub fn remove(&mut self, place: usize)
        requires { place < length self.old.numbers }
        ensures numbers { self.new.numbers ≡ remove self.old.numbers place }
        ensures places { self.new.places ≡ self.old.places }
    {
        self.first.numbers.remove(place);
        levels::renew(&mut self.first, self.above.as_mut_slice(), place);
    }

    /// So many first numbers taken together.
    pub fn sum_before(&self, place: usize) -> usize
        requires { place ≤ length self.now.numbers }
        ensures { result ≡ sum (take place self.now.numbers) }
    {
        levels::sum_before(&self.first, self.above.as_slice(), place)
    }

    /// The place of the number at which so many are reached, and how many are left there.
    pub fn place_in(&self, rank: usize) -> (usize, usize)
        requires { rank < sum self.now.numbers }
        ensures before { sum (take result.0 self.now.numbers) + result.1 ≡ rank }
        ensures within { result.0 < length self.now.numbers }
        ensures inner { result.1 < slice_index self.now.numbers result.0 }
    {
        levels::place_in(&self.first, self.above.as_slice(), rank)
    }
}
