//! Leaves of rows, seen as one list.
ghost use Rattle.std.specs.Prelude.{◌≡◌, ◌==◌, ◌+◌, ◌<◌, ◌≤◌, ◌||◌, if◌then◌else◌, [], IsTrue, OnOk, Some, filter, find, length, map, nat_eq, nat_le, nat_lt, not, option_copied, slice_get};
ghost use Rattle.std.specs.List.{list_any, position_from};
ghost use Rattle.std.specs.Fn.{FnOnceReturnsAtMut};
ghost use Rattle.rows_sorted.specs.Orders.{put};
ghost use Rattle.rows_sorted.specs.Keys.{Rises, is_key, is_pair, key_before};
ghost use Rattle.rows_sorted.specs.Runs.{without_first};
ghost use Rattle.rows_leaves.specs.Shares.{is_in};

use crate::behind::row_behind;
use crate::changing::change_in;
use crate::cutting::{cut_first_from, cut_from, cut_share};
use crate::joining::keep_spare;
use crate::leaf::{HALF_LEAF, Leaf};
use crate::putting::put_in;
use crate::reading;
use crate::runs::{self, Run};
use crate::share::Share;
use crate::spares::add_spares;
use prefix_sums::Counts;
use rows_sorted::Keyed;
use std::alloc::{AllocError, Global};
use std::marker::Model;

/// Rows that rise by their keys. A contract sees them as one list, and how many more are taken without memory.
#[derive(Drop)]
pub struct Leaves<R: Keyed> {
    leaves: Vec<Leaf<R>>,
    spares: Vec<Leaf<R>>,
    counts: Counts,
    count: usize,
    room: usize,
    alloc: Global,
}

impl<R: Keyed> Model for Leaves<R> {
    ghost use Rattle.rows_leaves.specs.Laying.{Laid, laid_code};

    ghost Value = { Laid R };

    ghost coded = { laid_code R.code };

    ghost use Rattle.std.specs.List.{flat_map};
    ghost use Rattle.rows_leaves.specs.Invariant.{leaf_rows, Holds};

    ghost view = { λ l. record { rows = flat_map leaf_rows l.leaves.items; room = l.room } };

    ghost invariant = { λ l. Holds R.key l.leaves l.spares l.counts l.count l.room };
}

impl<R: Keyed + Drop> Leaves<R> {
    /// No rows, and no room.
    pub fn new(alloc: Global) -> Self
        ensures { result ≡ record { rows = []; room = 0 } }
    {
        Leaves {
            leaves: Vec::new(alloc),
            spares: Vec::new(alloc),
            counts: Counts::new(alloc),
            count: 0,
            room: 0,
            alloc,
        }
    }

    /// That the rows rise, for a proof. It does nothing.
    pub fn rises(&self)
        ensures { Rises R.key self.now.rows }
    {
        let _count = self.count;
    }

    /// How many more rows are taken without memory.
    pub fn room(&self) -> usize
        ensures room { result ≡ self.now.room }
        ensures rises { Rises R.key self.now.rows }
    {
        self.room
    }

    /// How many rows there are.
    pub fn len(&self) -> usize
        ensures { result ≡ length self.now.rows }
    {
        self.count
    }

    /// Whether there is no row.
    pub fn is_empty(&self) -> bool
        ensures { result ≡ nat_eq (length self.now.rows) 0 }
    {
        self.count == 0
    }

    /// Room for so many more rows.
    pub fn reserve(&mut self, count: usize) -> Result<(), AllocError>
        ensures rows { self.new.rows ≡ self.old.rows }
        ensures room { OnOk result (count ≤ self.new.room) }
        ensures kept { self.old.room ≤ self.new.room }
    {
        if count <= self.room {
            return Ok(());
        }
        if usize::MAX - self.count < count {
            return Err(AllocError);
        }
        let leaves = (self.count + count) / HALF_LEAF + 2;
        add_spares(
            &mut self.leaves,
            &mut self.spares,
            &mut self.counts,
            self.alloc,
            leaves,
        )?;
        self.room = count;
        Ok(())
    }

    /// The row of this key.
    pub fn row_of(&self, first: u64, second: u64, text: &[u8]) -> Option<&R>
        ensures { option_copied result ≡ find (λ row. is_key (R.key row) (record { first = first; second = second; text = text.now })) self.now.rows }
    {
        reading::row_of(self.leaves.as_slice(), first, second, text)
    }

    /// The place of the row of this key among all rows.
    pub fn place_of(&self, first: u64, second: u64, text: &[u8]) -> Option<usize>
        ensures { result ≡ position_from (λ row. is_key (R.key row) (record { first = first; second = second; text = text.now })) 0 self.now.rows }
    {
        reading::place_of(self.leaves.as_slice(), &self.counts, first, second, text)
    }

    /// Whether there is a row of this key.
    pub fn has_row(&self, first: u64, second: u64, text: &[u8]) -> bool
        ensures { result ≡ list_any (λ row. is_key (R.key row) (record { first = first; second = second; text = text.now })) self.now.rows }
    {
        reading::has_row(self.leaves.as_slice(), first, second, text)
    }

    /// The first row of this first number.
    pub fn first_row_of(&self, first: u64) -> Option<&R>
        ensures { option_copied result ≡ find (λ row. (R.key row).first == first) self.now.rows }
    {
        reading::first_row_of(self.leaves.as_slice(), Share::First(first))
    }

    /// Whether there is a row of this first number.
    pub fn has_row_of(&self, first: u64) -> bool
        ensures { result ≡ list_any (λ row. (R.key row).first == first) self.now.rows }
    {
        reading::has_row_of(self.leaves.as_slice(), Share::First(first))
    }

    /// Whether there is a row of this pair of numbers.
    pub fn has_row_of_pair(&self, first: u64, second: u64) -> bool
        ensures { result ≡ list_any (λ row. is_pair first second (R.key row)) self.now.rows }
    {
        reading::has_row_of(self.leaves.as_slice(), Share::Pair(first, second))
    }

    /// The first row whose key is behind this one.
    pub fn row_behind(&self, first: u64, second: u64, text: &[u8]) -> Option<&R>
        ensures { option_copied result ≡ find (λ row. key_before (record { first = first; second = second; text = text.now }) (R.key row)) self.now.rows }
    {
        row_behind(self.leaves.as_slice(), first, second, text)
    }

    /// The row at the place among all rows. `iter` is the way over all rows.
    pub fn at(&self, place: usize) -> &R
        requires { place < length self.now.rows }
        ensures { slice_get self.now.rows place ≡ Some result.now }
    {
        reading::row_at(self.leaves.as_slice(), &self.counts, place)
    }

    /// All rows.
    pub fn iter(&self) -> Run<'_, R>
        ensures { result ≡ self.now.rows }
    {
        runs::run_of_all(self.leaves.as_slice())
    }

    /// The rows of this first number.
    pub fn rows_of(&self, first: u64) -> Run<'_, R>
        ensures { result ≡ filter (λ row. (R.key row).first == first) self.now.rows }
    {
        runs::run_of(self.leaves.as_slice(), Share::First(first))
    }

    /// The rows of this pair of numbers.
    pub fn rows_of_pair(&self, first: u64, second: u64) -> Run<'_, R>
        ensures { result ≡ filter (λ row. is_pair first second (R.key row)) self.now.rows }
    {
        runs::run_of(self.leaves.as_slice(), Share::Pair(first, second))
    }

    /// The rows whose first number is at most this one.
    pub fn rows_up_to(&self, first: u64) -> Run<'_, R>
        ensures { result ≡ filter (λ row. nat_le (R.key row).first first) self.now.rows }
    {
        runs::run_of(self.leaves.as_slice(), Share::UpTo(first))
    }

    /// The row stands in its place. Another one of its key gives way.
    pub fn put_row(&mut self, row: R)
        requires { IsTrue (list_any (λ other. is_key (R.key other) (R.key row)) self.old.rows || nat_lt 0 self.old.room) }
        ensures rows { self.new.rows ≡ put (λ x y. key_before (R.key x) (R.key y)) row self.old.rows }
        ensures rises { Rises R.key self.new.rows }
        ensures room { self.old.room ≤ self.new.room + 1 }
        ensures replaced { IsTrue (list_any (λ other. is_key (R.key other) (R.key row)) self.old.rows) → self.old.room ≤ self.new.room }
        ensures whole { self.new.room + length self.new.rows ≡ self.old.room + length self.old.rows }
    {
        keep_spare(
            &mut self.leaves,
            &mut self.spares,
            &mut self.counts,
            self.room,
        );
        if put_in(&mut self.leaves, &mut self.spares, &mut self.counts, row) {
            self.count += 1;
            self.room -= 1;
        }
    }

    /// The row of this key is changed in its place, where its key stays. The answer says whether there is one.
    pub fn change_row<F: FnOnce(&mut R)>(
        &mut self,
        first: u64,
        second: u64,
        text: &[u8],
        change: F,
    ) -> bool
        requires callable { F.IsAlwaysCallable change }
        requires key { (old new : R) → FnOnceReturnsAtMut F.FnOnce change old tt new → R.key new ≡ R.key old }
        ensures found { result ≡ list_any (λ row. is_key (R.key row) (record { first = first; second = second; text = text.now })) self.old.rows }
        ensures rows { (f : R → R) → ((old new : R) → FnOnceReturnsAtMut F.FnOnce change old tt new → new ≡ f old) → self.new.rows ≡ map (λ row. if is_key (R.key row) (record { first = first; second = second; text = text.now }) then f row else row) self.old.rows }
        ensures rises { Rises R.key self.new.rows }
        ensures room { self.new.room ≡ self.old.room }
        ensures whole { self.new.room + length self.new.rows ≡ self.old.room + length self.old.rows }
    {
        change_in(&mut self.leaves, first, second, text, change)
    }

    /// The row of this key is gone.
    pub fn cut_row(&mut self, first: u64, second: u64, text: &[u8])
        ensures rows { self.new.rows ≡ filter (λ row. not (is_key (R.key row) (record { first = first; second = second; text = text.now }))) self.old.rows }
        ensures rises { Rises R.key self.new.rows }
        ensures room { self.old.room ≤ self.new.room }
        ensures gives { IsTrue (list_any (λ row. is_key (R.key row) (record { first = first; second = second; text = text.now })) self.old.rows) → self.old.room + 1 ≤ self.new.room }
        ensures whole { self.new.room + length self.new.rows ≡ self.old.room + length self.old.rows }
    {
        let count = cut_from(
            &mut self.leaves,
            &mut self.spares,
            &mut self.counts,
            first,
            second,
            text,
        );
        self.count -= count;
        self.room += count;
    }

    /// The first row of this first number goes, and is handed out.
    pub fn cut_first_of(&mut self, first: u64) -> Option<R>
        ensures row { result ≡ find (λ row. (R.key row).first == first) self.old.rows }
        ensures rows { self.new.rows ≡ without_first (λ row. (R.key row).first == first) self.old.rows }
        ensures rises { Rises R.key self.new.rows }
        ensures room { self.old.room ≤ self.new.room }
        ensures gives { IsTrue (list_any (λ row. (R.key row).first == first) self.old.rows) → self.old.room + 1 ≤ self.new.room }
        ensures whole { self.new.room + length self.new.rows ≡ self.old.room + length self.old.rows }
    {
        let row = cut_first_from(&mut self.leaves, &mut self.spares, &mut self.counts, first)?;
        self.count -= 1;
        self.room += 1;
        Some(row)
    }

    /// The rows of the share are gone.
    fn cut_rows_in(&mut self, share: Share)
        ensures rows { self.new.rows ≡ filter (λ row. not (is_in share (R.key row))) self.old.rows }
        ensures rises { Rises R.key self.new.rows }
        ensures room { self.old.room ≤ self.new.room }
        ensures whole { self.new.room + length self.new.rows ≡ self.old.room + length self.old.rows }
    {
        let before = self.count;
        self.count = cut_share(
            &mut self.leaves,
            &mut self.spares,
            &mut self.counts,
            share,
            before,
        );
        self.room += before - self.count;
    }

    /// The rows of this first number are gone.
    pub fn cut_rows_of(&mut self, first: u64)
        ensures rows { self.new.rows ≡ filter (λ row. not ((R.key row).first == first)) self.old.rows }
        ensures rises { Rises R.key self.new.rows }
        ensures room { self.old.room ≤ self.new.room }
        ensures whole { self.new.room + length self.new.rows ≡ self.old.room + length self.old.rows }
    {
        self.cut_rows_in(Share::First(first));
    }

    /// The rows of this pair of numbers are gone.
    pub fn cut_rows_of_pair(&mut self, first: u64, second: u64)
        ensures rows { self.new.rows ≡ filter (λ row. not (is_pair first second (R.key row))) self.old.rows }
        ensures rises { Rises R.key self.new.rows }
        ensures room { self.old.room ≤ self.new.room }
        ensures whole { self.new.room + length self.new.rows ≡ self.old.room + length self.old.rows }
    {
        self.cut_rows_in(Share::Pair(first, second));
    }
}
