//! Rows that stand side by side, lent one by one.
ghost use Rattle.std.specs.Prelude.{◌≡◌, ◌+◌, ◌-◌, ◌^◌, ◌≤◌, ◌++◌, filter, length, min, option_copied, slice_get, slice_range, take, drop};
ghost use Rattle.std.specs.List.{AllByRecursion, flat_map};
ghost use Rattle.std.specs.Iterator.{YieldsFirstRef, item_count};
ghost use Rattle.rows_sorted.specs.Keys.{Rises};
ghost use Rattle.rows_leaves.specs.Invariant.{leaf_rows, HasRows, IsNumbered};
ghost use Rattle.rows_leaves.specs.Shares.{is_in};

use crate::leaf::Leaf;
use crate::search::places_in;
use crate::share::{Share, rows_in};
use rows_sorted::Keyed;
use std::marker::Model;

/// Rows that stand side by side, lent one by one. A contract sees those that are left.
#[derive(Drop)]
pub struct Run<'a, R> {
    front: &'a [R],
    middle: &'a [Leaf<R>],
    back: &'a [R],
}

impl<'a, R> Model for Run<'a, R> {
    ghost use Rattle.std.specs.Prelude.{List, ◌++◌};
    ghost use Rattle.std.specs.Coded.{coded_list};

    ghost Value = { List R };

    ghost coded = { coded_list R.code };

    ghost use Rattle.std.specs.List.{AllByRecursion, flat_map};
    ghost use Rattle.rows_leaves.specs.Invariant.{leaf_rows, HasRows};

    ghost view = { λ run. run.front.now ++ (flat_map leaf_rows run.middle.now ++ run.back.now) };

    ghost invariant = { λ run. AllByRecursion HasRows run.middle.now };
}

impl<'a, R> Iterator for Run<'a, R> {
    type Item = &'a R;

    ghost next_gives = { YieldsFirstRef (λ run. run) };

    ghost remaining = { item_count (λ run. run) };

    fn next(&mut self) -> Option<&'a R> {
        if let Some((row, rest)) = self.front.split_first() {
            self.front = rest;
            return Some(row);
        }
        if let Some((leaf, leaves)) = self.middle.split_first()
            && let Some((row, rest)) = leaf.rows.as_slice().split_first()
        {
            self.middle = leaves;
            self.front = rest;
            return Some(row);
        }
        let (row, rest) = self.back.split_first()?;
        self.back = rest;
        Some(row)
    }
}

impl<'a, R> Run<'a, R> {
    /// The row at the place among those that are left. It goes from leaf to leaf.
    pub fn get(&self, place: usize) -> Option<&'a R>
        ensures { option_copied result ≡ slice_get self.now place }
    {
        match self.front.get(place) {
            Some(row) => Some(row),
            None => row_behind(self.middle, self.back, place - self.front.len()),
        }
    }

    /// How many rows are left. It goes from leaf to leaf, and counts no further than `usize::MAX`.
    pub fn len(&self) -> usize
        ensures { result ≡ min (length self.now) (2 ^ 64 - 1) }
    {
        rows_and_more(
            self.middle,
            self.front.len().saturating_add(self.back.len()),
        )
    }
}

/// How many rows the leaves have, with so many more.
fn rows_and_more<R>(leaves: &[Leaf<R>], more: usize) -> usize
    ensures { result ≡ min (length (flat_map leaf_rows leaves.now) + more) (2 ^ 64 - 1) }
{
    let mut left = leaves;
    let mut count = more;
    'leaves: while let Some((leaf, others)) = left.split_first() {
        count = count.saturating_add(leaf.rows.len());
        left = others;
    }
    count
}

/// The row at the place among those of the leaves and others behind them.
fn row_behind<'a, R>(leaves: &'a [Leaf<R>], back: &'a [R], place: usize) -> Option<&'a R>
    ensures { option_copied result ≡ slice_get (flat_map leaf_rows leaves.now ++ back.now) place }
{
    let mut left = leaves;
    let mut rest = place;
    'leaves: while let Some((leaf, others)) = left.split_first() {
        match leaf.rows.get(rest) {
            Some(row) => return Some(row),
            None => {
                rest -= leaf.rows.len();
                left = others;
            }
        }
    }
    if rest < back.len() {
        Some(&back[rest])
    } else {
        None
    }
}

fn part<R>(leaves: &[Leaf<R>], start: usize, end: usize) -> &[Leaf<R>]
    requires order { start ≤ end }
    requires within { end ≤ length leaves.now }
    ensures { result.now ≡ slice_range leaves.now start end }
{
    &leaves[start..end]
}

/// The rows of the share in the leaf at the place. None stands where there is no leaf.
fn rows_at<R: Keyed>(leaves: &[Leaf<R>], place: usize, share: Share) -> &[R]
    requires { AllByRecursion (λ leaf. Rises R.key (leaf_rows leaf)) leaves.now }
    ensures { result.now ≡ filter (λ row. is_in share (R.key row)) (flat_map leaf_rows (take 1 (drop place leaves.now))) }
{
    match leaves.get(place) {
        Some(leaf) => rows_in(leaf.rows.as_slice(), share),
        None => &[],
    }
}

/// The rows of the share. All rows of the leaves between its first and its last one are of it.
pub fn run_of<R: Keyed>(leaves: &[Leaf<R>], share: Share) -> Run<'_, R>
    requires rises { Rises R.key (flat_map leaf_rows leaves.now) }
    requires filled { AllByRecursion HasRows leaves.now }
    requires numbered { AllByRecursion (IsNumbered R.key) leaves.now }
    ensures { result ≡ filter (λ row. is_in share (R.key row)) (flat_map leaf_rows leaves.now) }
{
    let (start, end) = places_in(leaves, share);
    let front = rows_at(leaves, start, share);
    if start < end {
        Run {
            front,
            middle: part(leaves, start + 1, end),
            back: rows_at(leaves, end, share),
        }
    } else {
        Run {
            front,
            middle: &[],
            back: &[],
        }
    }
}

/// All rows.
pub fn run_of_all<R>(leaves: &[Leaf<R>]) -> Run<'_, R>
    requires { AllByRecursion HasRows leaves.now }
    ensures { result ≡ flat_map leaf_rows leaves.now }
{
    Run {
        front: &[],
        middle: leaves,
        back: &[],
    }
}
