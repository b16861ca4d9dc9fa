//! Rows that stand side by side: those of one first number, and those of one pair of numbers.
ghost use Rattle.std.specs.Prelude.{◌≡◌, ◌==◌, ◌≤◌, ◌<◌, ◌-◌, IfSome, length, slice_range, filter, find, vec_capacity, vec_len, option_copied};
ghost use Rattle.std.specs.List.{position_from, list_any};
ghost use Rattle.rows_sorted.specs.Keys.{is_pair, Rises};
ghost use Rattle.rows_sorted.specs.Runs.{without_first};

use crate::{Keyed, places};

fn part<R>(rows: &[R], start: usize, end: usize) -> &[R]
    requires order { start ≤ end }
    requires within { end ≤ length rows.now }
    ensures { result.now ≡ slice_range rows.now start end }
{
    &rows[start..end]
}

fn has_first<R: Keyed>(row: &R, first: u64) -> bool
    ensures { result ≡ ((R.key row.now).first == first) }
{
    row.first() == first
}

fn has_pair<R: Keyed>(row: &R, first: u64, second: u64) -> bool
    ensures { result ≡ is_pair first second (R.key row.now) }
{
    row.first() == first && row.second() == second
}

/// The rows of this first number.
pub fn rows_of<R: Keyed>(rows: &[R], first: u64) -> &[R]
    requires { Rises R.key rows.now }
    ensures { result.now ≡ filter (λ row. (R.key row).first == first) rows.now }
{
    let run = places::run_of(rows, first);
    part(rows, run.0, run.1)
}

/// The rows of this pair of numbers.
pub fn rows_of_pair<R: Keyed>(rows: &[R], first: u64, second: u64) -> &[R]
    requires { Rises R.key rows.now }
    ensures { result.now ≡ filter (λ row. is_pair first second (R.key row)) rows.now }
{
    let run = places::run_of_pair(rows, first, second);
    part(rows, run.0, run.1)
}

/// Where the first row of this first number stands.
pub fn place_of_first<R: Keyed>(rows: &[R], first: u64) -> Option<usize>
    requires { Rises R.key rows.now }
    ensures place { result ≡ position_from (λ row. (R.key row).first == first) 0 rows.now }
    ensures within { IfSome result (λ place. place < length rows.now) }
{
    let place = places::count_lower(rows, first);
    match rows.get(place) {
        Some(row) => {
            if has_first(row, first) {
                Some(place)
            } else {
                None
            }
        }
        None => None,
    }
}

/// The first row of this first number.
pub fn first_row_of<R: Keyed>(rows: &[R], first: u64) -> Option<&R>
    requires { Rises R.key rows.now }
    ensures { option_copied result ≡ find (λ row. (R.key row).first == first) rows.now }
{
    match place_of_first(rows, first) {
        Some(place) => Some(&rows[place]),
        None => None,
    }
}

/// Whether there is a row of this first number.
pub fn has_row_of<R: Keyed>(rows: &[R], first: u64) -> bool
    requires { Rises R.key rows.now }
    ensures { result ≡ list_any (λ row. (R.key row).first == first) rows.now }
{
    place_of_first(rows, first).is_some()
}

/// Where the first row of this pair of numbers stands.
pub fn place_of_pair<R: Keyed>(rows: &[R], first: u64, second: u64) -> Option<usize>
    requires { Rises R.key rows.now }
    ensures place { result ≡ position_from (λ row. is_pair first second (R.key row)) 0 rows.now }
    ensures within { IfSome result (λ place. place < length rows.now) }
{
    let place = places::count_lower_pair(rows, first, second);
    match rows.get(place) {
        Some(row) => {
            if has_pair(row, first, second) {
                Some(place)
            } else {
                None
            }
        }
        None => None,
    }
}

/// Whether there is a row of this pair of numbers.
pub fn has_row_of_pair<R: Keyed>(rows: &[R], first: u64, second: u64) -> bool
    requires { Rises R.key rows.now }
    ensures { result ≡ list_any (λ row. is_pair first second (R.key row)) rows.now }
{
    place_of_pair(rows, first, second).is_some()
}

/// The first row of this first number goes, and is handed out.
pub fn cut_first_of<R: Keyed + Drop>(rows: &mut Vec<R>, first: u64) -> Option<R>
    requires { Rises R.key rows.old.items }
    ensures row { result ≡ find (λ row. (R.key row).first == first) rows.old.items }
    ensures items { rows.new.items ≡ without_first (λ row. (R.key row).first == first) rows.old.items }
    ensures rises { Rises R.key rows.new.items }
    ensures room { vec_capacity rows.old - vec_len rows.old ≤ vec_capacity rows.new - vec_len rows.new }
    ensures memory { vec_capacity rows.old ≤ vec_capacity rows.new }
{
    match place_of_first(rows, first) {
        Some(place) => Some(rows.remove(place)),
        None => None,
    }
}
