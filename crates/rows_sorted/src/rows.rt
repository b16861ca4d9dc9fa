//! Rows found, put in their place, and taken out.
ghost use Rattle.std.specs.Prelude.{◌≡◌, ◌==◌, ◌≤◌, ◌<◌, ◌-◌, ◌+◌, ◌||◌, ◌++◌, take, drop, IsTrue, IfSome, not, set, length, nat_lt, filter, find, vec_capacity, vec_len, option_copied};
ghost use Rattle.std.specs.List.{insert, prefix_len, position_from, list_any};
ghost use Rattle.rows_sorted.specs.Orders.{put};
ghost use Rattle.rows_sorted.specs.Keys.{key_before, is_key, is_pair, Rises};

use crate::{Keyed, places};

fn has_key<R: Keyed>(row: &R, first: u64, second: u64, text: &[u8]) -> bool
    ensures { result ≡ is_key (R.key row.now) (record { first = first; second = second; text = text.now }) }
{
    row.first() == first && (row.second() == second && row.text() == text)
}

/// Where the row of this key stands.
pub fn place_of<R: Keyed>(rows: &[R], first: u64, second: u64, text: &[u8]) -> Option<usize>
    requires { Rises R.key rows.now }
    ensures place { result ≡ position_from (λ row. is_key (R.key row) (record { first = first; second = second; text = text.now })) 0 rows.now }
    ensures within { IfSome result (λ place. place < length rows.now) }
{
    let place = places::count_before(rows, first, second, text);
    match rows.get(place) {
        Some(row) => {
            if has_key(row, first, second, text) {
                Some(place)
            } else {
                None
            }
        }
        None => None,
    }
}

/// The row of this key.
pub fn row_of<'a, R: Keyed>(rows: &'a [R], first: u64, second: u64, text: &[u8]) -> Option<&'a R>
    requires { Rises R.key rows.now }
    ensures { option_copied result ≡ find (λ row. is_key (R.key row) (record { first = first; second = second; text = text.now })) rows.now }
{
    match place_of(rows, first, second, text) {
        Some(place) => Some(&rows[place]),
        None => None,
    }
}

/// Whether there is a row of this key.
pub fn has_row<R: Keyed>(rows: &[R], first: u64, second: u64, text: &[u8]) -> bool
    requires { Rises R.key rows.now }
    ensures { result ≡ list_any (λ row. is_key (R.key row) (record { first = first; second = second; text = text.now })) rows.now }
{
    place_of(rows, first, second, text).is_some()
}

fn place_of_row<R: Keyed>(rows: &[R], row: &R) -> Option<usize>
    requires { Rises R.key rows.now }
    ensures place { result ≡ position_from (λ other. is_key (R.key other) (R.key row.now)) 0 rows.now }
    ensures within { IfSome result (λ place. place < length rows.now) }
{
    place_of(rows, row.first(), row.second(), row.text())
}

fn count_before_row<R: Keyed>(rows: &[R], row: &R) -> usize
    requires { Rises R.key rows.now }
    ensures count { result ≡ prefix_len (λ other. key_before (R.key other) (R.key row.now)) rows.now }
    ensures within { result ≤ length rows.now }
{
    places::count_before(rows, row.first(), row.second(), row.text())
}

fn replace_row<R: Drop>(rows: &mut Vec<R>, place: usize, row: R)
    requires { place < vec_len rows.old }
    ensures items { rows.new.items ≡ set rows.old.items place row }
    ensures room { vec_capacity rows.old - vec_len rows.old ≤ vec_capacity rows.new - vec_len rows.new }
    ensures memory { vec_capacity rows.old ≤ vec_capacity rows.new }
{
    rows[place] = row;
}

fn insert_row<R: Drop>(rows: &mut Vec<R>, place: usize, row: R)
    requires within { place ≤ vec_len rows.old }
    requires room { vec_len rows.old < vec_capacity rows.old }
    ensures items { rows.new.items ≡ insert rows.old.items place row }
    ensures room { vec_capacity rows.old - vec_len rows.old ≤ vec_capacity rows.new - vec_len rows.new + 1 }
    ensures memory { vec_capacity rows.old ≤ vec_capacity rows.new }
{
    match rows.insert(place, row) {
        Ok(()) => {}
        Err(_) => unreachable!(),
    }
}

/// The row stands in its place. Another one of its key gives way.
pub fn put_row<R: Keyed + Drop>(rows: &mut Vec<R>, row: R)
    requires rises { Rises R.key rows.old.items }
    requires room { IsTrue (list_any (λ other. is_key (R.key other) (R.key row)) rows.old.items || nat_lt 0 (vec_capacity rows.old - vec_len rows.old)) }
    ensures items { rows.new.items ≡ put (λ x y. key_before (R.key x) (R.key y)) row rows.old.items }
    ensures rises { Rises R.key rows.new.items }
    ensures room { vec_capacity rows.old - vec_len rows.old ≤ vec_capacity rows.new - vec_len rows.new + 1 }
    ensures replaced { IsTrue (list_any (λ other. is_key (R.key other) (R.key row)) rows.old.items) → vec_capacity rows.old - vec_len rows.old ≤ vec_capacity rows.new - vec_len rows.new }
    ensures memory { vec_capacity rows.old ≤ vec_capacity rows.new }
{
    match place_of_row(rows, &row) {
        Some(place) => replace_row(rows, place, row),
        None => {
            let place = count_before_row(rows, &row);
            insert_row(rows, place, row);
        }
    }
}

/// The row of this key is gone.
pub fn cut_row<R: Keyed + Drop>(rows: &mut Vec<R>, first: u64, second: u64, text: &[u8])
    requires { Rises R.key rows.old.items }
    ensures items { rows.new.items ≡ filter (λ row. not (is_key (R.key row) (record { first = first; second = second; text = text.now }))) rows.old.items }
    ensures rises { Rises R.key rows.new.items }
    ensures room { vec_capacity rows.old - vec_len rows.old ≤ vec_capacity rows.new - vec_len rows.new }
    ensures memory { vec_capacity rows.old ≤ vec_capacity rows.new }
{
    match place_of(rows, first, second, text) {
        Some(place) => {
            rows.remove(place);
        }
        None => {}
    }
}

fn cut_places<R: Drop>(rows: &mut Vec<R>, start: usize, end: usize)
    requires order { start ≤ end }
    requires within { end ≤ vec_len rows.old }
    ensures items { rows.new.items ≡ take start rows.old.items ++ drop end rows.old.items }
    ensures room { vec_capacity rows.old - vec_len rows.old ≤ vec_capacity rows.new - vec_len rows.new }
{
    rows.drain(start..end);
}

/// The rows of this first number are gone.
pub fn cut_rows_of<R: Keyed + Drop>(rows: &mut Vec<R>, first: u64)
    requires { Rises R.key rows.old.items }
    ensures items { rows.new.items ≡ filter (λ row. not ((R.key row).first == first)) rows.old.items }
    ensures rises { Rises R.key rows.new.items }
    ensures room { vec_capacity rows.old - vec_len rows.old ≤ vec_capacity rows.new - vec_len rows.new }
{
    let run = places::run_of(rows, first);
    cut_places(rows, run.0, run.1);
}

/// The rows of this pair of numbers are gone.
pub fn cut_rows_of_pair<R: Keyed + Drop>(rows: &mut Vec<R>, first: u64, second: u64)
    requires { Rises R.key rows.old.items }
    ensures items { rows.new.items ≡ filter (λ row. not (is_pair first second (R.key row))) rows.old.items }
    ensures rises { Rises R.key rows.new.items }
    ensures room { vec_capacity rows.old - vec_len rows.old ≤ vec_capacity rows.new - vec_len rows.new }
{
    let run = places::run_of_pair(rows, first, second);
    cut_places(rows, run.0, run.1);
}
