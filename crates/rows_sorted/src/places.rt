//! How many rows stand before a key, and from which place to which one rows of the same numbers stand.
ghost use Rattle.std.specs.Prelude.{◌≡◌, ◌≤◌, ◌||◌, ◌==◌, ◌&&◌, nat_lt, nat_le, length};
ghost use Rattle.std.specs.List.{prefix_len};
ghost use Rattle.rows_sorted.specs.Keys.{key_before, Rises};

use crate::Keyed;
use crate::searching::{Border, count_ahead, guess_of, near};

/// How many rows stand before the key.
pub fn count_before<R: Keyed>(rows: &[R], first: u64, second: u64, text: &[u8]) -> usize
    requires { Rises R.key rows.now }
    ensures count { result ≡ prefix_len (λ row. key_before (R.key row) (record { first = first; second = second; text = text.now })) rows.now }
    ensures within { result ≤ length rows.now }
{
    let place = guess_of(rows, first, second);
    count_ahead(rows, place, Border::Key, first, second, text)
}

/// How many rows have a lower first number.
pub fn count_lower<R: Keyed>(rows: &[R], first: u64) -> usize
    requires { Rises R.key rows.now }
    ensures count { result ≡ prefix_len (λ row. nat_lt (R.key row).first first) rows.now }
    ensures within { result ≤ length rows.now }
{
    let place = guess_of(rows, first, 0);
    count_ahead(rows, place, Border::First, first, 0, &[])
}

/// How many rows have this first number or a lower one. The search begins at the place.
pub fn count_up_to<R: Keyed>(rows: &[R], first: u64, place: usize) -> usize
    requires { Rises R.key rows.now }
    ensures count { result ≡ prefix_len (λ row. nat_le (R.key row).first first) rows.now }
    ensures within { result ≤ length rows.now }
{
    count_ahead(rows, near(place), Border::UpToFirst, first, 0, &[])
}

/// How many rows have a lower pair of numbers.
pub fn count_lower_pair<R: Keyed>(rows: &[R], first: u64, second: u64) -> usize
    requires { Rises R.key rows.now }
    ensures count { result ≡ prefix_len (λ row. nat_lt (R.key row).first first || (((R.key row).first == first) && nat_lt (R.key row).second second)) rows.now }
    ensures within { result ≤ length rows.now }
{
    let place = guess_of(rows, first, second);
    count_ahead(rows, place, Border::Pair, first, second, &[])
}

/// How many rows have this pair of numbers or a lower one. The search begins at the place.
fn count_up_to_pair<R: Keyed>(rows: &[R], first: u64, second: u64, place: usize) -> usize
    requires { Rises R.key rows.now }
    ensures count { result ≡ prefix_len (λ row. nat_lt (R.key row).first first || (((R.key row).first == first) && nat_le (R.key row).second second)) rows.now }
    ensures within { result ≤ length rows.now }
{
    count_ahead(rows, near(place), Border::UpToPair, first, second, &[])
}

/// From which place to which one the rows have this first number.
pub fn run_of<R: Keyed>(rows: &[R], first: u64) -> (usize, usize)
    requires { Rises R.key rows.now }
    ensures start { result.0 ≡ prefix_len (λ row. nat_lt (R.key row).first first) rows.now }
    ensures end { result.1 ≡ prefix_len (λ row. nat_le (R.key row).first first) rows.now }
    ensures order { result.0 ≤ result.1 }
    ensures within { result.1 ≤ length rows.now }
{
    let start = count_lower(rows, first);
    (start, count_up_to(rows, first, start))
}

/// From which place to which one the rows have this pair of numbers.
pub fn run_of_pair<R: Keyed>(rows: &[R], first: u64, second: u64) -> (usize, usize)
    requires { Rises R.key rows.now }
    ensures start { result.0 ≡ prefix_len (λ row. nat_lt (R.key row).first first || (((R.key row).first == first) && nat_lt (R.key row).second second)) rows.now }
    ensures end { result.1 ≡ prefix_len (λ row. nat_lt (R.key row).first first || (((R.key row).first == first) && nat_le (R.key row).second second)) rows.now }
    ensures order { result.0 ≤ result.1 }
    ensures within { result.1 ≤ length rows.now }
{
    let start = count_lower_pair(rows, first, second);
    (start, count_up_to_pair(rows, first, second, start))
}
