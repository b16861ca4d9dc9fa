//! Which rows are asked for, and where they stand side by side.
ghost use Rattle.std.specs.Prelude.{◌≡◌, ◌≤◌, ◌+◌, ◌-◌, ◌++◌, drop, filter, find, length, not, option_copied, take, vec_capacity, vec_len};
ghost use Rattle.std.specs.List.{prefix_len};
ghost use Rattle.rows_sorted.specs.Keys.{Rises};
ghost use Rattle.rows_leaves.specs.Shares.{is_ahead, is_in, is_up_to};

use rows_sorted::{
    Keyed, count_lower, count_lower_pair, count_up_to, first_row_of, run_of, run_of_pair,
};

/// Which rows are asked for.
#[derive(Debug, Clone, Copy, PartialEq, Eq)]
pub enum Share {
    /// Those of this first number.
    First(u64),
    /// Those of this pair of numbers.
    Pair(u64, u64),
    /// Those whose first number is at most this one.
    UpTo(u64),
}

/// How many rows stand before those of the share.
pub fn start_of<R: Keyed>(rows: &[R], share: Share) -> usize
    requires { Rises R.key rows.now }
    ensures start { result ≡ prefix_len (λ row. is_ahead share (R.key row)) rows.now }
    ensures within { result ≤ length rows.now }
{
    match share {
        Share::First(first) => count_lower(rows, first),
        Share::Pair(first, second) => count_lower_pair(rows, first, second),
        Share::UpTo(_) => 0,
    }
}

/// From which place to which one the rows of the share stand.
pub fn places_of<R: Keyed>(rows: &[R], share: Share) -> (usize, usize)
    requires { Rises R.key rows.now }
    ensures start { result.0 ≡ prefix_len (λ row. is_ahead share (R.key row)) rows.now }
    ensures end { result.1 ≡ prefix_len (λ row. is_up_to share (R.key row)) rows.now }
    ensures order { result.0 ≤ result.1 }
    ensures within { result.1 ≤ length rows.now }
{
    match share {
        Share::First(first) => run_of(rows, first),
        Share::Pair(first, second) => run_of_pair(rows, first, second),
        Share::UpTo(first) => (0, count_up_to(rows, first, 0)),
    }
}

/// The rows of the share.
pub fn rows_in<R: Keyed>(rows: &[R], share: Share) -> &[R]
    requires { Rises R.key rows.now }
    ensures { result.now ≡ filter (λ row. is_in share (R.key row)) rows.now }
{
    let (start, end) = places_of(rows, share);
    &rows[start..end]
}

/// The first row of the share.
pub fn first_in<R: Keyed>(rows: &[R], share: Share) -> Option<&R>
    requires { Rises R.key rows.now }
    ensures { option_copied result ≡ find (λ row. is_in share (R.key row)) rows.now }
{
    match share {
        Share::First(first) => first_row_of(rows, first),
        Share::Pair(..) | Share::UpTo(_) => rows_in(rows, share).first(),
    }
}

fn cut_places<R: Drop>(rows: &mut Vec<R>, start: usize, end: usize)
    requires order { start ≤ end }
    requires within { end ≤ vec_len rows.old }
    ensures items { rows.new.items ≡ take start rows.old.items ++ drop end rows.old.items }
    ensures count { vec_len rows.new + (end - start) ≡ vec_len rows.old }
    ensures memory { vec_capacity rows.old ≤ vec_capacity rows.new }
{
    rows.drain(start..end);
}

/// The rows of the share are gone. The answer is how many there were.
pub fn cut_in<R: Keyed + Drop>(rows: &mut Vec<R>, share: Share) -> usize
    requires { Rises R.key rows.old.items }
    ensures items { rows.new.items ≡ filter (λ row. not (is_in share (R.key row))) rows.old.items }
    ensures count { vec_len rows.new + result ≡ vec_len rows.old }
    ensures memory { vec_capacity rows.old ≤ vec_capacity rows.new }
{
    let (start, end) = places_of(rows, share);
    cut_places(rows, start, end);
    end - start
}
