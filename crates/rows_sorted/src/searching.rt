//! How many rows stand ahead of a border, found by steps that grow away from a first guess, and then by halving.
ghost use Rattle.std.specs.Prelude.{◌≡◌, ◌≤◌, ◌<◌, length};
ghost use Rattle.std.specs.List.{prefix_len};
ghost use Rattle.rows_sorted.specs.Keys.{Rises};
ghost use Rattle.rows_sorted.specs.Borders.{is_ahead};

use crate::Keyed;

/// What of a border's key a row is compared with.
#[derive(Debug, Clone, Copy, PartialEq, Eq)]
pub enum Border {
    /// Rows before the key.
    Key,
    /// Rows with a lower first number.
    First,
    /// Rows with this first number or a lower one.
    UpToFirst,
    /// Rows with a lower pair of numbers.
    Pair,
    /// Rows with this pair of numbers or a lower one.
    UpToPair,
}

/// Where a search begins, and how far it goes with its first step.
#[derive(Debug, Clone, Copy)]
pub struct Guess {
    pub place: usize,
    pub step: usize,
}

// A step that goes past everything, so that each part is halved.
const HALVING: usize = usize::MAX;

// A step to the next place.
const NEAR: usize = 0;

// How much farther each step goes than the one before. A good guess takes two or three steps, and behind a poor one little is
// left but to halve.
const GROWTH: usize = 16;

fn is_ahead<R: Keyed>(row: &R, border: Border, first: u64, second: u64, text: &[u8]) -> bool
    ensures { result ≡ is_ahead border (record { first = first; second = second; text = text.now }) (R.key row.now) }
{
    match border {
        Border::Key => {
            row.first() < first
                || (row.first() == first
                    && (row.second() < second
                        || (row.second() == second && row.text().cmp(text).is_lt())))
        }
        Border::First => row.first() < first,
        Border::UpToFirst => row.first() <= first,
        Border::Pair => row.first() < first || (row.first() == first && row.second() < second),
        Border::UpToPair => row.first() < first || (row.first() == first && row.second() <= second),
    }
}

/// A place from which a search goes on both sides step by step.
pub fn near(place: usize) -> Guess {
    Guess { place, step: NEAR }
}

/// Where the number would stand if those between the two ends were spread evenly. Where the product wraps, the guess is a
/// poor one, and the search takes more steps.
fn place_between(low: u64, high: u64, number: u64, last: usize) -> Guess {
    if high <= low {
        Guess {
            place: last / 2,
            step: HALVING,
        }
    } else if number <= low {
        near(0)
    } else if high <= number {
        near(last)
    } else {
        let place = (number - low).wrapping_mul(last as u64) / (high - low);
        near(place.min(last as u64) as usize)
    }
}

/// Where a key would stand if the numbers of the rows were spread evenly.
pub fn guess_of<R: Keyed>(rows: &[R], first: u64, second: u64) -> Guess {
    match (rows.first(), rows.last()) {
        (Some(low), Some(high)) => {
            let last = rows.len() - 1;
            if low.first() == high.first() {
                place_between(low.second(), high.second(), second, last)
            } else {
                place_between(low.first(), high.first(), first, last)
            }
        }
        _ => near(0),
    }
}

/// The guess, or the last place where the guess is beyond all rows.
fn first_place(guess: Guess, count: usize) -> usize
    ensures { 0 < count → result < count }
{
    if guess.place < count {
        guess.place
    } else {
        count.saturating_sub(1)
    }
}

/// The place above the lowest one by this step, or in the middle.
fn place_above(low: usize, high: usize, step: usize) -> usize
    requires { low ≤ high }
    ensures lowest { low ≤ result }
    ensures within { low < high → result < high }
{
    low + step.min((high - low) / 2)
}

/// The place below the highest one by this step, or in the middle.
fn place_below(low: usize, high: usize, step: usize) -> usize
    requires { low ≤ high }
    ensures lowest { low < high → low ≤ result }
    ensures within { low < high → result < high }
{
    if low < high {
        high - 1 - step.min((high - low) / 2)
    } else {
        low
    }
}

/// How many rows stand ahead of the border.
pub fn count_ahead<R: Keyed>(
    rows: &[R],
    guess: Guess,
    border: Border,
    first: u64,
    second: u64,
    text: &[u8],
) -> usize
    requires { Rises R.key rows.now }
    ensures count { result ≡ prefix_len (λ row. is_ahead border (record { first = first; second = second; text = text.now }) (R.key row)) rows.now }
    ensures within { result ≤ length rows.now }
{
    let mut low = 0;
    let mut high = rows.len();
    let mut place = first_place(guess, high);
    let mut step = guess.step;
    'parts: while low < high {
        if is_ahead(&rows[place], border, first, second, text) {
            low = place + 1;
            place = place_above(low, high, step);
        } else {
            high = place;
            place = place_below(low, high, step);
        }
        step = step.wrapping_mul(GROWTH).wrapping_add(1);
    }
    low
}
