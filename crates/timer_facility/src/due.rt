//! What of one timer is due at a moment, what is fired of it, and what is left.
ghost use Rattle.std.specs.Prelude.{◌≡◌, ℕ, ◌+◌, ◌-◌, ◌*◌, ◌<◌, ◌≤◌, ◌^◌, if◌then◌else◌, IsTrue, Some, None};
ghost use Rattle.router_state.specs.Timers.{due_count, goes_on, left_behind, behind};
ghost use Rattle.router_state.specs.Timing.{fired_count, is_last_at};

use router_state::Timer;
use slee_value::Keep;

/// The last moment there is.
pub const LAST_MOMENT: u64 = 4_000_000_000_000_000;

/// How many of its occurrences are due at or before the moment.
pub fn count_of_due(timer: &Timer, to: u64) -> u128
    ensures count { result ≡ due_count timer.now to }
    ensures within { result ≤ 2 ^ 64 }
{
    if to < timer.next {
        0
    } else if timer.period == 0 {
        1
    } else {
        let repeated = u128::from((to - timer.next) / timer.period) + 1;
        if timer.left == 0 {
            repeated
        } else {
            repeated.min(u128::from(timer.left))
        }
    }
}

/// The moment of its occurrence of this place among those that are left.
pub fn moment_of(timer: &Timer, place: u128, to: u64) -> u64
    requires { place < due_count timer.now to }
    ensures moment { result ≡ timer.now.next + place * timer.now.period }
    ensures within { result ≤ to }
{
    (u128::from(timer.next) + place * u128::from(timer.period)) as u64
}

fn is_last(timer: &Timer, to: u64, count: u128) -> bool
    requires { count ≡ due_count timer.now to }
    ensures { result ≡ is_last_at to timer.now count }
{
    count > 0 && moment_of(timer, count - 1, to) == to
}

/// How many of its occurrences are fired as the clock comes to the moment.
pub fn count_of_fired(timer: &Timer, to: u64) -> u128
    ensures count { result ≡ fired_count to timer.now }
    ensures within { result ≤ due_count timer.now to }
    ensures bound { result ≤ 2 ^ 64 }
{
    let count = count_of_due(timer, to);
    match timer.keep {
        Keep::All => count,
        Keep::Last => count.min(1),
        Keep::NoneMissed => if is_last(timer, to, count) { 1 } else { 0 },
    }
}

/// The moment of its first occurrence that isn't due.
fn moment_behind(timer: &Timer, to: u64) -> u128
    ensures { result ≡ timer.now.next + due_count timer.now to * timer.now.period }
{
    u128::from(timer.next) + count_of_due(timer, to) * u128::from(timer.period)
}

/// Whether it has another occurrence behind those that are due.
pub fn goes_on(timer: &Timer, to: u64) -> bool
    ensures { result ≡ goes_on timer.now (due_count timer.now to) }
{
    let used = count_of_due(timer, to);
    used == 0
        || ((timer.left == 0 || used < u128::from(timer.left))
            && moment_behind(timer, to) <= u128::from(LAST_MOMENT))
}

/// The moment of its first occurrence that isn't due, where it goes on.
fn next_moment(timer: &Timer, to: u64) -> u64
    requires { IsTrue (goes_on timer.now (due_count timer.now to)) }
    ensures { result ≡ timer.now.next + due_count timer.now to * timer.now.period }
{
    let _next = timer.next;
    moment_behind(timer, to) as u64
}

/// How many of its occurrences are left, where it goes on.
fn count_of_left(timer: &Timer, to: u64) -> u64
    requires { IsTrue (goes_on timer.now (due_count timer.now to)) }
    ensures { result ≡ left_behind timer.now (due_count timer.now to) }
{
    if timer.left == 0 {
        0
    } else {
        timer.left - count_of_due(timer, to) as u64
    }
}

/// Its due occurrences are used up.
pub fn use_up(timer: &mut Timer, to: u64)
    requires { IsTrue (goes_on timer.old (due_count timer.old to)) }
    ensures { timer.new ≡ behind timer.old (due_count timer.old to) }
{
    let next = next_moment(timer, to);
    timer.left = count_of_left(timer, to);
    timer.next = next;
}

/// What is left of the timer behind the moment, nothing where it doesn't go on.
pub fn left_of(timer: &Timer, to: u64) -> Option<Timer>
    ensures { result ≡ if goes_on timer.now (due_count timer.now to) then Some (behind timer.now (due_count timer.now to)) else None }
{
    if !goes_on(timer, to) {
        return None;
    }
    let mut left = *timer;
    use_up(&mut left, to);
    Some(left)
}
