//! The byte for how a run of a script ended.
ghost use Rattle.std.specs.Prelude.{◌≡◌};
ghost use Rattle.router_steps.specs.Outcomes.{failure_place, outcome_byte};

use script_meaning::{FailKind, Outcome};

/// The place of a failure among all kinds, from 0.
fn failure_place(kind: FailKind) -> u8
    ensures { result ≡ failure_place kind }
{
    match kind {
        FailKind::Thrown => 0,
        FailKind::Overflow => 1,
        FailKind::ZeroDivisor => 2,
        FailKind::Budget => 3,
        FailKind::Gone => 4,
        FailKind::Ending => 5,
        FailKind::NotNull => 6,
        FailKind::Bound => 7,
        FailKind::Unbound => 8,
        FailKind::Detached => 9,
        FailKind::NoRow => 10,
        FailKind::Depth => 11,
        FailKind::Observed => 12,
        FailKind::Range => 13,
        FailKind::TooLong => 14,
        FailKind::TooMuch => 15,
    }
}

/// 0 for fine, 1 for asked, and from 2 on the failures.
pub fn outcome_byte(outcome: Outcome) -> u8
    ensures { result ≡ outcome_byte outcome }
{
    match outcome {
        Outcome::Fine => 0,
        Outcome::Asked => 1,
        Outcome::Broken(kind) => 2 + failure_place(kind),
    }
}
