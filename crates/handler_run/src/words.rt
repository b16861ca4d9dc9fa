//! Words of failures.
ghost use Rattle.std.specs.Prelude.{◌≡◌};
ghost use Rattle.script_meaning.specs.Running.{word_of};

use script_meaning::FailKind;

/// The word of a failure's kind.
pub fn word_of(kind: FailKind) -> &'static str
    ensures { result.now ≡ word_of kind }
{
    match kind {
        FailKind::Thrown => "thrown",
        FailKind::Overflow => "overflow",
        FailKind::ZeroDivisor => "zero-divisor",
        FailKind::Budget => "budget",
        FailKind::Gone => "gone",
        FailKind::Ending => "ending",
        FailKind::NotNull => "not-null",
        FailKind::Bound => "bound",
        FailKind::Unbound => "unbound",
        FailKind::Detached => "detached",
        FailKind::NoRow => "no-row",
        FailKind::Depth => "depth",
        FailKind::Observed => "observed",
        FailKind::Range => "range",
        FailKind::TooLong => "too-long",
        FailKind::TooMuch => "too-much",
    }
}
