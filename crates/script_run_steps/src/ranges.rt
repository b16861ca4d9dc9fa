//! Ranges of numbers that scripts give.
ghost use Rattle.std.specs.Prelude.{◌≡◌, ◌+ℤ◌, pos, negsuc, int_le, unsigned_abs, true, Some, None, if◌then◌else◌};
ghost use Rattle.script_meaning.specs.Doing.{is_within, last_moment};

/// The latest moment, in milliseconds.
pub const LAST_MOMENT: i64 = 4_000_000_000_000_000;

/// The least priority.
pub(crate) const LEAST_PRIORITY: i64 = -128;

/// The greatest priority.
pub(crate) const GREATEST_PRIORITY: i64 = 127;

/// Whether a number lies between two others.
pub(crate) fn is_within(low: i64, high: i64, number: i64) -> bool
    ensures { result ≡ is_within low high number }
{
    low <= number && number <= high
}

/// A number that is a priority.
pub(crate) fn priority_of(number: i64) -> i8
    requires { is_within (negsuc 127) (pos 127) number ≡ true }
    ensures { result ≡ number }
{
    number as i8
}

/// The moment so many milliseconds behind another, where there is one.
pub(crate) fn moment_behind(time: i64, span: i64) -> Option<u64>
    requires { is_within (pos 1) last_moment span ≡ true }
    ensures { result ≡ (if int_le (time +ℤ span) last_moment then Some (unsigned_abs (time +ℤ span)) else None) }
{
    match time.checked_add(span) {
        Some(end) if end <= LAST_MOMENT => Some(end.unsigned_abs()),
        _ => None,
    }
}
