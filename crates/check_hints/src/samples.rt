//! Expressions of each type, and expressions that take one type alone.
ghost use Rattle.std.specs.Prelude.{◌≡◌};
ghost use Rattle.check_hints.specs.Mismatches.{sample, sample_tokens, taker};

use slee_value::Kind;

/// All types.
pub const KINDS: [Kind; 5] = [
    Kind::Int,
    Kind::Text,
    Kind::Bool,
    Kind::Activity,
    Kind::Timer,
];

/// An expression of a type. No expression is a timer everywhere: `none` is one where a timer is asked for.
pub(crate) fn sample(kind: Kind) -> &'static str
    ensures { result.now ≡ sample kind }
{
    match kind {
        Kind::Int => "0",
        Kind::Text => "\"\"",
        Kind::Bool => "true",
        Kind::Activity => "lookup(\"\")",
        Kind::Timer => "none",
    }
}

/// How many tokens it has.
pub(crate) fn sample_tokens(kind: Kind) -> usize
    ensures { result ≡ sample_tokens kind }
{
    match kind {
        Kind::Activity => 4,
        Kind::Int | Kind::Text | Kind::Bool | Kind::Timer => 1,
    }
}

/// What stands before an operand that has to be of that type. Two brackets close behind it.
pub(crate) fn taker(kind: Kind) -> &'static str
    ensures { result.now ≡ taker kind }
{
    match kind {
        Kind::Int => "(-(",
        Kind::Text => "(len(",
        Kind::Bool => "(not(",
        Kind::Activity => "(active(",
        Kind::Timer => "(has_timer(",
    }
}
