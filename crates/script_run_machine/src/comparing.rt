//! Comparing values, and what truth values decide.
ghost use Rattle.std.specs.Prelude.{◌≡◌, Bool};
ghost use Rattle.script_meaning.specs.Values.{same_values, is_less, compare, decides, same_bool, int, flag};
ghost use Rattle.script_meaning.specs.Overlay.{same_ref};
ghost use Rattle.script_run_machine.specs.Agreeing.{Agrees, AgreesAs};
ghost use Rattle.script_run_machine.specs.Kinds.{is_of_numbers};
ghost use Rattle.script_run_machine.specs.Lending.{value_lent};

use crate::kinds::{activity_of, flag_of, int_of, text_of, timer_of};
use crate::{Lent, Machine, Stop};
use script_types::{Joint, Scale, Test};
use slee_effect::Ref;
use slee_value::Kind;
use std::cmp::Ordering;

/// Whether the left side of `and` or `or`, a truth value, alone is the whole.
pub fn is_decided_flag(joint: Joint, x: bool) -> bool
    ensures { result ≡ decides joint (flag x) }
{
    match joint {
        Joint::Both => !x,
        Joint::Either => x,
        _ => false,
    }
}

/// Whether a comparison is one of numbers.
pub fn is_of_numbers(test: Test) -> bool
    ensures { result ≡ is_of_numbers test }
{
    match test {
        Test::Same(kind) | Test::Unlike(kind) => match kind {
            Kind::Int => true,
            Kind::Text | Kind::Bool | Kind::Activity | Kind::Timer => false,
        },
        Test::Below(scale) | Test::AtMost(scale) | Test::Above(scale) | Test::AtLeast(scale) => {
            match scale {
                Scale::Int => true,
                Scale::Text => false,
            }
        }
    }
}

/// Whether two name the same thing of one kind.
pub fn is_same_ref(one: Ref, other: Ref) -> bool
    ensures { result ≡ same_ref one other }
{
    match (one, other) {
        (Ref::Known(a), Ref::Known(b)) => a == b,
        (Ref::Fresh(a), Ref::Fresh(b)) => a == b,
        _ => false,
    }
}

fn is_same_flag(x: bool, y: bool) -> bool
    ensures { result ≡ same_bool x y }
{
    if x { y } else { !y }
}

impl Machine<'_> {
    /// Whether two values of a type are the same.
    #[tactic(auto, using(crate::proofs::KindLemmas::no_int_stays, crate::proofs::KindLemmas::no_text_stays, crate::proofs::KindLemmas::no_flag_stays, crate::proofs::KindLemmas::no_activity_stays, crate::proofs::KindLemmas::no_timer_stays, crate::proofs::KindLemmas::activity_given, crate::proofs::KindLemmas::timer_given))]
    fn same_values(&self, kind: Kind, x: Lent, y: Lent) -> Result<bool, Stop>
        ensures { Agrees (same_values kind (value_lent x.entry) (value_lent y.entry)) self.now self.now result }
    {
        match kind {
            Kind::Int => Ok(int_of(x)? == int_of(y)?),
            Kind::Text => Ok(text_of(x)?.as_bytes() == text_of(y)?.as_bytes()),
            Kind::Bool => Ok(is_same_flag(flag_of(x)?, flag_of(y)?)),
            Kind::Activity => Ok(is_same_ref(activity_of(x)?, activity_of(y)?)),
            Kind::Timer => Ok(is_same_ref(timer_of(x)?, timer_of(y)?)),
        }
    }

    /// Whether one value is below another, texts in byte order.
    #[tactic(auto, using(crate::proofs::KindLemmas::no_int_stays, crate::proofs::KindLemmas::no_text_stays))]
    fn is_less(&self, scale: Scale, x: Lent, y: Lent) -> Result<bool, Stop>
        ensures { Agrees (is_less scale (value_lent x.entry) (value_lent y.entry)) self.now self.now result }
    {
        match scale {
            Scale::Int => Ok(int_of(x)? < int_of(y)?),
            Scale::Text => Ok(text_of(x)?.cmp(text_of(y)?) == Ordering::Less),
        }
    }

    /// Whether two numbers are the same.
    fn same_numbers(&self, kind: Kind, m: i64, n: i64) -> Result<bool, Stop>
        ensures { Agrees (same_values kind (int m) (int n)) self.now self.now result }
    {
        match kind {
            Kind::Int => Ok(m == n),
            Kind::Text | Kind::Bool | Kind::Activity | Kind::Timer => Err(Stop::Unchecked),
        }
    }

    /// Whether one number is below another.
    fn is_less_number(&self, scale: Scale, m: i64, n: i64) -> Result<bool, Stop>
        ensures { Agrees (is_less scale (int m) (int n)) self.now self.now result }
    {
        match scale {
            Scale::Int => Ok(m < n),
            Scale::Text => Err(Stop::Unchecked),
        }
    }

    /// A comparison of two numbers.
    pub fn compare_numbers(&self, test: Test, m: i64, n: i64) -> Result<bool, Stop>
        ensures { AgreesAs flag (compare test (int m) (int n)) self.now self.now result }
    {
        match test {
            Test::Same(kind) => self.same_numbers(kind, m, n),
            Test::Unlike(kind) => Ok(!self.same_numbers(kind, m, n)?),
            Test::Below(scale) => self.is_less_number(scale, m, n),
            Test::AtMost(scale) => Ok(!self.is_less_number(scale, n, m)?),
            Test::Above(scale) => self.is_less_number(scale, n, m),
            Test::AtLeast(scale) => Ok(!self.is_less_number(scale, m, n)?),
        }
    }

    /// A comparison of two values.
    pub fn compare(&self, test: Test, x: Lent, y: Lent) -> Result<bool, Stop>
        ensures { AgreesAs flag (compare test (value_lent x.entry) (value_lent y.entry)) self.now self.now result }
    {
        match test {
            Test::Same(kind) => self.same_values(kind, x, y),
            Test::Unlike(kind) => Ok(!self.same_values(kind, x, y)?),
            Test::Below(scale) => self.is_less(scale, x, y),
            Test::AtMost(scale) => Ok(!self.is_less(scale, y, x)?),
            Test::Above(scale) => self.is_less(scale, y, x),
            Test::AtLeast(scale) => Ok(!self.is_less(scale, x, y)?),
        }
    }
}
