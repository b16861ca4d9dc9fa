//! Numbers: what operators make of them, within 64 bits.
ghost use Rattle.std.specs.Prelude.{◌≡◌, ℤ, pos, IfSome, ◌+ℤ◌, ◌-ℤ◌, ◌*ℤ◌, int_div, int_rem, neg_ℤ};
ghost use Rattle.script_meaning.specs.Running.{State, Gave};
ghost use Rattle.script_meaning.specs.Values.{int, number, divided, apply};
ghost use Rattle.script_run_machine.specs.Agreeing.{AgreesAs};
ghost use Rattle.script_run_machine.specs.Kinds.{is_arithmetic, is_choice};

use crate::{Machine, Stop};
use script_meaning::FailKind;
use script_types::Joint;

/// Whether an operator is one between numbers.
pub fn is_arithmetic(joint: Joint) -> bool
    ensures { result ≡ is_arithmetic joint }
{
    match joint {
        Joint::Add | Joint::Subtract | Joint::Multiply | Joint::Divide | Joint::Remainder => true,
        Joint::Join | Joint::Both | Joint::Either => false,
    }
}

/// Whether an operator is one between truth values.
pub fn is_choice(joint: Joint) -> bool
    ensures { result ≡ is_choice joint }
{
    match joint {
        Joint::Both | Joint::Either => true,
        _ => false,
    }
}

/// The sum, the difference or the product of two numbers, where it has 64 bits. Quotients are nothing for it.
#[inline(always)]
pub fn reckon(joint: Joint, m: i64, n: i64) -> Option<i64>
    ensures { IfSome result (λ x. (st : State) → apply joint (int m) (int n) st ≡ Gave (int x) st) }
{
    match joint {
        Joint::Add => m.checked_add(n),
        Joint::Subtract => m.checked_sub(n),
        Joint::Multiply => m.checked_mul(n),
        _ => None,
    }
}

impl Machine<'_> {
    /// A number less than nothing by as much as this one is more.
    pub fn negative(&self, n: i64) -> Result<i64, Stop>
        ensures { AgreesAs int (number (neg_ℤ n)) self.now self.now result }
    {
        match n.checked_neg() {
            Some(n) => Ok(n),
            None => Err(Stop::Broken(FailKind::Overflow)),
        }
    }

    /// The sum of two numbers.
    fn sum(&self, m: i64, n: i64) -> Result<i64, Stop>
        ensures { AgreesAs int (number (m +ℤ n)) self.now self.now result }
    {
        match m.checked_add(n) {
            Some(n) => Ok(n),
            None => Err(Stop::Broken(FailKind::Overflow)),
        }
    }

    /// By how much the first is above the second.
    fn difference(&self, m: i64, n: i64) -> Result<i64, Stop>
        ensures { AgreesAs int (number (m -ℤ n)) self.now self.now result }
    {
        match m.checked_sub(n) {
            Some(n) => Ok(n),
            None => Err(Stop::Broken(FailKind::Overflow)),
        }
    }

    /// The product of two numbers.
    fn product(&self, m: i64, n: i64) -> Result<i64, Stop>
        ensures { AgreesAs int (number (m *ℤ n)) self.now self.now result }
    {
        match m.checked_mul(n) {
            Some(n) => Ok(n),
            None => Err(Stop::Broken(FailKind::Overflow)),
        }
    }

    /// The quotient, cut toward zero.
    #[inline(never)]
    fn quotient(&self, m: i64, n: i64) -> Result<i64, Stop>
        ensures { AgreesAs int (divided int_div m n) self.now self.now result }
    {
        if n == 0 {
            return Err(Stop::Broken(FailKind::ZeroDivisor));
        }
        match m.checked_div(n) {
            Some(n) => Ok(n),
            None => Err(Stop::Broken(FailKind::Overflow)),
        }
    }

    /// What remains of a division, with the sign of the dividend.
    #[inline(never)]
    fn remainder(&self, m: i64, n: i64) -> Result<i64, Stop>
        ensures { AgreesAs int (divided int_rem m n) self.now self.now result }
    {
        if n == 0 {
            return Err(Stop::Broken(FailKind::ZeroDivisor));
        }
        // The least number divided by -1 has no quotient, but leaves nothing.
        if n == -1 {
            return Ok(0);
        }
        Ok(m % n)
    }

    /// What an operator makes of two numbers.
    #[inline(always)]
    pub fn calculate(&self, joint: Joint, m: i64, n: i64) -> Result<i64, Stop>
        ensures { AgreesAs int (apply joint (int m) (int n)) self.now self.now result }
    {
        match joint {
            Joint::Add => self.sum(m, n),
            Joint::Subtract => self.difference(m, n),
            Joint::Multiply => self.product(m, n),
            Joint::Divide => self.quotient(m, n),
            Joint::Remainder => self.remainder(m, n),
            Joint::Join | Joint::Both | Joint::Either => Err(Stop::Unchecked),
        }
    }
}
