//! Rules for the members of objects, and how the rules of parts make up that of their whole.
ghost use Rattle.std.specs.Prelude.{◌≡◌, ◌<◌, ◌^◌, decimal, length};
ghost use Rattle.deploy_model.specs.Faults.{Says, under, and_then};
ghost use Rattle.deploy_model.specs.Rules.{items, items_from, entries as all_entries};

use crate::fault::DeployFault;
use script_types::{CodeList, Named};
use std::alloc::Global;

/// A rule for a part that stands in the item of this number.
pub(crate) trait Rule<A> {
    ghost use Rattle.std.specs.Prelude.{ℕ, Option};
    ghost use Rattle.deploy_model.specs.Faults.{Fault};

    ghost fault: { Self → ℕ → A → Option Fault };

    fn check(&self, alloc: Global, number: usize, part: &A) -> Result<(), DeployFault>
        ensures { Says (fault self.now number part.now) result };
}

/// The part that an object has under this name.
pub(crate) fn check_member<A, R: Rule<A>>(
    alloc: Global,
    name: &str,
    rule: &R,
    number: usize,
    part: &A,
) -> Result<(), DeployFault>
    ensures { Says (under name.now (R.fault rule.now number part.now)) result }
{
    match rule.check(alloc, number, part) {
        Ok(()) => Ok(()),
        Err(fault) => Err(fault.under(alloc, name)),
    }
}

/// An array, each item by its own number.
#[derive(Drop)]
pub(crate) struct Items<R>(pub R);

impl<A, R: Rule<A>> Rule<CodeList<A>> for Items<R> {
    ghost fault = { λ s number xs. items (R.fault s.0) xs };

    fn check(&self, alloc: Global, _number: usize, part: &CodeList<A>) -> Result<(), DeployFault> {
        check_items(alloc, &self.0, part.as_slice())
    }
}

fn check_items<A, R: Rule<A>>(alloc: Global, rule: &R, parts: &[A]) -> Result<(), DeployFault>
    ensures { Says (items_from (R.fault rule.now) 0 parts.now) result }
{
    for (i, part) in parts.iter().enumerate() {
        check_item(alloc, rule, i, part)?;
    }
    Ok(())
}

fn check_item<A, R: Rule<A>>(alloc: Global, rule: &R, i: usize, part: &A) -> Result<(), DeployFault>
    ensures { Says (under (decimal i) (R.fault rule.now i part.now)) result }
{
    match rule.check(alloc, i, part) {
        Ok(()) => Ok(()),
        Err(fault) => Err(fault.under(alloc, format!(in alloc; "{i}")?.as_str())),
    }
}

/// An object that is a map, each member under its own name.
#[derive(Drop)]
pub(crate) struct Entries<R>(pub R);

impl<A: Named, R: Rule<A>> Rule<CodeList<A>> for Entries<R> {
    ghost fault = { λ s number xs. all_entries A.name_of (R.fault s.0 number) xs };

    fn check(&self, alloc: Global, number: usize, part: &CodeList<A>) -> Result<(), DeployFault> {
        check_entries(alloc, &self.0, number, part.as_slice())
    }
}

fn check_entries<A: Named, R: Rule<A>>(
    alloc: Global,
    rule: &R,
    number: usize,
    parts: &[A],
) -> Result<(), DeployFault>
    ensures { Says (all_entries A.name_of (R.fault rule.now number) parts.now) result }
{
    for part in parts {
        check_member(alloc, part.name(), rule, number, part)?;
    }
    Ok(())
}
