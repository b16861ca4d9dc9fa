//! Rules for texts, names, keys and references, and for the members that each array's items have.
ghost use Rattle.std.specs.Prelude.{◌≡◌, Option};
ghost use Rattle.deploy_model.specs.Faults.{Says, unless as unless_so, under};
ghost use Rattle.deploy_model.specs.Firsts.{answer_of};
ghost use Rattle.deploy_model.specs.Ids.{id_answer};
ghost use Rattle.deploy_model.specs.Rules.{label, fresh as fresh_so, known as known_so, profile_kind, is_profile_kind};
ghost use Rattle.deploy_model.specs.Tables.{version as version_so, identity as identity_so, component as component_so, is_taken};

use crate::fault::{DeployBad, DeployFault, here, unless};
use crate::first::{Firsts, Numbers};
use crate::ids::{Component, Ids};
use crate::rule::{Rule, check_member};
use built_in_events::BuiltInEvent;
use script_types::Named;
use slee_value::{ComponentId, Kind, Name, Text};
use std::alloc::Global;

/// The most bytes of a name, vendor or version.
pub const LABEL_LIMIT: usize = 256;

/// A text of 1 to 256 bytes.
#[derive(Drop)]
pub(crate) struct Label;

impl Rule<Text> for Label {
    ghost fault = { λ _ _ text. label text };

    fn check(&self, alloc: Global, _number: usize, part: &Text) -> Result<(), DeployFault> {
        unless(
            alloc,
            1 <= part.len() && part.len() <= LABEL_LIMIT,
            DeployBad::Range,
        )
    }
}

/// What names item `number` and no earlier one.
pub(crate) fn check_fresh(
    alloc: Global,
    named: Option<usize>,
    number: usize,
) -> Result<(), DeployFault>
    ensures { Says (fresh_so named number) result }
{
    match named {
        Some(first) => unless(alloc, number == first, DeployBad::Repeated),
        None => Err(here(alloc, DeployBad::Repeated)),
    }
}

/// What has a name that no earlier item has.
#[derive(Drop)]
pub(crate) struct FreshName<'a, 'v>(pub &'a Numbers<'v>);

impl<'a, 'v, T: Named> Rule<T> for FreshName<'a, 'v> {
    ghost fault = { λ s number x. fresh_so (answer_of s.0.now (T.name_of x)) number };

    fn check(&self, alloc: Global, number: usize, part: &T) -> Result<(), DeployFault> {
        check_fresh(alloc, self.0.get(part.name()), number)
    }
}

/// What has a name that no built-in event has.
#[derive(Drop)]
pub(crate) struct NotTaken;

impl<T: Named> Rule<T> for NotTaken {
    ghost use Rattle.std.specs.Prelude.{not};
    ghost use Rattle.deploy_model.specs.declared.fault.DeployBad.TheVariants as bad;

    ghost fault = { λ _ _ x. unless_so (not (is_taken (T.name_of x))) bad.Repeated };

    fn check(&self, alloc: Global, _number: usize, part: &T) -> Result<(), DeployFault> {
        unless(
            alloc,
            !(part.name() == BuiltInEvent::Timer.name()),
            DeployBad::Repeated,
        )
    }
}

/// The name of something that there is.
#[derive(Drop)]
pub(crate) struct Known<'a, 'v, V>(pub &'a Firsts<'v, V>);

impl<'a, 'v, V: Copy> Rule<Name> for Known<'a, 'v, V> {
    ghost fault = { λ s _ name. known_so (answer_of s.0.now name) };

    fn check(&self, alloc: Global, _number: usize, part: &Name) -> Result<(), DeployFault> {
        unless(
            alloc,
            self.0.get(part.as_str()).is_some(),
            DeployBad::UnknownName,
        )
    }
}

/// A profile's attribute, whose type a profile may have.
#[derive(Drop)]
pub(crate) struct ProfileKind;

impl Rule<(Name, Kind)> for ProfileKind {
    ghost fault = { λ _ _ a. profile_kind a.1 };

    fn check(&self, alloc: Global, _number: usize, part: &(Name, Kind)) -> Result<(), DeployFault> {
        unless(alloc, may_be_in_profile(part.1), DeployBad::Range)
    }
}

fn may_be_in_profile(kind: Kind) -> bool
    ensures { result ≡ is_profile_kind kind }
{
    match kind {
        Kind::Int | Kind::Text | Kind::Bool => true,
        Kind::Activity | Kind::Timer => false,
    }
}

/// A component of which no earlier item has all three texts; this shows at its version.
#[derive(Drop)]
struct Version<'a, 'v>(&'a Ids<'v>);

impl<'a, 'v> Rule<ComponentId> for Version<'a, 'v> {
    ghost fault = { λ s number id. version_so (id_answer s.0.now) number id };

    fn check(&self, alloc: Global, number: usize, part: &ComponentId) -> Result<(), DeployFault> {
        Label.check(alloc, number, &part.version)?;
        check_fresh(alloc, self.0.number_of(part), number)
    }
}

fn check_identity(
    alloc: Global,
    ids: &Ids,
    number: usize,
    id: &ComponentId,
) -> Result<(), DeployFault>
    ensures { Says (identity_so (id_answer ids.now) number id.now) result }
{
    check_member(alloc, "name", &Label, number, &id.name)?;
    check_member(alloc, "vendor", &Label, number, &id.vendor)?;
    check_member(alloc, "version", &Version(ids), number, id)?;
    Ok(())
}

/// The members that each array's items have.
pub(crate) fn check_component<T: Named + Component>(
    alloc: Global,
    keys: &Numbers,
    ids: &Ids,
    number: usize,
    item: &T,
) -> Result<(), DeployFault>
    ensures { Says (component_so T.name_of T.id_of (answer_of keys.now) (id_answer ids.now) number item.now) result }
{
    check_member(alloc, "key", &FreshName(keys), number, item)?;
    check_identity(alloc, ids, number, item.id())?;
    Ok(())
}
