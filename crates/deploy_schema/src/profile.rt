//! Profile specifications.
ghost use Rattle.deploy_model.specs.Faults.{Says};
ghost use Rattle.deploy_schema.specs.Forms.{object};
ghost use Rattle.deploy_schema.specs.Lookups.{names_of};
ghost use Rattle.deploy_schema.specs.Tables.{attribute_name, profile_members};

use crate::component::{Version, component};
use crate::fault::unless;
use crate::form::Form;
use crate::kinds::attribute_kind;
use crate::list::ListOf;
use crate::lookup::Lookup;
use crate::map::{MapOf, Named};
use crate::object::{End, May, Need, Object};
use crate::text::{FreshName, Label, TextOf, TextRule};
use crate::word::ProfileWord;
use deploy_model::{DeployBad, DeployFault};
use serde_json::Value;
use std::alloc::Global;

/// The name of an attribute of the profile.
#[derive(Drop)]
struct AttributeName;

impl TextRule for AttributeName {
    ghost text_fault = { λ _. attribute_name };

    fn check_text(
        &self,
        alloc: Global,
        _number: usize,
        owner: &Value,
        text: &str,
    ) -> Result<(), DeployFault> {
        unless(
            alloc,
            attribute_kind(owner, text).is_some(),
            DeployBad::UnknownName,
        )
    }
}

/// A profile specification.
#[derive(Drop)]
pub(crate) struct ProfileForm<'a, 'v>(pub &'a Lookup<'v>);

impl<'a, 'v> Form for ProfileForm<'a, 'v> {
    ghost fault = { λ s. object (profile_members (names_of s.0.now)) };

    fn check(
        &self,
        alloc: Global,
        number: usize,
        owner: &Value,
        value: &Value,
    ) -> Result<(), DeployFault> {
        let all = self.0;
        let key = TextOf(FreshName(&all.profiles.keys));
        let unique = May("unique", ListOf(TextOf(AttributeName)), End);
        let rest = May("attributes", MapOf(Named(TextOf(ProfileWord))), unique);
        Object(component!(key, &all.profiles.ids, rest)).check(alloc, number, owner, value)
    }
}
