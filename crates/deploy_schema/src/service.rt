//! Services.
ghost use Rattle.deploy_model.specs.Faults.{Says};
ghost use Rattle.deploy_schema.specs.Forms.{object};
ghost use Rattle.deploy_schema.specs.Lookups.{names_of};
ghost use Rattle.deploy_schema.specs.Tables.{service_members};

use crate::component::{Version, component};
use crate::form::Form;
use crate::leaf::{Flag, Priority};
use crate::lookup::Lookup;
use crate::object::{End, May, Need, Object};
use crate::text::{FreshName, Label, Reference, TextOf};
use deploy_model::DeployFault;
use serde_json::Value;
use std::alloc::Global;

/// A service.
#[derive(Drop)]
pub(crate) struct ServiceForm<'a, 'v>(pub &'a Lookup<'v>);

impl<'a, 'v> Form for ServiceForm<'a, 'v> {
    ghost fault = { λ s. object (service_members (names_of s.0.now)) };

    fn check(
        &self,
        alloc: Global,
        number: usize,
        owner: &Value,
        value: &Value,
    ) -> Result<(), DeployFault> {
        let all = self.0;
        let key = TextOf(FreshName(&all.services.keys));
        let choices = May("priority", Priority, May("active", Flag, End));
        let rest = Need("root", TextOf(Reference(&all.blocks.keys)), choices);
        Object(component!(key, &all.services.ids, rest)).check(alloc, number, owner, value)
    }
}
