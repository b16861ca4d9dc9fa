//! Event types.
ghost use Rattle.deploy_model.specs.Faults.{Says};
ghost use Rattle.deploy_schema.specs.Forms.{object};
ghost use Rattle.deploy_schema.specs.Numbers.{answer_of};
ghost use Rattle.deploy_schema.specs.Lookups.{names_of};
ghost use Rattle.deploy_schema.specs.Tables.{event_key, event_members};

use crate::component::{Version, component};
use crate::fault::unless;
use crate::firsts::Numbers;
use crate::form::Form;
use crate::lookup::Lookup;
use crate::map::{MapOf, Named};
use crate::object::{End, May, Need, Object};
use crate::text::{Label, TextOf, TextRule, check_fresh, check_name};
use crate::word::TypeWord;
use built_in_events::BuiltInEvent;
use deploy_model::{DeployBad, DeployFault};
use serde_json::Value;
use std::alloc::Global;

/// The key of an event type.
#[derive(Drop)]
struct EventKey<'a, 'v>(&'a Numbers<'v>);

impl<'a, 'v> TextRule for EventKey<'a, 'v> {
    ghost text_fault = { λ s. event_key (answer_of s.0.now) };

    fn check_text(
        &self,
        alloc: Global,
        number: usize,
        _owner: &Value,
        text: &str,
    ) -> Result<(), DeployFault> {
        check_name(alloc, text)?;
        unless(
            alloc,
            !(text == BuiltInEvent::Timer.name()),
            DeployBad::Repeated,
        )?;
        check_fresh(alloc, self.0.get(text), number)
    }
}

/// An event type.
#[derive(Drop)]
pub(crate) struct EventForm<'a, 'v>(pub &'a Lookup<'v>);

impl<'a, 'v> Form for EventForm<'a, 'v> {
    ghost fault = { λ s. object (event_members (names_of s.0.now)) };

    fn check(
        &self,
        alloc: Global,
        number: usize,
        owner: &Value,
        value: &Value,
    ) -> Result<(), DeployFault> {
        let all = self.0;
        let key = TextOf(EventKey(&all.events.keys));
        let fields = May("fields", MapOf(Named(TextOf(TypeWord))), End);
        Object(component!(key, &all.events.ids, fields)).check(alloc, number, owner, value)
    }
}
