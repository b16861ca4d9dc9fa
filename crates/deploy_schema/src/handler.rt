//! The events that a block handles.
ghost use Rattle.deploy_model.specs.Faults.{Says};
ghost use Rattle.deploy_schema.specs.Numbers.{answer_of};
ghost use Rattle.deploy_schema.specs.Lookups.{names_of};
ghost use Rattle.deploy_schema.specs.Tables.{event_name, handler_members, handler, handlers};

use crate::fault::here;
use crate::firsts::Numbers;
use crate::form::Form;
use crate::leaf::Flag;
use crate::list::ListOf;
use crate::lookup::Lookup;
use crate::member::text_at;
use crate::numbers::{array_items, numbers_of};
use crate::object::{End, May, Need, NeedIf, Object, Table};
use crate::script::ScriptForm;
use crate::selection::{Custom, Initial, is_custom};
use crate::text::{TextOf, TextRule, check_fresh};
use deploy_model::{DeployBad, DeployFault};
use serde_json::Value;
use std::alloc::Global;

/// The event that a handler is for; a block has one handler for each.
#[derive(Drop)]
struct EventName<'a, 'v, 'b> {
    all: &'a Lookup<'v>,
    handlers: &'a Numbers<'b>,
}

impl<'a, 'v, 'b> TextRule for EventName<'a, 'v, 'b> {
    ghost text_fault = { λ s. event_name (names_of s.all.now) (answer_of s.handlers.now) };

    fn check_text(
        &self,
        alloc: Global,
        number: usize,
        _owner: &Value,
        text: &str,
    ) -> Result<(), DeployFault> {
        if self.all.is_event(text) {
            check_fresh(alloc, self.handlers.get(text), number)
        } else {
            Err(here(alloc, DeployBad::UnknownName))
        }
    }
}

/// The members of a handler, by its event and whether this is initial by custom selection.
#[derive(Drop)]
struct HandlerTable<'a, 'v, 'b, 'e> {
    all: &'a Lookup<'v>,
    handlers: &'a Numbers<'b>,
    event: &'e str,
    wanted: bool,
}

impl<'a, 'v, 'b, 'e> Table for HandlerTable<'a, 'v, 'b, 'e> {
    ghost wants = { λ s. handler_members (names_of s.all.now) (answer_of s.handlers.now) s.event.now s.wanted };

    fn check_wanted(&self, alloc: Global, number: usize, value: &Value) -> Result<(), DeployFault> {
        let (all, handlers, event, wanted) = (self.all, self.handlers, self.event, self.wanted);
        let custom = Custom { all, event, wanted };
        let rest = May("mask", Flag, Need("on", ScriptForm, End));
        let chosen = NeedIf("custom", wanted, custom, rest);
        let initial = May("initial", Initial(event), chosen);
        Need("event", TextOf(EventName { all, handlers }), initial).check_wanted(
            alloc, number, value,
        )
    }

    fn knows(&self, name: &str) -> bool {
        "event" == name || "initial" == name || "custom" == name || "mask" == name || "on" == name
    }
}

/// A handler.
#[derive(Drop)]
struct HandlerForm<'a, 'v, 'b> {
    all: &'a Lookup<'v>,
    handlers: &'a Numbers<'b>,
}

impl<'a, 'v, 'b> Form for HandlerForm<'a, 'v, 'b> {
    ghost fault = { λ s. handler (names_of s.all.now) (answer_of s.handlers.now) };

    fn check(
        &self,
        alloc: Global,
        number: usize,
        owner: &Value,
        value: &Value,
    ) -> Result<(), DeployFault> {
        let event = text_at(value, "event");
        let wanted = is_custom(value);
        let table = HandlerTable {
            all: self.all,
            handlers: self.handlers,
            event,
            wanted,
        };
        Object(table).check(alloc, number, owner, value)
    }
}

/// The events that a block handles.
#[derive(Drop)]
pub(crate) struct Handlers<'a, 'v>(pub &'a Lookup<'v>);

impl<'a, 'v> Form for Handlers<'a, 'v> {
    ghost fault = { λ s. handlers (names_of s.0.now) };

    fn check(
        &self,
        alloc: Global,
        number: usize,
        owner: &Value,
        value: &Value,
    ) -> Result<(), DeployFault> {
        let handlers = numbers_of(alloc, "event", array_items(value))?;
        let form = HandlerForm {
            all: self.0,
            handlers: &handlers,
        };
        ListOf(form).check(alloc, number, owner, value)
    }
}
