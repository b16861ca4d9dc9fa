//! Initial event selection: its variables, and custom selection.
ghost use Rattle.std.specs.Prelude.{◌≡◌, bytes_eq, codes};
ghost use Rattle.std.specs.List.{list_any, position_from};
ghost use Rattle.deploy_model.specs.Faults.{Says};
ghost use Rattle.serde_json.specs.View.{view, items_view};
ghost use Rattle.deploy_schema.specs.Forms.{list_of};
ghost use Rattle.deploy_schema.specs.Texts.{text};
ghost use Rattle.deploy_schema.specs.Numbers.{items_of};
ghost use Rattle.deploy_schema.specs.Lookups.{names_of};
ghost use Rattle.deploy_schema.specs.Names.{texts_of};
ghost use Rattle.deploy_schema.specs.Tables.{variable, initial, is_custom as custom_so, selection_rule, selection_field, custom_rule, unwanted, custom};

use crate::fault::{here, unless};
use crate::form::Form;
use crate::list::ListOf;
use crate::lookup::Lookup;
use crate::member::text_or_empty;
use crate::numbers::{array_items, items_in};
use crate::object::{End, Need, Object};
use crate::text::{TextOf, TextRule, check_fresh};
use built_in_events::BuiltInEvent;
use deploy_model::{DeployBad, DeployFault, rule_of, variable_of};
use serde_json::Value;
use slee_value::Kind;
use std::alloc::Global;

/// Where a word stands first.
fn place_of(words: &[Value], word: &str) -> Option<usize>
    ensures { result ≡ position_from (bytes_eq word.now) 0 (texts_of (items_view words.now)) }
{
    for (i, other) in words.iter().enumerate() {
        if word == text_or_empty(other) {
            return Some(i);
        }
    }
    None
}

/// The word of a variable, which stands nowhere before.
#[derive(Drop)]
struct Variable<'w>(&'w [Value]);

impl<'w> TextRule for Variable<'w> {
    ghost text_fault = { λ s. variable (texts_of (items_view s.0.now)) };

    fn check_text(
        &self,
        alloc: Global,
        number: usize,
        _owner: &Value,
        text: &str,
    ) -> Result<(), DeployFault> {
        if variable_of(text).is_some() {
            check_fresh(alloc, place_of(self.0, text), number)
        } else {
            Err(here(alloc, DeployBad::Range))
        }
    }
}

fn check_variables(
    alloc: Global,
    number: usize,
    owner: &Value,
    value: &Value,
) -> Result<(), DeployFault>
    ensures { Says (list_of (text (variable (texts_of (items_of (view value.now))))) number (view owner.now) (view value.now)) result }
{
    let words = array_items(value);
    ListOf(TextOf(Variable(words))).check(alloc, number, owner, value)
}

/// The variables of an initial event; the end of an activity never is one.
#[derive(Drop)]
pub(crate) struct Initial<'e>(pub &'e str);

impl<'e> Form for Initial<'e> {
    ghost fault = { λ s. initial s.0.now };

    fn check(
        &self,
        alloc: Global,
        number: usize,
        owner: &Value,
        value: &Value,
    ) -> Result<(), DeployFault> {
        if self.0 == BuiltInEvent::ActivityEnd.name() && value.is_array() {
            Err(here(alloc, DeployBad::Range))
        } else {
            check_variables(alloc, number, owner, value)
        }
    }
}

fn has_custom(words: &[Value]) -> bool
    ensures { result ≡ list_any (bytes_eq (codes "custom")) (texts_of (items_view words.now)) }
{
    for word in words {
        if "custom" == text_or_empty(word) {
            return true;
        }
    }
    false
}

/// Whether an event is initial by custom selection.
pub(crate) fn is_custom(event: &Value) -> bool
    ensures { result ≡ custom_so (view event.now) }
{
    let words = items_in(event, "initial");
    has_custom(words)
}

/// The word of a rule of custom selection.
#[derive(Drop)]
struct SelectionRule;

impl TextRule for SelectionRule {
    ghost text_fault = { λ _. selection_rule };

    fn check_text(
        &self,
        alloc: Global,
        _number: usize,
        _owner: &Value,
        text: &str,
    ) -> Result<(), DeployFault> {
        unless(alloc, rule_of(text).is_some(), DeployBad::Range)
    }
}

/// The field that a custom selection reads: one of the event, and a text.
#[derive(Drop)]
struct SelectionField<'a, 'v, 'e> {
    all: &'a Lookup<'v>,
    event: &'e str,
}

impl<'a, 'v, 'e> TextRule for SelectionField<'a, 'v, 'e> {
    ghost text_fault = { λ s. selection_field (names_of s.all.now) s.event.now };

    fn check_text(
        &self,
        alloc: Global,
        _number: usize,
        _owner: &Value,
        text: &str,
    ) -> Result<(), DeployFault> {
        match self.all.event_field(self.event, text) {
            None => Err(here(alloc, DeployBad::UnknownName)),
            Some(Kind::Text) => Ok(()),
            Some(_) => Err(here(alloc, DeployBad::Range)),
        }
    }
}

/// A custom selection.
#[derive(Drop)]
struct CustomRule<'a, 'v, 'e> {
    all: &'a Lookup<'v>,
    event: &'e str,
}

impl<'a, 'v, 'e> Form for CustomRule<'a, 'v, 'e> {
    ghost fault = { λ s. custom_rule (names_of s.all.now) s.event.now };

    fn check(
        &self,
        alloc: Global,
        number: usize,
        owner: &Value,
        value: &Value,
    ) -> Result<(), DeployFault> {
        let field = SelectionField {
            all: self.all,
            event: self.event,
        };
        let rest = Need("field", TextOf(field), End);
        Object(Need("rule", TextOf(SelectionRule), rest)).check(alloc, number, owner, value)
    }
}

/// A custom selection, where it is wanted and nowhere else.
#[derive(Drop)]
pub(crate) struct Custom<'a, 'v, 'e> {
    pub all: &'a Lookup<'v>,
    pub event: &'e str,
    pub wanted: bool,
}

impl<'a, 'v, 'e> Form for Custom<'a, 'v, 'e> {
    ghost fault = { λ s. custom (names_of s.all.now) s.event.now s.wanted };

    fn check(
        &self,
        alloc: Global,
        number: usize,
        owner: &Value,
        value: &Value,
    ) -> Result<(), DeployFault> {
        if self.wanted {
            let rule = CustomRule {
                all: self.all,
                event: self.event,
            };
            rule.check(alloc, number, owner, value)
        } else if value.is_object() {
            Err(here(alloc, DeployBad::Range))
        } else {
            Err(here(alloc, DeployBad::WrongType))
        }
    }
}
