//! Rules for the events that a block handles.
ghost use Rattle.std.specs.Prelude.{◌≡◌, bytes_eq, codes};
ghost use Rattle.std.specs.List.{list_any, position_from};
ghost use Rattle.deploy_model.specs.Faults.{Says};
ghost use Rattle.deploy_model.specs.Firsts.{answer_of};
ghost use Rattle.deploy_model.specs.Lookups.{known_of};
ghost use Rattle.deploy_model.specs.Rules.{variable_of as variable_so, rule_of as rule_so, variable_word, rule_word, text_field};
ghost use Rattle.deploy_model.specs.Tables.{event_name, event_field, initial as initial_so, wants_custom as wants_so, custom_rule, custom as custom_so, block_event};

use crate::choice::{SelectRule, Variable};
use crate::fault::{DeployBad, DeployFault, here, unless};
use crate::first::Numbers;
use crate::leaf::check_fresh;
use crate::lookup::Lookup;
use crate::parts::{BlockEvent, CustomRule};
use crate::rule::{Items, Rule, check_member};
use built_in_events::BuiltInEvent;
use script_types::CodeList;
use slee_value::{Kind, Name, Text};
use std::alloc::Global;

/// The variable of initial event selection that a word names.
pub fn variable_of(word: &str) -> Option<Variable>
    ensures { result ≡ variable_so word.now }
{
    if word == "activity" {
        Some(Variable::Activity)
    } else if word == "address" {
        Some(Variable::Address)
    } else if word == "event-type" {
        Some(Variable::EventType)
    } else if word == "event" {
        Some(Variable::Event)
    } else if word == "custom" {
        Some(Variable::Custom)
    } else {
        None
    }
}

/// The rule of custom selection that a word names.
pub fn rule_of(word: &str) -> Option<SelectRule>
    ensures { result ≡ rule_so word.now }
{
    if word == "whole" {
        Some(SelectRule::Whole)
    } else if word == "digits3" {
        Some(SelectRule::Digits3)
    } else if word == "scheme" {
        Some(SelectRule::Scheme)
    } else if word == "screened" {
        Some(SelectRule::Screened)
    } else {
        None
    }
}

/// The event that a handler is for; a block has one handler for each.
#[derive(Drop)]
struct EventName<'a, 'v, 'b> {
    all: &'a Lookup<'v>,
    handlers: &'a Numbers<'b>,
}

impl<'a, 'v, 'b> Rule<Text> for EventName<'a, 'v, 'b> {
    ghost fault = { λ s number event. event_name (known_of s.all.now) (answer_of s.handlers.now) number event };

    fn check(&self, alloc: Global, number: usize, part: &Text) -> Result<(), DeployFault> {
        if self.all.is_event(part.as_str()) {
            check_fresh(alloc, self.handlers.get(part.as_str()), number)
        } else {
            Err(here(alloc, DeployBad::UnknownName))
        }
    }
}

/// Where a word stands first.
fn place_of(words: &[Text], word: &str) -> Option<usize>
    ensures { result ≡ position_from (bytes_eq word.now) 0 words.now }
{
    for (i, other) in words.iter().enumerate() {
        if word == other.as_str() {
            return Some(i);
        }
    }
    None
}

/// The word of a variable, which stands nowhere before.
#[derive(Drop)]
struct VariableWord<'w>(&'w [Text]);

impl<'w> Rule<Text> for VariableWord<'w> {
    ghost fault = { λ s number word. variable_word s.0.now number word };

    fn check(&self, alloc: Global, number: usize, part: &Text) -> Result<(), DeployFault> {
        if variable_of(part.as_str()).is_some() {
            check_fresh(alloc, place_of(self.0, part.as_str()), number)
        } else {
            Err(here(alloc, DeployBad::Range))
        }
    }
}

/// The variables of an initial event; the end of an activity never is one.
#[derive(Drop)]
struct Initial<'e>(&'e str);

impl<'e> Rule<Option<CodeList<Text>>> for Initial<'e> {
    ghost fault = { λ s _ words. initial_so s.0.now words };

    fn check(
        &self,
        alloc: Global,
        number: usize,
        part: &Option<CodeList<Text>>,
    ) -> Result<(), DeployFault> {
        match part {
            None => Ok(()),
            Some(words) => if self.0 == BuiltInEvent::ActivityEnd.name() {
                Err(here(alloc, DeployBad::Range))
            } else {
                Items(VariableWord(words.as_slice())).check(alloc, number, words)
            },
        }
    }
}

/// Whether an event is initial by custom selection.
fn wants_custom(initial: &Option<CodeList<Text>>) -> bool
    ensures { result ≡ wants_so initial.now }
{
    match initial {
        None => false,
        Some(words) => has_custom(words.as_slice()),
    }
}

fn has_custom(words: &[Text]) -> bool
    ensures { result ≡ list_any (bytes_eq (codes "custom")) words.now }
{
    words.iter().any(|word| "custom" == word.as_str())
}

/// The word of a rule of custom selection.
#[derive(Drop)]
struct RuleWord;

impl Rule<Text> for RuleWord {
    ghost fault = { λ _ _ word. rule_word word };

    fn check(&self, alloc: Global, _number: usize, part: &Text) -> Result<(), DeployFault> {
        unless(alloc, rule_of(part.as_str()).is_some(), DeployBad::Range)
    }
}

/// The field that a custom selection reads: one of the event, and a text.
#[derive(Drop)]
struct TextField<'a, 'v, 'e> {
    all: &'a Lookup<'v>,
    event: &'e str,
}

impl<'a, 'v, 'e> Rule<Name> for TextField<'a, 'v, 'e> {
    ghost fault = { λ s _ field. text_field (event_field (known_of s.all.now) s.event.now field) };

    fn check(&self, alloc: Global, _number: usize, part: &Name) -> Result<(), DeployFault> {
        match self.all.event_field(self.event, part.as_str()) {
            None => Err(here(alloc, DeployBad::UnknownName)),
            Some(Kind::Text) => Ok(()),
            Some(_) => Err(here(alloc, DeployBad::Range)),
        }
    }
}

fn check_custom_rule(
    alloc: Global,
    all: &Lookup,
    event: &str,
    number: usize,
    rule: &CustomRule,
) -> Result<(), DeployFault>
    ensures { Says (custom_rule (known_of all.now) event.now rule.now) result }
{
    check_member(alloc, "rule", &RuleWord, number, &rule.rule)?;
    check_member(
        alloc,
        "field",
        &TextField { all, event },
        number,
        &rule.field,
    )?;
    Ok(())
}

/// A custom selection, where it is wanted and nowhere else.
#[derive(Drop)]
struct Custom<'a, 'v, 'e> {
    all: &'a Lookup<'v>,
    event: &'e str,
    wanted: bool,
}

impl<'a, 'v, 'e> Rule<Option<CustomRule>> for Custom<'a, 'v, 'e> {
    ghost fault = { λ s _ rule. custom_so (known_of s.all.now) s.event.now s.wanted rule };

    fn check(
        &self,
        alloc: Global,
        number: usize,
        part: &Option<CustomRule>,
    ) -> Result<(), DeployFault> {
        match part {
            Some(rule) => if self.wanted {
                check_custom_rule(alloc, self.all, self.event, number, rule)
            } else {
                Err(here(alloc, DeployBad::Range))
            },
            None => if self.wanted {
                Err(here(alloc, DeployBad::Missing))
            } else {
                Ok(())
            },
        }
    }
}

/// An event that a block handles.
#[derive(Drop)]
pub(crate) struct Handling<'a, 'v, 'b> {
    pub all: &'a Lookup<'v>,
    pub handlers: &'a Numbers<'b>,
}

impl<'a, 'v, 'b> Rule<BlockEvent> for Handling<'a, 'v, 'b> {
    ghost fault = { λ s number h. block_event (known_of s.all.now) (answer_of s.handlers.now) number h };

    fn check(&self, alloc: Global, number: usize, part: &BlockEvent) -> Result<(), DeployFault> {
        let name = EventName {
            all: self.all,
            handlers: self.handlers,
        };
        check_member(alloc, "event", &name, number, &part.event)?;
        let event = part.event.as_str();
        check_member(alloc, "initial", &Initial(event), number, &part.initial)?;
        let custom = Custom {
            all: self.all,
            event,
            wanted: wants_custom(&part.initial),
        };
        check_member(alloc, "custom", &custom, number, &part.custom)?;
        Ok(())
    }
}
