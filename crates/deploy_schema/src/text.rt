//! Forms of texts.
ghost use Rattle.deploy_model.specs.Faults.{Fault, Says};
ghost use Rattle.deploy_model.specs.Rules.{fresh as fresh_so, label as label_rule};
ghost use Rattle.serde_json.specs.View.{view};
ghost use Rattle.deploy_schema.specs.Forms.{name_rule};
ghost use Rattle.deploy_schema.specs.Numbers.{answer_of};
ghost use Rattle.deploy_schema.specs.Texts.{text as text_so, any_text, label, fresh_name, reference};

use crate::fault::{here, unless};
use crate::firsts::Numbers;
use crate::form::Form;
use crate::numbers::number_of_name;
use deploy_model::{DeployBad, DeployFault, LABEL_LIMIT};
use serde_json::Value;
use slee_value::Name;
use std::alloc::Global;

/// A rule that texts may keep.
pub(crate) trait TextRule {
    ghost use Rattle.std.specs.Prelude.{ℕ, Option};
    ghost use Rattle.script_tree.specs.Tree.{Bytes};
    ghost use Rattle.serde_json.specs.Data.{Data};

    ghost text_fault: { Self → ℕ → Data → Bytes → Option Fault };

    /// The first fault of a text, by the number of the list's item in which it stands and by the object that has it.
    fn check_text(
        &self,
        alloc: Global,
        number: usize,
        owner: &Value,
        text: &str,
    ) -> Result<(), DeployFault>
        ensures { Says (text_fault self.now number (view owner.now) text.now) result };
}

/// A text that keeps a rule.
#[derive(Drop)]
pub(crate) struct TextOf<R>(pub R);

impl<R: TextRule> Form for TextOf<R> {
    ghost fault = { λ s. text_so (R.text_fault s.0) };

    fn check(
        &self,
        alloc: Global,
        number: usize,
        owner: &Value,
        value: &Value,
    ) -> Result<(), DeployFault> {
        match value.as_str() {
            Some(text) => self.0.check_text(alloc, number, owner, text),
            None => Err(here(alloc, DeployBad::WrongType)),
        }
    }
}

/// Any text.
#[derive(Drop)]
pub(crate) struct AnyText;

impl TextRule for AnyText {
    ghost text_fault = { λ _. any_text };

    fn check_text(
        &self,
        _alloc: Global,
        _number: usize,
        _owner: &Value,
        _text: &str,
    ) -> Result<(), DeployFault> {
        Ok(())
    }
}

/// A name, vendor or version.
#[derive(Drop)]
pub(crate) struct Label;

impl TextRule for Label {
    ghost text_fault = { λ _. label };

    fn check_text(
        &self,
        alloc: Global,
        _number: usize,
        _owner: &Value,
        text: &str,
    ) -> Result<(), DeployFault> {
        check_label(alloc, text)
    }
}

/// A text of 1 to 256 bytes.
pub(crate) fn check_label(alloc: Global, text: &str) -> Result<(), DeployFault>
    ensures { Says (label_rule text.now) result }
{
    unless(
        alloc,
        1 <= text.len() && text.len() <= LABEL_LIMIT,
        DeployBad::Range,
    )
}

/// The form of names.
pub(crate) fn check_name(alloc: Global, text: &str) -> Result<(), DeployFault>
    ensures { Says (name_rule text.now) result }
{
    unless(alloc, Name::is_name(text.as_bytes()), DeployBad::BadName)
}

/// What names item `number` and no earlier one.
pub(crate) fn check_fresh(
    alloc: Global,
    named: Option<usize>,
    number: usize,
) -> Result<(), DeployFault>
    ensures { Says (fresh_so named number) result }
{
    match named {
        Some(first) => unless(alloc, number == first, DeployBad::Repeated),
        None => Err(here(alloc, DeployBad::Repeated)),
    }
}

/// A name that no earlier item of the list has.
#[derive(Drop)]
pub(crate) struct FreshName<'a, 'v>(pub &'a Numbers<'v>);

impl<'a, 'v> TextRule for FreshName<'a, 'v> {
    ghost text_fault = { λ s. fresh_name (answer_of s.0.now) };

    fn check_text(
        &self,
        alloc: Global,
        number: usize,
        _owner: &Value,
        text: &str,
    ) -> Result<(), DeployFault> {
        check_name(alloc, text)?;
        check_fresh(alloc, self.0.get(text), number)
    }
}

/// The name of some item of a list, be it earlier or later.
#[derive(Drop)]
pub(crate) struct Reference<'a, 'v>(pub &'a Numbers<'v>);

impl<'a, 'v> TextRule for Reference<'a, 'v> {
    ghost text_fault = { λ s. reference (answer_of s.0.now) };

    fn check_text(
        &self,
        alloc: Global,
        _number: usize,
        _owner: &Value,
        text: &str,
    ) -> Result<(), DeployFault> {
        unless(
            alloc,
            number_of_name(self.0, text).is_some(),
            DeployBad::UnknownName,
        )
    }
}
