//! The words of types.
ghost use Rattle.std.specs.Prelude.{◌≡◌};
ghost use Rattle.deploy_model.specs.Faults.{Says};
ghost use Rattle.deploy_model.specs.Rules.{is_profile_kind};
ghost use Rattle.deploy_schema.specs.Texts.{kind_of_word as kind_so, type_word, profile_word};

use crate::fault::{here, unless};
use crate::text::TextRule;
use deploy_model::{DeployBad, DeployFault};
use serde_json::Value;
use slee_value::Kind;
use std::alloc::Global;

/// The type that a word names.
pub fn kind_of_word(word: &str) -> Option<Kind>
    ensures { result ≡ kind_so word.now }
{
    if word == "int" {
        Some(Kind::Int)
    } else if word == "text" {
        Some(Kind::Text)
    } else if word == "bool" {
        Some(Kind::Bool)
    } else if word == "activity" {
        Some(Kind::Activity)
    } else if word == "timer" {
        Some(Kind::Timer)
    } else {
        None
    }
}

/// The word of a type.
#[derive(Drop)]
pub(crate) struct TypeWord;

impl TextRule for TypeWord {
    ghost text_fault = { λ _. type_word };

    fn check_text(
        &self,
        alloc: Global,
        _number: usize,
        _owner: &Value,
        text: &str,
    ) -> Result<(), DeployFault> {
        unless(alloc, kind_of_word(text).is_some(), DeployBad::Range)
    }
}

/// The word of a type that a profile's attribute may have.
#[derive(Drop)]
pub(crate) struct ProfileWord;

impl TextRule for ProfileWord {
    ghost text_fault = { λ _. profile_word };

    fn check_text(
        &self,
        alloc: Global,
        _number: usize,
        _owner: &Value,
        text: &str,
    ) -> Result<(), DeployFault> {
        match kind_of_word(text) {
            Some(kind) => unless(alloc, may_be_in_profile(kind), DeployBad::Range),
            None => Err(here(alloc, DeployBad::Range)),
        }
    }
}

fn may_be_in_profile(kind: Kind) -> bool
    ensures { result ≡ is_profile_kind kind }
{
    match kind {
        Kind::Int | Kind::Text | Kind::Bool => true,
        Kind::Activity | Kind::Timer => false,
    }
}
