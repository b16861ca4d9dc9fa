//! What a script stands in. Clauses see it through `setting_of`.
ghost use Rattle.std.specs.Prelude.{◌≡◌};
ghost use Rattle.script_types.specs.TypingExpressions.{not_on_remove, is_remove};
ghost use Rattle.script_check_terms.specs.Answers.{Gives};
ghost use Rattle.script_check_terms.specs.SettingOf.{setting_of, role_of};

use crate::{ScriptFault, check_test};
use script_types::{BlockCode, CheckBad, Codes, FieldCode, NamedList};
use slee_value::Kind;
use std::alloc::Global;

/// Which of a block's scripts it is.
#[derive(Drop)]
pub enum Role<'a> {
    /// A handler, with the fields of its event.
    OnEvent(&'a NamedList<FieldCode>),
    /// A method, with the type of its result.
    InMethod(Option<Kind>),
    OnException,
    OnRolledBack,
    OnRemove,
}

/// All that a script may name, the block that has it, and which one it is.
#[derive(Drop)]
pub struct Setting<'a> {
    pub alloc: Global,
    pub codes: &'a Codes,
    pub block: &'a BlockCode,
    pub role: Role<'a>,
}

impl<'a> Setting<'a> {
    /// Whether it is a remove script.
    pub fn is_on_remove(&self) -> bool
        ensures { result ≡ is_remove (setting_of self.now).role }
    {
        match self.role {
            Role::OnRemove => true,
            _ => false,
        }
    }
}

/// What no remove script may have.
pub fn check_not_on_remove(setting: &Setting, at: usize) -> Result<(), ScriptFault>
    ensures { Gives (λ x. x) result (not_on_remove (setting_of setting.now) at) }
{
    check_test(CheckBad::Place, at, !setting.is_on_remove())
}
