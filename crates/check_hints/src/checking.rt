//! The check of a text as a script.
ghost use Rattle.std.specs.Prelude.{◌≡◌, IfOk};
ghost use Rattle.script_tree.specs.Reading.{script_read};
ghost use Rattle.script_tree.specs.Script.{tree_of_script};
ghost use Rattle.script_types.specs.Scopes.{parameters_in_scope};
ghost use Rattle.script_check_terms.specs.SettingOf.{setting_of};
ghost use Rattle.check_hints.specs.Probes.{fits_at, is_mismatch, probe, probe_read, probe_script, stands_outside};

use handler_lang::parse;
use script_check::check_script;
use script_check_terms::{Holding, Locals, ScriptFault, Setting};
use script_tree::{Script, SyntaxFault};
use script_types::{CheckBad, FieldCode, Misuse};
use slee_value::NoMemory;
use std::alloc::Global;
use std::str;

/// What the check of a text finds.
#[derive(Clone, Copy)]
pub enum Finding {
    /// It is no script.
    Unread,
    Fine,
    /// Its first misuse.
    At(Misuse),
}

/// The variables that a method's parameters are.
fn scope_of<'a>(alloc: Global, parameters: &'a [FieldCode]) -> Result<Locals<'a>, NoMemory>
    ensures { IfOk result (λ scope. scope ≡ parameters_in_scope parameters.now) }
{
    let mut scope = Locals::new(alloc);
    'fields: for field in parameters {
        scope.add(field.name.as_bytes(), Holding::Value(field.kind))?;
    }
    Ok(scope)
}

/// What the check of a script finds.
#[tactic(auto, unfolding(crate::specs::Probes::probe_script))]
fn check_one(
    setting: &Setting,
    parameters: &[FieldCode],
    script: &Script,
) -> Result<Finding, NoMemory>
    ensures { IfOk result (λ p. p ≡ probe_script (setting_of setting.now) (parameters_in_scope parameters.now) (tree_of_script script.now)) }
{
    let scope = scope_of(setting.alloc, parameters)?;
    match check_script(setting, scope, script) {
        Ok(_) => Ok(Finding::Fine),
        Err(ScriptFault::At(misuse)) => Ok(Finding::At(misuse)),
        Err(ScriptFault::NoMemory) => Err(NoMemory),
    }
}

/// What the check of a text finds.
#[tactic(auto, unfolding(crate::specs::Probes::probe_read))]
fn probe_text(setting: &Setting, parameters: &[FieldCode], text: &str) -> Result<Finding, NoMemory>
    ensures { IfOk result (λ p. p ≡ probe_read (setting_of setting.now) (parameters_in_scope parameters.now) (script_read text.now)) }
{
    match parse(setting.alloc, text) {
        Ok(script) => check_one(setting, parameters, &script),
        Err(SyntaxFault::At { .. }) => Ok(Finding::Unread),
        Err(SyntaxFault::NoMemory) => Err(NoMemory),
    }
}

/// What the check of a text finds, where these are the parameters that are visible at its start.
#[tactic(auto, unfolding(crate::specs::Probes::probe), using(crate::proofs::Utf8::read, crate::proofs::Utf8::unread))]
pub fn probe(setting: &Setting, parameters: &[FieldCode], text: &[u8]) -> Result<Finding, NoMemory>
    ensures { IfOk result (λ p. p ≡ probe (setting_of setting.now) (parameters_in_scope parameters.now) text.now) }
{
    match str::from_utf8(text) {
        Ok(text) => probe_text(setting, parameters, text),
        Err(_) => Ok(Finding::Unread),
    }
}

/// Whether a misuse is a type that isn't the one asked for.
pub(crate) fn is_mismatch(kind: CheckBad) -> bool
    ensures { result ≡ is_mismatch kind }
{
    match kind {
        CheckBad::Mismatch => true,
        CheckBad::Name | CheckBad::Count | CheckBad::Place => false,
    }
}

/// Whether the text is a script whose first misuse, if it has one, isn't at one of the tokens from one place to before another.
pub(crate) fn stands_outside(found: Finding, from: usize, to: usize) -> bool
    ensures { result ≡ stands_outside found from to }
{
    match found {
        Finding::Unread => false,
        Finding::Fine => true,
        Finding::At(misuse) => misuse.at < from || to <= misuse.at,
    }
}

/// Whether the text is a script whose first misuse isn't a type at that place.
pub(crate) fn fits_at(found: Finding, at: usize) -> bool
    ensures { result ≡ fits_at found at }
{
    match found {
        Finding::Unread => false,
        Finding::Fine => true,
        Finding::At(misuse) => misuse.at != at || !is_mismatch(misuse.kind),
    }
}
