//! What the names in `call` and `fire` stand for; `at` tokens stand before the name.
ghost use Rattle.std.specs.Prelude.{◌≡◌, bytes_eq, map, option_map};
ghost use Rattle.std.specs.List.{list_any};
ghost use Rattle.script_types.specs.Codes.{declared_event};
ghost use Rattle.script_types.specs.CodesOf.{method_of_code};
ghost use Rattle.script_types.specs.ElaborationOfStatements.{method_from, method_in};
ghost use Rattle.script_types.specs.TypingResult.{known};
ghost use Rattle.script_types.specs.TypingStatements.{check_service};
ghost use Rattle.script_check_terms.specs.Answers.{Gives};
ghost use Rattle.script_check_terms.specs.SettingOf.{setting_of};
ghost use Rattle.script_check_calls.specs.Parts.{method_at_of};

use script_check_terms::{ScriptFault, Setting, check_known, check_test, event_named};
use script_tree::{Identifier, Literal};
use script_types::{CheckBad, EventCode, MethodCode, Misuse, NamedList};
use slee_value::Name;

/// A method with its number in its block.
#[derive(Drop)]
pub struct MethodAt<'a> {
    pub number: usize,
    pub method: &'a MethodCode,
}

/// The method of that name.
#[tactic(auto, using(crate::proofs::LookupLemmas::method_is))]
fn method_named<'a>(methods: &'a NamedList<MethodCode>, name: &[u8]) -> Option<MethodAt<'a>>
    ensures { option_map method_at_of result ≡ method_from 0 name.now (map method_of_code methods.now) }
{
    let number = methods.place_of(name)?;
    let method = methods.find(name)?;
    Some(MethodAt { number, method })
}

/// The method of that name in the block with that number.
fn method_in<'a>(setting: &Setting<'a>, block: u32, name: &[u8]) -> Option<MethodAt<'a>>
    ensures { option_map method_at_of result ≡ method_in (setting_of setting.now) block name.now }
{
    let blocks = setting.codes.blocks.as_slice();
    let code = blocks.get(block as usize)?;
    method_named(&code.methods, name)
}

/// A method of the block with that number.
pub fn check_method<'a>(
    setting: &Setting<'a>,
    block: u32,
    name: &Identifier,
    at: usize,
) -> Result<MethodAt<'a>, ScriptFault>
    ensures { Gives method_at_of result (known at (method_in (setting_of setting.now) block name.now)) }
{
    check_known(at, method_in(setting, block, name.as_bytes()))
}

/// An event that the deployment declares.
pub fn check_event<'a>(
    setting: &Setting<'a>,
    name: &Literal,
    at: usize,
) -> Result<&'a EventCode, ScriptFault>
    ensures { Gives (λ r. r.now) result (known at (declared_event name.now (setting_of setting.now).codes)) }
{
    match event_named(setting.codes, name.text().as_bytes()) {
        Some(event) => Ok(event),
        None => Err(ScriptFault::At(Misuse {
            at,
            kind: CheckBad::Name,
        })),
    }
}

/// Whether it is the key of a service.
fn is_service(services: &NamedList<Name>, key: &[u8]) -> bool
    ensures { result ≡ list_any (bytes_eq key.now) services.now }
{
    services.find(key).is_some()
}

/// The service that alone gets an event, where one is named.
pub fn check_service(
    setting: &Setting,
    at: usize,
    service: &Option<Literal>,
) -> Result<(), ScriptFault>
    ensures { Gives (λ x. x) result (check_service (setting_of setting.now) at service.now) }
{
    let Some(key) = service else {
        return Ok(());
    };
    let services = &setting.codes.services;
    check_test(
        CheckBad::Name,
        at,
        is_service(services, key.text().as_bytes()),
    )
}
