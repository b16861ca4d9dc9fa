//! The types that are found and wanted at the first fault of a deployment.
ghost use Rattle.std.specs.Prelude.{◌≡◌, [], IfOk, option_map};
ghost use Rattle.std.specs.Option.{option_map_or};
ghost use Rattle.script_tree.specs.Script.{tree_of_script};
ghost use Rattle.script_types.specs.Codes.{built_in_code};
ghost use Rattle.script_types.specs.CodesOf.{block_of_code, codes_of};
ghost use Rattle.script_types.specs.Scopes.{parameters_in_scope};
ghost use Rattle.script_types.specs.Typing.{fields_of_event, task_for};
ghost use Rattle.script_types.specs.TypingExpressions.{InMethod, OnEvent};
ghost use Rattle.script_check_terms.specs.SettingOf.{role_of, setting_of};
ghost use Rattle.check_hints.specs.Deployed.{AreTypesIn};
ghost use Rattle.check_hints.specs.Mismatches.{types_of};
ghost use Rattle.check_hints.specs.Places.{told_at, told_by, told_in, told_of};
ghost use Rattle.check_hints.specs.Told.{is_at, told};

use crate::checking::{Finding, is_mismatch, probe};
use crate::mismatch::{MismatchHint, mismatch_hint};
use crate::place::place_at;
use built_in_events::BuiltInEvent;
use deploy_json::{ReadFault, read_parts};
use script_check_terms::{Role, Setting, event_named};
use script_tree::{Place, Script, place_of_token};
use script_types::{
    BlockCode, CodePart, CodePlace, Codes, FieldCode, HandlerCode, MethodCode, Misuse, NamedList,
};
use slee_descriptor::Deployment;
use slee_value::{Name, NoMemory};
use std::alloc::Global;

/// Whether a misuse is a type, at that place of the text.
fn is_at(alloc: Global, text: &str, misuse: Misuse, place: Place) -> Result<bool, NoMemory>
    ensures { IfOk result (λ same. same ≡ is_at text.now misuse place) }
{
    if !is_mismatch(misuse.kind) {
        return Ok(false);
    }
    let found = place_of_token(alloc, text, misuse.at)?;
    Ok(found.line == place.line && found.column == place.column)
}

/// The types at that place, if a text's first misuse is that of a type there.
fn told(
    setting: &Setting,
    parameters: &[FieldCode],
    text: &str,
    place: Place,
) -> Result<Option<MismatchHint>, NoMemory>
    ensures { IfOk result (λ hint. option_map types_of hint ≡ told (setting_of setting.now) (parameters_in_scope parameters.now) text.now place) }
{
    let Finding::At(misuse) = probe(setting, parameters, text.as_bytes())? else {
        return Ok(None);
    };
    if !is_at(setting.alloc, text, misuse, place)? {
        return Ok(None);
    }
    mismatch_hint(setting, parameters, text, misuse.at)
}

/// The fields of a built-in event.
fn built_in_fields(alloc: Global, event: BuiltInEvent) -> Result<NamedList<FieldCode>, NoMemory>
    ensures { IfOk result (λ fields. fields ≡ (built_in_code event).fields) }
{
    let Some((name, kind)) = event.field() else {
        return Ok(NamedList::new(alloc));
    };
    let name = Name::from_slice(alloc, name.as_bytes())?;
    let mut fields = Vec::new(alloc);
    fields.push(FieldCode { name, kind })?;
    NamedList::from_items(alloc, fields)
}

/// A block, with all that its scripts may name.
#[derive(Clone, Copy)]
struct Home<'a> {
    alloc: Global,
    codes: &'a Codes,
    block: &'a BlockCode,
}

/// The types at a place of a text that is checked as a script of that role.
fn told_as(
    home: &Home,
    role: Role,
    parameters: &[FieldCode],
    text: &str,
    place: Place,
) -> Result<Option<MismatchHint>, NoMemory>
    ensures { IfOk result (λ hint. option_map types_of hint ≡ told (record { codes = codes_of home.now.codes.now; block = block_of_code home.now.block.now; role = role_of role.entry }) (parameters_in_scope parameters.now) text.now place) }
{
    let setting = Setting {
        alloc: home.alloc,
        codes: home.codes,
        block: home.block,
        role,
    };
    told(&setting, parameters, text, place)
}

/// The same of a handler of an event with these fields.
fn told_with_fields(
    home: &Home,
    handler: &HandlerCode,
    fields: &NamedList<FieldCode>,
    place: Place,
) -> Result<Option<MismatchHint>, NoMemory>
    requires { fields.now ≡ fields_of_event handler.now.event (codes_of home.now.codes.now) }
    ensures { IfOk result (λ hint. option_map types_of hint ≡ told (record { codes = codes_of home.now.codes.now; block = block_of_code home.now.block.now; role = OnEvent (fields_of_event handler.now.event (codes_of home.now.codes.now)) }) [] handler.now.script.text place) }
{
    let text = handler.script.text().as_str();
    told_as(home, Role::OnEvent(fields), &[], text, place)
}

/// The same of a handler: it sees the fields of its event, which is built in or declared.
#[tactic(auto, using(crate::proofs::Fields::declared))]
fn told_of_handler(
    home: &Home,
    handler: &HandlerCode,
    place: Place,
) -> Result<Option<MismatchHint>, NoMemory>
    ensures { IfOk result (λ hint. option_map types_of hint ≡ told (record { codes = codes_of home.now.codes.now; block = block_of_code home.now.block.now; role = OnEvent (fields_of_event handler.now.event (codes_of home.now.codes.now)) }) [] handler.now.script.text place) }
{
    let name = handler.event.as_bytes();
    if let Some(event) = BuiltInEvent::named(name) {
        let fields = built_in_fields(home.alloc, event)?;
        return told_with_fields(home, handler, &fields, place);
    }
    match event_named(home.codes, name) {
        Some(event) => told_with_fields(home, handler, &event.fields, place),
        None => told_with_fields(home, handler, &NamedList::new(home.alloc), place),
    }
}

/// The same of a method: it sees its parameters.
fn told_of_method(
    home: &Home,
    method: &MethodCode,
    place: Place,
) -> Result<Option<MismatchHint>, NoMemory>
    ensures { IfOk result (λ hint. option_map types_of hint ≡ told (record { codes = codes_of home.now.codes.now; block = block_of_code home.now.block.now; role = InMethod method.now.result }) (parameters_in_scope method.now.parameters) method.now.script.text place) }
{
    let role = Role::InMethod(method.result);
    let text = method.script.text().as_str();
    told_as(home, role, method.parameters.as_slice(), text, place)
}

/// The same of a script that a block may lack; none where it does.
fn told_of_callback(
    home: &Home,
    role: Role,
    script: &Option<Script>,
    place: Place,
) -> Result<Option<MismatchHint>, NoMemory>
    ensures { IfOk result (λ hint. option_map types_of hint ≡ told_in (codes_of home.now.codes.now) (block_of_code home.now.block.now) (option_map_or (λ s. s.text) script.now []) place (option_map (λ s. task_for (role_of role.entry) (tree_of_script s)) script.now)) }
{
    match script {
        Some(script) => told_as(home, role, &[], script.text().as_str(), place),
        None => Ok(None),
    }
}

/// The types at a place of one of the block's scripts; none where it has no such script.
#[tactic(auto, using(crate::proofs::Items::item_mapped))]
fn told_of(home: &Home, part: CodePart, place: Place) -> Result<Option<MismatchHint>, NoMemory>
    ensures { IfOk result (λ hint. option_map types_of hint ≡ told_of home.now.codes.now home.now.block.now part place) }
{
    match part {
        CodePart::Handler(number) => match home.block.handlers.as_slice().get(number as usize) {
            Some(handler) => told_of_handler(home, handler, place),
            None => Ok(None),
        },
        CodePart::Method(number) => match home.block.methods.as_slice().get(number as usize) {
            Some(method) => told_of_method(home, method, place),
            None => Ok(None),
        },
        CodePart::Exception => {
            told_of_callback(home, Role::OnException, &home.block.exception, place)
        }
        CodePart::RolledBack => {
            told_of_callback(home, Role::OnRolledBack, &home.block.rolled_back, place)
        }
        CodePart::Remove => told_of_callback(home, Role::OnRemove, &home.block.remove, place),
    }
}

/// The same of the script that stands there in all blocks.
fn told_at(
    alloc: Global,
    codes: &Codes,
    at: CodePlace,
    place: Place,
) -> Result<Option<MismatchHint>, NoMemory>
    ensures { IfOk result (λ hint. option_map types_of hint ≡ told_at codes.now place at) }
{
    let Some(block) = codes.blocks.as_slice().get(at.block as usize) else {
        return Ok(None);
    };
    let home = Home {
        alloc,
        codes,
        block,
    };
    told_of(&home, at.part, place)
}

/// The same of the script at a JSON pointer.
fn told_by(
    alloc: Global,
    codes: &Codes,
    pointer: &str,
    place: Place,
) -> Result<Option<MismatchHint>, NoMemory>
    ensures { IfOk result (λ hint. option_map types_of hint ≡ told_by codes.now pointer.now place) }
{
    match place_at(alloc, codes.blocks.as_slice(), pointer)? {
        Some(at) => told_at(alloc, codes, at, place),
        None => Ok(None),
    }
}

/// The types that are found and wanted at that place of the script at a JSON pointer of a deployment, if its first fault is a
/// type there.
#[tactic(auto, using(crate::proofs::InParts::unread))]
pub fn types_told(
    alloc: Global,
    bytes: &[u8],
    pointer: &str,
    place: Place,
) -> Result<Option<MismatchHint>, NoMemory>
    ensures { IfOk result (λ hint. AreTypesIn bytes.now pointer.now place (option_map types_of hint)) }
{
    let parts = match read_parts(alloc, bytes) {
        Ok(parts) => parts,
        Err(ReadFault::NoMemory) => return Err(NoMemory),
        Err(_) => return Ok(None),
    };
    let deployment = Deployment::from_parts(alloc, parts)?;
    told_by(alloc, deployment.codes(), pointer, place)
}
