//! The check of one script, with the place of its fault.
ghost use Rattle.std.specs.Prelude.{◌≡◌, IfOk, option_map};
ghost use Rattle.script_tree.specs.Script.{tree_of_script};
ghost use Rattle.script_types.specs.CodesOf.{codes_of, block_of_code};
ghost use Rattle.script_types.specs.ProgramOf.{steps_of};
ghost use Rattle.script_types.specs.Programs.{callback_of, place_of, steps_of as steps_built};
ghost use Rattle.script_types.specs.Scopes.{parameters_in_scope};
ghost use Rattle.script_check_terms.specs.SettingOf.{role_of};
ghost use Rattle.handler_check.specs.Building.{Builds};

use crate::code_fault::CodeFault;
use script_check::check_script;
use script_check_terms::{Holding, Locals, Role, ScriptFault, Setting};
use script_tree::Script;
use script_types::{BlockCode, CodeList, CodePart, CodePlace, Codes, FieldCode, Step};
use slee_value::NoMemory;
use std::alloc::Global;

/// A block by its number, with all that its scripts may name.
#[derive(Drop)]
pub(crate) struct Home<'a> {
    pub alloc: Global,
    pub codes: &'a Codes,
    pub block: &'a BlockCode,
    pub number: u32,
}

/// The variables that a method's parameters are.
pub(crate) fn parameters_in_scope<'a>(
    alloc: Global,
    fields: &'a [FieldCode],
) -> Result<Locals<'a>, NoMemory>
    ensures { IfOk result (λ l. l ≡ parameters_in_scope fields.now) }
{
    let mut scope = Locals::new(alloc);
    'fields: for field in fields {
        scope.add(field.name.as_bytes(), Holding::Value(field.kind))?;
    }
    Ok(scope)
}

/// The steps of a script of the block.
pub(crate) fn check_part<'a>(
    home: &Home<'a>,
    part: CodePart,
    role: Role<'a>,
    scope: Locals<'a>,
    script: &'a Script,
) -> Result<CodeList<Step>, CodeFault>
    ensures { Builds steps_of result (steps_built (codes_of home.now.codes.now) (block_of_code home.now.block.now) (place_of home.now.number part) (record { role = role_of role.entry; scope = scope.entry; script = tree_of_script script.now })) }
{
    let setting = Setting {
        alloc: home.alloc,
        codes: home.codes,
        block: home.block,
        role,
    };
    match check_script(&setting, scope, script) {
        Ok(steps) => Ok(steps),
        Err(ScriptFault::NoMemory) => Err(CodeFault::NoMemory),
        Err(ScriptFault::At(misuse)) => Err(CodeFault::At {
            place: CodePlace {
                block: home.number,
                part,
            },
            misuse,
        }),
    }
}

/// The steps of a script that the block may lack.
pub(crate) fn check_callback<'a>(
    home: &Home<'a>,
    part: CodePart,
    role: Role<'a>,
    script: &'a Option<Script>,
) -> Result<Option<CodeList<Step>>, CodeFault>
    ensures { Builds (option_map steps_of) result (callback_of (codes_of home.now.codes.now) (block_of_code home.now.block.now) (place_of home.now.number part) (role_of role.entry) (option_map tree_of_script script.now)) }
{
    match script {
        None => Ok(None),
        Some(script) => {
            let steps = check_part(home, part, role, Locals::new(home.alloc), script)?;
            Ok(Some(steps))
        }
    }
}
