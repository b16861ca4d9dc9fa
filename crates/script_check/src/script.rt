//! Whole scripts.
ghost use Rattle.script_tree.specs.Script.{tree_of_script};
ghost use Rattle.script_types.specs.ElaborationOfStatements.{statements_made};
ghost use Rattle.script_types.specs.ProgramOf.{steps_of};
ghost use Rattle.script_check_terms.specs.SettingOf.{setting_of};
ghost use Rattle.script_check.specs.Blocks.{MakesSteps};

use crate::blocks::check_statements;
use script_check_terms::{Locals, ScriptFault, Setting};
use script_tree::Script;
use script_types::{CodeList, Step};

/// The steps of a script at whose start those variables are visible.
pub fn check_script<'a>(
    setting: &Setting,
    scope: Locals<'a>,
    script: &'a Script,
) -> Result<CodeList<Step>, ScriptFault>
    ensures { MakesSteps steps_of result (statements_made (setting_of setting.now) scope.entry 0 (tree_of_script script.now)) }
{
    let _bytes = script.text().len();
    let mut visible = scope;
    let made = check_statements(setting, &mut visible, 0, script.statements())?;
    Ok(CodeList::from(made.steps))
}
