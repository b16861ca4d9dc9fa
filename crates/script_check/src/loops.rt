//! The variable of a `for`.
ghost use Rattle.std.specs.Prelude.{◌≡◌, ◌++◌, ◌∷◌, [], OnOk};
ghost use Rattle.script_types.specs.ElaborationOfStatements.{loop_of};
ghost use Rattle.script_types.specs.Scopes.{Variable};
ghost use Rattle.script_check_terms.specs.SettingOf.{setting_of};
ghost use Rattle.script_check.specs.Loops.{Goes};

use script_check_steps::{add_child, add_value};
use script_check_terms::{Locals, ScriptFault, Setting, relation_named, symbol_of};
use script_tree::{Identifier, Over};
use script_types::{CheckBad, Misuse, Range};
use slee_value::Kind;

/// A variable for an activity, or for a child of the relation; `at` tokens stand before what the loop goes over.
pub fn add_loop_variable<'a>(
    setting: &Setting,
    scope: &mut Locals<'a>,
    name: &'a Identifier,
    at: usize,
    over: &Over,
) -> Result<Range, ScriptFault>
    ensures made { Goes result scope.new (loop_of (setting_of setting.now) scope.old name.now at over.now) }
    ensures one { OnOk result ((new : Variable) × (scope.new ≡ scope.old ++ new ∷ [])) }
{
    match over {
        Over::Activities => {
            add_value(scope, name, Kind::Activity)?;
            Ok(Range::Activities)
        }
        Over::Children(relation) => {
            let Some(found) = relation_named(setting.block, relation.as_bytes()) else {
                return Err(ScriptFault::At(Misuse {
                    at,
                    kind: CheckBad::Name,
                }));
            };
            let relation = symbol_of(setting, relation)?;
            add_child(scope, name, found.block)?;
            Ok(Range::Children(relation))
        }
    }
}
