//! What loops go over.
ghost use Rattle.std.specs.Prelude.{◌≡◌, ◌≤◌, map};
ghost use Rattle.script_meaning.specs.Steps.{items};
ghost use Rattle.script_types.specs.Numbers.{IsNumberedRange};
ghost use Rattle.script_run_machine.specs.Agreeing.{AgreesAs};
ghost use Rattle.script_run_machine.specs.Settings.{setting_of};
ghost use Rattle.script_run_blocks.specs.Loops.{variable_in};

use script_run_machine::{Machine, Scene, Stop, Variable};
use script_run_reads::{attached_activities, children};
use script_run_terms::activity_value;
use script_types::Range;
use slee_effect::Ref;

/// The variable of a loop for one of its items.
pub fn loop_variable(range: &Range, item: Ref) -> Variable
    ensures { result ≡ variable_in range.now item }
{
    match range {
        Range::Activities => Variable::of_value(activity_value(item)),
        Range::Children(_) => Variable::of_child(item),
    }
}

/// What a loop goes over, as it is when the loop begins.
pub fn read_items(machine: &mut Machine, scene: &Scene, range: &Range) -> Result<Vec<Ref>, Stop>
    requires names { machine.old.names ≡ scene.now.names.now }
    requires range { IsNumberedRange scene.now.names.now range.now }
    ensures agrees { AgreesAs (λ v. map (variable_in range.now) v.items) (items (setting_of scene.now) range.now) machine.old machine.new result }
    ensures spent { machine.new.left ≤ machine.old.left }
    ensures names { machine.new.names ≡ machine.old.names }
{
    match range {
        Range::Activities => attached_activities(machine, scene),
        Range::Children(relation) => children(machine, scene, relation),
    }
}
