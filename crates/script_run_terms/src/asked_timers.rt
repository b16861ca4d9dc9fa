//! What is asked of timers.
ghost use Rattle.std.specs.Prelude.{◌≡◌, ◌≤◌};
ghost use Rattle.script_types.specs.declared.term.Question.TheVariants as q;
ghost use Rattle.script_meaning.specs.Terms.{ask};
ghost use Rattle.script_meaning.specs.Values.{flag};
ghost use Rattle.script_run_machine.specs.Agreeing.{AgreesAs};
ghost use Rattle.script_run_machine.specs.Lending.{value_at, standing};
ghost use Rattle.script_run_machine.specs.Settings.{setting_of};

use script_run_machine::{Machine, Place, Scene, Stop, timer_of};
use script_run_reads::timer;

/// `has_timer(e)`
#[tactic(auto, using(script_run_machine::proofs::KindLemmas::no_timer_stays, script_run_machine::proofs::KindLemmas::timer_given))]
pub(crate) fn ask_has_timer(machine: &mut Machine, scene: &Scene, x: &Place) -> Result<bool, Stop>
    requires names { machine.old.names ≡ scene.now.names.now }
    ensures agrees { AgreesAs flag (ask (setting_of scene.now) q.HasTimer (value_at (standing machine.old) x.now)) machine.old machine.new result }
    ensures spent { machine.new.left ≤ machine.old.left }
    ensures names { machine.new.names ≡ machine.old.names }
    ensures kept { standing machine.new ≡ standing machine.old }
{
    let one = timer_of(machine.lend(x))?;
    let activity = timer(machine, scene, one)?;
    Ok(activity.is_some())
}
