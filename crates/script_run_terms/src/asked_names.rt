//! What is asked of names of activities.
ghost use Rattle.std.specs.Prelude.{◌≡◌, ◌≤◌};
ghost use Rattle.script_types.specs.declared.term.Question.TheVariants as q;
ghost use Rattle.script_meaning.specs.Terms.{ask};
ghost use Rattle.script_meaning.specs.Values.{activity_value, flag};
ghost use Rattle.script_run_machine.specs.Agreeing.{Agrees, AgreesAs};
ghost use Rattle.script_run_machine.specs.Lending.{value_at, standing};
ghost use Rattle.script_run_machine.specs.Settings.{setting_of};

use script_meaning::FailKind;
use script_run_machine::{Machine, Place, Scene, Stop};
use script_run_reads::named_in;
use slee_effect::{Ref, Val};
use slee_value::{ActivityId, Value};

/// The activity as a value.
pub fn activity_value(activity: Ref) -> Val
    ensures { result ≡ activity_value activity }
{
    match activity {
        Ref::Known(number) => Val::Plain(Value::Activity(ActivityId(number))),
        Ref::Fresh(number) => Val::NewActivity(number),
    }
}

/// `bound(e)`
#[tactic(auto, using(crate::proofs::AskedLemmas::bound_asked))]
pub(crate) fn ask_bound(machine: &mut Machine, scene: &Scene, x: &Place) -> Result<bool, Stop>
    requires names { machine.old.names ≡ scene.now.names.now }
    ensures agrees { AgreesAs flag (ask (setting_of scene.now) q.Bound (value_at (standing machine.old) x.now)) machine.old machine.new result }
    ensures spent { machine.new.left ≤ machine.old.left }
    ensures names { machine.new.names ≡ machine.old.names }
    ensures kept { standing machine.new ≡ standing machine.old }
{
    let activity = named_in(machine, scene, x)?;
    Ok(activity.is_some())
}

/// `lookup(e)`
#[tactic(auto, using(crate::proofs::AskedLemmas::lookup_asked))]
pub(crate) fn ask_lookup(machine: &mut Machine, scene: &Scene, x: &Place) -> Result<Val, Stop>
    requires names { machine.old.names ≡ scene.now.names.now }
    ensures agrees { Agrees (ask (setting_of scene.now) q.Lookup (value_at (standing machine.old) x.now)) machine.old machine.new result }
    ensures spent { machine.new.left ≤ machine.old.left }
    ensures names { machine.new.names ≡ machine.old.names }
    ensures kept { standing machine.new ≡ standing machine.old }
{
    match named_in(machine, scene, x)? {
        None => Err(Stop::Broken(FailKind::Unbound)),
        Some(activity) => Ok(activity_value(activity)),
    }
}
