//! What is asked of activities.
ghost use Rattle.std.specs.Prelude.{◌≡◌, ◌≤◌};
ghost use Rattle.slee_value.specs.declared.value.Value.TheVariants as v;
ghost use Rattle.slee_effect.specs.declared.value.Val.TheVariants.{Plain};
ghost use Rattle.script_types.specs.declared.term.Question.TheVariants as q;
ghost use Rattle.script_meaning.specs.Terms.{ask, is_active};
ghost use Rattle.script_meaning.specs.Values.{flag};
ghost use Rattle.script_types.specs.Numbers.{IsNumbered};
ghost use Rattle.script_run_machine.specs.Agreeing.{AgreesAs, EndsFinding};
ghost use Rattle.script_run_machine.specs.Lending.{value_at, standing};
ghost use Rattle.script_run_machine.specs.Machines.{state_of};
ghost use Rattle.script_run_machine.specs.Settings.{setting_of};

use script_meaning::AcSeen;
use script_run_machine::{Machine, Place, Scalar, Scene, Stop, activity_of};
use script_run_reads::{attached, attribute, attribute_scalar, is_masked, state_of, used};
use script_types::Symbol;
use slee_effect::Ref;
use slee_value::{Kind, Text};

fn is_active(seen: Option<AcSeen>) -> bool
    ensures { result ≡ is_active seen }
{
    match seen {
        None => false,
        Some(seen) => !seen.ending,
    }
}

/// `active(a)`
#[tactic(auto, using(script_run_machine::proofs::KindLemmas::no_activity_stays, script_run_machine::proofs::KindLemmas::activity_given))]
pub(crate) fn ask_active(machine: &mut Machine, scene: &Scene, x: &Place) -> Result<bool, Stop>
    requires names { machine.old.names ≡ scene.now.names.now }
    ensures agrees { AgreesAs flag (ask (setting_of scene.now) q.Active (value_at (standing machine.old) x.now)) machine.old machine.new result }
    ensures spent { machine.new.left ≤ machine.old.left }
    ensures names { machine.new.names ≡ machine.old.names }
    ensures kept { standing machine.new ≡ standing machine.old }
{
    let activity = activity_of(machine.lend(x))?;
    let seen = state_of(machine, scene, activity)?;
    Ok(is_active(seen))
}

/// `attached(a)`
#[tactic(auto, using(script_run_machine::proofs::KindLemmas::no_activity_stays, script_run_machine::proofs::KindLemmas::activity_given))]
pub(crate) fn ask_attached(machine: &mut Machine, scene: &Scene, x: &Place) -> Result<bool, Stop>
    requires names { machine.old.names ≡ scene.now.names.now }
    ensures agrees { AgreesAs flag (ask (setting_of scene.now) q.Attached (value_at (standing machine.old) x.now)) machine.old machine.new result }
    ensures spent { machine.new.left ≤ machine.old.left }
    ensures names { machine.new.names ≡ machine.old.names }
    ensures kept { standing machine.new ≡ standing machine.old }
{
    let activity = activity_of(machine.lend(x))?;
    used(machine, scene, activity)?;
    attached(machine, scene, activity)
}

/// `attr(a, NAME)`
#[tactic(auto, using(script_run_machine::proofs::KindLemmas::no_activity_stays, script_run_machine::proofs::KindLemmas::activity_given))]
pub(crate) fn ask_attribute<'a>(
    machine: &mut Machine,
    scene: &Scene<'a>,
    key: &Symbol<Text>,
    kind: Kind,
    x: &Place,
) -> Result<Place<'a>, Stop>
    requires names { machine.old.names ≡ scene.now.names.now }
    requires key { IsNumbered scene.now.names.now key.now }
    ensures agrees { AgreesAs (value_at (standing machine.new)) (ask (setting_of scene.now) (q.Attribute key.now kind) (value_at (standing machine.old) x.now)) machine.old machine.new result }
    ensures spent { machine.new.left ≤ machine.old.left }
    ensures names { machine.new.names ≡ machine.old.names }
    ensures kept { standing machine.new ≡ standing machine.old }
{
    let activity = activity_of(machine.lend(x))?;
    used(machine, scene, activity)?;
    attribute(machine, scene, key, kind, activity)
}

/// `attr(activity, NAME)`
pub(crate) fn own_attribute<'a>(
    machine: &mut Machine,
    scene: &Scene<'a>,
    key: &Symbol<Text>,
    kind: Kind,
) -> Result<Place<'a>, Stop>
    requires names { machine.old.names ≡ scene.now.names.now }
    requires key { IsNumbered scene.now.names.now key.now }
    ensures agrees { AgreesAs (value_at (standing machine.new)) (ask (setting_of scene.now) (q.Attribute key.now kind) (Plain (v.Activity scene.now.arguments.now.activity))) machine.old machine.new result }
    ensures spent { machine.new.left ≤ machine.old.left }
    ensures names { machine.new.names ≡ machine.old.names }
    ensures kept { standing machine.new ≡ standing machine.old }
{
    let activity = Ref::Known(scene.arguments.activity.0);
    used(machine, scene, activity)?;
    attribute(machine, scene, key, kind, activity)
}

/// The number or truth value that `attr(a, NAME)` is, if it is one.
#[tactic(auto, using(script_run_machine::proofs::KindLemmas::no_activity_stays, script_run_machine::proofs::KindLemmas::activity_given))]
pub(crate) fn ask_attribute_scalar<T: Scalar>(
    machine: &mut Machine,
    scene: &Scene,
    key: &Symbol<Text>,
    kind: Kind,
    x: &Place,
) -> Result<Option<T>, Stop>
    requires names { machine.old.names ≡ scene.now.names.now }
    requires key { IsNumbered scene.now.names.now key.now }
    ensures finds { EndsFinding T.value_of T.is_other (ask (setting_of scene.now) (q.Attribute key.now kind) (value_at (standing machine.old) x.now) (state_of machine.old)) machine.new result }
    ensures spent { machine.new.left ≤ machine.old.left }
    ensures names { machine.new.names ≡ machine.old.names }
    ensures kept { standing machine.new ≡ standing machine.old }
{
    let activity = activity_of(machine.lend(x))?;
    used(machine, scene, activity)?;
    attribute_scalar(machine, scene, key, kind, activity)
}

/// `masked(TEXT, a)`
#[tactic(auto, using(script_run_machine::proofs::KindLemmas::no_activity_stays, script_run_machine::proofs::KindLemmas::activity_given))]
pub(crate) fn ask_masked(
    machine: &mut Machine,
    scene: &Scene,
    event: &Symbol<Text>,
    x: &Place,
) -> Result<bool, Stop>
    requires names { machine.old.names ≡ scene.now.names.now }
    requires event { IsNumbered scene.now.names.now event.now }
    ensures agrees { AgreesAs flag (ask (setting_of scene.now) (q.Masked event.now) (value_at (standing machine.old) x.now)) machine.old machine.new result }
    ensures spent { machine.new.left ≤ machine.old.left }
    ensures names { machine.new.names ≡ machine.old.names }
    ensures kept { standing machine.new ≡ standing machine.old }
{
    let activity = activity_of(machine.lend(x))?;
    used(machine, scene, activity)?;
    is_masked(machine, scene, event, activity)
}
