//! Activities: whether one is there, and in which state.
ghost use Rattle.std.specs.Prelude.{◌≡◌, List, ℕ, ◌≤◌, ◌<◌, ◌+◌, ◌++◌, ◌^◌, length, option_map};
ghost use Rattle.script_meaning.specs.Overlay.{overlay, overlay_from, activities_by, activity_after};
ghost use Rattle.script_meaning.specs.Observing as read;
ghost use Rattle.script_meaning.specs.Observing.{key_of};
ghost use Rattle.script_meaning.specs.declared.key.Key.TheVariants as k;
ghost use Rattle.script_run_machine.specs.Agreeing.{Agrees};
ghost use Rattle.script_run_machine.specs.Asking.{AreNumberedBy, state_wanted};
ghost use Rattle.script_run_machine.specs.Lending.{standing};
ghost use Rattle.script_run_machine.specs.Settings.{setting_of};

use crate::answers::activity_in;
use crate::things::{Thing, count_made, made_by};
use script_meaning::{AcSeen, FailKind};
use script_run_machine::{Machine, Scene, Stop, WantedState, is_same_ref};
use slee_effect::{Effect, Ref};
use slee_value::ActivityId;

/// What is seen of an activity behind an effect, before which so many were made.
fn state_after(activity: Ref, made: u32, effect: &Effect, seen: Option<AcSeen>) -> Option<AcSeen>
    ensures { result ≡ activity_after activity made effect.now seen }
{
    match effect {
        Effect::NewNull if is_same_ref(Ref::Fresh(made), activity) => Some(AcSeen {
            null: true,
            ending: false,
        }),
        Effect::EndNull { activity: other } if is_same_ref(*other, activity) => match seen {
            Some(seen) => Some(AcSeen {
                null: seen.null,
                ending: true,
            }),
            None => None,
        },
        _ => seen,
    }
}

/// What is seen of an activity behind effects, before which so many were made.
fn state_over(
    activity: Ref,
    before: u32,
    effects: &[Effect],
    first: Option<AcSeen>,
) -> Option<AcSeen>
    requires { before + length effects.now < 2 ^ 32 }
    ensures { result ≡ overlay_from activities_by (activity_after activity) before effects.now first }
{
    let mut made = before;
    let mut current = first;
    for effect in effects {
        current = state_after(activity, made, effect, current);
        made += made_by(Thing::Activity, effect);
    }
    current
}

#[tactic(auto, using(crate::proofs::CountLemmas::laid_behind))]
fn state_laid(
    machine: &Machine,
    scene: &Scene,
    activity: Ref,
    first: Option<AcSeen>,
) -> Option<AcSeen>
    ensures { result ≡ overlay activities_by (activity_after activity) (scene.now.effects.now ++ machine.now.effects) first }
{
    let first = state_over(activity, 0, scene.effects, first);
    let before = count_made(Thing::Activity, scene.effects);
    state_over(activity, before, machine.effects(), first)
}

fn state_key(activity: Ref) -> Option<WantedState>
    ensures key { option_map state_wanted result ≡ key_of (λ n. k.AcState (record { 0 = n })) activity }
    ensures numbered { (names : List (List ℕ)) → AreNumberedBy (λ _ _. Unit {0}) names result }
{
    match activity {
        Ref::Known(number) => Some(WantedState {
            activity: ActivityId(number),
        }),
        Ref::Fresh(_) => None,
    }
}

/// What is seen of an activity, if it is there.
pub fn state_of(machine: &mut Machine, scene: &Scene, activity: Ref) -> Result<Option<AcSeen>, Stop>
    requires names { machine.old.names ≡ scene.now.names.now }
    ensures agrees { Agrees (read.state_of (setting_of scene.now) activity) machine.old machine.new result }
    ensures spent { machine.new.left ≤ machine.old.left }
    ensures names { machine.new.names ≡ machine.old.names }
    ensures kept { standing machine.new ≡ standing machine.old }
{
    let Some(seen) = machine.seen_again(scene, state_key(activity)) else {
        return first_state_of(machine, scene, activity);
    };
    Ok(state_laid(machine, scene, activity, activity_in(Some(seen))))
}

/// The same where the activity wasn't seen yet.
#[inline(never)]
fn first_state_of(
    machine: &mut Machine,
    scene: &Scene,
    activity: Ref,
) -> Result<Option<AcSeen>, Stop>
    requires names { machine.old.names ≡ scene.now.names.now }
    ensures agrees { Agrees (read.state_of (setting_of scene.now) activity) machine.old machine.new result }
    ensures spent { machine.new.left ≤ machine.old.left }
    ensures names { machine.new.names ≡ machine.old.names }
    ensures kept { standing machine.new ≡ standing machine.old }
{
    let seen = machine.look_first(scene, state_key(activity))?;
    Ok(state_laid(machine, scene, activity, activity_in(seen)))
}

/// What is seen of an activity that is used, which has to be there.
pub fn used(machine: &mut Machine, scene: &Scene, activity: Ref) -> Result<AcSeen, Stop>
    requires names { machine.old.names ≡ scene.now.names.now }
    ensures agrees { Agrees (read.used (setting_of scene.now) activity) machine.old machine.new result }
    ensures spent { machine.new.left ≤ machine.old.left }
    ensures names { machine.new.names ≡ machine.old.names }
    ensures kept { standing machine.new ≡ standing machine.old }
{
    match state_of(machine, scene, activity)? {
        Some(seen) => Ok(seen),
        None => Err(Stop::Broken(FailKind::Gone)),
    }
}

/// The same of one that has to be Active.
pub fn used_active(machine: &mut Machine, scene: &Scene, activity: Ref) -> Result<AcSeen, Stop>
    requires names { machine.old.names ≡ scene.now.names.now }
    ensures agrees { Agrees (read.used_active (setting_of scene.now) activity) machine.old machine.new result }
    ensures spent { machine.new.left ≤ machine.old.left }
    ensures names { machine.new.names ≡ machine.old.names }
    ensures kept { standing machine.new ≡ standing machine.old }
{
    let seen = used(machine, scene, activity)?;
    if seen.ending {
        return Err(Stop::Broken(FailKind::Ending));
    }
    Ok(seen)
}
