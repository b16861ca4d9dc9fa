//! Attachments, and the activity on which a name or a timer stands.
ghost use Rattle.std.specs.Prelude.{◌≡◌, List, ℕ, ◌≤◌, ◌<◌, ◌+◌, ◌++◌, ◌^◌, length, option_map};
ghost use Rattle.script_meaning.specs.Overlay.{overlay, overlay_from, activities_by, timers_by, attached_after, named_after, timer_after, stands_on};
ghost use Rattle.script_meaning.specs.Observing as read;
ghost use Rattle.script_meaning.specs.Observing.{key_of, key_of_two};
ghost use Rattle.script_meaning.specs.Values.{with_text};
ghost use Rattle.script_meaning.specs.declared.key.Key.TheVariants as k;
ghost use Rattle.script_run_machine.specs.Agreeing.{Agrees};
ghost use Rattle.script_run_machine.specs.Asking.{AreNumberedBy, IsNumberedAsked, key_asked};
ghost use Rattle.script_run_machine.specs.Lending.{standing, value_at};
ghost use Rattle.script_run_machine.specs.Settings.{setting_of};
ghost use Rattle.script_run_reads.specs.Done.{done};

use crate::answers::{flag_in, refers_in};
use crate::things::{Thing, count_made, made_by};
use script_run_machine::{Asked, Machine, Place, Scene, Stop, is_same_ref, text_of};
use slee_effect::{Effect, Ref};
use slee_value::{ActivityId, EntityId, Text, TimerId};

/// Whether the entity is attached behind effects.
fn attached_over(entity: Ref, activity: Ref, effects: &[Effect], first: bool) -> bool
    ensures { result ≡ done (attached_after entity activity 0) effects.now first }
{
    let mut current = first;
    for effect in effects {
        match effect {
            Effect::Attach {
                entity: who,
                activity: on,
            } if is_same_ref(*who, entity) && is_same_ref(*on, activity) => current = true,
            Effect::Detach {
                entity: who,
                activity: on,
            } if is_same_ref(*who, entity) && is_same_ref(*on, activity) => current = false,
            _ => {}
        }
    }
    current
}

fn attached_key(entity: Ref, activity: Ref) -> Option<Asked<'static>>
    ensures key { option_map key_asked result ≡ key_of_two (λ m n. k.Attached (record { 0 = m }) (record { 0 = n })) entity activity }
    ensures numbered { (names : List (List ℕ)) → AreNumberedBy IsNumberedAsked names result }
{
    match (entity, activity) {
        (Ref::Known(entity), Ref::Known(activity)) => {
            Some(Asked::Attached(EntityId(entity), ActivityId(activity)))
        }
        _ => None,
    }
}

#[tactic(auto, using(crate::proofs::OverlayLemmas::attached_laid))]
fn attached_laid(machine: &Machine, scene: &Scene, activity: Ref, first: bool) -> bool
    ensures { result ≡ overlay activities_by (attached_after scene.now.me activity) (scene.now.effects.now ++ machine.now.effects) first }
{
    let first = attached_over(scene.me, activity, scene.effects, first);
    attached_over(scene.me, activity, machine.effects(), first)
}

/// Whether the entity is attached to the activity.
pub fn attached(machine: &mut Machine, scene: &Scene, activity: Ref) -> Result<bool, Stop>
    requires names { machine.old.names ≡ scene.now.names.now }
    ensures agrees { Agrees (read.attached (setting_of scene.now) activity) machine.old machine.new result }
    ensures spent { machine.new.left ≤ machine.old.left }
    ensures names { machine.new.names ≡ machine.old.names }
    ensures kept { standing machine.new ≡ standing machine.old }
{
    let seen = machine.look(scene, attached_key(scene.me, activity))?;
    Ok(attached_laid(machine, scene, activity, flag_in(seen)))
}

/// The activity for which a name stands behind effects.
fn named_over(name: &str, effects: &[Effect], first: Option<Ref>) -> Option<Ref>
    ensures { result ≡ done (named_after name.now 0) effects.now first }
{
    let mut current = first;
    for effect in effects {
        match effect {
            Effect::Bind {
                name: other,
                activity,
            } if other.as_bytes() == name.as_bytes() => current = Some(*activity),
            Effect::Unbind { name: other } if other.as_bytes() == name.as_bytes() => current = None,
            _ => {}
        }
    }
    current
}

#[tactic(auto, using(crate::proofs::OverlayLemmas::named_laid))]
fn named_laid(machine: &Machine, scene: &Scene, name: &str, first: Option<Ref>) -> Option<Ref>
    ensures { result ≡ overlay activities_by (named_after name.now) (scene.now.effects.now ++ machine.now.effects) first }
{
    let first = named_over(name, scene.effects, first);
    named_over(name, machine.effects(), first)
}

/// The activity for which a name stands.
pub fn named(machine: &mut Machine, scene: &Scene, name: &Text) -> Result<Option<Ref>, Stop>
    requires names { machine.old.names ≡ scene.now.names.now }
    ensures agrees { Agrees (read.named (setting_of scene.now) name.now) machine.old machine.new result }
    ensures spent { machine.new.left ≤ machine.old.left }
    ensures names { machine.new.names ≡ machine.old.names }
    ensures kept { standing machine.new ≡ standing machine.old }
{
    let name = name.as_str();
    let seen = machine.look(scene, Some(Asked::Named(name)))?;
    Ok(named_laid(machine, scene, name, refers_in(seen)))
}

/// The activity for which the text in this place stands.
#[tactic(auto, using(script_run_machine::proofs::KindLemmas::no_text_stays))]
pub fn named_in(machine: &mut Machine, scene: &Scene, place: &Place) -> Result<Option<Ref>, Stop>
    requires names { machine.old.names ≡ scene.now.names.now }
    ensures agrees { Agrees (with_text (value_at (standing machine.old) place.now) (read.named (setting_of scene.now))) machine.old machine.new result }
    ensures spent { machine.new.left ≤ machine.old.left }
    ensures names { machine.new.names ≡ machine.old.names }
    ensures kept { standing machine.new ≡ standing machine.old }
{
    let name = text_of(machine.lend(place))?;
    let looked = machine.peek(scene, Some(Asked::Named(name)))?;
    let activity = named_laid(machine, scene, name, refers_in(looked.seen));
    machine.note(looked)?;
    Ok(activity)
}

fn stands_on(activity: Ref, place: Option<Ref>) -> bool
    ensures { result ≡ stands_on activity place }
{
    match place {
        Some(other) => is_same_ref(activity, other),
        None => false,
    }
}

/// The activity on which a timer stands behind an effect, before which so many were made.
fn timer_after(timer: Ref, made: u32, effect: &Effect, place: Option<Ref>) -> Option<Ref>
    ensures { result ≡ timer_after timer made effect.now place }
{
    match effect {
        Effect::SetTimer { activity, .. } if is_same_ref(Ref::Fresh(made), timer) => {
            Some(*activity)
        }
        Effect::CancelTimer { timer: other } if is_same_ref(*other, timer) => None,
        Effect::EndNull { activity } if stands_on(*activity, place) => None,
        _ => place,
    }
}

/// The activity on which a timer stands behind effects, before which so many were made.
fn timer_over(timer: Ref, before: u32, effects: &[Effect], first: Option<Ref>) -> Option<Ref>
    requires { before + length effects.now < 2 ^ 32 }
    ensures { result ≡ overlay_from timers_by (timer_after timer) before effects.now first }
{
    let mut made = before;
    let mut current = first;
    for effect in effects {
        current = timer_after(timer, made, effect, current);
        made += made_by(Thing::Timer, effect);
    }
    current
}

#[tactic(auto, using(crate::proofs::CountLemmas::laid_behind))]
fn timer_laid(machine: &Machine, scene: &Scene, timer: Ref, first: Option<Ref>) -> Option<Ref>
    ensures { result ≡ overlay timers_by (timer_after timer) (scene.now.effects.now ++ machine.now.effects) first }
{
    let first = timer_over(timer, 0, scene.effects, first);
    let before = count_made(Thing::Timer, scene.effects);
    timer_over(timer, before, machine.effects(), first)
}

fn timer_key(timer: Ref) -> Option<Asked<'static>>
    ensures key { option_map key_asked result ≡ key_of (λ n. k.Timer (record { 0 = n })) timer }
    ensures numbered { (names : List (List ℕ)) → AreNumberedBy IsNumberedAsked names result }
{
    match timer {
        Ref::Known(number) => Some(Asked::Timer(TimerId(number))),
        Ref::Fresh(_) => None,
    }
}

/// The activity on which a timer stands.
pub fn timer(machine: &mut Machine, scene: &Scene, timer: Ref) -> Result<Option<Ref>, Stop>
    requires names { machine.old.names ≡ scene.now.names.now }
    ensures agrees { Agrees (read.timer (setting_of scene.now) timer) machine.old machine.new result }
    ensures spent { machine.new.left ≤ machine.old.left }
    ensures names { machine.new.names ≡ machine.old.names }
    ensures kept { standing machine.new ≡ standing machine.old }
{
    let seen = machine.look(scene, timer_key(timer))?;
    Ok(timer_laid(machine, scene, timer, refers_in(seen)))
}
