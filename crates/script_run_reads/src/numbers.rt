//! Numbers that are read: the time, and priorities.
ghost use Rattle.std.specs.Prelude.{◌≡◌, List, ℕ, ◌≤◌, ◌<◌, ◌+◌, ◌++◌, ◌^◌, length, option_map};
ghost use Rattle.script_meaning.specs.Overlay.{overlay, overlay_from, entities_by, priority_after};
ghost use Rattle.script_meaning.specs.Observing as read;
ghost use Rattle.script_meaning.specs.Observing.{key_of};
ghost use Rattle.script_meaning.specs.declared.key.Key.TheVariants as k;
ghost use Rattle.script_run_machine.specs.Agreeing.{Agrees};
ghost use Rattle.script_run_machine.specs.Asking.{AreNumberedBy, IsNumberedAsked, key_asked};
ghost use Rattle.script_run_machine.specs.Lending.{standing};
ghost use Rattle.script_run_machine.specs.Settings.{setting_of};

use crate::answers::number_in;
use crate::things::{Thing, count_made, made_by};
use script_run_machine::{Asked, Machine, Scene, Stop, is_same_ref};
use slee_effect::{Effect, Ref};
use slee_value::EntityId;

/// The time.
pub fn now(machine: &mut Machine, scene: &Scene) -> Result<i64, Stop>
    requires names { machine.old.names ≡ scene.now.names.now }
    ensures agrees { Agrees (read.now (setting_of scene.now)) machine.old machine.new result }
    ensures spent { machine.new.left ≤ machine.old.left }
    ensures names { machine.new.names ≡ machine.old.names }
    ensures kept { standing machine.new ≡ standing machine.old }
{
    let seen = machine.look(scene, Some(Asked::Now))?;
    Ok(number_in(seen))
}

/// The priority of an entity behind an effect, before which so many were made.
fn priority_after(entity: Ref, made: u32, effect: &Effect, first: i64) -> i64
    ensures { result ≡ priority_after entity made effect.now first }
{
    match effect {
        Effect::Create {
            parent: _,
            relation: _,
            priority,
        } if is_same_ref(Ref::Fresh(made), entity) => i64::from(*priority),
        Effect::SetPriority {
            entity: other,
            priority,
        } if is_same_ref(*other, entity) => i64::from(*priority),
        _ => first,
    }
}

/// The priority of an entity behind effects, before which so many were made.
fn priority_over(entity: Ref, before: u32, effects: &[Effect], first: i64) -> i64
    requires { before + length effects.now < 2 ^ 32 }
    ensures { result ≡ overlay_from entities_by (priority_after entity) before effects.now first }
{
    let mut made = before;
    let mut current = first;
    for effect in effects {
        current = priority_after(entity, made, effect, current);
        made += made_by(Thing::Entity, effect);
    }
    current
}

#[tactic(auto, using(crate::proofs::CountLemmas::laid_behind))]
fn priority_laid(machine: &Machine, scene: &Scene, entity: Ref, first: i64) -> i64
    ensures { result ≡ overlay entities_by (priority_after entity) (scene.now.effects.now ++ machine.now.effects) first }
{
    let first = priority_over(entity, 0, scene.effects, first);
    let before = count_made(Thing::Entity, scene.effects);
    priority_over(entity, before, machine.effects(), first)
}

fn priority_key(entity: Ref) -> Option<Asked<'static>>
    ensures key { option_map key_asked result ≡ key_of (λ n. k.Priority (record { 0 = n })) entity }
    ensures numbered { (names : List (List ℕ)) → AreNumberedBy IsNumberedAsked names result }
{
    match entity {
        Ref::Known(number) => Some(Asked::Priority(EntityId(number))),
        Ref::Fresh(_) => None,
    }
}

/// The priority of an entity.
pub fn priority(machine: &mut Machine, scene: &Scene, entity: Ref) -> Result<i64, Stop>
    requires names { machine.old.names ≡ scene.now.names.now }
    ensures agrees { Agrees (read.priority (setting_of scene.now) entity) machine.old machine.new result }
    ensures spent { machine.new.left ≤ machine.old.left }
    ensures names { machine.new.names ≡ machine.old.names }
    ensures kept { standing machine.new ≡ standing machine.old }
{
    let seen = machine.look(scene, priority_key(entity))?;
    Ok(priority_laid(machine, scene, entity, number_in(seen)))
}
