//! Lists that are read, with effects done to them: the children of a relation, and an entity's activities.
ghost use Rattle.std.specs.Prelude.{◌≡◌, List, ℕ, ◌≤◌, ◌<◌, ◌+◌, ◌++◌, ◌^◌, [], length, map, OnOk, option_map};
ghost use Rattle.std.specs.Option.{option_copied};
ghost use Rattle.slee_effect.specs.declared.reference.Ref.{Ref};
ghost use Rattle.slee_effect.specs.declared.reference.Ref.TheVariants as ref;
ghost use Rattle.script_meaning.specs.Answers.{ids_in};
ghost use Rattle.script_meaning.specs.Overlay.{overlay, overlay_from, entities_by, activities_by, children_after, activities_after};
ghost use Rattle.script_meaning.specs.Observing as read;
ghost use Rattle.script_meaning.specs.Observing.{key_of};
ghost use Rattle.script_meaning.specs.declared.key.Key.TheVariants as k;
ghost use Rattle.script_run_machine.specs.Agreeing.{AgreesAs};
ghost use Rattle.script_run_machine.specs.Asking.{AreNumberedBy, IsNumberedAsked, key_asked};
ghost use Rattle.script_types.specs.Numbers.{IsNumbered};
ghost use Rattle.script_run_machine.specs.Lending.{standing};
ghost use Rattle.script_run_machine.specs.Numbering.{effect_number};
ghost use Rattle.script_run_reads.specs.Counting.{creates};
ghost use Rattle.script_run_machine.specs.Settings.{setting_of};
ghost use Rattle.script_run_reads.specs.Done.{done};

use crate::answers::put_known;
use crate::counts::creates;
use crate::effects::{NumberedEffects, effects_before, own_effects};
use crate::refs::{cut, put};
use crate::things::{Thing, count_made, made_by};
use script_meaning::Seen;
use script_run_machine::{Asked, Machine, Scene, Stop, is_same_ref};
use script_types::{NamedList, Symbol};
use slee_effect::{Effect, Ref};
use slee_value::{EntityId, Name, NoMemory, Text};

/// Does an effect, before which so many entities were made and which may create a child of the relation, to its children.
fn change_children(
    is_created: bool,
    made: u32,
    effect: &Effect,
    refs: &mut Vec<Ref>,
) -> Result<(), NoMemory>
    ensures { OnOk result ((entity : Ref) (relation : List ℕ) → is_created ≡ creates entity relation effect.now → refs.new.items ≡ children_after entity relation made effect.now refs.old.items) }
{
    match effect {
        Effect::Create { .. } => {
            if is_created {
                refs.push(Ref::Fresh(made))?;
            }
        }
        Effect::Remove { entity: gone } => cut(refs, *gone),
        _ => {}
    }
    Ok(())
}

/// Does effects, before which so many entities were made, to the children of a relation.
#[tactic(auto, using(script_run_machine::proofs::KeyLemmas::number_there))]
fn do_to_children(
    names: &NamedList<Text>,
    entity: Ref,
    relation: &Symbol<Name>,
    before: u32,
    given: NumberedEffects,
    refs: &mut Vec<Ref>,
) -> Result<(), NoMemory>
    requires few { before + length given.effects.now < 2 ^ 32 }
    requires numbers { given.numbers.now ≡ map (effect_number names.now) given.effects.now }
    requires relation { IsNumbered names.now relation.now }
    ensures { OnOk result (refs.new.items ≡ overlay_from entities_by (children_after entity relation.now.name) before given.entry.effects.now refs.old.items) }
{
    let effects = given.effects;
    let numbers = given.numbers;
    let mut made = before;
    'effects: for place in 0..effects.len() {
        let effect = &effects[place];
        let is_created = creates(names, entity, relation, effect, numbers[place]);
        change_children(is_created, made, effect, refs)?;
        made += made_by(Thing::Entity, effect);
    }
    Ok(())
}

#[tactic(auto, using(crate::proofs::CountLemmas::laid_behind))]
fn put_children(
    machine: &Machine,
    scene: &Scene,
    relation: &Symbol<Name>,
    seen: Option<&Seen>,
    refs: &mut Vec<Ref>,
) -> Result<(), NoMemory>
    requires names { machine.now.names ≡ scene.now.names.now }
    requires relation { IsNumbered scene.now.names.now relation.now }
    requires empty { refs.old.items ≡ [] }
    ensures { OnOk result (refs.new.items ≡ overlay entities_by (children_after scene.now.me relation.now.name) (scene.now.effects.now ++ machine.now.effects) (map ref.Known (ids_in (option_copied seen.entry)))) }
{
    put_known(seen, refs)?;
    let names = scene.names;
    let earlier = effects_before(scene);
    do_to_children(names, scene.me, relation, 0, earlier, refs)?;
    let before = count_made(Thing::Entity, scene.effects);
    let own = own_effects(machine);
    do_to_children(names, scene.me, relation, before, own, refs)
}

pub(crate) fn children_key(entity: Ref, relation: &Symbol<Name>) -> Option<Asked>
    ensures key { option_map key_asked result ≡ key_of (λ n. k.Children (record { 0 = n }) relation.now.name) entity }
    ensures numbered { (names : List (List ℕ)) → IsNumbered names relation.now → AreNumberedBy IsNumberedAsked names result }
{
    match entity {
        Ref::Known(number) => Some(Asked::Children(EntityId(number), relation)),
        Ref::Fresh(_) => None,
    }
}

/// The children of a relation, new ones last.
pub fn children(
    machine: &mut Machine,
    scene: &Scene,
    relation: &Symbol<Name>,
) -> Result<Vec<Ref>, Stop>
    requires names { machine.old.names ≡ scene.now.names.now }
    requires relation { IsNumbered scene.now.names.now relation.now }
    ensures agrees { AgreesAs (λ refs. refs.items) (read.children (setting_of scene.now) relation.now.name) machine.old machine.new result }
    ensures spent { machine.new.left ≤ machine.old.left }
    ensures names { machine.new.names ≡ machine.old.names }
    ensures kept { standing machine.new ≡ standing machine.old }
{
    let seen = machine.look(scene, children_key(scene.me, relation))?;
    let mut refs = machine.take_items(scene.alloc);
    put_children(machine, scene, relation, seen, &mut refs)?;
    Ok(refs)
}

/// Does an effect to the activities of an entity.
fn change_activities(entity: Ref, effect: &Effect, refs: &mut Vec<Ref>) -> Result<(), NoMemory>
    ensures { OnOk result (refs.new.items ≡ activities_after entity 0 effect.now refs.old.items) }
{
    match effect {
        Effect::Attach {
            entity: who,
            activity,
        } if is_same_ref(*who, entity) => put(refs, *activity)?,
        Effect::Detach {
            entity: who,
            activity,
        } if is_same_ref(*who, entity) => cut(refs, *activity),
        _ => {}
    }
    Ok(())
}

/// Does effects to the activities of an entity.
fn do_to_activities(entity: Ref, effects: &[Effect], refs: &mut Vec<Ref>) -> Result<(), NoMemory>
    ensures { OnOk result (refs.new.items ≡ done (activities_after entity 0) effects.now refs.old.items) }
{
    for effect in effects {
        change_activities(entity, effect, refs)?;
    }
    Ok(())
}

#[tactic(auto, using(crate::proofs::OverlayLemmas::activities_laid))]
fn put_activities(
    machine: &Machine,
    scene: &Scene,
    seen: Option<&Seen>,
    refs: &mut Vec<Ref>,
) -> Result<(), NoMemory>
    requires empty { refs.old.items ≡ [] }
    ensures { OnOk result (refs.new.items ≡ overlay activities_by (activities_after scene.now.me) (scene.now.effects.now ++ machine.now.effects) (map ref.Known (ids_in (option_copied seen.entry)))) }
{
    put_known(seen, refs)?;
    do_to_activities(scene.me, scene.effects, refs)?;
    do_to_activities(scene.me, machine.effects(), refs)
}

fn activities_key(entity: Ref) -> Option<Asked<'static>>
    ensures key { option_map key_asked result ≡ key_of (λ n. k.Activities (record { 0 = n })) entity }
    ensures numbered { (names : List (List ℕ)) → AreNumberedBy IsNumberedAsked names result }
{
    match entity {
        Ref::Known(number) => Some(Asked::Activities(EntityId(number))),
        Ref::Fresh(_) => None,
    }
}

/// The activities to which the entity is attached, new ones last.
pub fn attached_activities(machine: &mut Machine, scene: &Scene) -> Result<Vec<Ref>, Stop>
    requires names { machine.old.names ≡ scene.now.names.now }
    ensures agrees { AgreesAs (λ refs. refs.items) (read.activities (setting_of scene.now)) machine.old machine.new result }
    ensures spent { machine.new.left ≤ machine.old.left }
    ensures names { machine.new.names ≡ machine.old.names }
    ensures kept { standing machine.new ≡ standing machine.old }
{
    let seen = machine.look(scene, activities_key(scene.me))?;
    let mut refs = machine.take_items(scene.alloc);
    put_activities(machine, scene, seen, &mut refs)?;
    Ok(refs)
}
