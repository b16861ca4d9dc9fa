//! How many children of a relation there are. They are counted where they stand.
ghost use Rattle.std.specs.Prelude.{◌≡◌, ◌≤◌, ◌<◌, ◌+◌, ◌++◌, ◌^◌, length, map, pos};
ghost use Rattle.std.specs.Option.{option_copied};
ghost use Rattle.slee_effect.specs.declared.reference.Ref.TheVariants as ref;
ghost use Rattle.script_meaning.specs.Answers.{ids_in};
ghost use Rattle.script_meaning.specs.Overlay.{overlay, entities_by, children_after};
ghost use Rattle.script_meaning.specs.Values.{int};
ghost use Rattle.script_run_machine.specs.Agreeing.{AgreesAs};
ghost use Rattle.script_types.specs.Numbers.{IsNumbered};
ghost use Rattle.script_run_machine.specs.Lending.{standing};
ghost use Rattle.script_run_machine.specs.Numbering.{effect_number};
ghost use Rattle.script_run_machine.specs.Settings.{setting_of};
ghost use Rattle.script_run_reads.specs.Counting.{staying, creates, created, count_children};

use crate::answers::ids_in;
use crate::effects::{NumberedEffects, effects_before, own_effects};
use crate::lists::children_key;
use crate::things::{Thing, count_made, made_by};
use script_meaning::Seen;
use script_run_machine::{
    Machine, NumberedName, Scene, Spelling, Stop, is_removed, is_same_name, is_same_ref,
};
use script_types::{NamedList, Symbol};
use slee_effect::{Effect, Ref};
use slee_value::{Name, Text};

/// How many of these children no effect removes.
#[tactic(auto, using(script_run_machine::proofs::VariableLemmas::removed_by_both))]
fn count_staying(children: &[u64], before: &[Effect], own: &[Effect]) -> usize
    ensures staying { result ≡ staying (before.now ++ own.now) (map ref.Known children.now) }
    ensures most { result ≤ length children.now }
{
    let mut count = 0;
    for number in children {
        let child = Ref::Known(*number);
        if !is_removed(child, before) && !is_removed(child, own) {
            count += 1;
        }
    }
    count
}

/// Whether an effect, whose name has this number, creates a child of the relation.
pub(crate) fn creates(
    names: &NamedList<Text>,
    entity: Ref,
    relation: &Symbol<Name>,
    effect: &Effect,
    number: Option<usize>,
) -> bool
    requires number { number ≡ effect_number names.now effect.now }
    requires relation { IsNumbered names.now relation.now }
    ensures { result ≡ creates entity relation.now.name effect.now }
{
    match effect {
        Effect::Create {
            parent,
            relation: other,
            priority: _,
        } => {
            let name = Spelling::Text(other);
            is_same_ref(*parent, entity)
                && is_same_name(
                    names,
                    NumberedName { name, number },
                    NumberedName::of_name(relation),
                )
        }
        _ => false,
    }
}

/// How many children effects create, before which so many entities were made, that neither later ones nor those behind
/// remove.
#[tactic(auto, using(script_run_machine::proofs::VariableLemmas::removed_by_both, script_run_machine::proofs::KeyLemmas::number_there))]
fn count_created(
    names: &NamedList<Text>,
    entity: Ref,
    relation: &Symbol<Name>,
    before: u32,
    given: NumberedEffects,
    behind: &[Effect],
) -> usize
    requires few { before + length given.effects.now < 2 ^ 32 }
    requires numbers { given.numbers.now ≡ map (effect_number names.now) given.effects.now }
    requires relation { IsNumbered names.now relation.now }
    ensures created { result ≡ created entity relation.now.name before given.entry.effects.now behind.now }
    ensures most { result ≤ length given.entry.effects.now }
{
    let effects = given.effects;
    let numbers = given.numbers;
    let mut count = 0;
    let mut made = before;
    for place in 0..effects.len() {
        let effect = &effects[place];
        let child = Ref::Fresh(made);
        if creates(names, entity, relation, effect, numbers[place])
            && !is_removed(child, &effects[place + 1..])
            && !is_removed(child, behind)
        {
            count += 1;
        }
        made += made_by(Thing::Entity, effect);
    }
    count
}

#[tactic(auto, using(crate::proofs::CountingLemmas::children_counted))]
fn children_counted(
    machine: &Machine,
    scene: &Scene,
    relation: &Symbol<Name>,
    seen: Option<&Seen>,
) -> i64
    requires names { machine.now.names ≡ scene.now.names.now }
    requires relation { IsNumbered scene.now.names.now relation.now }
    ensures { result ≡ pos (length (overlay entities_by (children_after scene.now.me relation.now.name) (scene.now.effects.now ++ machine.now.effects) (map ref.Known (ids_in (option_copied seen.entry))))) }
{
    let own = machine.effects();
    let made = count_made(Thing::Entity, scene.effects);
    let known = count_staying(ids_in(seen), scene.effects, own);
    let names = scene.names;
    let before = effects_before(scene);
    let earlier = count_created(names, scene.me, relation, 0, before, own);
    let later = count_created(names, scene.me, relation, made, own_effects(machine), &[]);
    (known + (earlier + later)) as i64
}

/// How many children of the relation there are.
pub fn count_children(
    machine: &mut Machine,
    scene: &Scene,
    relation: &Symbol<Name>,
) -> Result<i64, Stop>
    requires names { machine.old.names ≡ scene.now.names.now }
    requires relation { IsNumbered scene.now.names.now relation.now }
    ensures agrees { AgreesAs int (count_children (setting_of scene.now) relation.now.name) machine.old machine.new result }
    ensures spent { machine.new.left ≤ machine.old.left }
    ensures names { machine.new.names ≡ machine.old.names }
    ensures kept { standing machine.new ≡ standing machine.old }
{
    let seen = machine.look(scene, children_key(scene.me, relation))?;
    Ok(children_counted(machine, scene, relation, seen))
}
