//! Steps on child entities.
ghost use Rattle.std.specs.Prelude.{◌≡◌, ◌≤◌};
ghost use Rattle.script_types.specs.Program as p;
ghost use Rattle.script_types.specs.ProgramOf.{term_of, rank_of as rank_in, on_entities_of};
ghost use Rattle.script_meaning.specs.Doing.{asked_rank, rank_of, on_entities};
ghost use Rattle.script_types.specs.Numbers.{IsNumbered, IsNumberedOnEntities, IsNumberedRank, IsNumberedTerm};
ghost use Rattle.script_run_machine.specs.Agreeing.{Agrees};
ghost use Rattle.script_run_machine.specs.Settings.{setting_of};

use crate::names::text_of_name;
use crate::ranges::{GREATEST_PRIORITY, LEAST_PRIORITY, is_within, priority_of};
use script_meaning::FailKind;
use script_run_machine::{Machine, Scene, Stop, Variable};
use script_run_reads::{Thing, next_number};
use script_run_terms::eval_int;
use script_types::{OnEntities, Rank, Symbol, Term};
use slee_effect::{Effect, Ref};
use slee_value::Name;

/// A priority that the script asks for.
fn asked_rank(machine: &mut Machine, scene: &Scene, term: &Term) -> Result<i8, Stop>
    requires names { machine.old.names ≡ scene.now.names.now }
    requires term { IsNumberedTerm scene.now.names.now (term_of term.now) }
    ensures agrees { Agrees (asked_rank (setting_of scene.now) (term_of term.now)) machine.old machine.new result }
    ensures spent { machine.new.left ≤ machine.old.left }
    ensures names { machine.new.names ≡ machine.old.names }
{
    let number = eval_int(machine, scene, term)?;
    if !is_within(LEAST_PRIORITY, GREATEST_PRIORITY, number) {
        return Err(Stop::Broken(FailKind::Range));
    }
    Ok(priority_of(number))
}

/// The priority of a new child.
fn rank_of(machine: &mut Machine, scene: &Scene, rank: &Rank) -> Result<i8, Stop>
    requires names { machine.old.names ≡ scene.now.names.now }
    requires rank { IsNumberedRank scene.now.names.now (rank_in rank.now) }
    ensures agrees { Agrees (rank_of (setting_of scene.now) (rank_in rank.now)) machine.old machine.new result }
    ensures spent { machine.new.left ≤ machine.old.left }
    ensures names { machine.new.names ≡ machine.old.names }
{
    match rank {
        Rank::Given(priority) => Ok(*priority),
        Rank::Asked(term) => asked_rank(machine, scene, term),
    }
}

/// `create NAME as NAME priority e;`
fn create(
    machine: &mut Machine,
    scene: &Scene,
    relation: &Symbol<Name>,
    rank: &Rank,
) -> Result<(), Stop>
    requires names { machine.old.names ≡ scene.now.names.now }
    requires relation { IsNumbered scene.now.names.now relation.now }
    requires rank { IsNumberedRank scene.now.names.now (rank_in rank.now) }
    ensures agrees { Agrees (on_entities (setting_of scene.now) (p.Create relation.now (rank_in rank.now))) machine.old machine.new result }
    ensures spent { machine.new.left ≤ machine.old.left }
    ensures names { machine.new.names ≡ machine.old.names }
{
    let priority = rank_of(machine, scene, rank)?;
    let number = next_number(machine, scene, Thing::Entity);
    let effect = Effect::Create {
        parent: scene.me,
        relation: text_of_name(scene.alloc, &relation.name)?,
        priority,
    };
    machine.add_numbered_effect(effect, relation.number)?;
    machine.declare(Variable::of_child(Ref::Fresh(number)))
}

/// `remove NAME;`
fn remove(machine: &mut Machine, scene: &Scene, place: usize) -> Result<(), Stop>
    requires names { machine.old.names ≡ scene.now.names.now }
    ensures agrees { Agrees (on_entities (setting_of scene.now) (p.Remove place)) machine.old machine.new result }
    ensures spent { machine.new.left ≤ machine.old.left }
    ensures names { machine.new.names ≡ machine.old.names }
{
    let entity = machine.child(scene, place)?;
    machine.add_effect(Effect::Remove { entity })
}

/// `priority NAME e;`
fn set_priority(machine: &mut Machine, scene: &Scene, place: usize, term: &Term) -> Result<(), Stop>
    requires names { machine.old.names ≡ scene.now.names.now }
    requires term { IsNumberedTerm scene.now.names.now (term_of term.now) }
    ensures agrees { Agrees (on_entities (setting_of scene.now) (p.Priority place (term_of term.now))) machine.old machine.new result }
    ensures spent { machine.new.left ≤ machine.old.left }
    ensures names { machine.new.names ≡ machine.old.names }
{
    let entity = machine.child(scene, place)?;
    let priority = asked_rank(machine, scene, term)?;
    machine.add_effect(Effect::SetPriority { entity, priority })
}

/// A step on child entities.
#[inline(never)]
pub fn do_on_entities(machine: &mut Machine, scene: &Scene, step: &OnEntities) -> Result<(), Stop>
    requires names { machine.old.names ≡ scene.now.names.now }
    requires step { IsNumberedOnEntities scene.now.names.now (on_entities_of step.now) }
    ensures agrees { Agrees (on_entities (setting_of scene.now) (on_entities_of step.now)) machine.old machine.new result }
    ensures spent { machine.new.left ≤ machine.old.left }
    ensures names { machine.new.names ≡ machine.old.names }
{
    match step {
        OnEntities::Create(relation, rank) => create(machine, scene, relation, rank),
        OnEntities::Remove(place) => remove(machine, scene, *place),
        OnEntities::Priority(place, term) => set_priority(machine, scene, *place, term),
    }
}
