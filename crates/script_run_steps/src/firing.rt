//! Events that are fired.
ghost use Rattle.std.specs.Prelude.{◌≡◌, ◌≤◌, [], IfOk, OnOk, map, length};
ghost use Rattle.std.specs.List.{AllByRecursion};
ghost use Rattle.script_types.specs.Program as p;
ghost use Rattle.script_types.specs.ProgramOf.{term_of, field_term_of};
ghost use Rattle.script_meaning.specs.Doing.{on_activities, fields_of, put_field};
ghost use Rattle.script_types.specs.Numbers.{IsNumberedTerm};
ghost use Rattle.script_run_machine.specs.Agreeing.{Agrees, AgreesAs};
ghost use Rattle.script_run_machine.specs.Settings.{setting_of};
ghost use Rattle.script_run_steps.specs.Firing.{place_in, AreApart, names_in};

use crate::names::text_of_name;
use script_run_machine::{Machine, Scene, Stop};
use script_run_reads::used_active;
use script_run_terms::{eval, eval_activity};
use script_types::{FieldTerm, Term};
use slee_effect::{Effect, FiredFields, Val};
use slee_value::{NoMemory, Text};
use std::alloc::Global;
use std::cmp::Ordering;

/// The place of the first field whose name is above this one.
fn place_of(fields: &[(Text, Val)], name: &Text) -> usize
    ensures place { result ≡ place_in name.now fields.now }
    ensures within { result ≤ length fields.now }
{
    let mut place = 0;
    'fields: for (other, _) in fields {
        if name.compare(other) == Ordering::Less {
            return place;
        }
        place += 1;
    }
    place
}

/// Puts a field among others by its name.
#[tactic(auto, using(crate::proofs::FieldLemmas::put_field_is))]
fn put_field(fields: &mut Vec<(Text, Val)>, name: Text, value: Val) -> Result<(), NoMemory>
    ensures { OnOk result (fields.new.items ≡ put_field (name, value) fields.old.items) }
{
    let place = place_of(fields, &name);
    fields.insert(place, (name, value))?;
    Ok(())
}

/// The fields, in byte order of their names; they are evaluated in the order of the text.
fn eval_fields(
    machine: &mut Machine,
    scene: &Scene,
    fields: &[FieldTerm],
) -> Result<Vec<(Text, Val)>, Stop>
    requires names { machine.old.names ≡ scene.now.names.now }
    requires fields { AllByRecursion (λ field. IsNumberedTerm scene.now.names.now field.1) (map field_term_of fields.now) }
    ensures agrees { AgreesAs (λ v. v.items) (fields_of (setting_of scene.now) (map field_term_of fields.now) []) machine.old machine.new result }
    ensures spent { machine.new.left ≤ machine.old.left }
    ensures names { machine.new.names ≡ machine.old.names }
{
    let mut done = Vec::new(scene.alloc);
    'fields: for field in fields {
        let value = eval(machine, scene, &field.term)?;
        let name = text_of_name(scene.alloc, &field.name)?;
        put_field(&mut done, name, value)?;
    }
    Ok(done)
}

fn copied_key(alloc: Global, key: &Option<Text>) -> Result<Option<Text>, NoMemory>
    ensures { IfOk result (λ k. k ≡ key.now) }
{
    match key {
        None => Ok(None),
        Some(key) => Ok(Some(key.copy(alloc)?)),
    }
}

/// `fire TEXT on e for TEXT { NAME: e, NAME: e };`
pub(crate) fn fire(
    machine: &mut Machine,
    scene: &Scene,
    event: &Text,
    term: &Term,
    service: &Option<Text>,
    fields: &[FieldTerm],
) -> Result<(), Stop>
    requires names { machine.old.names ≡ scene.now.names.now }
    requires term { IsNumberedTerm scene.now.names.now (term_of term.now) }
    requires fields { AllByRecursion (λ field. IsNumberedTerm scene.now.names.now field.1) (map field_term_of fields.now) }
    requires apart { AreApart [] (names_in (map field_term_of fields.now)) }
    ensures agrees { Agrees (on_activities (setting_of scene.now) (p.Fire event.now (term_of term.now) service.now (map field_term_of fields.now))) machine.old machine.new result }
    ensures spent { machine.new.left ≤ machine.old.left }
    ensures names { machine.new.names ≡ machine.old.names }
{
    let activity = eval_activity(machine, scene, term)?;
    let fields = FiredFields::from_vec(eval_fields(machine, scene, fields)?);
    used_active(machine, scene, activity)?;
    let event = event.copy(scene.alloc)?;
    let service = copied_key(scene.alloc, service)?;
    machine.add_effect(Effect::Fire {
        activity,
        event,
        service,
        fields,
    })
}
