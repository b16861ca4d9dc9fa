//! Terms without parts.
ghost use Rattle.std.specs.Prelude.{◌≡◌, ◌≤◌, slice_get};
ghost use Rattle.std.specs.Option.{option_copied};
ghost use Rattle.script_meaning.specs.Values.{int, flag};
ghost use Rattle.script_meaning.specs.Terms.{single, or_initial, field_at};
ghost use Rattle.script_types.specs.declared.term.Atom.TheVariants as a;
ghost use Rattle.script_types.specs.Numbers.{IsNumbered, IsNumberedAtom};
ghost use Rattle.script_run_machine.specs.Agreeing.{AgreesAs, EndsFinding};
ghost use Rattle.script_run_machine.specs.Lending.{value_lent, value_at, standing};
ghost use Rattle.script_run_machine.specs.declared.places.Place.TheVariants as place;
ghost use Rattle.script_run_machine.specs.Machines.{state_of};
ghost use Rattle.script_run_machine.specs.Settings.{setting_of};

use script_run_machine::{Lent, Machine, Place, Scalar, Scene, Stop};
use script_run_reads::{count_children, field, field_scalar, now, priority};
use script_types::{Atom, Symbol};
use slee_effect::Val;
use slee_value::{Kind, Name, Value};

fn field_in(fields: &[(Name, Value)], place: usize) -> Option<&(Name, Value)>
    ensures { option_copied result ≡ slice_get fields.now place }
{
    fields.get(place)
}

/// The field of the event in this place, of the type that the script has there.
fn event_field<'a>(scene: &Scene<'a>, place: usize, kind: Kind) -> Lent<'a>
    ensures { value_lent result ≡ or_initial kind (field_at place scene.now.arguments.now.fields) }
{
    match field_in(scene.arguments.fields.as_slice(), place) {
        None => Lent::Initial(kind),
        Some((_, value)) => Lent::Held(value).fit(kind),
    }
}

/// The place of a number that was made.
pub(crate) fn made_number<'a>(number: i64) -> Place<'a>
    ensures { result ≡ place.Made (int number) }
{
    Place::Made(Val::Plain(Value::Int(number)))
}

/// The place of a truth value that was made.
pub(crate) fn made_flag<'a>(truth: bool) -> Place<'a>
    ensures { result ≡ place.Made (flag truth) }
{
    Place::Made(Val::Plain(Value::Bool(truth)))
}

/// The place of the time.
#[inline(never)]
fn time_place<'a>(machine: &mut Machine, scene: &Scene) -> Result<Place<'a>, Stop>
    requires names { machine.old.names ≡ scene.now.names.now }
    ensures agrees { AgreesAs (value_at (standing machine.new)) (single (setting_of scene.now) a.Now) machine.old machine.new result }
    ensures spent { machine.new.left ≤ machine.old.left }
    ensures names { machine.new.names ≡ machine.old.names }
    ensures kept { standing machine.new ≡ standing machine.old }
{
    Ok(made_number(now(machine, scene)?))
}

/// The place of the count of the children of a relation.
#[inline(never)]
fn count_place<'a>(
    machine: &mut Machine,
    scene: &Scene,
    relation: &Symbol<Name>,
) -> Result<Place<'a>, Stop>
    requires names { machine.old.names ≡ scene.now.names.now }
    requires relation { IsNumbered scene.now.names.now relation.now }
    ensures agrees { AgreesAs (value_at (standing machine.new)) (single (setting_of scene.now) (a.Count relation.now)) machine.old machine.new result }
    ensures spent { machine.new.left ≤ machine.old.left }
    ensures names { machine.new.names ≡ machine.old.names }
    ensures kept { standing machine.new ≡ standing machine.old }
{
    Ok(made_number(count_children(machine, scene, relation)?))
}

/// The place of the priority of the child in this place of the scope.
#[inline(never)]
fn priority_place<'a>(machine: &mut Machine, scene: &Scene, place: usize) -> Result<Place<'a>, Stop>
    requires names { machine.old.names ≡ scene.now.names.now }
    ensures agrees { AgreesAs (value_at (standing machine.new)) (single (setting_of scene.now) (a.Priority place)) machine.old machine.new result }
    ensures spent { machine.new.left ≤ machine.old.left }
    ensures names { machine.new.names ≡ machine.old.names }
    ensures kept { standing machine.new ≡ standing machine.old }
{
    let child = machine.child(scene, place)?;
    Ok(made_number(priority(machine, scene, child)?))
}

/// Where that stands which a term without parts gives.
#[inline(always)]
pub(crate) fn single<'a, 's: 'a>(
    machine: &mut Machine,
    scene: &Scene<'s>,
    atom: &'a Atom,
) -> Result<Place<'a>, Stop>
    requires names { machine.old.names ≡ scene.now.names.now }
    requires atom { IsNumberedAtom scene.now.names.now atom.now }
    ensures agrees { AgreesAs (value_at (standing machine.new)) (single (setting_of scene.now) atom.now) machine.old machine.new result }
    ensures spent { machine.new.left ≤ machine.old.left }
    ensures names { machine.new.names ≡ machine.old.names }
    ensures kept { standing machine.new ≡ standing machine.old }
{
    match atom {
        Atom::Constant(value) => Ok(Place::Outside(Lent::Held(value))),
        Atom::Now => time_place(machine, scene),
        Atom::Activity => {
            let activity = Value::Activity(scene.arguments.activity);
            Ok(Place::Made(Val::Plain(activity)))
        }
        Atom::Failure => Ok(Place::Outside(Lent::Text(&scene.arguments.failure))),
        Atom::Slot(place) => machine.variable_place(*place),
        Atom::Field(name, kind) => field(machine, scene, name, *kind),
        Atom::EventField(place, kind) => Ok(Place::Outside(event_field(scene, *place, *kind))),
        Atom::Count(relation) => count_place(machine, scene, relation),
        Atom::Priority(place) => priority_place(machine, scene, *place),
    }
}

/// The number or truth value in the variable in this place, if it holds one.
#[inline(always)]
pub(crate) fn slot_scalar<T: Scalar>(
    machine: &Machine,
    scene: &Scene,
    place: usize,
) -> Result<Option<T>, Stop>
    ensures { EndsFinding T.value_of T.is_other (single (setting_of scene.now) (a.Slot place) (state_of machine.now)) machine.now result }
{
    let value = machine.variable_value(place)?;
    Ok(T::within(Lent::Set(value)))
}

/// The number or truth value that a constant is, if it is one.
#[inline(always)]
pub(crate) fn constant_scalar<T: Scalar>(
    machine: &Machine,
    scene: &Scene,
    value: &Value,
) -> Result<Option<T>, Stop>
    ensures { EndsFinding T.value_of T.is_other (single (setting_of scene.now) (a.Constant value.now) (state_of machine.now)) machine.now result }
{
    Ok(T::within(Lent::Held(value)))
}

/// The number or truth value that a term without parts gives, if it gives one, read in its place.
#[inline(never)]
fn placed_scalar<T: Scalar>(
    machine: &mut Machine,
    scene: &Scene,
    atom: &Atom,
) -> Result<Option<T>, Stop>
    requires names { machine.old.names ≡ scene.now.names.now }
    requires atom { IsNumberedAtom scene.now.names.now atom.now }
    ensures finds { EndsFinding T.value_of T.is_other (single (setting_of scene.now) atom.now (state_of machine.old)) machine.new result }
    ensures spent { machine.new.left ≤ machine.old.left }
    ensures names { machine.new.names ≡ machine.old.names }
    ensures kept { standing machine.new ≡ standing machine.old }
{
    let place = single(machine, scene, atom)?;
    Ok(T::within(machine.lend(&place)))
}

/// The number or truth value that a term without parts gives, if it gives one.
#[inline(always)]
pub(crate) fn single_scalar<T: Scalar>(
    machine: &mut Machine,
    scene: &Scene,
    atom: &Atom,
) -> Result<Option<T>, Stop>
    requires names { machine.old.names ≡ scene.now.names.now }
    requires atom { IsNumberedAtom scene.now.names.now atom.now }
    ensures finds { EndsFinding T.value_of T.is_other (single (setting_of scene.now) atom.now (state_of machine.old)) machine.new result }
    ensures spent { machine.new.left ≤ machine.old.left }
    ensures names { machine.new.names ≡ machine.old.names }
    ensures kept { standing machine.new ≡ standing machine.old }
{
    match atom {
        Atom::Constant(value) => constant_scalar(machine, scene, value),
        Atom::Slot(place) => slot_scalar(machine, scene, *place),
        Atom::Field(name, kind) => field_scalar(machine, scene, name, *kind),
        Atom::EventField(place, kind) => Ok(T::within(event_field(scene, *place, *kind))),
        _ => placed_scalar(machine, scene, atom),
    }
}
