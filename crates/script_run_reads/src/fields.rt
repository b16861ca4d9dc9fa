//! Fields and attributes, with effects done to them.
ghost use Rattle.std.specs.Prelude.{◌≡◌, ◌≤◌, List, ℕ, map, option_map, unwrap_or, slice_get};
ghost use Rattle.std.specs.Option.{option_copied};
ghost use Rattle.script_meaning.specs.Answers.{fit, held_in, initial};
ghost use Rattle.script_meaning.specs.Observing as read;
ghost use Rattle.script_meaning.specs.Observing.{key_of};
ghost use Rattle.script_meaning.specs.declared.key.Key.TheVariants as k;
ghost use Rattle.script_run_machine.specs.Agreeing.{AgreesAs, EndsFinding};
ghost use Rattle.script_types.specs.Numbers.{IsNumbered};
ghost use Rattle.script_run_machine.specs.Asking.{AreNumberedBy, attribute_wanted, field_wanted};
ghost use Rattle.script_run_machine.specs.Machines.{state_of};
ghost use Rattle.script_run_machine.specs.Numbering.{effect_number};
ghost use Rattle.script_run_machine.specs.Lending.{value_lent, value_at, standing, set_by};
ghost use Rattle.script_run_machine.specs.Settings.{setting_of};
ghost use Rattle.script_run_reads.specs.Done.{IsNumberedProperty, sets_property, last_set};

use crate::effects::{NumberedEffects, effects_before, own_effects};
use script_meaning::Seen;
use script_run_machine::{
    Lent, Machine, NumberedName, Place, Scalar, Scene, Spelling, Stop, WantedAttribute,
    WantedField, is_same_name, is_same_ref, set_at,
};
use script_types::{NamedList, Symbol};
use slee_effect::{Effect, Ref};
use slee_value::{ActivityId, EntityId, Kind, Name, Text};

/// A field of an entity, or an attribute of an activity.
#[derive(Debug, Clone, Copy)]
pub(crate) enum Property<'a> {
    Field(Ref, &'a Symbol<Name>),
    Attribute(Ref, &'a Symbol<Text>),
}

/// Whether an effect, whose name has this number, gives a value to the property.
#[inline(always)]
fn sets_property(
    names: &NamedList<Text>,
    property: Property,
    effect: &Effect,
    number: Option<usize>,
) -> bool
    requires number { number ≡ effect_number names.now effect.now }
    requires property { IsNumberedProperty names.now property }
    ensures { result ≡ sets_property property.entry effect.now }
{
    match (property, effect) {
        (
            Property::Field(entity, symbol),
            Effect::SetField {
                entity: other,
                name: field,
                ..
            },
        ) => {
            let name = Spelling::Text(field);
            is_same_ref(*other, entity)
                && is_same_name(
                    names,
                    NumberedName { name, number },
                    NumberedName::of_name(symbol),
                )
        }
        (
            Property::Attribute(activity, symbol),
            Effect::SetAttr {
                activity: other,
                key: attribute,
                ..
            },
        ) => {
            let name = Spelling::Text(attribute);
            is_same_ref(*other, activity)
                && is_same_name(
                    names,
                    NumberedName { name, number },
                    NumberedName::of_text(symbol),
                )
        }
        _ => false,
    }
}

/// The place of the last effect that gives a value to the property.
#[inline(always)]
#[tactic(auto, using(script_run_machine::proofs::KeyLemmas::number_there))]
fn last_set(names: &NamedList<Text>, property: Property, given: NumberedEffects) -> Option<usize>
    requires numbers { given.numbers.now ≡ map (effect_number names.now) given.effects.now }
    requires property { IsNumberedProperty names.now property }
    ensures { option_map (λ i. set_by (slice_get given.entry.effects.now i)) result ≡ last_set (sets_property property.entry) given.entry.effects.now }
{
    let effects = given.effects;
    let numbers = given.numbers;
    'effects: for behind in 0..effects.len() {
        let place = effects.len() - 1 - behind;
        if sets_property(names, property, &effects[place], numbers[place]) {
            return Some(place);
        }
    }
    None
}

fn initial_of<'a>(kind: Kind) -> Lent<'a>
    ensures { value_lent result ≡ initial kind }
{
    Lent::Initial(kind)
}

/// The value of a property that stands outside the machine: in the last effect before the run that gives it one, or in the
/// answer.
#[inline(always)]
fn lend_earlier<'a>(
    scene: &Scene<'a>,
    property: Property,
    kind: Kind,
    seen: Option<&'a Seen>,
) -> Lent<'a>
    requires { IsNumberedProperty scene.now.names.now property }
    ensures { value_lent result ≡ fit kind (unwrap_or (last_set (sets_property property.entry) scene.now.effects.now) (held_in kind (option_copied seen.entry))) }
{
    match last_set(scene.names, property, effects_before(scene)) {
        Some(place) => set_at(scene.effects, place).fit(kind),
        None => Lent::held_in(kind, seen).fit(kind),
    }
}

/// Where the value of a property stands: in the last effect of the transaction that gives it one, or in the answer.
#[inline(always)]
#[tactic(auto, unfolding(script_run_machine::specs::Lending::standing))]
fn property_place<'a>(
    machine: &Machine,
    scene: &Scene<'a>,
    property: Property,
    kind: Kind,
    seen: Option<&'a Seen>,
) -> Place<'a>
    requires names { machine.now.names ≡ scene.now.names.now }
    requires property { IsNumberedProperty scene.now.names.now property }
    ensures { value_at (standing machine.now) result ≡ fit kind (unwrap_or (last_set (sets_property property.entry) machine.now.effects) (unwrap_or (last_set (sets_property property.entry) scene.now.effects.now) (held_in kind (option_copied seen.entry)))) }
{
    let Some(place) = last_set(scene.names, property, own_effects(machine)) else {
        return Place::Outside(lend_earlier(scene, property, kind, seen));
    };
    if set_at(machine.effects(), place).is_of(kind) {
        return Place::Effect(place);
    }
    Place::Outside(initial_of(kind))
}

/// The value of a property, lent where it stands.
#[inline(always)]
fn lend_property<'a, 's: 'a>(
    machine: &'a Machine,
    scene: &Scene<'s>,
    property: Property,
    kind: Kind,
    seen: Option<&'s Seen>,
) -> Lent<'a>
    requires names { machine.now.names ≡ scene.now.names.now }
    requires property { IsNumberedProperty scene.now.names.now property }
    ensures { value_lent result ≡ fit kind (unwrap_or (last_set (sets_property property.entry) machine.now.effects) (unwrap_or (last_set (sets_property property.entry) scene.now.effects.now) (held_in kind (option_copied seen.entry)))) }
{
    match last_set(scene.names, property, own_effects(machine)) {
        Some(place) => set_at(machine.effects(), place).fit(kind),
        None => lend_earlier(scene, property, kind, seen),
    }
}

fn field_key(entity: Ref, name: &Symbol<Name>) -> Option<WantedField>
    ensures key { option_map field_wanted result ≡ key_of (λ n. k.Field (record { 0 = n }) name.now.name) entity }
    ensures numbered { (names : List (List ℕ)) → IsNumbered names name.now → AreNumberedBy (λ names x. IsNumbered names x.name.now) names result }
{
    match entity {
        Ref::Known(number) => Some(WantedField {
            entity: EntityId(number),
            name,
        }),
        Ref::Fresh(_) => None,
    }
}

fn attribute_key(activity: Ref, key: &Symbol<Text>) -> Option<WantedAttribute>
    ensures key { option_map attribute_wanted result ≡ key_of (λ n. k.Attr (record { 0 = n }) key.now.name) activity }
    ensures numbered { (names : List (List ℕ)) → IsNumbered names key.now → AreNumberedBy (λ names x. IsNumbered names x.key.now) names result }
{
    match activity {
        Ref::Known(number) => Some(WantedAttribute {
            activity: ActivityId(number),
            key,
        }),
        Ref::Fresh(_) => None,
    }
}

/// Where the entity's field of this name stands, of the type that the script has there.
#[tactic(auto, using(crate::proofs::OverlayLemmas::field_read))]
pub fn field<'a>(
    machine: &mut Machine,
    scene: &Scene<'a>,
    name: &Symbol<Name>,
    kind: Kind,
) -> Result<Place<'a>, Stop>
    requires names { machine.old.names ≡ scene.now.names.now }
    requires numbered { IsNumbered scene.now.names.now name.now }
    ensures agrees { AgreesAs (value_at (standing machine.new)) (read.field (setting_of scene.now) name.now.name kind) machine.old machine.new result }
    ensures spent { machine.new.left ≤ machine.old.left }
    ensures names { machine.new.names ≡ machine.old.names }
    ensures kept { standing machine.new ≡ standing machine.old }
{
    let seen = machine.look(scene, field_key(scene.me, name))?;
    let property = Property::Field(scene.me, name);
    Ok(property_place(machine, scene, property, kind, seen))
}

/// The number or truth value in the entity's field of this name, if it is one.
#[tactic(auto, using(crate::proofs::OverlayLemmas::field_read))]
pub fn field_scalar<T: Scalar>(
    machine: &mut Machine,
    scene: &Scene,
    name: &Symbol<Name>,
    kind: Kind,
) -> Result<Option<T>, Stop>
    requires names { machine.old.names ≡ scene.now.names.now }
    requires numbered { IsNumbered scene.now.names.now name.now }
    ensures finds { EndsFinding T.value_of T.is_other (read.field (setting_of scene.now) name.now.name kind (state_of machine.old)) machine.new result }
    ensures spent { machine.new.left ≤ machine.old.left }
    ensures names { machine.new.names ≡ machine.old.names }
    ensures kept { standing machine.new ≡ standing machine.old }
{
    let Some(seen) = machine.seen_again(scene, field_key(scene.me, name)) else {
        return first_field_scalar(machine, scene, name, kind);
    };
    let property = Property::Field(scene.me, name);
    let lent = lend_property(machine, scene, property, kind, Some(seen));
    Ok(T::within(lent))
}

/// The same where the field wasn't read yet.
#[inline(never)]
#[tactic(auto, using(crate::proofs::OverlayLemmas::field_read))]
fn first_field_scalar<T: Scalar>(
    machine: &mut Machine,
    scene: &Scene,
    name: &Symbol<Name>,
    kind: Kind,
) -> Result<Option<T>, Stop>
    requires names { machine.old.names ≡ scene.now.names.now }
    requires numbered { IsNumbered scene.now.names.now name.now }
    ensures finds { EndsFinding T.value_of T.is_other (read.field (setting_of scene.now) name.now.name kind (state_of machine.old)) machine.new result }
    ensures spent { machine.new.left ≤ machine.old.left }
    ensures names { machine.new.names ≡ machine.old.names }
    ensures kept { standing machine.new ≡ standing machine.old }
{
    let seen = machine.look_first(scene, field_key(scene.me, name))?;
    let property = Property::Field(scene.me, name);
    let lent = lend_property(machine, scene, property, kind, seen);
    Ok(T::within(lent))
}

/// Where the activity's attribute of this key stands, of the type that the script has there.
#[tactic(auto, using(crate::proofs::OverlayLemmas::attribute_read))]
pub fn attribute<'a>(
    machine: &mut Machine,
    scene: &Scene<'a>,
    key: &Symbol<Text>,
    kind: Kind,
    activity: Ref,
) -> Result<Place<'a>, Stop>
    requires names { machine.old.names ≡ scene.now.names.now }
    requires numbered { IsNumbered scene.now.names.now key.now }
    ensures agrees { AgreesAs (value_at (standing machine.new)) (read.attribute (setting_of scene.now) key.now.name kind activity) machine.old machine.new result }
    ensures spent { machine.new.left ≤ machine.old.left }
    ensures names { machine.new.names ≡ machine.old.names }
    ensures kept { standing machine.new ≡ standing machine.old }
{
    let Some(seen) = machine.seen_again(scene, attribute_key(activity, key)) else {
        return first_attribute(machine, scene, key, kind, activity);
    };
    let property = Property::Attribute(activity, key);
    Ok(property_place(machine, scene, property, kind, Some(seen)))
}

/// The same where the attribute wasn't read yet.
#[inline(never)]
#[tactic(auto, using(crate::proofs::OverlayLemmas::attribute_read))]
fn first_attribute<'a>(
    machine: &mut Machine,
    scene: &Scene<'a>,
    key: &Symbol<Text>,
    kind: Kind,
    activity: Ref,
) -> Result<Place<'a>, Stop>
    requires names { machine.old.names ≡ scene.now.names.now }
    requires numbered { IsNumbered scene.now.names.now key.now }
    ensures agrees { AgreesAs (value_at (standing machine.new)) (read.attribute (setting_of scene.now) key.now.name kind activity) machine.old machine.new result }
    ensures spent { machine.new.left ≤ machine.old.left }
    ensures names { machine.new.names ≡ machine.old.names }
    ensures kept { standing machine.new ≡ standing machine.old }
{
    let seen = machine.look_first(scene, attribute_key(activity, key))?;
    let property = Property::Attribute(activity, key);
    Ok(property_place(machine, scene, property, kind, seen))
}

/// The number or truth value in the activity's attribute of this key, if it is one.
#[tactic(auto, using(crate::proofs::OverlayLemmas::attribute_read))]
pub fn attribute_scalar<T: Scalar>(
    machine: &mut Machine,
    scene: &Scene,
    key: &Symbol<Text>,
    kind: Kind,
    activity: Ref,
) -> Result<Option<T>, Stop>
    requires names { machine.old.names ≡ scene.now.names.now }
    requires numbered { IsNumbered scene.now.names.now key.now }
    ensures finds { EndsFinding T.value_of T.is_other (read.attribute (setting_of scene.now) key.now.name kind activity (state_of machine.old)) machine.new result }
    ensures spent { machine.new.left ≤ machine.old.left }
    ensures names { machine.new.names ≡ machine.old.names }
    ensures kept { standing machine.new ≡ standing machine.old }
{
    let seen = machine.look(scene, attribute_key(activity, key))?;
    let property = Property::Attribute(activity, key);
    let lent = lend_property(machine, scene, property, kind, seen);
    Ok(T::within(lent))
}
