//! Events that an entity masks on an activity.
ghost use Rattle.std.specs.Prelude.{◌≡◌, List, ℕ, Option, ◌≤◌, ◌++◌, bytes_eq, map, option_map};
ghost use Rattle.std.specs.List.{list_any};
ghost use Rattle.std.specs.Option.{option_copied};
ghost use Rattle.script_meaning.specs.Answers.{masks_in};
ghost use Rattle.script_meaning.specs.Overlay.{overlay, activities_by, masks_after};
ghost use Rattle.script_meaning.specs.Observing.{key_of_two};
ghost use Rattle.script_meaning.specs.Values.{flag};
ghost use Rattle.script_meaning.specs.declared.key.Key.TheVariants as k;
ghost use Rattle.script_run_machine.specs.Agreeing.{AgreesAs};
ghost use Rattle.script_run_machine.specs.Asking.{AreNumberedBy, IsNumberedAsked, key_asked};
ghost use Rattle.script_run_machine.specs.Lending.{standing};
ghost use Rattle.script_run_machine.specs.Settings.{setting_of};
ghost use Rattle.script_run_reads.specs.Done.{done};
ghost use Rattle.script_types.specs.Codes.{number_in};
ghost use Rattle.script_types.specs.Numbers.{IsNumbered};
ghost use Rattle.script_run_machine.specs.Numbering.{effect_number, numbers_seen};
ghost use Rattle.script_run_reads.specs.Masked.{masked, mask_in, mask_is_on, mask_after};

use crate::effects::{NumberedEffects, effects_before, own_effects};
use script_meaning::{FailKind, Seen};
use script_run_machine::{
    Asked, Machine, NumberedName, Scene, Spelling, Stop, is_same_name, is_same_ref,
};
use script_types::{NamedList, Symbol};
use slee_effect::{Effect, Ref};
use slee_value::{ActivityId, EntityId, Text};

/// Whether an event is one of these, which a block masks.
#[tactic(auto, using(script_run_machine::proofs::KeyLemmas::same_there))]
fn has_event(names: &NamedList<Text>, events: &[Symbol<Text>], event: &Symbol<Text>) -> bool
    requires events { map (λ x. x.number) events.now ≡ map (λ x. number_in names.now x.name) events.now }
    requires event { IsNumbered names.now event.now }
    ensures { result ≡ list_any (bytes_eq event.now.name) (map (λ x. x.name) events.now) }
{
    'events: for place in 0..events.len() {
        let other = NumberedName::of_text(&events[place]);
        if is_same_name(names, NumberedName::of_text(event), other) {
            return true;
        }
    }
    false
}

/// Whether an event is one of these, which have these numbers.
#[tactic(auto, using(script_run_machine::proofs::KeyLemmas::number_there))]
fn is_one_of(
    names: &NamedList<Text>,
    events: &[Text],
    numbers: &[Option<usize>],
    event: &Symbol<Text>,
) -> bool
    requires numbers { numbers.now ≡ map (number_in names.now) events.now }
    requires event { IsNumbered names.now event.now }
    ensures { result ≡ list_any (bytes_eq event.now.name) events.now }
{
    'events: for place in 0..events.len() {
        let other = NumberedName {
            name: Spelling::Text(&events[place]),
            number: numbers[place],
        };
        if is_same_name(names, NumberedName::of_text(event), other) {
            return true;
        }
    }
    false
}

/// An event's mask in an answer, whose names have these numbers.
fn mask_in(
    names: &NamedList<Text>,
    seen: Option<&Seen>,
    numbers: &[Option<usize>],
    event: &Symbol<Text>,
) -> Option<bool>
    requires numbers { numbers.now ≡ numbers_seen names.now (option_copied seen) }
    requires event { IsNumbered names.now event.now }
    ensures { result ≡ mask_in event.now.name (masks_in (option_copied seen.entry)) }
{
    match seen {
        Some(Seen::Masks(Some(events))) => {
            Some(is_one_of(names, events.as_slice(), numbers, event))
        }
        _ => None,
    }
}

/// Whether an effect, whose name has this number, masks the event or no longer does so.
fn is_on_event(
    names: &NamedList<Text>,
    event: &Symbol<Text>,
    effect: &Effect,
    number: Option<usize>,
) -> bool
    requires number { number ≡ effect_number names.now effect.now }
    requires event { IsNumbered names.now event.now }
    ensures { result ≡ mask_is_on event.now.name effect.now }
{
    match effect {
        Effect::SetMask { event: other, .. } => {
            let name = Spelling::Text(other);
            is_same_name(
                names,
                NumberedName::of_text(event),
                NumberedName { name, number },
            )
        }
        _ => false,
    }
}

/// An event's mask behind an effect, of which is known whether it is on that event; `attached` tells whether attaching masks it.
fn mask_after(
    is_on_event: bool,
    attached: bool,
    entity: Ref,
    activity: Ref,
    effect: &Effect,
    masked: Option<bool>,
) -> Option<bool>
    ensures { (event : List ℕ) → is_on_event ≡ mask_is_on event effect.now → result ≡ mask_after event attached entity activity effect.now masked }
{
    match effect {
        Effect::Attach {
            entity: who,
            activity: on,
        } if is_same_ref(*who, entity) && is_same_ref(*on, activity) => {
            Some(masked.unwrap_or(attached))
        }
        Effect::Detach {
            entity: who,
            activity: on,
        } if is_same_ref(*who, entity) && is_same_ref(*on, activity) => None,
        Effect::SetMask {
            entity: who,
            activity: at,
            event: _,
            on,
        } if is_same_ref(*who, entity) && is_same_ref(*at, activity) => {
            if is_on_event {
                masked.map(|_| *on)
            } else {
                masked
            }
        }
        _ => masked,
    }
}

/// An event's mask behind effects; `attached` tells whether attaching masks the event.
#[tactic(auto, using(script_run_machine::proofs::KeyLemmas::number_there))]
fn mask_over(
    scene: &Scene,
    event: &Symbol<Text>,
    attached: bool,
    activity: Ref,
    given: NumberedEffects,
    first: Option<bool>,
) -> Option<bool>
    requires numbers { given.numbers.now ≡ map (effect_number scene.now.names.now) given.effects.now }
    requires event { IsNumbered scene.now.names.now event.now }
    ensures { result ≡ done (mask_after event.now.name attached scene.now.me activity) given.entry.effects.now first }
{
    let effects = given.effects;
    let numbers = given.numbers;
    let mut current = first;
    'effects: for place in 0..effects.len() {
        let effect = &effects[place];
        let is_on = is_on_event(scene.names, event, effect, numbers[place]);
        current = mask_after(is_on, attached, scene.me, activity, effect, current);
    }
    current
}

fn mask_laid(
    machine: &Machine,
    scene: &Scene,
    event: &Symbol<Text>,
    activity: Ref,
    first: Option<bool>,
) -> Option<bool>
    requires names { machine.now.names ≡ scene.now.names.now }
    requires event { IsNumbered scene.now.names.now event.now }
    ensures { (masks : Option (List (List ℕ))) → first ≡ mask_in event.now.name masks → result ≡ mask_in event.now.name (overlay activities_by (masks_after (map (λ x. x.name) scene.now.masks.now) scene.now.me activity) (scene.now.effects.now ++ machine.now.effects) masks) }
{
    let attached = has_event(scene.names, scene.masks, event);
    let before = mask_over(
        scene,
        event,
        attached,
        activity,
        effects_before(scene),
        first,
    );
    mask_over(
        scene,
        event,
        attached,
        activity,
        own_effects(machine),
        before,
    )
}

fn mask_key(entity: Ref, activity: Ref) -> Option<Asked<'static>>
    ensures key { option_map key_asked result ≡ key_of_two (λ m n. k.Mask (record { 0 = m }) (record { 0 = n })) entity activity }
    ensures numbered { (names : List (List ℕ)) → AreNumberedBy IsNumberedAsked names result }
{
    match (entity, activity) {
        (Ref::Known(entity), Ref::Known(activity)) => {
            Some(Asked::Mask(EntityId(entity), ActivityId(activity)))
        }
        _ => None,
    }
}

/// Whether the entity, which has to be attached, masks the event on the activity.
#[tactic(auto, using(crate::proofs::MaskLemmas::mask_told))]
pub fn is_masked(
    machine: &mut Machine,
    scene: &Scene,
    event: &Symbol<Text>,
    activity: Ref,
) -> Result<bool, Stop>
    requires names { machine.old.names ≡ scene.now.names.now }
    requires event { IsNumbered scene.now.names.now event.now }
    ensures agrees { AgreesAs flag (masked (setting_of scene.now) event.now.name activity) machine.old machine.new result }
    ensures spent { machine.new.left ≤ machine.old.left }
    ensures names { machine.new.names ≡ machine.old.names }
    ensures kept { standing machine.new ≡ standing machine.old }
{
    let looked = machine.peek(scene, mask_key(scene.me, activity))?;
    let first = mask_in(scene.names, looked.seen, looked.numbers, event);
    machine.note(looked)?;
    match mask_laid(machine, scene, event, activity, first) {
        Some(masked) => Ok(masked),
        None => Err(Stop::Broken(FailKind::Detached)),
    }
}
