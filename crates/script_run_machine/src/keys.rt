//! Keys: whether one is that which is asked for, whether one was observed, and the answer that was kept for one. Names in keys are told apart by their numbers.
ghost use Rattle.std.specs.Prelude.{◌≡◌, ◌||◌, IsTrue, map, slice_get};
ghost use Rattle.std.specs.List.{list_any};
ghost use Rattle.std.specs.Option.{option_copied};
ghost use Rattle.script_meaning.specs.Seeing.{same_key};
ghost use Rattle.script_meaning.specs.Answers.{kept};
ghost use Rattle.script_run_machine.specs.Asking.{key_asked, IsNumberedAsked};
ghost use Rattle.script_run_machine.specs.Numbering.{key_number, answer_numbers, numbers_seen};

use crate::numbering::{AnswerNumbers, NumberedName, Spelling, is_same_name};
use crate::{Asked, Scene, Wanted, WantedAttribute, WantedField, WantedState};
use script_meaning::{Key, Seen};
use script_types::NamedList;
use slee_value::Text;

/// Keys with the numbers of their names.
#[derive(Debug, Clone, Copy)]
pub(crate) struct NumberedKeys<'a> {
    pub(crate) keys: &'a [Key],
    pub(crate) numbers: &'a [Option<usize>],
}

/// Whether a key, whose name has this number, is that which is asked for.
#[inline(always)]
#[tactic(auto, using(crate::proofs::KeyLemmas::names_turned, crate::proofs::KeyLemmas::numbers_turned))]
pub(crate) fn is_asked(
    names: &NamedList<Text>,
    one: &Key,
    number: Option<usize>,
    asked: &Asked,
) -> bool
    requires number { number ≡ key_number names.now one.now }
    requires asked { IsNumberedAsked names.now asked.now }
    ensures is { result ≡ same_key one.now (key_asked asked.now) }
    ensures turned { result ≡ same_key (key_asked asked.now) one.now }
{
    match (one, asked) {
        (_, Asked::Field(entity, name)) => {
            let entity = *entity;
            WantedField { entity, name }.is(names, one, number)
        }
        (Key::Children(e, x), Asked::Children(f, y)) => {
            let name = Spelling::Name(x);
            let given = NumberedName { name, number };
            e.0 == f.0 && is_same_name(names, given, NumberedName::of_name(y))
        }
        (Key::Priority(e), Asked::Priority(f)) => e.0 == f.0,
        (_, Asked::AcState(activity)) => {
            let activity = *activity;
            WantedState { activity }.is(names, one, number)
        }
        (_, Asked::Attr(activity, key)) => {
            let activity = *activity;
            WantedAttribute { activity, key }.is(names, one, number)
        }
        (Key::Attached(e, a), Asked::Attached(f, b)) => e.0 == f.0 && a.0 == b.0,
        (Key::Mask(e, a), Asked::Mask(f, b)) => e.0 == f.0 && a.0 == b.0,
        (Key::Named(x), Asked::Named(y)) => x.as_bytes() == y.as_bytes(),
        (Key::Timer(t), Asked::Timer(u)) => t.0 == u.0,
        (Key::Profile(t, x), Asked::Profile(u, y)) => {
            let name = Spelling::Name(t);
            let given = NumberedName { name, number };
            is_same_name(names, given, NumberedName::of_name(u)) && x.as_bytes() == y.as_bytes()
        }
        (Key::Now, Asked::Now) => true,
        (Key::Activities(e), Asked::Activities(f)) => e.0 == f.0,
        _ => false,
    }
}

/// Whether one of these keys is that which is wanted.
#[inline(always)]
#[tactic(auto, using(crate::proofs::KeyLemmas::number_there))]
pub(crate) fn has_key<W: Wanted>(names: &NamedList<Text>, given: NumberedKeys, wanted: &W) -> bool
    requires numbers { given.numbers.now ≡ map (key_number names.now) given.keys.now }
    requires wanted { W.is_numbered names.now wanted.now }
    ensures { result ≡ list_any (same_key (W.key_of wanted.now)) given.entry.keys.now }
{
    let keys = given.keys;
    let numbers = given.numbers;
    'keys: for place in 0..keys.len() {
        if wanted.is(names, &keys[place], numbers[place]) {
            return true;
        }
    }
    false
}

/// Whether the key in this place is that which is wanted.
#[inline(always)]
fn is_asked_at<W: Wanted>(
    names: &NamedList<Text>,
    given: NumberedKeys,
    place: usize,
    wanted: &W,
) -> bool
    requires numbers { given.numbers.now ≡ map (key_number names.now) given.keys.now }
    requires wanted { W.is_numbered names.now wanted.now }
    ensures { IsTrue result → IsTrue (list_any (same_key (W.key_of wanted.now)) given.entry.keys.now) }
{
    place < given.keys.len() && wanted.is(names, &given.keys[place], given.numbers[place])
}

/// Whether the key in this place of these, those before first, is that which is wanted.
#[inline(always)]
pub(crate) fn is_counted_at<W: Wanted>(
    names: &NamedList<Text>,
    before: NumberedKeys,
    own: NumberedKeys,
    place: usize,
    wanted: &W,
) -> bool
    requires before { before.numbers.now ≡ map (key_number names.now) before.keys.now }
    requires own { own.numbers.now ≡ map (key_number names.now) own.keys.now }
    requires wanted { W.is_numbered names.now wanted.now }
    ensures { IsTrue result → IsTrue (list_any (same_key (W.key_of wanted.now)) before.entry.keys.now || list_any (same_key (W.key_of wanted.now)) own.entry.keys.now) }
{
    if place < before.keys.len() {
        return is_asked_at(names, before, place, wanted);
    }
    is_asked_at(names, own, place - before.keys.len(), wanted)
}

/// What was kept for a key: the answer with the numbers of the names in it, if there is one, and how many stand before it.
#[derive(Debug, Clone, Copy)]
pub(crate) struct Kept<'a> {
    pub(crate) seen: Option<&'a Seen>,
    pub(crate) numbers: &'a [Option<usize>],
    pub(crate) place: usize,
}

/// The answer that was kept for the key that is wanted.
#[inline(always)]
#[tactic(auto, using(crate::proofs::KeyLemmas::number_there))]
pub(crate) fn kept_answer<'a, W: Wanted>(scene: &Scene<'a>, wanted: &W) -> Kept<'a>
    requires { W.is_numbered scene.now.names.now wanted.now }
    ensures seen { option_copied result.seen ≡ kept scene.now.known.now (W.key_of wanted.now) }
    ensures numbers { result.numbers.now ≡ numbers_seen scene.now.names.now (option_copied result.seen) }
{
    let known = scene.known;
    let numbers = scene.known_numbers;
    'known: for place in 0..known.len() {
        let (key, seen) = &known[place];
        let number = &numbers[place];
        if wanted.is(scene.names, key, number.key) {
            return Kept {
                seen: Some(seen),
                numbers: number.seen.as_slice(),
                place,
            };
        }
    }
    Kept {
        seen: None,
        numbers: &[],
        place: known.len(),
    }
}
