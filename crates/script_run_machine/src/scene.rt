//! What a run is given.
ghost use Rattle.std.specs.Prelude.{◌≡◌, ◌≤◌, length, map};
ghost use Rattle.script_types.specs.Codes.{number_in};
ghost use Rattle.script_meaning.specs.Running.{effect_limit};
ghost use Rattle.script_run_machine.specs.Numbering.{answer_numbers, effect_number, key_number};

use crate::numbering::AnswerNumbers;
use script_meaning::{Args, Key, Seen};
use script_types::{NamedList, Symbol};
use slee_effect::{Effect, Ref};
use slee_value::Text;
use std::alloc::Global;

/// What stays the same while a script runs: the answers that were kept, what the transaction already has, the
/// arguments, the entity, and the events that its block masks on attaching; with the numbers of all names among those of the
/// deployment.
#[derive(Drop)]
pub struct Scene<'a> {
    pub alloc: Global,
    pub names: &'a NamedList<Text>,
    pub known: &'a [(Key, Seen)],
    pub known_numbers: &'a [AnswerNumbers],
    pub effects: &'a [Effect],
    pub effect_numbers: &'a [Option<usize>],
    pub keys: &'a [Key],
    pub key_numbers: &'a [Option<usize>],
    pub arguments: &'a Args,
    pub me: Ref,
    pub masks: &'a [Symbol<Text>],
    ghost few_effects: { length effects.now ≤ effect_limit },
    pub ghost known_numbered: { known_numbers.now ≡ map (answer_numbers names.now) known.now },
    pub ghost effects_numbered: { effect_numbers.now ≡ map (effect_number names.now) effects.now },
    pub ghost keys_numbered: { key_numbers.now ≡ map (key_number names.now) keys.now },
    pub ghost masks_numbered: { map (λ x. x.number) masks.now ≡ map (λ x. number_in names.now x.name) masks.now },
}
