//! Effects of a run, within their limits.
ghost use Rattle.std.specs.Prelude.{◌≡◌, ◌≤◌, None, Ok, length, map};
ghost use Rattle.script_meaning.specs.Running.{effect as effect_of, effect_limit};
ghost use Rattle.script_meaning.specs.Steps.{ask_rollback};
ghost use Rattle.script_run_machine.specs.Agreeing.{Agrees};
ghost use Rattle.script_run_machine.specs.Numbering.{effect_number};

use crate::effect_bytes::len_of_effect;
use crate::{Machine, Stop};
use script_meaning::FailKind;
use slee_effect::Effect;
use slee_value::NoMemory;

/// How many effects a run may have.
pub const EFFECT_LIMIT: usize = 256;

/// How many bytes its effects may have.
pub const EFFECT_BYTES_LIMIT: u32 = 32_768;

/// How many effects most runs have at most. For so many, memory is taken once.
const FEW_EFFECTS: usize = 8;

impl Machine<'_> {
    /// Takes memory for so many effects as most runs have, before the first of them.
    fn reserve_effects(&mut self) -> Result<(), NoMemory>
        ensures { self.new ≡ self.old }
    {
        if self.effects.is_empty() {
            self.effects.reserve(FEW_EFFECTS)?;
            self.effect_numbers.reserve(FEW_EFFECTS)?;
        }
        Ok(())
    }

    /// Adds an effect behind all others, whose name has this number.
    #[tactic(auto, using(crate::proofs::EffectLemmas::bytes_behind), unfolding(script_meaning::specs::Running::effect))]
    pub fn add_numbered_effect(&mut self, effect: Effect, number: Option<usize>) -> Result<(), Stop>
        requires { number ≡ effect_number self.old.names effect }
        ensures agrees { Agrees (effect_of effect) self.old self.new result }
        ensures spent { self.new.left ≤ self.old.left }
        ensures names { self.new.names ≡ self.old.names }
    {
        if self.effects.len() >= EFFECT_LIMIT {
            return Err(Stop::Broken(FailKind::TooMuch));
        }
        let bytes = self.bytes + len_of_effect(&effect);
        if bytes > EFFECT_BYTES_LIMIT {
            return Err(Stop::Broken(FailKind::TooMuch));
        }
        self.reserve_effects()?;
        self.effects.reserve(1)?;
        self.effect_numbers.push(number)?;
        match self.effects.push(effect) {
            Ok(()) => {}
            Err(_) => unreachable!(),
        }
        self.bytes = bytes;
        Ok(())
    }

    /// Adds an effect that has no name behind all others.
    pub fn add_effect(&mut self, effect: Effect) -> Result<(), Stop>
        requires { effect_number self.old.names effect ≡ None }
        ensures agrees { Agrees (effect_of effect) self.old self.new result }
        ensures spent { self.new.left ≤ self.old.left }
        ensures names { self.new.names ≡ self.old.names }
    {
        self.add_numbered_effect(effect, None)
    }

    /// Asks that the transaction is rolled back at the end.
    pub fn ask_rollback(&mut self)
        ensures agrees { Agrees ask_rollback self.old self.new (Ok tt) }
        ensures spent { self.new.left ≤ self.old.left }
        ensures names { self.new.names ≡ self.old.names }
    {
        self.is_asked = true;
    }

    /// The numbers of the names of the effects so far.
    pub fn effect_numbers(&self) -> &[Option<usize>]
        ensures { result.now ≡ map (effect_number self.now.names) self.now.effects }
    {
        &self.effect_numbers
    }

    /// The effects so far.
    pub fn effects(&self) -> &[Effect]
        ensures effects { result.now ≡ self.now.effects }
        ensures few { length self.now.effects ≤ effect_limit }
    {
        &self.effects
    }
}
