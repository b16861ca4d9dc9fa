//! Effects with the numbers of their names: those of the transaction before the run, and the run's own.
ghost use Rattle.std.specs.Prelude.{◌≡◌, ◌≤◌, length, map};
ghost use Rattle.script_meaning.specs.Running.{effect_limit};
ghost use Rattle.script_run_machine.specs.Numbering.{effect_number};

use script_run_machine::{Machine, Scene};
use slee_effect::Effect;

/// Effects with the numbers of their names.
#[derive(Debug, Clone, Copy)]
pub(crate) struct NumberedEffects<'a> {
    pub(crate) effects: &'a [Effect],
    pub(crate) numbers: &'a [Option<usize>],
}

/// Those of the transaction before the run.
#[inline(always)]
pub(crate) fn effects_before<'a>(scene: &Scene<'a>) -> NumberedEffects<'a>
    ensures effects { result.effects.now ≡ scene.now.effects.now }
    ensures numbers { result.numbers.now ≡ map (effect_number scene.now.names.now) scene.now.effects.now }
{
    NumberedEffects {
        effects: scene.effects,
        numbers: scene.effect_numbers,
    }
}

/// The run's own.
#[inline(always)]
pub(crate) fn own_effects<'m>(machine: &'m Machine) -> NumberedEffects<'m>
    ensures effects { result.effects.now ≡ machine.now.effects }
    ensures numbers { result.numbers.now ≡ map (effect_number machine.now.names) machine.now.effects }
    ensures few { length result.effects.now ≤ effect_limit }
{
    NumberedEffects {
        effects: machine.effects(),
        numbers: machine.effect_numbers(),
    }
}
