//! Variables by their places in the scope.
ghost use Rattle.std.specs.Prelude.{◌≡◌, ◌++◌, slice_get, option_map};
ghost use Rattle.std.specs.Option.{option_copied};
ghost use Rattle.script_meaning.specs.Observing as read;
ghost use Rattle.script_meaning.specs.Overlay.{removes, is_removed};
ghost use Rattle.script_run_machine.specs.Agreeing.{Agrees, AgreesAs};
ghost use Rattle.script_run_machine.specs.Settings.{setting_of};
ghost use Rattle.script_run_machine.specs.Variables.{number_held, text_held};

use crate::comparing::is_same_ref;
use crate::{Machine, Scene, Stop, Variable};
use script_meaning::FailKind;
use slee_effect::{Effect, Ref, Val};

pub(crate) fn variable_at(variables: &[Variable], place: usize) -> Option<&Variable>
    ensures { option_copied result ≡ slice_get variables.now place }
{
    variables.get(place)
}

/// Whether an effect removes the entity.
fn removes(entity: Ref, effect: &Effect) -> bool
    ensures { result ≡ removes entity effect.now }
{
    match effect {
        Effect::Remove { entity: other } => is_same_ref(*other, entity),
        _ => false,
    }
}

/// Whether one of these effects removes the entity.
pub fn is_removed(entity: Ref, effects: &[Effect]) -> bool
    ensures { result ≡ is_removed entity effects.now }
{
    effects.iter().any(|effect| removes(entity, effect))
}

impl Machine<'_> {
    /// The number that the variable in this place holds, if it holds one.
    #[inline(always)]
    pub fn number_in(&self, place: usize) -> Option<i64>
        ensures { result ≡ number_held (slice_get self.now.variables place) }
    {
        match variable_at(&self.variables, place) {
            Some(variable) => variable.number(),
            None => None,
        }
    }

    /// The text that the variable in this place holds, if it holds one.
    #[inline(always)]
    pub fn text_in(&self, place: usize) -> Option<&str>
        ensures { option_map (λ t. t.now) result ≡ text_held (slice_get self.now.variables place) }
    {
        match variable_at(&self.variables, place) {
            Some(variable) => variable.text(),
            None => None,
        }
    }

    /// The value of the variable in this place as it stands there.
    #[tactic(auto, using(crate::proofs::VariableLemmas::value_found))]
    pub fn variable_value(&self, place: usize) -> Result<&Val, Stop>
        ensures { AgreesAs (λ x. x.now) (read.value place) self.now self.now result }
    {
        let Some(variable) = variable_at(&self.variables, place) else {
            return Err(Stop::Unchecked);
        };
        match variable.as_value() {
            Some(value) => Ok(value),
            None => Err(Stop::Unchecked),
        }
    }

    /// The child for which the variable in this place stands, which is gone where this run removed it.
    #[tactic(auto, using(crate::proofs::VariableLemmas::child_found))]
    pub fn child(&self, scene: &Scene, place: usize) -> Result<Ref, Stop>
        ensures { Agrees (read.child (setting_of scene.now) place) self.now self.now result }
    {
        let Some(variable) = variable_at(&self.variables, place) else {
            return Err(Stop::Unchecked);
        };
        let Some(child) = variable.as_child() else {
            return Err(Stop::Unchecked);
        };
        if self.is_gone(scene, child) {
            return Err(Stop::Broken(FailKind::Gone));
        }
        Ok(child)
    }

    /// Whether this run or the transaction before it removed the entity.
    #[tactic(auto, using(crate::proofs::VariableLemmas::removed_by_both))]
    fn is_gone(&self, scene: &Scene, entity: Ref) -> bool
        ensures { result ≡ is_removed entity (scene.now.effects.now ++ self.now.effects) }
    {
        is_removed(entity, scene.effects) || is_removed(entity, &self.effects)
    }
}
