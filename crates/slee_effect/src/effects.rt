//! Lists of effects, and their copies and resolution. Contracts see the list.
ghost use Rattle.std.specs.Prelude.{◌≡◌, ◌++◌, ◌∷◌, [], IfOk, OnOk, OnErr, length, map};
ghost use Rattle.std.specs.List.{AllByRecursion};
ghost use Rattle.slee_effect.specs.Resolving.{resolved_effect, CanResolve};

use crate::Effect;
use crate::next::Next;
use crate::resolving::resolve_all;
use slee_value::NoMemory;
use std::alloc::Global;
use std::marker::Model;

/// A list of effects.
#[derive(Debug, Drop)]
pub struct Effects {
    effects: Vec<Effect>,
}

impl Model for Effects {
    ghost use Rattle.std.specs.Prelude.{List};
    ghost use Rattle.slee_effect.specs.declared.effect.Effect.{Effect};

    ghost Value = { List Effect };

    ghost view = { λ e. e.effects.items };
}

impl Effects {
    /// No effects.
    pub fn new(alloc: Global) -> Self
        ensures { result ≡ [] }
    {
        Effects {
            effects: Vec::new(alloc),
        }
    }

    /// These effects.
    pub fn from_vec(effects: Vec<Effect>) -> Self
        ensures { result ≡ effects.items }
    {
        Effects { effects }
    }

    /// Adds an effect at the end.
    pub fn push(&mut self, effect: Effect) -> Result<(), NoMemory>
        ensures ok { OnOk result (self.new ≡ self.old ++ effect ∷ []) }
        ensures err { OnErr result (self.new ≡ self.old) }
    {
        self.effects.push(effect)?;
        Ok(())
    }

    /// The effects.
    pub fn as_slice(&self) -> &[Effect]
        ensures { result.now ≡ self.now }
    {
        &self.effects
    }

    /// How many effects there are.
    pub fn len(&self) -> usize
        ensures { result ≡ length self.now }
    {
        self.effects.len()
    }

    /// A copy.
    pub fn copy(&self, alloc: Global) -> Result<Self, NoMemory>
        ensures { IfOk result (λ e. e ≡ self.now) }
    {
        let effects = copied_effects(alloc, self.as_slice())?;
        Ok(Effects { effects })
    }
}

/// Puts numbers in place of what the effects create: of each kind, the k-th gets the next number and k.
pub fn resolve(effects: &mut Effects, entity: u64, activity: u64, timer: u64)
    requires { AllByRecursion (CanResolve (record { entity = entity; activity = activity; timer = timer })) effects.old }
    ensures { effects.new ≡ map (resolved_effect (record { entity = entity; activity = activity; timer = timer })) effects.old }
{
    let next = Next {
        entity,
        activity,
        timer,
    };
    resolve_all(&mut effects.effects, next);
}

fn copied_effects(alloc: Global, effects: &[Effect]) -> Result<Vec<Effect>, NoMemory>
    ensures { IfOk result (λ v. v.items ≡ effects.now) }
{
    let mut copied = Vec::new(alloc);
    for effect in effects {
        copied.push(effect.copy(alloc)?)?;
    }
    Ok(copied)
}
