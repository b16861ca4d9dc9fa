//! Counting what effects make.
ghost use Rattle.std.specs.Prelude.{◌≡◌, ◌≤◌, ◌<◌, ◌++◌, ◌^◌, length};
ghost use Rattle.script_meaning.specs.Overlay.{count_of};
ghost use Rattle.script_run_reads.specs.Things.{made_by};

use script_run_machine::{Machine, Scene};
use slee_effect::Effect;

/// A kind of things that effects make.
#[derive(Debug, Clone, Copy, PartialEq, Eq)]
pub enum Thing {
    Entity,
    Activity,
    Timer,
}

/// How many of the kind an effect makes.
pub fn made_by(thing: Thing, effect: &Effect) -> u32
    ensures made { result ≡ made_by thing effect.now }
    ensures most { result ≤ 1 }
{
    match (thing, effect) {
        (Thing::Entity, Effect::Create { .. }) => 1,
        (Thing::Activity, Effect::NewNull) => 1,
        (Thing::Timer, Effect::SetTimer { .. }) => 1,
        _ => 0,
    }
}

/// How many of the kind effects make.
pub fn count_made(thing: Thing, effects: &[Effect]) -> u32
    requires { length effects.now < 2 ^ 32 }
    ensures made { result ≡ count_of (made_by thing) effects.now }
    ensures most { result ≤ length effects.now }
{
    let mut count = 0;
    for effect in effects {
        count += made_by(thing, effect);
    }
    count
}

/// The number that the next new thing of the kind gets.
#[tactic(auto, using(crate::proofs::CountLemmas::count_behind))]
pub fn next_number(machine: &Machine, scene: &Scene, thing: Thing) -> u32
    ensures { result ≡ count_of (made_by thing) (scene.now.effects.now ++ machine.now.effects) }
{
    count_made(thing, scene.effects) + count_made(thing, machine.effects())
}
