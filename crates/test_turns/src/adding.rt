//! Entries that are added turn by turn.
ghost use Rattle.std.specs.Prelude.{◌≡◌};
ghost use Rattle.slee_turn.specs.Passes.{IsFreeOf};

use crate::counted::Counted;
use slee_turn::{Pass, Turnstile};
use std::sync::Wait;

/// How many entries a thread adds.
pub const ENTRIES: u64 = 50;

/// Takes the turn so many times, and adds the number each time where there is memory for it.
pub fn add_often<R: Wait>(
    rt: &R,
    turn: &Turnstile<Counted>,
    mut pass: Pass<Counted>,
    number: u64,
) -> Pass<Counted>
    requires { IsFreeOf turn.now pass }
    ensures free { IsFreeOf turn.now result }
    ensures number { result.known.number ≡ pass.known.number }
{
    for _ in 0..ENTRIES {
        let mut value = turn.take(rt, &mut pass);
        let _ = value.add(number);
        turn.give(&mut pass, value);
    }
    pass
}
