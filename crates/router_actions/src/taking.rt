//! A line is taken: it is counted, and does something or is refused.
ghost use Rattle.std.specs.Prelude.{◌≡◌, ◌++◌, OnOk};
ghost use Rattle.router_steps.specs.Taking.{lines_of_taken, taken};
ghost use Rattle.router_inputs.specs.Acting.{CanTake, answer_in};
ghost use Rattle.router_draft.specs.Drafts.{CanBeMade, IsLow, laid};

use crate::Keys;
use crate::acting::act;
use crate::counting::{count, refuse};
use router_draft::Draft;
use router_inputs::Action;
use router_steps::Refusal;
use slee_value::NoMemory;
use std::alloc::Global;

/// Takes a line: it is counted, and then it does what it does or is refused.
#[tactic(auto, using(crate::proofs::TakingLemmas::still_can, crate::proofs::TakingLemmas::lines_counted))]
pub fn take<K: Keys>(
    alloc: Global,
    keys: &K,
    draft: &mut Draft,
    answer: Result<Action, Refusal>,
) -> Result<(), NoMemory>
    requires low { IsLow (K.state keys.now) }
    requires can { CanTake (answer_in answer) (laid (K.state keys.now) draft.old) }
    requires made { CanBeMade (K.state keys.now) draft.old }
    ensures state { OnOk result (laid (K.state keys.now) draft.new ≡ taken (answer_in answer) (laid (K.state keys.now) draft.old)) }
    ensures lines { OnOk result (draft.new.lines ≡ draft.old.lines ++ lines_of_taken (answer_in answer) (laid (K.state keys.now) draft.old)) }
    ensures made { OnOk result (CanBeMade (K.state keys.now) draft.new) }
{
    count(keys, draft)?;
    match answer {
        Ok(action) => act(alloc, keys, draft, action),
        Err(why) => refuse(alloc, draft, why),
    }
}
