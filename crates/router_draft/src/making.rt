//! Changes of the state that is planned.
ghost use Rattle.std.specs.Prelude.{◌≡◌, OnOk};
ghost use Rattle.router_state.specs.Changes.{after_change};
ghost use Rattle.router_stores.specs.Making.{CanMake};
ghost use Rattle.router_draft.specs.Drafts.{laid, CanBeMade};

use crate::{Base, Draft};
use router_state::Change;
use slee_value::NoMemory;

/// A change more, which the stores can make at its turn.
#[tactic(auto, using(crate::proofs::ChangeLemmas::one_more, crate::proofs::MakingLemmas::made_more))]
pub fn change<B: Base>(_base: &B, draft: &mut Draft, change: Change) -> Result<(), NoMemory>
    requires can { CanMake change (laid (B.state _base.now) draft.old) }
    requires made { CanBeMade (B.state _base.now) draft.old }
    ensures state { OnOk result (laid (B.state _base.now) draft.new ≡ after_change change (laid (B.state _base.now) draft.old)) }
    ensures lines { OnOk result (draft.new.lines ≡ draft.old.lines) }
    ensures made { OnOk result (CanBeMade (B.state _base.now) draft.new) }
{
    draft.change(change)?;
    Ok(())
}
