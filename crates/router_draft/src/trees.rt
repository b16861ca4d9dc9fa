//! Trees of entities.
ghost use Rattle.std.specs.Prelude.{◌≡◌, ◌∷◌, ◌++◌, [], IfOk, OnOk, IsTrue};
ghost use Rattle.router_state.specs.Fitting.{has_entity};
ghost use Rattle.router_state.specs.Trees.{tree_of};
ghost use Rattle.router_draft.specs.After.{kids};
ghost use Rattle.router_draft.specs.Drafts.{laid, CanBeMade, IsLow};

use crate::{Base, Draft, reading};
use slee_value::{EntityId, NoMemory};
use std::alloc::Global;

/// A member is listed, and its children wait in its place.
fn visit<B: Base>(
    alloc: Global,
    base: &B,
    draft: &Draft,
    member: u64,
    waiting: &mut Vec<u64>,
    all: &mut Vec<u64>,
) -> Result<(), NoMemory>
    requires { IsLow (B.state base.now) }
    ensures waiting { OnOk result (waiting.new.items ≡ waiting.old.items ++ kids (laid (B.state base.now) draft.now).entities member) }
    ensures all { OnOk result (all.new.items ≡ all.old.items ++ member ∷ []) }
{
    let children = reading::children(alloc, base, draft, EntityId(member))?;
    waiting.extend_from_slice(&children)?;
    all.push(member)?;
    Ok(())
}

/// The tree of an entity in the order in which it goes. Last comes first here, until the list is turned round.
pub fn tree<B: Base>(
    alloc: Global,
    base: &B,
    draft: &Draft,
    entity: EntityId,
) -> Result<Vec<u64>, NoMemory>
    requires low { IsLow (B.state base.now) }
    requires made { CanBeMade (B.state base.now) draft.now }
    requires there { IsTrue (has_entity (laid (B.state base.now) draft.now).entities entity.0) }
    ensures { IfOk result (λ all. all.items ≡ tree_of (laid (B.state base.now) draft.now).entities entity.0) }
{
    base.ordered();
    let mut waiting = Vec::new(alloc);
    let mut all = Vec::new(alloc);
    waiting.push(entity.0)?;
    'tree: while let Some(member) = waiting.pop() {
        visit(alloc, base, draft, member, &mut waiting, &mut all)?;
    }
    all.reverse();
    Ok(all)
}
