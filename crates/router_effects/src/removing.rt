//! Handlers remove entities.
ghost use Rattle.std.specs.Prelude.{◌≡◌, ◌++◌, [], OnOk, ◌==◌, ◌&&◌, if◌then◌else◌};
ghost use Rattle.std.specs.List.{list_any};
ghost use Rattle.router_state.specs.Fitting.{has_entity};
ghost use Rattle.router_steps.specs.Applying.{stays_behind};
ghost use Rattle.router_steps.specs.Going.{tree_removed, lines_of_tree_removed};
ghost use Rattle.router_draft.specs.Drafts.{laid, CanBeMade, IsLow};

use crate::applying::has_entity;
use router_draft::{Draft, tree};
use router_moves::{Setting, remove_members};
use slee_value::{EntityId, NoMemory};
use std::alloc::Global;

/// Whether an entity is one of these.
fn is_among(members: &[u64], entity: EntityId) -> bool
    ensures { result ≡ list_any (λ other. other == entity.0) members.now }
{
    members.iter().any(|other| *other == entity.0)
}

/// An entity that is there goes with its tree, where the entity whose handler says so isn't in it.
pub(crate) fn remove_other<S: Setting>(
    alloc: Global,
    setting: &S,
    draft: &mut Draft,
    me: EntityId,
    entity: EntityId,
) -> Result<(), NoMemory>
    requires low { IsLow (S.state setting.now) }
    requires made { CanBeMade (S.state setting.now) draft.old }
    ensures state { OnOk result (laid (S.state setting.now) draft.new ≡ (if has_entity (laid (S.state setting.now) draft.old).entities entity.0 && stays_behind (laid (S.state setting.now) draft.old) me.0 entity.0 then tree_removed (laid (S.state setting.now) draft.old) entity.0 else laid (S.state setting.now) draft.old)) }
    ensures lines { OnOk result (draft.new.lines ≡ draft.old.lines ++ (if has_entity (laid (S.state setting.now) draft.old).entities entity.0 && stays_behind (laid (S.state setting.now) draft.old) me.0 entity.0 then lines_of_tree_removed (laid (S.state setting.now) draft.old) entity.0 else [])) }
    ensures made { OnOk result (CanBeMade (S.state setting.now) draft.new) }
{
    if !has_entity(setting, draft, entity) {
        return Ok(());
    }
    let members = tree(alloc, setting, draft, entity)?;
    if is_among(&members, me) {
        return Ok(());
    }
    remove_members(alloc, setting, draft, entity, &members)?;
    Ok(())
}
