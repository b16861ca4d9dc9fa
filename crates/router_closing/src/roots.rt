//! Roots in whose trees nothing is attached go (JSR 240, chapter 6).
ghost use Rattle.std.specs.Prelude.{◌≡◌, ◌++◌, ◌==◌, filter, IfOk, OnOk, IsTrue};
ghost use Rattle.std.specs.List.{list_any};
ghost use Rattle.router_state.specs.Closed.{is_loose};
ghost use Rattle.router_state.specs.Fitting.{has_entity};
ghost use Rattle.router_state.specs.Trees.{roots};
ghost use Rattle.router_state.specs.Well.{IsClosed};
ghost use Rattle.router_steps.specs.Closing.{close_root, lines_of_root, lines_of_roots, without_loose};
ghost use Rattle.router_draft.specs.Drafts.{laid, CanBeMade, IsLow};
ghost use Rattle.router_laws_closing.specs.TouchedRoots.{close_standing, close_standings, lines_of_standing, lines_of_standings, stands};
ghost use Rattle.router_closing.specs.Held.{is_held};

use crate::Closing;
use crate::numbers::rising;
use crate::touched::touched_roots;
use router_draft::{Base, Draft, reading, tree};
use router_moves::remove_tree;
use slee_value::{EntityId, NoMemory};
use std::alloc::Global;

/// Whether the entity is attached to an activity.
#[tactic(auto, using(crate::proofs::HeldLemmas::held_by))]
fn is_held<B: Base>(
    alloc: Global,
    base: &B,
    draft: &Draft,
    entity: EntityId,
) -> Result<bool, NoMemory>
    ensures { IfOk result (λ is. is ≡ is_held (laid (B.state base.now) draft.now).links entity.0) }
{
    let activities = reading::activities(alloc, base, draft, entity)?;
    Ok(!activities.is_empty())
}

/// Whether one of these entities is.
fn is_one_held<B: Base>(
    alloc: Global,
    base: &B,
    draft: &Draft,
    members: &[u64],
) -> Result<bool, NoMemory>
    ensures { IfOk result (λ is. is ≡ list_any (is_held (laid (B.state base.now) draft.now).links) members.now) }
{
    'members: for member in members {
        if is_held(alloc, base, draft, EntityId(*member))? {
            return Ok(true);
        }
    }
    Ok(false)
}

/// Whether nothing is attached in the tree of the root. The tree is listed only where the root itself isn't attached.
#[tactic(auto, using(crate::proofs::HeldLemmas::loose_is, crate::proofs::HeldLemmas::held_itself))]
fn is_loose<B: Base>(
    alloc: Global,
    base: &B,
    draft: &Draft,
    root: EntityId,
) -> Result<bool, NoMemory>
    requires low { IsLow (B.state base.now) }
    requires made { CanBeMade (B.state base.now) draft.now }
    requires there { IsTrue (has_entity (laid (B.state base.now) draft.now).entities root.0) }
    ensures { IfOk result (λ is. is ≡ is_loose (laid (B.state base.now) draft.now).entities (laid (B.state base.now) draft.now).links root.0) }
{
    if is_held(alloc, base, draft, root)? {
        return Ok(false);
    }
    let members = tree(alloc, base, draft, root)?;
    let held = is_one_held(alloc, base, draft, &members)?;
    Ok(!held)
}

/// Whether a root of this number is there.
pub fn stands<B: Base>(base: &B, draft: &Draft, entity: EntityId) -> bool
    ensures { result ≡ stands (laid (B.state base.now) draft.now).entities entity.0 }
{
    match reading::parent(base, draft, entity) {
        Some(parent) => parent == 0,
        None => false,
    }
}

/// The numbers of roots that are there.
fn standing<B: Base>(
    alloc: Global,
    base: &B,
    draft: &Draft,
    numbers: &[u64],
) -> Result<Vec<u64>, NoMemory>
    ensures { IfOk result (λ all. all.items ≡ filter (stands (laid (B.state base.now) draft.now).entities) numbers.now) }
{
    let mut all = Vec::new(alloc);
    'numbers: for number in numbers {
        if stands(base, draft, EntityId(*number)) {
            all.push(*number)?;
        }
    }
    Ok(all)
}

/// The root goes with its tree where nothing is attached in it.
fn close_root<C: Closing>(
    alloc: Global,
    setting: &C,
    draft: &mut Draft,
    root: EntityId,
) -> Result<(), NoMemory>
    requires low { IsLow (C.state setting.now) }
    requires made { CanBeMade (C.state setting.now) draft.old }
    requires there { IsTrue (has_entity (laid (C.state setting.now) draft.old).entities root.0) }
    ensures state { OnOk result (laid (C.state setting.now) draft.new ≡ close_root root.0 (laid (C.state setting.now) draft.old)) }
    ensures lines { OnOk result (draft.new.lines ≡ draft.old.lines ++ lines_of_root root.0 (laid (C.state setting.now) draft.old)) }
    ensures made { OnOk result (CanBeMade (C.state setting.now) draft.new) }
{
    if is_loose(alloc, setting, draft, root)? {
        remove_tree(alloc, setting, draft, root)?;
    }
    Ok(())
}

/// The same, where the root is there.
#[tactic(auto, using(crate::proofs::HeldLemmas::standing_there))]
fn close_standing<C: Closing>(
    alloc: Global,
    setting: &C,
    draft: &mut Draft,
    root: EntityId,
) -> Result<(), NoMemory>
    requires low { IsLow (C.state setting.now) }
    requires made { CanBeMade (C.state setting.now) draft.old }
    ensures state { OnOk result (laid (C.state setting.now) draft.new ≡ close_standing root.0 (laid (C.state setting.now) draft.old)) }
    ensures lines { OnOk result (draft.new.lines ≡ draft.old.lines ++ lines_of_standing root.0 (laid (C.state setting.now) draft.old)) }
    ensures made { OnOk result (CanBeMade (C.state setting.now) draft.new) }
{
    if stands(setting, draft, root) {
        close_root(alloc, setting, draft, root)?;
    }
    Ok(())
}

/// The same of these roots, the first of them first.
fn close_standings<C: Closing>(
    alloc: Global,
    setting: &C,
    draft: &mut Draft,
    roots: &[u64],
) -> Result<(), NoMemory>
    requires low { IsLow (C.state setting.now) }
    requires made { CanBeMade (C.state setting.now) draft.old }
    ensures state { OnOk result (laid (C.state setting.now) draft.new ≡ close_standings roots.now (laid (C.state setting.now) draft.old)) }
    ensures lines { OnOk result (draft.new.lines ≡ draft.old.lines ++ lines_of_standings roots.now (laid (C.state setting.now) draft.old)) }
    ensures made { OnOk result (CanBeMade (C.state setting.now) draft.new) }
{
    'roots: for root in roots {
        close_standing(alloc, setting, draft, EntityId(*root))?;
    }
    Ok(())
}

/// Each root in whose tree nothing is attached goes. Only those that the step touched are looked at.
#[tactic(auto, using(crate::proofs::ClosingLemmas::roots_close, crate::proofs::ClosingLemmas::roots_tell))]
pub fn close_roots<C: Closing>(
    alloc: Global,
    setting: &C,
    draft: &mut Draft,
) -> Result<(), NoMemory>
    requires closed { IsClosed (C.state setting.now) }
    requires low { IsLow (C.state setting.now) }
    requires made { CanBeMade (C.state setting.now) draft.old }
    ensures state { OnOk result (laid (C.state setting.now) draft.new ≡ without_loose (laid (C.state setting.now) draft.old)) }
    ensures lines { OnOk result (draft.new.lines ≡ draft.old.lines ++ lines_of_roots (roots (laid (C.state setting.now) draft.old).entities) (laid (C.state setting.now) draft.old)) }
    ensures made { OnOk result (CanBeMade (C.state setting.now) draft.new) }
{
    setting.ordered();
    let touched = touched_roots(alloc, setting, draft)?;
    let numbers = rising(touched);
    let roots = standing(alloc, setting, draft, &numbers)?;
    close_standings(alloc, setting, draft, &roots)?;
    Ok(())
}
