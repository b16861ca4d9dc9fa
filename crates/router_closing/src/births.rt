//! The parents with which entities were made, and the roots above entities by these.
ghost use Rattle.std.specs.Prelude.{◌≡◌, ◌++◌, IfOk, OnOk};
ghost use Rattle.router_laws_closing.specs.TouchedRoots.{births, born, climbed, first_parent};

use router_draft::Base;
use router_state::Change;
use slee_value::{EntityId, NoMemory};
use std::alloc::Global;

/// The parent of the entity that the change makes, 0 for a root.
fn push_born(change: &Change, all: &mut Vec<u64>) -> Result<(), NoMemory>
    ensures { OnOk result (all.new.items ≡ all.old.items ++ born change.now) }
{
    match change {
        Change::CreateRoot { .. } => all.push(0)?,
        Change::CreateChild { parent, .. } => all.push(parent.0)?,
        _ => {}
    }
    Ok(())
}

/// The same of changes, for each entity that they make.
pub fn births(alloc: Global, changes: &[Change]) -> Result<Vec<u64>, NoMemory>
    ensures { IfOk result (λ all. all.items ≡ births changes.now) }
{
    let mut all = Vec::new(alloc);
    'changes: for change in changes {
        push_born(change, &mut all)?;
    }
    Ok(all)
}

/// The parent with which an entity was made, before the step or by it; 0 for a root.
fn first_parent<B: Base>(base: &B, made: &[u64], entity: u64) -> u64
    ensures { result ≡ first_parent (B.state base.now) made.now entity }
{
    let next = base.next_entity();
    if entity < next {
        match base.parent(EntityId(entity)) {
            Some(parent) => parent,
            None => 0,
        }
    } else {
        match made.get((entity - next) as usize) {
            Some(parent) => *parent,
            None => 0,
        }
    }
}

/// The root above an entity.
#[tactic(auto, using(crate::proofs::BirthLemmas::climbed_root, crate::proofs::BirthLemmas::climbed_child))]
pub fn climb<B: Base>(base: &B, made: &[u64], entity: u64) -> u64
    ensures { result ≡ climbed (first_parent (B.state base.now) made.now) entity entity }
{
    let mut at = entity;
    'steps: for step in 0..entity {
        let parent = first_parent(base, made, at);
        if parent == 0 {
            return at;
        }
        at = parent;
    }
    at
}
