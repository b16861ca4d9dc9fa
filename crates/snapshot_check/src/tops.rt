//! The roots of the trees in which entities stand, each found by that of its parent.
ghost use Rattle.std.specs.Prelude.{◌≡◌, ◌==◌, IsTrue, IfOk, map};
ghost use Rattle.std.specs.List.{list_all};
ghost use Rattle.rows_sorted.specs.Keys.{Rises};
ghost use Rattle.router_state.specs.Keys.{entity_key};
ghost use Rattle.router_state.specs.Trees.{parent_in};
ghost use Rattle.snapshot_check.specs.Tops.{is_lower, next_row, noted, top_key, top_row};

use router_state::{Entity, Link, Stem};
use rows_sorted::{Keyed, first_row_of};
use slee_value::NoMemory;
use std::alloc::Global;

/// An entity with the root of its tree.
#[derive(Debug, Clone, Copy)]
pub struct Top {
    pub number: u64,
    pub top: u64,
}

impl Keyed for Top {
    ghost use Rattle.snapshot_check.specs.Tops.{top_key};

    ghost key = { top_key };

    fn first(&self) -> u64 {
        self.number
    }

    fn second(&self) -> u64 {
        0
    }

    fn text(&self) -> &[u8] {
        &[]
    }
}

/// The number of the parent, and 0 for a root.
pub fn parent_of(stem: &Stem) -> u64
    ensures { result ≡ parent_in stem.now }
{
    match stem {
        Stem::Root(_) => 0,
        Stem::Child(parent, _) => parent.0,
    }
}

/// What is noted for the entity of this number, and the number itself where nothing is.
fn noted(tops: &[Top], entity: u64) -> u64
    requires { Rises top_key tops.now }
    ensures { result ≡ noted tops.now entity }
{
    match first_row_of(tops, entity) {
        Some(found) => found.top,
        None => entity,
    }
}

/// The entity with the root of its tree, by those that are noted.
fn next_row(tops: &[Top], row: &Entity) -> Top
    requires { Rises top_key tops.now }
    ensures { result ≡ next_row tops.now row.now }
{
    let parent = parent_of(&row.stem);
    let top = if parent == 0 {
        row.number.0
    } else {
        noted(tops, parent)
    };
    Top {
        number: row.number.0,
        top,
    }
}

/// The roots of the trees in which the entities stand.
#[tactic(auto, using(crate::proofs::TopLemmas::tops_all))]
pub fn tops_of(alloc: Global, entities: &[Entity]) -> Result<Vec<Top>, NoMemory>
    requires order { Rises entity_key entities.now }
    requires lower { IsTrue (list_all is_lower entities.now) }
    ensures tops { IfOk result (λ tops. tops.items ≡ map (top_row entities.now) entities.now) }
    ensures order { IfOk result (λ tops. Rises top_key tops.items) }
{
    let mut tops = Vec::with_capacity(alloc, entities.len())?;
    'rows: for row in entities {
        let next = next_row(&tops, row);
        tops.push(next)?;
    }
    Ok(tops)
}

/// The roots of the trees in which something is attached.
pub fn tops_of_links(alloc: Global, tops: &[Top], links: &[Link]) -> Result<Vec<u64>, NoMemory>
    requires { Rises top_key tops.now }
    ensures { IfOk result (λ held. held.items ≡ map (λ l. noted tops.now l.entity.0) links.now) }
{
    let mut held = Vec::with_capacity(alloc, links.len())?;
    'links: for link in links {
        held.push(noted(tops, link.entity.0))?;
    }
    Ok(held)
}
