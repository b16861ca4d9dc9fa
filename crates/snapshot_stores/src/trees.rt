//! The store of entities.
ghost use Rattle.std.specs.Prelude.{◌≡◌, ◌<◌, IfOk, IsTrue};
ghost use Rattle.rows_sorted.specs.Orders.{rises_in};
ghost use Rattle.entity_tree.specs.Kept.{AreEntities};

use entity_tree::Tree;
use router_state::Entity;
use slee_value::NoMemory;
use std::alloc::Global;

/// The entities, and the number of the next one.
pub(crate) fn tree_of(alloc: Global, next: u64, rows: Vec<Entity>) -> Result<Tree, NoMemory>
    requires rises { IsTrue (rises_in (λ row. row.number.0) rows.items) }
    requires kept { AreEntities next rows.items }
    ensures rows { IfOk result (λ tree. tree.rows ≡ rows.items) }
    ensures next { IfOk result (λ tree. tree.next ≡ next) }
{
    let mut tree = Tree::new(alloc);
    tree.set_next(next);
    tree.reserve(rows.len() as u64)?;
    'rows: for row in rows {
        tree.restore(row);
    }
    Ok(tree)
}
