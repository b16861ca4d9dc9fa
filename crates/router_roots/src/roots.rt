//! The roots of the state under their services, and those that have a convergence name under the number of it.
ghost use Rattle.std.specs.Prelude.{◌≡◌, ◌==◌, ◌&&◌, ◌+◌, ◌≤◌, [], not, option_map, IfOk, IsTrue, OnOk};
ghost use Rattle.std.specs.List.{list_any};
ghost use Rattle.router_state.specs.State.{State};
ghost use Rattle.router_state.specs.Changes.{after_change};
ghost use Rattle.router_state.specs.Trees.{is_root_of, root_name_before};
ghost use Rattle.router_steps.specs.Selection.{root_named};
ghost use Rattle.rows_sorted.specs.Orders.{rises_by, rises_in};
ghost use Rattle.router_roots.specs.Room.{added, all_added};
ghost use Rattle.router_roots.specs.Roots.{AreListed, AreRootsOf};

use crate::filling::{names_of, roots_of};
use crate::finding::{has_other, named_among};
use crate::listing::{list_name, list_root, unlist_name, unlist_root};
use crate::names::name_number;
use crate::room::all_added;
use router_state::{Change, Entity, RootName};
use router_stores::Stores;
use rows_index::Entry;
use rows_leaves::Leaves;
use slee_value::{ConvName, EntityId, NoMemory};
use std::alloc::Global;
use std::marker::Model;

/// The roots of the state, found without a walk over all entities.
pub struct Roots {
    by_service: Leaves<Entry>,
    by_name: Leaves<Entry>,
}

impl Drop for Roots {
    fn drop(self) {
        let Self {
            by_service: _,
            by_name: _,
        } = self;
    }
}

impl Model for Roots {
    ghost use Rattle.std.specs.Prelude.{min};
    ghost use Rattle.router_roots.specs.Views.{RootsView};

    ghost Value = { RootsView };

    ghost view = { λ r. record { by_service = r.by_service.rows; by_name = r.by_name.rows; room = min r.by_service.room r.by_name.room } };
}

impl Roots {
    /// No roots, as in a state without entities.
    pub fn new(alloc: Global) -> Self
        ensures { AreListed [] [] result.by_service result.by_name }
    {
        Roots {
            by_service: Leaves::new(alloc),
            by_name: Leaves::new(alloc),
        }
    }

    /// The roots among these entities, with their names.
    pub fn of(alloc: Global, entities: &[Entity], names: &[RootName]) -> Result<Self, NoMemory>
        requires entities { IsTrue (rises_in (λ row. row.number.0) entities.now) }
        requires names { IsTrue (rises_by root_name_before names.now) }
        ensures { IfOk result (λ roots. AreListed entities.now names.now roots.by_service roots.by_name) }
    {
        Ok(Roots {
            by_service: roots_of(alloc, entities)?,
            by_name: names_of(alloc, names)?,
        })
    }

    /// Makes room for the roots that the changes create, and for the names that they give.
    pub fn reserve(&mut self, changes: &[Change]) -> Result<(), NoMemory>
        ensures services { self.new.by_service ≡ self.old.by_service }
        ensures names { self.new.by_name ≡ self.old.by_name }
        ensures room { OnOk result (all_added changes.now ≤ self.new.room) }
    {
        let count = all_added(changes);
        self.by_service.reserve(count)?;
        self.by_name.reserve(count)?;
        Ok(())
    }

    /// Makes the change that the stores are about to make.
    pub fn change(&mut self, stores: &Stores, change: &Change)
        requires roots { AreRootsOf stores.now.state self.old }
        requires room { added change.now ≤ self.old.room }
        ensures roots { AreRootsOf (after_change change.now stores.now.state) self.new }
        ensures room { self.old.room ≤ self.new.room + added change.now }
    {
        match change {
            Change::CreateRoot { service, .. } => list_root(&mut self.by_service, stores, *service),
            Change::Remove { entity } => {
                unlist_root(&mut self.by_service, stores, *entity);
                unlist_name(&mut self.by_name, stores, *entity);
            }
            Change::Root { entity, name } => list_name(&mut self.by_name, stores, *entity, name),
            _ => {}
        }
    }

    /// Whether the service has a root that isn't among these. It looks at one more of its roots than there are of these at most.
    pub fn has_root(&self, service: u32, gone: &[u64]) -> bool
        ensures { (s : State) → AreRootsOf s self.now → result ≡ list_any (λ row. is_root_of service row.stem && not (list_any (λ e. e == row.number.0) gone.now)) s.entities }
    {
        has_other(self.by_service.rows_of(service as u64), gone)
    }

    /// The root of the service that has the convergence name. It looks at those that stand under the number of the name.
    pub fn root_named(&self, stores: &Stores, service: u32, name: &ConvName) -> Option<EntityId>
        requires { AreRootsOf stores.now.state self.now }
        ensures { option_map (λ e. e.0) result ≡ option_map (λ row. row.entity.0) (root_named stores.now.state service name.now) }
    {
        stores.ordered();
        let entries = self.by_name.rows_of(name_number(name));
        named_among(stores, entries, service, name)
    }
}
