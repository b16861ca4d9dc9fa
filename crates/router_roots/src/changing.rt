//! Changes made in the stores and in the roots beside them.
ghost use Rattle.std.specs.Prelude.{◌≡◌, ◌≤◌};
ghost use Rattle.router_state.specs.Changes.{after_changes};
ghost use Rattle.router_stores.specs.Making.{CanMakeAll};
ghost use Rattle.router_stores.specs.Views.{HasRoom, widths};
ghost use Rattle.router_roots.specs.Room.{all_added};
ghost use Rattle.router_roots.specs.Roots.{AreRootsOf};

use crate::Roots;
use router_state::Change;
use router_stores::Stores;

/// Makes these changes in their order in both, in the room that was made for them.
pub fn change_both(stores: &mut Stores, roots: &mut Roots, changes: Vec<Change>)
    requires room { HasRoom (widths changes.items) stores.old }
    requires roots_room { all_added changes.items ≤ roots.old.room }
    requires can { CanMakeAll changes.items stores.old.state }
    requires roots { AreRootsOf stores.old.state roots.old }
    ensures state { stores.new.state ≡ after_changes changes.items stores.old.state }
    ensures roots { AreRootsOf stores.new.state roots.new }
{
    'each: for change in changes {
        roots.change(stores, &change);
        stores.change(change);
    }
}
