//! Changes one after another.
ghost use Rattle.std.specs.Prelude.{◌≡◌};
ghost use Rattle.router_state.specs.Changes.{after_changes};
ghost use Rattle.router_stores.specs.Making.{CanMakeAll};
ghost use Rattle.router_stores.specs.Views.{HasRoom, widths};

use crate::Stores;
use router_state::Change;

/// Makes these changes in their order, in the room that was made for them.
pub fn change_each(stores: &mut Stores, changes: Vec<Change>)
    requires room { HasRoom (widths changes.items) stores.old }
    requires can { CanMakeAll changes.items stores.old.state }
    ensures { stores.new.state ≡ after_changes changes.items stores.old.state }
{
    'each: for change in changes {
        stores.change(change);
    }
}
