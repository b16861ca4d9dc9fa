//! Rows of attachments.
ghost use Rattle.std.specs.Prelude.{◌≡◌, ◌+◌, ◌<◌, ◌≤◌};
ghost use Rattle.router_state.specs.Contexts.{is_linked, with_link, without_link};
ghost use Rattle.router_state.specs.Keys.{link_key};
ghost use Rattle.rows_sorted.specs.Keys.{Rises};

use router_state::Link;
use rows_leaves::Leaves;
use slee_value::{ActivityId, EntityId};

/// Whether there is this attachment.
pub fn has_link(rows: &Leaves<Link>, entity: EntityId, activity: ActivityId) -> bool
    ensures { result ≡ is_linked rows.now.rows entity.0 activity.0 }
{
    rows.has_row_of_pair(activity.0, entity.0)
}

/// The attachment is there.
pub fn put_link(rows: &mut Leaves<Link>, entity: EntityId, activity: ActivityId)
    requires { 0 < rows.old.room }
    ensures rows { rows.new.rows ≡ with_link rows.old.rows entity.0 activity.0 }
    ensures rises { Rises link_key rows.new.rows }
    ensures room { rows.old.room ≤ rows.new.room + 1 }
{
    rows.put_row(Link { entity, activity });
}

/// There is no such attachment.
pub fn cut_link(rows: &mut Leaves<Link>, entity: EntityId, activity: ActivityId)
    ensures rows { rows.new.rows ≡ without_link rows.old.rows entity.0 activity.0 }
    ensures rises { Rises link_key rows.new.rows }
    ensures room { rows.old.room ≤ rows.new.room }
{
    rows.cut_rows_of_pair(activity.0, entity.0);
}
