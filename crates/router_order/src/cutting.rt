//! Attachments cut from the rows, and their activities from under their entities.
ghost use Rattle.std.specs.Prelude.{◌≡◌, ◌==◌, ◌+◌, ◌≤◌, List, IsTrue, find, not, filter, length, option_map};
ghost use Rattle.std.specs.List.{list_any};
ghost use Rattle.router_state.specs.declared.rows.Entity.{Entity};
ghost use Rattle.router_state.specs.Contexts.{is_linked, without_link, without_links_on};
ghost use Rattle.rows_sorted.specs.Keys.{is_key, pair_key};
ghost use Rattle.rows_index.specs.Index.{entry_key};
ghost use Rattle.router_order.specs.Listed.{IsListing};
ghost use Rattle.router_order.specs.Placed.{attachments};

use crate::placed::Placed;
use rows_index::Entry;
use rows_leaves::{Leaves, Run};
use slee_value::{ActivityId, EntityId};

/// The rank of the first one of these attachments that is the entity's.
pub fn rank_of(run: Run<'_, Placed>, entity: EntityId) -> Option<u64>
    ensures { result ≡ option_map (λ row. row.rank) (find (λ row. row.entity.0 == entity.0) run.entry) }
{
    'rows: for row in run {
        if row.entity.0 == entity.0 {
            return Some(row.rank);
        }
    }
    None
}

/// The activity goes from under the entities of these attachments.
pub fn cut_entries(entries: &mut Leaves<Entry>, run: Run<'_, Placed>, activity: ActivityId)
    ensures rows { entries.new.rows ≡ filter (λ entry. not (list_any (λ row. is_key (entry_key entry) (pair_key row.entity.0 activity.0)) run.entry)) entries.old.rows }
    ensures room { entries.old.room ≤ entries.new.room }
{
    'rows: for row in run {
        entries.cut_row(row.entity.0, activity.0, &[]);
    }
}

/// The attachment of the entity to the activity is gone. The answer says whether there was one.
pub fn cut_link(rows: &mut Leaves<Placed>, activity: ActivityId, entity: EntityId) -> bool
    ensures found { result ≡ is_linked (attachments rows.old.rows) entity.0 activity.0 }
    ensures rows { (entities : List Entity) → IsListing entities (attachments rows.old.rows) → attachments rows.new.rows ≡ without_link (attachments rows.old.rows) entity.0 activity.0 }
    ensures room { rows.old.room ≤ rows.new.room }
    ensures gives { IsTrue result → rows.old.room + 1 ≤ rows.new.room }
    ensures whole { rows.new.room + length rows.new.rows ≡ rows.old.room + length rows.old.rows }
{
    rows.rises();
    match rank_of(rows.rows_of(activity.0), entity) {
        Some(rank) => {
            rows.cut_row(activity.0, rank, &[]);
            true
        }
        None => false,
    }
}

/// The attachments to the activity are gone.
pub fn cut_links_on(rows: &mut Leaves<Placed>, activity: ActivityId)
    ensures rows { attachments rows.new.rows ≡ without_links_on (attachments rows.old.rows) activity.0 }
    ensures room { rows.old.room ≤ rows.new.room }
    ensures whole { rows.new.room + length rows.new.rows ≡ rows.old.room + length rows.old.rows }
{
    rows.cut_rows_of(activity.0);
}
