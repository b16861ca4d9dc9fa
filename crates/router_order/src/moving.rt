//! Attachments taken out and put in again, once paths have changed.
ghost use Rattle.std.specs.Prelude.{◌≡◌, ℕ, ◌==◌, ◌||◌, ◌+◌, ◌<◌, ◌≤◌, List, [], false, length, true, IsTrue, vec_capacity, vec_len};
ghost use Rattle.std.specs.List.{AllByRecursion, list_any};
ghost use Rattle.router_state.specs.declared.rows.Entity.{Entity};
ghost use Rattle.router_state.specs.Contexts.{is_linked};
ghost use Rattle.rows_sorted.specs.Orders.{put, same_pair};
ghost use Rattle.entity_tree.specs.Kept.{is_entity};
ghost use Rattle.router_order.specs.Listed.{IsListing, listed_before};
ghost use Rattle.router_order.specs.Placed.{attachments};
ghost use Rattle.router_order.specs.Taken.{IsTaken};

use crate::cutting::{cut_link, rank_of};
use crate::inserting::insert_link;
use crate::listing::push_link;
use crate::placed::Placed;
use entity_tree::Tree;
use router_state::Link;
use rows_index::Entry;
use rows_leaves::{Leaves, Run};
use slee_value::{ActivityId, EntityId};

/// The attachment goes behind those that were taken, if it is there.
fn take_one(rows: &mut Leaves<Placed>, taken: &mut Vec<Link>, link: Link)
    requires listing { (entities : List Entity) × IsListing entities (attachments rows.old.rows) }
    requires memory { vec_len taken.old + length rows.old.rows ≤ vec_capacity taken.old }
    ensures taken { IsTaken (attachments rows.old.rows) (attachments rows.new.rows) taken.old.items taken.new.items }
    ensures gone { is_linked (attachments rows.new.rows) link.entity.0 link.activity.0 ≡ false }
    ensures memory { vec_len taken.new + length rows.new.rows ≤ vec_len taken.old + length rows.old.rows }
    ensures capacity { vec_capacity taken.old ≤ vec_capacity taken.new }
    ensures room { rows.old.room + vec_len taken.new ≤ rows.new.room + vec_len taken.old }
    ensures whole { rows.new.room + length rows.new.rows ≡ rows.old.room + length rows.old.rows }
{
    if cut_link(rows, link.activity, link.entity) {
        push_link(taken, link);
    }
}

/// The attachments of these entries go behind those that were taken.
fn take_each(rows: &mut Leaves<Placed>, taken: &mut Vec<Link>, entries: Run<'_, Entry>)
    requires listing { (entities : List Entity) × IsListing entities (attachments rows.old.rows) }
    requires memory { vec_len taken.old + length rows.old.rows ≤ vec_capacity taken.old }
    ensures taken { IsTaken (attachments rows.old.rows) (attachments rows.new.rows) taken.old.items taken.new.items }
    ensures gone { AllByRecursion (λ entry. is_linked (attachments rows.new.rows) entry.key entry.number ≡ false) entries.entry }
    ensures memory { vec_len taken.new + length rows.new.rows ≤ vec_len taken.old + length rows.old.rows }
    ensures capacity { vec_capacity taken.old ≤ vec_capacity taken.new }
    ensures room { rows.old.room + vec_len taken.new ≤ rows.new.room + vec_len taken.old }
    ensures whole { rows.new.room + length rows.new.rows ≡ rows.old.room + length rows.old.rows }
{
    'entries: for entry in entries {
        take_one(
            rows,
            taken,
            Link {
                entity: EntityId(entry.key),
                activity: ActivityId(entry.number),
            },
        );
    }
}

/// The attachments of these entities go behind those that were taken.
pub fn take_of(
    rows: &mut Leaves<Placed>,
    taken: &mut Vec<Link>,
    entries: &Leaves<Entry>,
    entities: &[EntityId],
)
    requires listing { (entities : List Entity) × IsListing entities (attachments rows.old.rows) }
    requires memory { vec_len taken.old + length rows.old.rows ≤ vec_capacity taken.old }
    ensures taken { IsTaken (attachments rows.old.rows) (attachments rows.new.rows) taken.old.items taken.new.items }
    ensures gone { AllByRecursion (λ entity. (a : ℕ) → list_any (λ entry. same_pair entry.key entry.number entity.0 a) entries.now.rows ≡ true → is_linked (attachments rows.new.rows) entity.0 a ≡ false) entities.now }
    ensures memory { vec_len taken.new + length rows.new.rows ≤ vec_len taken.old + length rows.old.rows }
    ensures capacity { vec_capacity taken.old ≤ vec_capacity taken.new }
    ensures room { rows.old.room + vec_len taken.new ≤ rows.new.room + vec_len taken.old }
    ensures whole { rows.new.room + length rows.new.rows ≡ rows.old.room + length rows.old.rows }
{
    'entities: for entity in entities {
        take_each(rows, taken, entries.rows_of(entity.0));
    }
}

/// The attachment stands in its place.
fn put_again(tree: &Tree, rows: &mut Leaves<Placed>, spare: &mut Vec<Link>, link: Link)
    requires listing { IsListing tree.now.rows (attachments rows.old.rows) }
    requires there { IsTrue (is_entity tree.now.rows link.entity.0) }
    requires empty { spare.old.items ≡ [] }
    requires memory { length rows.old.rows < vec_capacity spare.old }
    requires room { 0 < rows.old.room }
    ensures rows { attachments rows.new.rows ≡ put (listed_before tree.now.rows) link (attachments rows.old.rows) }
    ensures empty { spare.new.items ≡ [] }
    ensures capacity { vec_capacity spare.old ≤ vec_capacity spare.new }
    ensures room { rows.old.room ≤ rows.new.room + 1 }
    ensures whole { rows.new.room + length rows.new.rows ≡ rows.old.room + length rows.old.rows }
{
    tree.ordered();
    match rank_of(rows.rows_of(link.activity.0), link.entity) {
        Some(_) => {}
        None => insert_link(tree, rows, spare, link),
    }
}

/// These attachments stand in their places.
pub fn put_each(tree: &Tree, rows: &mut Leaves<Placed>, spare: &mut Vec<Link>, links: &[Link])
    requires listing { IsListing tree.now.rows (attachments rows.old.rows) }
    requires there { AllByRecursion (λ link. is_entity tree.now.rows link.entity.0 ≡ true) links.now }
    requires empty { spare.old.items ≡ [] }
    requires memory { length links.now + length rows.old.rows ≤ vec_capacity spare.old }
    requires room { length links.now ≤ rows.old.room }
    ensures listing { IsListing tree.now.rows (attachments rows.new.rows) }
    ensures members { (e a : ℕ) → is_linked (attachments rows.new.rows) e a ≡ (is_linked links.now e a || is_linked (attachments rows.old.rows) e a) }
    ensures empty { spare.new.items ≡ [] }
    ensures capacity { vec_capacity spare.old ≤ vec_capacity spare.new }
    ensures room { rows.old.room ≤ rows.new.room + length links.now }
    ensures whole { rows.new.room + length rows.new.rows ≡ rows.old.room + length rows.old.rows }
{
    tree.ordered();
    'links: for link in links {
        put_again(tree, rows, spare, *link);
    }
}
