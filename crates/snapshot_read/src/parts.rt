//! The items of a snapshot's lists as they are spelled: what belongs to an entity, an activity or an attachment stands with it, and names are texts that nobody has looked at.

use router_state::Event;
use slee_value::{ActivityId, ConvName, EntityId, EventId, Text, Value};
use std::marker::Model;

/// A text and a value.
#[derive(Drop)]
pub(crate) struct Pair {
    pub(crate) name: Text,
    pub(crate) value: Value,
}

impl Model for Pair {
    ghost use Rattle.std.specs.Prelude.{List, ℕ};
    ghost use Rattle.slee_value.specs.declared.value.Value.{Value as TypedValue};

    ghost Value = { List ℕ × TypedValue };

    ghost view = { λ p. (p.name, p.value) };
}

/// Where an entity stands in its tree.
#[derive(Drop)]
pub(crate) enum PartStem {
    Root(u32),
    Child(EntityId, Text),
}

/// An entity with its convergence name and its fields.
#[derive(Drop)]
pub(crate) struct EntityPart {
    pub(crate) number: u64,
    pub(crate) block: u32,
    pub(crate) stem: PartStem,
    pub(crate) priority: i8,
    pub(crate) name: Option<ConvName>,
    pub(crate) fields: Vec<Pair>,
}

impl Model for EntityPart {
    ghost use Rattle.router_state.specs.Parsing.{EntityPart as Spelled};
    ghost use Rattle.snapshot_read.specs.Parts.{stem_of};

    ghost Value = { Spelled };

    ghost view = { λ x. record { number = x.number; block = x.block; stem = stem_of x.stem; priority = x.priority; name = x.name; fields = x.fields.items } };
}

/// What an activity stands for.
#[derive(Drop)]
pub(crate) enum PartKind {
    External(Text),
    Null,
    Service(u32),
    Table(u32),
}

/// An event that waits.
#[derive(Drop)]
pub(crate) struct EventPart {
    pub(crate) id: EventId,
    pub(crate) name: Text,
    pub(crate) target: Option<u32>,
    pub(crate) fields: Vec<Pair>,
}

impl Model for EventPart {
    ghost use Rattle.router_state.specs.declared.rows.Event.{Event as Waiting};

    ghost Value = { Waiting };

    ghost view = { λ x. record { id = x.id; name = x.name; fields = x.fields.items; target = x.target } };
}

/// An activity with all that belongs to it. In format 1 its suspension stands elsewhere.
#[derive(Drop)]
pub(crate) struct ActivityPart {
    pub(crate) number: u64,
    pub(crate) kind: PartKind,
    pub(crate) ending: bool,
    pub(crate) attributes: Vec<Pair>,
    pub(crate) events: Vec<EventPart>,
    pub(crate) services_done: Vec<u32>,
    pub(crate) delivered: Vec<u64>,
    pub(crate) until: Option<u64>,
}

impl Model for ActivityPart {
    ghost use Rattle.router_state.specs.Parsing.{ActivityPart as Spelled};
    ghost use Rattle.snapshot_read.specs.Parts.{kind_of};

    ghost Value = { Spelled };

    ghost view = { λ x. record {
      number = x.number;
      kind = kind_of x.kind;
      ending = x.ending;
      attributes = x.attributes.items;
      events = x.events.items;
      services_done = x.services_done.items;
      delivered = x.delivered.items;
      until = x.until;
    } };
}

/// An attachment with its masks.
#[derive(Drop)]
pub(crate) struct LinkPart {
    pub(crate) activity: u64,
    pub(crate) entity: u64,
    pub(crate) masks: Vec<Text>,
}

impl Model for LinkPart {
    ghost use Rattle.router_state.specs.Parsing.{LinkPart as Spelled};

    ghost Value = { Spelled };

    ghost view = { λ l. record { activity = l.activity; entity = l.entity; masks = l.masks.items } };
}

/// A row of a profile table.
#[derive(Drop)]
pub(crate) struct RowPart {
    pub(crate) table: u32,
    pub(crate) row: Text,
    pub(crate) attributes: Vec<Pair>,
}

impl Model for RowPart {
    ghost use Rattle.router_state.specs.declared.rows.ProfileRow.{ProfileRow};

    ghost Value = { ProfileRow };

    ghost view = { λ r. record { table = r.table; row = r.row; attributes = r.attributes.items } };
}
