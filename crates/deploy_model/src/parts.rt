//! The parts of a deployment. What comes from a JSON object is a list in byte order of its names.

ghost use Rattle.std.specs.Prelude.{◌≡◌};

use crate::ids::Component;
use script_tree::Script;
use script_types::{CodeList, Named};
use slee_value::{ComponentId, Kind, Name, Text};

/// An event type (JSR 240, chapter 8). The built-in ones are in no list.
#[derive(Debug, Drop)]
pub struct EventType {
    pub key: Name,
    pub id: ComponentId,
    pub fields: CodeList<(Name, Kind)>,
}

/// A profile specification (JSR 240, chapter 10).
#[derive(Debug, Drop)]
pub struct ProfileSpec {
    pub key: Name,
    pub id: ComponentId,
    pub attributes: CodeList<(Name, Kind)>,
    /// The attributes in which no two rows of a table may be the same.
    pub unique: CodeList<Name>,
}

/// A profile table, with the key of its profile specification.
#[derive(Debug, Drop)]
pub struct Table {
    pub name: Name,
    pub profile: Name,
}

/// A child relation, with the key of its children's block and the priority of a child for which none is named.
#[derive(Debug, Drop)]
pub struct Relation {
    pub name: Name,
    pub block: Name,
    pub priority: i8,
}

/// A custom selection: the word of its rule, and the text field of the event that it reads.
#[derive(Debug, Drop)]
pub struct CustomRule {
    pub rule: Text,
    pub field: Name,
}

/// An event that a block handles.
#[derive(Drop)]
pub struct BlockEvent {
    /// The key of an event type, or the name of a built-in event.
    pub event: Text,
    /// The words of the variables of an initial event; none where the event isn't initial.
    pub initial: Option<CodeList<Text>>,
    pub custom: Option<CustomRule>,
    /// Whether the event is masked when an entity is attached.
    pub mask: bool,
    pub on: Script,
}

/// A method.
#[derive(Drop)]
pub struct Method {
    pub name: Name,
    /// In the order of the arguments.
    pub params: CodeList<(Name, Kind)>,
    pub returns: Option<Kind>,
    pub body: Script,
}

/// A block (an SBB; JSR 240, chapter 6).
#[derive(Drop)]
pub struct Block {
    pub key: Name,
    pub id: ComponentId,
    pub fields: CodeList<(Name, Kind)>,
    pub attributes: CodeList<(Name, Kind)>,
    /// For some of the attributes, the name by which they are shared with other blocks.
    pub aliases: CodeList<(Name, Name)>,
    pub relations: CodeList<Relation>,
    pub events: CodeList<BlockEvent>,
    pub methods: CodeList<Method>,
    pub exception: Option<Script>,
    pub rolled_back: Option<Script>,
    pub remove: Option<Script>,
}

/// A service, with the key of its root's block (JSR 240, chapter 9).
#[derive(Debug, Drop)]
pub struct Service {
    pub key: Name,
    pub id: ComponentId,
    pub root: Name,
    pub priority: i8,
    pub active: bool,
}

/// The parts of a deployment. An item's number is its place in its list, from 0.
#[derive(Drop)]
pub struct Parts {
    pub events: CodeList<EventType>,
    pub profiles: CodeList<ProfileSpec>,
    pub tables: CodeList<Table>,
    pub blocks: CodeList<Block>,
    pub services: CodeList<Service>,
}

impl Named for EventType {
    ghost name_of = { λ x. x.key };

    fn name(&self) -> &str {
        self.key.as_str()
    }
}

impl Named for ProfileSpec {
    ghost name_of = { λ x. x.key };

    fn name(&self) -> &str {
        self.key.as_str()
    }
}

impl Named for Table {
    ghost name_of = { λ x. x.name };

    fn name(&self) -> &str {
        self.name.as_str()
    }
}

impl Named for Relation {
    ghost name_of = { λ x. x.name };

    fn name(&self) -> &str {
        self.name.as_str()
    }
}

impl Named for BlockEvent {
    ghost name_of = { λ x. x.event };

    fn name(&self) -> &str {
        self.event.as_str()
    }
}

impl Named for Method {
    ghost name_of = { λ x. x.name };

    fn name(&self) -> &str {
        self.name.as_str()
    }
}

impl Named for Block {
    ghost name_of = { λ x. x.key };

    fn name(&self) -> &str {
        self.key.as_str()
    }
}

impl Named for Service {
    ghost name_of = { λ x. x.key };

    fn name(&self) -> &str {
        self.key.as_str()
    }
}

impl Component for EventType {
    ghost id_of = { λ x. x.id };

    fn id(&self) -> &ComponentId {
        &self.id
    }
}

impl Component for ProfileSpec {
    ghost id_of = { λ x. x.id };

    fn id(&self) -> &ComponentId {
        &self.id
    }
}

impl Component for Block {
    ghost id_of = { λ x. x.id };

    fn id(&self) -> &ComponentId {
        &self.id
    }
}

impl Component for Service {
    ghost id_of = { λ x. x.id };

    fn id(&self) -> &ComponentId {
        &self.id
    }
}
