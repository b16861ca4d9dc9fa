//! What scripts may name: events, tables, and blocks with their fields, relations and methods.
ghost use Rattle.std.specs.Prelude.{◌≡◌};
ghost use Rattle.script_types.specs.Codes.{number_of};
ghost use Rattle.script_types.specs.CodesOf.{codes_of};

use crate::{BlockSteps, CodeList, Named, NamedList, Symbol};
use script_tree::Script;
use slee_value::{Kind, Name, Text};

/// A field of an event or a block, a parameter, or an attribute of a table's rows.
#[derive(Debug, Drop)]
pub struct FieldCode {
    pub name: Name,
    pub kind: Kind,
}

/// An event type that the deployment declares. The built-in ones are in no list.
#[derive(Drop)]
pub struct EventCode {
    pub name: Name,
    /// In byte order.
    pub fields: NamedList<FieldCode>,
}

/// A profile table. Its number is its place in the list of tables, from 1.
#[derive(Drop)]
pub struct TableCode {
    pub name: Name,
    /// In byte order.
    pub attributes: NamedList<FieldCode>,
}

/// An attribute of activities as one block names it.
#[derive(Debug, Drop)]
pub struct AttributeCode {
    pub name: Name,
    /// The alias, or the block's key and the name, with a dot between.
    pub key: Text,
    pub kind: Kind,
}

/// A child relation.
#[derive(Debug, Drop)]
pub struct RelationCode {
    pub name: Name,
    /// The number of its children's block.
    pub block: u32,
    /// What a child has where `create` names none.
    pub priority: i8,
}

/// An event handler.
#[derive(Drop)]
pub struct HandlerCode {
    /// The name of a declared event or of a built-in one.
    pub event: Text,
    /// Whether the event is masked when the entity is attached.
    pub mask: bool,
    pub script: Script,
}

/// A method.
#[derive(Drop)]
pub struct MethodCode {
    pub name: Name,
    /// In the order of the arguments.
    pub parameters: CodeList<FieldCode>,
    pub result: Option<Kind>,
    pub script: Script,
}

/// A block.
#[derive(Drop)]
pub struct BlockCode {
    pub key: Name,
    /// In byte order, as are the attributes and relations.
    pub fields: NamedList<FieldCode>,
    pub attributes: NamedList<AttributeCode>,
    pub relations: NamedList<RelationCode>,
    /// In the deployment's order.
    pub handlers: CodeList<HandlerCode>,
    /// In byte order.
    pub methods: NamedList<MethodCode>,
    pub exception: Option<Script>,
    pub rolled_back: Option<Script>,
    pub remove: Option<Script>,
}

/// All that scripts may name, and the scripts. Each name stands once in its list.
#[derive(Drop)]
pub struct Codes {
    pub events: NamedList<EventCode>,
    /// In byte order.
    pub tables: NamedList<TableCode>,
    /// The keys of the services.
    pub services: NamedList<Name>,
    /// In the deployment's order.
    pub blocks: CodeList<BlockCode>,
    /// All names that scripts read and change the state by, each with its place as its number.
    pub names: NamedList<Text>,
    /// What the scripts are made into, block by block; nothing until they are checked.
    pub programs: CodeList<BlockSteps>,
}

impl Codes {
    /// The name with its number.
    pub fn symbol<T: Named>(&self, name: T) -> Symbol<T>
        ensures { result ≡ record { name = name; number = number_of (codes_of self.now) (T.name_of name) } }
    {
        let number = self.names.place_of(name.name().as_bytes());
        Symbol { name, number }
    }
}

/// One script of a block: that of a handler or a method by its number, or one of the three others.
#[derive(Clone, Copy, Debug, PartialEq, Eq)]
pub enum CodePart {
    Handler(u32),
    Method(u32),
    Exception,
    RolledBack,
    Remove,
}

/// Where a script stands: a block by its number, and the part of it.
#[derive(Clone, Copy, Debug, PartialEq, Eq)]
pub struct CodePlace {
    pub block: u32,
    pub part: CodePart,
}
