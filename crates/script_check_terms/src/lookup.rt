//! What names of scripts stand for: fields, attributes, relations, tables and events.
ghost use Rattle.std.specs.Prelude.{◌≡◌, IfOk, bytes_eq, is_some, option_copied, position};
ghost use Rattle.std.specs.List.{list_any};
ghost use Rattle.script_types.specs.Codes.{kind_in, relation_named, declared_event, any_event, symbol_of, table_named, row_kind, built_in};
ghost use Rattle.script_types.specs.CodesOf.{codes_of, block_of_code};
ghost use Rattle.script_types.specs.Elaboration.{attribute_named};

use crate::Setting;
use built_in_events::BuiltInEvent;
use script_tree::Identifier;
use script_types::{
    AttributeCode, BlockCode, Codes, EventCode, FieldCode, NamedList, RelationCode, Symbol,
    TableCode,
};
use slee_value::{Kind, Name, NoMemory};
use std::alloc::Global;

/// An identifier as a name.
#[tactic(auto, using(crate::proofs::LookupLemmas::identifier_is_name))]
pub fn name_of(alloc: Global, identifier: &Identifier) -> Result<Name, NoMemory>
    ensures { IfOk result (λ n. n ≡ identifier.now) }
{
    let bytes = identifier.as_bytes();
    Name::from_slice(alloc, bytes)
}

/// An identifier as a name with its number among all names.
pub fn symbol_of(setting: &Setting, identifier: &Identifier) -> Result<Symbol<Name>, NoMemory>
    ensures { IfOk result (λ x. x ≡ symbol_of (codes_of setting.now.codes.now) identifier.now) }
{
    let name = name_of(setting.alloc, identifier)?;
    Ok(setting.codes.symbol(name))
}

/// The type of the field of that name.
pub fn kind_of_field(fields: &NamedList<FieldCode>, name: &[u8]) -> Option<Kind>
    ensures { result ≡ kind_in name.now fields.now }
{
    let field = fields.find(name)?;
    Some(field.kind)
}

/// The relation of that name.
pub fn relation_named<'a>(block: &'a BlockCode, name: &[u8]) -> Option<&'a RelationCode>
    ensures { option_copied result ≡ relation_named name.now (block_of_code block.now) }
{
    block.relations.find(name)
}

/// The block's attribute of activities with that name.
pub fn attribute_named<'a>(block: &'a BlockCode, name: &[u8]) -> Option<&'a AttributeCode>
    ensures { option_copied result ≡ attribute_named name.now (block_of_code block.now) }
{
    block.attributes.find(name)
}

/// The place of the table of that name.
pub fn place_of_table(codes: &Codes, name: &[u8]) -> Option<usize>
    ensures { result ≡ position (λ x. bytes_eq x.name name.now) codes.now.tables }
{
    codes.tables.place_of(name)
}

/// The table of that name.
pub fn table_named<'a>(codes: &'a Codes, name: &[u8]) -> Option<&'a TableCode>
    ensures { option_copied result ≡ table_named name.now (codes_of codes.now) }
{
    codes.tables.find(name)
}

/// Whether there is a table of that name.
pub fn is_table(codes: &Codes, name: &[u8]) -> bool
    ensures { result ≡ is_some (table_named name.now (codes_of codes.now)) }
{
    table_named(codes, name).is_some()
}

/// The type of an attribute of that table's rows.
pub fn kind_in_row(codes: &Codes, table: &[u8], name: &[u8]) -> Option<Kind>
    ensures { result ≡ row_kind table.now name.now (codes_of codes.now) }
{
    let table = table_named(codes, table)?;
    kind_of_field(&table.attributes, name)
}

/// The event of that name, where the deployment declares it.
pub fn event_named<'a>(codes: &'a Codes, name: &[u8]) -> Option<&'a EventCode>
    ensures { option_copied result ≡ declared_event name.now (codes_of codes.now) }
{
    codes.events.find(name)
}

/// Whether an event of that name is built in.
#[tactic(auto, using(crate::proofs::LookupLemmas::built_in_is))]
pub fn is_built_in(name: &[u8]) -> bool
    ensures { result ≡ list_any (λ e. bytes_eq e.name name.now) built_in }
{
    BuiltInEvent::named(name).is_some()
}

/// Whether an event of that name is declared or built in.
pub fn is_event(codes: &Codes, name: &[u8]) -> bool
    ensures { result ≡ is_some (any_event name.now (codes_of codes.now)) }
{
    is_built_in(name) || event_named(codes, name).is_some()
}
