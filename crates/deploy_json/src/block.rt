//! Blocks of a document.
ghost use Rattle.std.specs.Prelude.{◌≡◌, IfOk, option_map, map, decimal, codes};
ghost use Rattle.serde_json.specs.Find.{get};
ghost use Rattle.serde_json.specs.View.{view, items_view};
ghost use Rattle.deploy_schema.specs.Numbers.{items_at};
ghost use Rattle.deploy_schema.specs.Ids.{text_at, id_of};
ghost use Rattle.deploy_schema.specs.Names.{members_at};
ghost use Rattle.deploy_json.specs.Values.{listed, entries, fields_at as fields_so, alias_of, relation_of};
ghost use Rattle.deploy_json.specs.Shapes.{EachItem, EachMember, IsHandler, IsMethod, IsBlock};
ghost use Rattle.deploy_json.specs.Sources.{source, Says, handlers_misread, methods_misread, callbacks_misread, block_misread, under, items_misread};
ghost use Rattle.deploy_json.specs.Rows.{handler_row, method_row, block_row};
ghost use Rattle.deploy_json.specs.Documents.{handler_of, method_of, block_of};

use crate::build::build_map;
use crate::handler::{build_handlers, build_methods};
use crate::item::{RelationEntry, fields_at};
use crate::parts_fault::PartsFault;
use crate::script::member_script;
use crate::value::{Alias, id_at, name_at};
use deploy_model::{Block, BlockEvent, Method, Relation};
use deploy_schema::{items_in, object_at};
use handler_lang::Script;
use script_types::CodeList;
use serde_json::Value;
use slee_value::{ComponentId, Kind, Name, NoMemory};
use std::alloc::Global;

/// The events that a block handles.
fn handlers_in(alloc: Global, value: &Value) -> Result<CodeList<BlockEvent>, PartsFault>
    requires { EachItem IsHandler (items_at (codes "events") (view value.now)) }
    ensures built { IfOk result (λ l. map handler_row l ≡ listed handler_of (items_at (codes "events") (view value.now))) }
    ensures fault { Says (handlers_misread (view value.now)) result }
{
    match build_handlers(alloc, items_in(value, "events")) {
        Ok(handlers) => Ok(handlers),
        Err(fault) => Err(fault.under(alloc, "events")),
    }
}

/// The methods of a block.
fn methods_in(alloc: Global, value: &Value) -> Result<CodeList<Method>, PartsFault>
    requires { EachMember IsMethod (members_at (codes "methods") (view value.now)) }
    ensures built { IfOk result (λ l. map method_row l ≡ entries method_of (members_at (codes "methods") (view value.now))) }
    ensures fault { Says (methods_misread (view value.now)) result }
{
    match object_at(value, "methods") {
        Some(members) => match build_methods(alloc, members) {
            Ok(methods) => Ok(methods),
            Err(fault) => Err(fault.under(alloc, "methods")),
        },
        None => Ok(CodeList::new(alloc)),
    }
}

/// The callbacks of a block.
#[derive(Drop)]
struct Callbacks {
    exception: Option<Script>,
    rolled_back: Option<Script>,
    remove: Option<Script>,
}

fn callbacks_in(alloc: Global, value: &Value) -> Result<Callbacks, PartsFault>
    ensures exception { IfOk result (λ c. option_map (λ s. s.text) c.exception ≡ option_map source (get (codes "exception") (view value.now))) }
    ensures rolled_back { IfOk result (λ c. option_map (λ s. s.text) c.rolled_back ≡ option_map source (get (codes "rolled_back") (view value.now))) }
    ensures remove { IfOk result (λ c. option_map (λ s. s.text) c.remove ≡ option_map source (get (codes "remove") (view value.now))) }
    ensures fault { Says (callbacks_misread (view value.now)) result }
{
    let exception = member_script(alloc, value, "exception")?;
    let rolled_back = member_script(alloc, value, "rolled_back")?;
    let remove = member_script(alloc, value, "remove")?;
    Ok(Callbacks {
        exception,
        rolled_back,
        remove,
    })
}

/// What a block has beside scripts.
#[derive(Drop)]
struct Values {
    key: Name,
    id: ComponentId,
    fields: CodeList<(Name, Kind)>,
    attributes: CodeList<(Name, Kind)>,
    aliases: CodeList<(Name, Name)>,
    relations: CodeList<Relation>,
}

fn values_of(alloc: Global, value: &Value) -> Result<Values, NoMemory>
    requires { IsBlock (view value.now) }
    ensures key { IfOk result (λ v. v.key ≡ text_at (codes "key") (view value.now)) }
    ensures id { IfOk result (λ v. v.id ≡ id_of (view value.now)) }
    ensures fields { IfOk result (λ v. v.fields ≡ fields_so (codes "fields") (view value.now)) }
    ensures attributes { IfOk result (λ v. v.attributes ≡ fields_so (codes "attributes") (view value.now)) }
    ensures aliases { IfOk result (λ v. v.aliases ≡ entries alias_of (members_at (codes "aliases") (view value.now))) }
    ensures relations { IfOk result (λ v. v.relations ≡ entries relation_of (members_at (codes "relations") (view value.now))) }
{
    let key = name_at(alloc, value, "key")?;
    let id = id_at(alloc, value)?;
    let fields = fields_at(alloc, value, "fields")?;
    let attributes = fields_at(alloc, value, "attributes")?;
    let aliases = build_map(alloc, &Alias, value, "aliases")?;
    let relations = build_map(alloc, &RelationEntry, value, "relations")?;
    Ok(Values {
        key,
        id,
        fields,
        attributes,
        aliases,
        relations,
    })
}

fn build_block(alloc: Global, value: &Value) -> Result<Block, PartsFault>
    requires { IsBlock (view value.now) }
    ensures built { IfOk result (λ b. block_row b ≡ block_of (view value.now)) }
    ensures fault { Says (block_misread (view value.now)) result }
{
    let events = handlers_in(alloc, value)?;
    let methods = methods_in(alloc, value)?;
    let callbacks = callbacks_in(alloc, value)?;
    let values = values_of(alloc, value)?;
    Ok(Block {
        key: values.key,
        id: values.id,
        fields: values.fields,
        attributes: values.attributes,
        aliases: values.aliases,
        relations: values.relations,
        events,
        methods,
        exception: callbacks.exception,
        rolled_back: callbacks.rolled_back,
        remove: callbacks.remove,
    })
}

fn block_at(alloc: Global, i: usize, value: &Value) -> Result<Block, PartsFault>
    requires { IsBlock (view value.now) }
    ensures built { IfOk result (λ b. block_row b ≡ block_of (view value.now)) }
    ensures fault { Says (under (decimal i) (block_misread (view value.now))) result }
{
    match build_block(alloc, value) {
        Ok(block) => Ok(block),
        Err(fault) => Err(fault.under(alloc, format!(in alloc; "{i}")?.as_str())),
    }
}

/// The blocks that an array's items are.
pub(crate) fn build_blocks(alloc: Global, items: &[Value]) -> Result<CodeList<Block>, PartsFault>
    requires { EachItem IsBlock (items_view items.now) }
    ensures built { IfOk result (λ l. map block_row l ≡ listed block_of (items_view items.now)) }
    ensures fault { Says (items_misread block_misread 0 (items_view items.now)) result }
{
    let mut blocks = CodeList::new(alloc);
    for (i, item) in items.iter().enumerate() {
        blocks.push(block_at(alloc, i, item)?)?;
    }
    Ok(blocks)
}
