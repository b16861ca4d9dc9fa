//! The parts of a whole document.
ghost use Rattle.std.specs.Prelude.{◌≡◌, Option, IfOk, map, codes};
ghost use Rattle.serde_json.specs.View.{view};
ghost use Rattle.deploy_schema.specs.Numbers.{items_at};
ghost use Rattle.deploy_schema.specs.Tables.{shape_fault};
ghost use Rattle.deploy_json.specs.Values.{listed};
ghost use Rattle.deploy_json.specs.Shapes.{EachItem, IsBlock, IsDocument};
ghost use Rattle.deploy_json.specs.Sources.{Says, first_misread};
ghost use Rattle.deploy_json.specs.Rows.{block_row, parts_row};
ghost use Rattle.deploy_json.specs.Documents.{block_of, parts_in};

use crate::block::build_blocks;
use crate::build::{build_list, build_map};
use crate::item::{EventItem, ProfileItem, ServiceItem};
use crate::parts_fault::PartsFault;
use crate::value::TableEntry;
use deploy_model::{Block, Parts};
use deploy_schema::items_in;
use script_types::CodeList;
use serde_json::Value;
use std::alloc::Global;

fn blocks_in(alloc: Global, document: &Value) -> Result<CodeList<Block>, PartsFault>
    requires { EachItem IsBlock (items_at (codes "blocks") (view document.now)) }
    ensures built { IfOk result (λ l. map block_row l ≡ listed block_of (items_at (codes "blocks") (view document.now))) }
    ensures fault { Says (first_misread (view document.now)) result }
{
    match build_blocks(alloc, items_in(document, "blocks")) {
        Ok(blocks) => Ok(blocks),
        Err(fault) => Err(fault.under(alloc, "blocks")),
    }
}

/// The parts of a document that has what they need.
fn parts_of(alloc: Global, document: &Value) -> Result<Parts, PartsFault>
    requires { IsDocument (view document.now) }
    ensures built { IfOk result (λ p. parts_row p ≡ parts_in (view document.now)) }
    ensures fault { Says (first_misread (view document.now)) result }
{
    let blocks = blocks_in(alloc, document)?;
    let events = build_list(alloc, &EventItem, document, "events")?;
    let profiles = build_list(alloc, &ProfileItem, document, "profiles")?;
    let tables = build_map(alloc, &TableEntry, document, "tables")?;
    let services = build_list(alloc, &ServiceItem, document, "services")?;
    Ok(Parts {
        events,
        profiles,
        tables,
        blocks,
        services,
    })
}

/// The parts that a document without shape fault is, or its first script that can't be read.
pub(crate) fn build_parts(alloc: Global, document: &Value) -> Result<Parts, PartsFault>
    requires shape { shape_fault (view document.now) ≡ Option.None }
    ensures built { IfOk result (λ p. parts_row p ≡ parts_in (view document.now)) }
    ensures fault { Says (first_misread (view document.now)) result }
{
    parts_of(alloc, document)
}
