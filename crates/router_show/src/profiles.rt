//! The lines of the rows of profile tables.
ghost use Rattle.std.specs.Prelude.{◌≡◌, ◌++◌, OnOk, map};
ghost use Rattle.deploy_model.specs.Resolving.{deployed_of};
ghost use Rattle.router_state.specs.Show.{attribute_word, row_line, spaced};
ghost use Rattle.trace_history.specs.Lines.{line_text, line_texts};

use crate::keys::table_name;
use crate::words::{put, put_value, put_word};
use router_state::ProfileRow;
use slee_descriptor::Deployment;
use slee_value::{Name, NoMemory, Value};
use std::alloc::Global;

/// Adds the attributes, each with a space before it.
fn put_attributes(
    alloc: Global,
    attributes: &[(Name, Value)],
    into: &mut Vec<u8>,
) -> Result<(), NoMemory>
    ensures { OnOk result (into.new.items ≡ into.old.items ++ spaced (map attribute_word attributes.now)) }
{
    'attributes: for attribute in attributes {
        put(" ", into)?;
        put(attribute.0.as_str(), into)?;
        put("=", into)?;
        put_value(alloc, &attribute.1, into)?;
    }
    Ok(())
}

/// Adds the line of a row.
fn put_row(
    alloc: Global,
    deployment: &Deployment,
    row: &ProfileRow,
    into: &mut Vec<u8>,
) -> Result<(), NoMemory>
    ensures { OnOk result (into.new.items ≡ into.old.items ++ line_text (row_line (deployed_of deployment.now.parts) row.now)) }
{
    put("row ", into)?;
    put(table_name(deployment, row.table as usize), into)?;
    put(" ", into)?;
    put_word(row.row.as_bytes(), into)?;
    put_attributes(alloc, row.attributes.as_slice(), into)?;
    put("\n", into)
}

/// Adds the lines of these rows.
pub fn put_rows(
    alloc: Global,
    deployment: &Deployment,
    rows: &[&ProfileRow],
    into: &mut Vec<u8>,
) -> Result<(), NoMemory>
    ensures { OnOk result (into.new.items ≡ into.old.items ++ line_texts (map (row_line (deployed_of deployment.now.parts)) (map (λ row. row.now) rows.now))) }
{
    'rows: for row in rows {
        put_row(alloc, deployment, row, into)?;
    }
    Ok(())
}
