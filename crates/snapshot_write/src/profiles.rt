//! Rows of profile tables.
ghost use Rattle.std.specs.Prelude.{◌≡◌, ◌++◌, OnOk};
ghost use Rattle.deploy_model.specs.Resolving.{deployed_of};
ghost use Rattle.router_state.specs.Snapshot.{listed, spelled_row};

use crate::values::{put_pairs, put_text};
use router_show::table_name;
use router_state::ProfileRow;
use slee_descriptor::Deployment;
use slee_value::{NoMemory, write_u64};

fn put_row(deployment: &Deployment, row: &ProfileRow, into: &mut Vec<u8>) -> Result<(), NoMemory>
    ensures { OnOk result (into.new.items ≡ into.old.items ++ spelled_row (deployed_of deployment.now.parts) row.now) }
{
    put_text(table_name(deployment, row.table as usize).as_bytes(), into)?;
    put_text(row.row.as_bytes(), into)?;
    put_pairs(row.attributes.as_slice(), into)
}

/// Adds these rows.
pub fn put_rows(
    deployment: &Deployment,
    rows: &[&ProfileRow],
    into: &mut Vec<u8>,
) -> Result<(), NoMemory>
    ensures { OnOk result (into.new.items ≡ into.old.items ++ listed (λ row. spelled_row (deployed_of deployment.now.parts) row.now) rows.now) }
{
    write_u64(rows.len() as u64, into)?;
    'rows: for row in rows {
        put_row(deployment, row, into)?;
    }
    Ok(())
}
