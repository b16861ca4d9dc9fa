//! The rows of profile tables.
ghost use Rattle.std.specs.Prelude.{◌≡◌};
ghost use Rattle.std.specs.List.{list_all};
ghost use Rattle.snapshot_read.specs.Holding.{Holds, holds_row};

use crate::ReadFault;
use crate::holding::payload_of;
use crate::parts::RowPart;
use router_state::ProfileRow;
use std::alloc::Global;

/// The row, with the names of its attributes looked at.
fn row_of(alloc: Global, part: RowPart) -> Result<ProfileRow, ReadFault>
    ensures { Holds (λ row. row ≡ part) (holds_row part) result }
{
    let RowPart {
        table,
        row,
        attributes,
    } = part;
    Ok(ProfileRow {
        table,
        row,
        attributes: payload_of(alloc, attributes)?,
    })
}

/// The rows, in their order.
pub(crate) fn profile_rows(alloc: Global, parts: Vec<RowPart>) -> Result<Vec<ProfileRow>, ReadFault>
    ensures { Holds (λ rows. rows.items ≡ parts.items) (list_all holds_row parts.items) result }
{
    let mut rows = Vec::with_capacity(alloc, parts.len())?;
    'parts: for part in parts {
        rows.push(row_of(alloc, part)?)?;
    }
    Ok(rows)
}
