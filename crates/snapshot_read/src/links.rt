//! Attachments with their masks, and the rows of profile tables.

use crate::item::Item;
use crate::lists::read_list;
use crate::named::read_table;
use crate::parts::{LinkPart, RowPart};
use slee_descriptor::Deployment;
use slee_value::{PartFault, read_text, read_u64};
use std::alloc::Global;

impl Item for LinkPart {
    ghost use Rattle.router_state.specs.Parsing.{link_at};

    ghost item_at = { λ format d. link_at };

    fn read<'b>(
        alloc: Global,
        deployment: &Deployment,
        format: u8,
        bytes: &'b [u8],
    ) -> Result<(LinkPart, &'b [u8]), PartFault> {
        let (activity, rest) = read_u64(bytes)?;
        let (entity, rest) = read_u64(rest)?;
        let (masks, rest) = read_list(alloc, deployment, format, rest)?;
        let link = LinkPart {
            activity,
            entity,
            masks,
        };
        Ok((link, rest))
    }
}

impl Item for RowPart {
    ghost use Rattle.router_state.specs.Parsing.{row_at};

    ghost item_at = { λ format. row_at };

    fn read<'b>(
        alloc: Global,
        deployment: &Deployment,
        format: u8,
        bytes: &'b [u8],
    ) -> Result<(RowPart, &'b [u8]), PartFault> {
        let (table, rest) = read_table(deployment, bytes)?;
        let (row, rest) = read_text(alloc, rest)?;
        let (attributes, rest) = read_list(alloc, deployment, format, rest)?;
        let part = RowPart {
            table,
            row,
            attributes,
        };
        Ok((part, rest))
    }
}
