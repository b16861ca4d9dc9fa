//! The fields of a fired event read from bytes.
ghost use Rattle.std.specs.Prelude.{◌≡◌, None};
ghost use Rattle.slee_value.specs.Reading.{Gives};
ghost use Rattle.slee_effect.specs.Reading.{field_at, rows_at, fields_at, last_name};

use crate::names::read_name;
use crate::parts::read_val;
use crate::{FiredFields, Val};
use slee_value::{PartFault, Text, read_u32};
use std::alloc::Global;

/// The fields of an event at the front of the bytes, and the bytes behind them.
pub(crate) fn read_fields(alloc: Global, bytes: &[u8]) -> Result<(FiredFields, &[u8]), PartFault>
    ensures { Gives (λ x. (x.0, x.1.now)) result (fields_at bytes.now) }
{
    let (count, rest) = read_u32(bytes)?;
    let (fields, rest) = read_rows(alloc, count, rest)?;
    Ok((FiredFields::from_vec(fields), rest))
}

fn read_rows(
    alloc: Global,
    count: u32,
    bytes: &[u8],
) -> Result<(Vec<(Text, Val)>, &[u8]), PartFault>
    ensures { Gives (λ x. (x.0.items, x.1.now)) result (rows_at count None bytes.now) }
{
    let mut fields = Vec::new(alloc);
    let mut rest = bytes;
    'rows: for _ in 0..count {
        let (field, after) = read_field(alloc, &fields, rest)?;
        fields.push(field)?;
        rest = after;
    }
    Ok((fields, rest))
}

fn read_field<'a>(
    alloc: Global,
    fields: &[(Text, Val)],
    bytes: &'a [u8],
) -> Result<((Text, Val), &'a [u8]), PartFault>
    ensures { Gives (λ x. (x.0, x.1.now)) result (field_at (last_name fields.now) bytes.now) }
{
    let (name, rest) = read_name(alloc, fields, bytes)?;
    let (value, rest) = read_val(alloc, rest)?;
    Ok(((name, value), rest))
}
