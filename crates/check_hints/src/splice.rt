//! Texts with a piece replaced.
ghost use Rattle.std.specs.Prelude.{◌≡◌, ◌++◌, IfOk, drop, take};
ghost use Rattle.check_hints.specs.Mismatches.{spliced, wrapped};

use crate::samples::taker;
use slee_value::{Kind, NoMemory};
use std::alloc::Global;

/// The bytes before a place.
pub(crate) fn front_of(bytes: &[u8], place: usize) -> &[u8]
    ensures { result.now ≡ take place bytes.now }
{
    if bytes.len() < place {
        bytes
    } else {
        &bytes[..place]
    }
}

/// The bytes from a place on.
pub(crate) fn rest_of(bytes: &[u8], place: usize) -> &[u8]
    ensures { result.now ≡ drop place bytes.now }
{
    if bytes.len() < place {
        &[]
    } else {
        &bytes[place..]
    }
}

/// The text with another piece in place of what stands between two places, and a blank on each side of it.
pub(crate) fn spliced(
    alloc: Global,
    text: &[u8],
    start: usize,
    stop: usize,
    piece: &[u8],
) -> Result<Vec<u8>, NoMemory>
    ensures { IfOk result (λ v. v.items ≡ spliced text.now start stop piece.now) }
{
    let mut all = Vec::from_slice(alloc, front_of(text, start))?;
    all.push(b' ')?;
    all.extend_from_slice(piece)?;
    all.push(b' ')?;
    all.extend_from_slice(rest_of(text, stop))?;
    Ok(all)
}

/// The piece where that type alone may stand.
pub(crate) fn wrapped(alloc: Global, kind: Kind, piece: &[u8]) -> Result<Vec<u8>, NoMemory>
    ensures { IfOk result (λ v. v.items ≡ wrapped kind piece.now) }
{
    let mut all = Vec::from_slice(alloc, taker(kind).as_bytes())?;
    all.extend_from_slice(piece)?;
    all.extend_from_slice(b"))")?;
    Ok(all)
}
