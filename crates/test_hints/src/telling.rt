//! What is told of bytes, as text.

use check_hints::{types_text, types_told};
use deploy_hints::{hint_of, hint_text};
use deploy_json::{ReadFault, read_deployment};
use script_tree::Place;
use slee_value::NoMemory;
use std::alloc::Global;

/// What is told of the first fault of bytes; nothing where they are a deployment.
pub fn told(alloc: Global, bytes: &[u8]) -> Result<Vec<u8>, NoMemory> {
    match read_deployment(alloc, bytes) {
        Ok(_) => Ok(Vec::new(alloc)),
        Err(fault) => told_of(alloc, bytes, &fault),
    }
}

fn told_of(alloc: Global, bytes: &[u8], fault: &ReadFault) -> Result<Vec<u8>, NoMemory> {
    let Some(hint) = hint_of(alloc, bytes, fault)? else {
        return Ok(Vec::new(alloc));
    };
    let mut text = hint_text(alloc, &hint)?;
    text.extend_from_slice(&types_of(alloc, bytes, fault)?)?;
    Ok(text)
}

fn types_of(alloc: Global, bytes: &[u8], fault: &ReadFault) -> Result<Vec<u8>, NoMemory> {
    let ReadFault::Check {
        pointer,
        line,
        column,
        ..
    } = fault
    else {
        return Ok(Vec::new(alloc));
    };
    let place = Place {
        line: *line,
        column: *column,
    };
    match types_told(alloc, bytes, pointer.as_str(), place)? {
        Some(types) => types_text(alloc, &types),
        None => Ok(Vec::new(alloc)),
    }
}
