//! What is wrong with the deployment, in words on standard error.

use check_hints::{types_text, types_told};
use deploy_hints::{hint_of, hint_text};
use deploy_json::ReadFault;
use script_tree::Place;
use slee_disk::{HostSink, write_whole};
use slee_run::Status;
use slee_value::NoMemory;
use std::alloc::Global;

/// Says on standard error in words what the status says of the deployment. Where no memory is found for it, or it can't be
/// written, nothing more is said: standard output has the status.
pub fn explain(rt: &HostRuntime, status: &Status, given: Option<&[u8]>) {
    let (Status::BadDeploy(fault), Some(bytes)) = (status, given) else {
        return;
    };
    if let Ok(Some(line)) = line_for(rt.alloc(), bytes, fault) {
        let mut out = HostSink::new(rt.stderr());
        let _ = write_whole(&mut out, line.as_slice());
    }
}

/// What is told of the fault, as a line.
fn line_for(alloc: Global, bytes: &[u8], fault: &ReadFault) -> Result<Option<Vec<u8>>, NoMemory> {
    let Some(hint) = hint_of(alloc, bytes, fault)? else {
        return Ok(None);
    };
    let mut line = Vec::from_slice(alloc, b"slee: ")?;
    line.extend_from_slice(&hint_text(alloc, &hint)?)?;
    line.extend_from_slice(&types_for(alloc, bytes, fault)?)?;
    line.push(b'\n')?;
    Ok(Some(line))
}

/// The types that are found and wanted at the fault, where it is one of types.
fn types_for(alloc: Global, bytes: &[u8], fault: &ReadFault) -> Result<Vec<u8>, NoMemory> {
    let ReadFault::Check {
        pointer,
        line,
        column,
        ..
    } = fault
    else {
        return Ok(Vec::new(alloc));
    };
    let place = Place {
        line: *line,
        column: *column,
    };
    match types_told(alloc, bytes, pointer.as_str(), place)? {
        Some(types) => types_text(alloc, &types),
        None => Ok(Vec::new(alloc)),
    }
}
