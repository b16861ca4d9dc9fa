//! Faults of JSON values: their places as JSON pointers.
ghost use Rattle.std.specs.Prelude.{◌≡◌, ◌∷◌, ◌++◌, Option, IfOk, OnOk, string_bytes};
ghost use Rattle.deploy_model.specs.Faults.{Fault, Tells, Says, here as first_here, unless as unless_so, under};
ghost use Rattle.deploy_schema.specs.Pointers.{escaped, printed as printed_so};

use deploy_model::{DeployBad, DeployFault};
use slee_value::{NoMemory, Text};
use std::alloc::Global;

/// A fault of the value itself.
pub(crate) fn here(alloc: Global, kind: DeployBad) -> DeployFault
    ensures { Tells (first_here kind) result }
{
    DeployFault::At {
        path: Text::from(String::new(alloc)),
        kind,
    }
}

/// A fault of the value itself unless the test holds.
pub(crate) fn unless(alloc: Global, holds: bool, kind: DeployBad) -> Result<(), DeployFault>
    ensures { Says (unless_so holds kind) result }
{
    if holds {
        Ok(())
    } else {
        Err(here(alloc, kind))
    }
}

/// The path, one step further up.
pub fn moved(alloc: Global, step: &str, path: &str) -> Result<Text, NoMemory>
    ensures { IfOk result (λ t. t ≡ 47 ∷ step.now ++ path.now) }
{
    let mut moved = String::from_str(alloc, "/")?;
    moved.push_str(step)?;
    moved.push_str(path)?;
    Ok(Text::from(moved))
}

/// The fault, seen from what has the faulty value at this step, which needs no escape.
pub(crate) fn under_step(alloc: Global, step: &str, fault: DeployFault) -> DeployFault
    ensures { (m : Option Fault) → Tells m fault → Tells (under step.now m) result }
{
    match fault {
        DeployFault::NoMemory => DeployFault::NoMemory,
        DeployFault::At { path, kind } => match moved(alloc, step, path.as_str()) {
            Ok(path) => DeployFault::At { path, kind },
            Err(NoMemory) => DeployFault::NoMemory,
        },
    }
}

/// Adds a name as a step of a pointer.
fn push_escaped(step: &mut Vec<u8>, name: &[u8]) -> Result<(), NoMemory>
    ensures { OnOk result (step.new.items ≡ step.old.items ++ escaped name.now) }
{
    for byte in name {
        match *byte {
            b'~' => step.extend_from_slice(b"~0")?,
            b'/' => step.extend_from_slice(b"~1")?,
            other => step.push(other)?,
        }
    }
    Ok(())
}

/// A name as a step of a pointer.
pub fn escaped_step(alloc: Global, name: &str) -> Result<String, NoMemory>
    ensures { IfOk result (λ s. string_bytes s ≡ escaped name.now) }
{
    let mut step = Vec::new(alloc);
    push_escaped(&mut step, name.as_bytes())?;
    // A name with its escapes is UTF-8 as the name is.
    Ok(unsafe { String::from_utf8_unchecked(step) })
}

/// The fault, seen from the object that has the faulty value under this name.
pub(crate) fn under_name(alloc: Global, name: &str, fault: DeployFault) -> DeployFault
    ensures { (m : Option Fault) → Tells m fault → Tells (under (escaped name.now) m) result }
{
    match escaped_step(alloc, name) {
        Ok(step) => under_step(alloc, step.as_str(), fault),
        Err(NoMemory) => DeployFault::NoMemory,
    }
}

/// How a pointer is printed: that of the whole document as a slash.
pub fn printed(pointer: &str) -> &str
    ensures { result.now ≡ printed_so pointer.now }
{
    if pointer.is_empty() { "/" } else { pointer }
}
