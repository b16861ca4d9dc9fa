//! The deployment of bytes: their parts, and then the check of all scripts.
ghost use Rattle.std.specs.Prelude.{◌≡◌, [], IfOk, Option, MatchResult, Ok};
ghost use Rattle.script_types.specs.declared.codes.Codes.{Codes as CodesInMemory};
ghost use Rattle.script_types.specs.ProgramOf.{IsChecked};
ghost use Rattle.deploy_model.specs.declared.parts.Parts.{Parts as PartsInMemory};
ghost use Rattle.deploy_model.specs.Tables.{parts_fault};
ghost use Rattle.slee_descriptor.specs.CodesOfParts.{codes_in};
ghost use Rattle.handler_check.specs.Told.{Tells as CheckTells, checked};
ghost use Rattle.deploy_json.specs.Rows.{parts_row};
ghost use Rattle.deploy_json.specs.Reading.{Tells};
ghost use Rattle.deploy_json.specs.Checking.{checked_parts, reading_of, read_as};

use crate::fault::ReadFault;
use crate::reading::read_parts;
use deploy_model::Parts;
use handler_check::{CheckFault, Checked, check};
use slee_descriptor::Deployment;
use slee_value::NoMemory;
use std::alloc::Global;

/// The fault of a script.
fn check_fault(fault: CheckFault) -> ReadFault
    ensures { (p : PartsInMemory) (all : CodesInMemory) → all ≡ codes_in p [] → CheckTells (checked all) fault → Tells (checked_parts (Ok (parts_row p))) result }
{
    match fault {
        CheckFault::NoMemory => ReadFault::NoMemory,
        CheckFault::At {
            path,
            line,
            column,
            kind,
        } => ReadFault::Check {
            pointer: path,
            line,
            column,
            kind,
        },
    }
}

/// The deployment with its scripts checked.
fn check_scripts(alloc: Global, deployment: Deployment) -> Result<Checked, ReadFault>
    requires { deployment.codes ≡ codes_in deployment.parts [] }
    ensures typed { IfOk result (λ c. IsChecked c.codes) }
    ensures read { MatchResult result (λ c. checked_parts (Ok (parts_row deployment.parts)) ≡ Ok (read_as c)) (Tells (checked_parts (Ok (parts_row deployment.parts)))) }
{
    match check(alloc, deployment) {
        Ok(checked) => Ok(checked),
        Err(fault) => Err(check_fault(fault)),
    }
}

/// The checked deployment that parts without fault are, or the first fault of their scripts.
fn check_parts(alloc: Global, parts: Parts) -> Result<Checked, ReadFault>
    requires { parts_fault parts ≡ Option.None }
    ensures typed { IfOk result (λ c. IsChecked c.codes) }
    ensures read { MatchResult result (λ c. checked_parts (Ok (parts_row parts)) ≡ Ok (read_as c)) (Tells (checked_parts (Ok (parts_row parts)))) }
{
    match Deployment::from_parts(alloc, parts) {
        Ok(deployment) => check_scripts(alloc, deployment),
        Err(NoMemory) => Err(ReadFault::NoMemory),
    }
}

/// The deployment that the bytes are, with its scripts checked, or the first thing that is wrong with them.
pub fn read_deployment(alloc: Global, bytes: &[u8]) -> Result<Checked, ReadFault>
    ensures typed { IfOk result (λ c. IsChecked c.codes) }
    ensures read { MatchResult result (λ c. reading_of bytes.now ≡ Ok (read_as c)) (Tells (reading_of bytes.now)) }
{
    match read_parts(alloc, bytes) {
        Ok(parts) => check_parts(alloc, parts),
        Err(fault) => Err(fault),
    }
}
