//! Checked deployments. Clauses see one as the deployment.
ghost use Rattle.std.specs.Prelude.{◌≡◌, IfOk, MatchResult, Ok, Err};
ghost use Rattle.script_types.specs.ProgramOf.{IsChecked, kept_program};
ghost use Rattle.handler_check.specs.Told.{Tells, checked, fault_at};

use crate::code_fault::CodeFault;
use crate::fault::CheckFault;
use crate::path::{path_of, token_place};
use crate::program::check_codes;
use script_types::{CodePlace, Codes, Misuse};
use slee_descriptor::Deployment;
use std::alloc::Global;
use std::marker::Model;

/// A deployment whose scripts have no fault, with what they are made into.
pub struct Checked {
    deployment: Deployment,
}

impl Drop for Checked {
    fn drop(self) {
        let Self { deployment: _ } = self;
    }
}

impl Model for Checked {
    ghost use Rattle.script_types.specs.ProgramOf.{IsChecked};
    ghost use Rattle.slee_descriptor.specs.contracts.deployment.Deployment as a_deployment;
    ghost use Rattle.slee_descriptor.specs.declared.deployment.Deployment.{Deployment as ADeployment};

    ghost Value = { ADeployment };

    ghost coded = { a_deployment.the_row.coded };

    ghost view = { λ c. c.deployment };

    ghost invariant = { λ c. IsChecked c.deployment.codes };
}

impl Checked {
    /// The deployment. Its scripts have no fault, and what they are made into is kept with it.
    pub fn deployment(&self) -> &Deployment
        ensures same { result.now ≡ self.now }
        ensures typed { IsChecked result.now.codes }
    {
        &self.deployment
    }
}

/// A fault of a script with the line and column where it stands.
fn placed(alloc: Global, codes: &Codes, place: CodePlace, misuse: Misuse) -> CheckFault
    ensures { Tells (Err (fault_at codes.now place misuse)) result }
{
    let blocks = codes.blocks.as_slice();
    match (
        path_of(alloc, blocks, place),
        token_place(alloc, blocks, place, misuse.at),
    ) {
        (Ok(path), Ok(token)) => CheckFault::At {
            path,
            line: token.line,
            column: token.column,
            kind: misuse.kind,
        },
        _ => CheckFault::NoMemory,
    }
}

/// The deployment with the programs of its scripts, or the first fault of all scripts.
pub fn check(alloc: Global, deployment: Deployment) -> Result<Checked, CheckFault>
    ensures parts { IfOk result (λ c. c.parts ≡ deployment.parts) }
    ensures codes { IfOk result (λ c. c.codes ≡ record deployment.codes { programs = c.codes.programs }) }
    ensures program { MatchResult result (λ c. checked deployment.codes ≡ Ok (kept_program c.codes)) (Tells (checked deployment.codes)) }
{
    let codes = deployment.codes();
    match check_codes(alloc, codes) {
        Ok(programs) => Ok(Checked {
            deployment: deployment.with_programs(programs),
        }),
        Err(CodeFault::NoMemory) => Err(CheckFault::NoMemory),
        Err(CodeFault::At { place, misuse }) => Err(placed(alloc, codes, place, misuse)),
    }
}
