//! Counting the parts of a deployment.
ghost use Rattle.std.specs.Prelude.{◌≡◌, MatchResult, Ok};
ghost use Rattle.deploy_json.specs.Rows.{parts_row};
ghost use Rattle.deploy_json.specs.Reading.{Tells};
ghost use Rattle.deploy_report.specs.Counting.{counts_in, counts_of};

use crate::counts::Counts;
use deploy_json::{ReadFault, read_deployment};
use slee_descriptor::Deployment;
use std::alloc::Global;

/// How many parts of each kind the deployment has that the bytes are, or the first thing that is wrong with them.
pub fn count_deployment(alloc: Global, bytes: &[u8]) -> Result<Counts, ReadFault>
    ensures { MatchResult result (λ counts. counts_in bytes.now ≡ Ok counts) (Tells (counts_in bytes.now)) }
{
    match read_deployment(alloc, bytes) {
        Ok(checked) => Ok(counts_of(checked.deployment())),
        Err(fault) => Err(fault),
    }
}

fn counts_of(deployment: &Deployment) -> Counts
    ensures { result ≡ counts_of (parts_row deployment.now.parts) }
{
    Counts {
        events: deployment.events().len() as u64,
        profiles: deployment.profiles().len() as u64,
        tables: deployment.tables().len() as u64,
        blocks: deployment.blocks().len() as u64,
        services: deployment.services().len() as u64,
    }
}
