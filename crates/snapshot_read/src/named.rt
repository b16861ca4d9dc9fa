//! The numbers of what a deployment names.
ghost use Rattle.std.specs.Prelude.{◌≡◌, ◌≢◌, Err, Option, length};
ghost use Rattle.slee_value.specs.Reading.{Gives};
ghost use Rattle.deploy_model.specs.Resolving.{deployed_of};
ghost use Rattle.router_state.specs.Parsing.{block_number_at, found, service_number_at, table_number_at};

use slee_descriptor::Deployment;
use slee_value::{PartFault, ValueBad, read_str};

/// That no state has the byte at the front.
pub(crate) fn stray(bytes: &[u8]) -> PartFault
    ensures { result ≡ PartFault.Bad (length bytes.now) ValueBad.Tag }
{
    PartFault::Bad {
        left: bytes.len(),
        kind: ValueBad::Tag,
    }
}

/// The number that was found, and these bytes after its name.
fn found(number: Option<u32>, rest: &[u8]) -> Result<(u32, &[u8]), PartFault>
    ensures part { Gives (λ x. (x.0, x.1.now)) result (found number rest.now) }
    ensures memory { result ≢ Err PartFault.NoMemory }
{
    match number {
        None => Err(stray(rest)),
        Some(number) => Ok((number, rest)),
    }
}

/// The number of the block whose key is at the front.
pub(crate) fn read_block<'b>(
    deployment: &Deployment,
    bytes: &'b [u8],
) -> Result<(u32, &'b [u8]), PartFault>
    ensures { Gives (λ x. (x.0, x.1.now)) result (block_number_at (deployed_of deployment.now.parts) bytes.now) }
{
    let (key, rest) = read_str(bytes)?;
    found(deployment.block_named(key), rest)
}

/// The number of the service whose key is at the front.
pub(crate) fn read_service<'b>(
    deployment: &Deployment,
    bytes: &'b [u8],
) -> Result<(u32, &'b [u8]), PartFault>
    ensures { Gives (λ x. (x.0, x.1.now)) result (service_number_at (deployed_of deployment.now.parts) bytes.now) }
{
    let (key, rest) = read_str(bytes)?;
    found(deployment.service_named(key), rest)
}

/// The number of the table whose name is at the front.
pub(crate) fn read_table<'b>(
    deployment: &Deployment,
    bytes: &'b [u8],
) -> Result<(u32, &'b [u8]), PartFault>
    ensures { Gives (λ x. (x.0, x.1.now)) result (table_number_at (deployed_of deployment.now.parts) bytes.now) }
{
    let (name, rest) = read_str(bytes)?;
    found(deployment.table_named(name), rest)
}
