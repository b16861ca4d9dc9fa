//! What the items of lists are read by.
ghost use Rattle.deploy_model.specs.Resolving.{deployed_of};
ghost use Rattle.slee_value.specs.Reading.{Gives};

use slee_descriptor::Deployment;
use slee_value::PartFault;
use std::alloc::Global;

/// What is read from bytes, in a format, with the numbers that a deployment gives to names.
pub(crate) trait Item: Drop + Sized {
    ghost use Rattle.std.specs.Prelude.{ℕ, List};
    ghost use Rattle.deploy_model.specs.Deployed.{Deployed};
    ghost use Rattle.slee_value.specs.Reading.{Part};

    ghost item_at: { ℕ → Deployed → List ℕ → Part Self };

    /// The item at the front of the bytes, and the bytes after it.
    fn read<'b>(
        alloc: Global,
        deployment: &Deployment,
        format: u8,
        bytes: &'b [u8],
    ) -> Result<(Self, &'b [u8]), PartFault>
        ensures { Gives (λ x. (x.0, x.1.now)) result (item_at format (deployed_of deployment.now.parts) bytes.now) };
}
