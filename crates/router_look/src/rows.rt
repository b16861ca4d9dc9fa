//! Rows of profile tables by the table's name.
ghost use Rattle.std.specs.Prelude.{◌≡◌, option_copied};
ghost use Rattle.deploy_model.specs.Resolving.{deployed_of};
ghost use Rattle.router_state.specs.Look.{row_seen};

use router_stores::Stores;
use slee_descriptor::Deployment;
use slee_value::{Name, Payload, Text};

/// The attributes of the row of this name in the table of this name.
pub fn row_of<'a>(
    stores: &'a Stores,
    deployment: &Deployment,
    table: &Name,
    row: &Text,
) -> Option<&'a Payload>
    requires { deployed_of deployment.now.parts ≡ stores.now.state.deployment }
    ensures { option_copied result ≡ row_seen stores.now.state table.now row.now }
{
    match deployment.table_named(table.as_str()) {
        Some(number) => match stores.profiles().get(number, row) {
            Ok(attributes) => Some(attributes),
            Err(_) => None,
        },
        None => None,
    }
}
