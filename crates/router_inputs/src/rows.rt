//! Rows of profile tables that lines add, change and remove.
ghost use Rattle.std.specs.Prelude.{◌≡◌, [], false, true, slice_get, IfOk, IsTrue};
ghost use Rattle.std.specs.Option.{option_map_or};
ghost use Rattle.deploy_model.specs.Deployed.{table_attributes};
ghost use Rattle.deploy_model.specs.Resolving.{deployed_of};
ghost use Rattle.router_state.specs.Fits.{are_declared};
ghost use Rattle.router_state.specs.Fitting.{has_row, has_table};
ghost use Rattle.router_steps.specs.Actions.{adding, is_duplicate, removing, updating};
ghost use Rattle.router_steps.specs.Values.{fields_given};
ghost use Rattle.router_inputs.specs.Acting.{answer_in};
ghost use Rattle.router_inputs.specs.InOrder.{AreInOrder};

use crate::{Action, RowChange, values};
use router_steps::Refusal;
use router_stores::Stores;
use script_types::{FieldCode, TableCode};
use signal_script::{Fields, Word};
use slee_descriptor::Deployment;
use slee_value::{NoMemory, Payload, Text};
use std::alloc::Global;

fn attributes_at(tables: &[TableCode], table: u32) -> &[FieldCode]
    ensures { result.now ≡ option_map_or (λ t. t.attributes) (slice_get tables.now table) [] }
{
    match tables.get(table as usize) {
        Some(code) => code.attributes.as_slice(),
        None => &[],
    }
}

/// The attributes that are declared for the rows of the table.
fn attributes_of(deployment: &Deployment, table: u32) -> &[FieldCode]
    ensures { result.now ≡ table_attributes (deployed_of deployment.now.parts) table }
{
    attributes_at(deployment.codes().tables.as_slice(), table)
}

/// The values that the words give to the attributes of a row of the table.
fn values_of(
    alloc: Global,
    deployment: &Deployment,
    table: u32,
    words: &Fields,
) -> Result<Option<Payload>, NoMemory>
    requires order { AreInOrder (deployed_of deployment.now.parts) }
    ensures values { IfOk result (λ found. found ≡ fields_given (table_attributes (deployed_of deployment.now.parts) table) words.now) }
{
    values::fields_given(alloc, attributes_of(deployment, table), words)
}

/// Whether the table has the row.
#[tactic(auto, using(crate::proofs::RowLemmas::asked))]
fn has_row(stores: &Stores, table: u32, row: &Text) -> bool
    requires { IsTrue (has_table stores.now.state.deployment table) }
    ensures { result ≡ has_row stores.now.state.rows table row.now }
{
    stores.profiles().get(table, row).is_ok()
}

/// Whether another row has a value that is to be unique, the row being new.
#[tactic(auto, using(crate::proofs::RowLemmas::new_duplicate))]
fn is_new_duplicate(stores: &Stores, table: u32, row: &Text, values: &Payload) -> bool
    requires table { IsTrue (has_table stores.now.state.deployment table) }
    requires new { has_row stores.now.state.rows table row.now ≡ false }
    requires declared { IsTrue (are_declared (table_attributes stores.now.state.deployment table) values.now) }
    ensures { result ≡ is_duplicate stores.now.state table row.now values.now }
{
    let profiles = stores.profiles();
    let _rows = profiles.len();
    profiles.test_add(table, row, values).is_err()
}

/// Whether another row has a value that is to be unique, the row being there.
#[tactic(auto, using(crate::proofs::RowLemmas::other_duplicate))]
fn is_other_duplicate(stores: &Stores, table: u32, row: &Text, values: &Payload) -> bool
    requires table { IsTrue (has_table stores.now.state.deployment table) }
    requires there { has_row stores.now.state.rows table row.now ≡ true }
    requires declared { IsTrue (are_declared (table_attributes stores.now.state.deployment table) values.now) }
    ensures { result ≡ is_duplicate stores.now.state table row.now values.now }
{
    let profiles = stores.profiles();
    let _rows = profiles.len();
    profiles.test_update(table, row, values).is_err()
}

/// A new row.
pub fn adding(
    alloc: Global,
    stores: &Stores,
    deployment: &Deployment,
    table: u32,
    row: &Word,
    words: &Fields,
) -> Result<Result<Action, Refusal>, NoMemory>
    requires deployed { deployed_of deployment.now.parts ≡ stores.now.state.deployment }
    requires order { AreInOrder (deployed_of deployment.now.parts) }
    requires table { IsTrue (has_table stores.now.state.deployment table) }
    ensures { IfOk result (λ answer. answer_in answer ≡ adding stores.now.state table row.now words.now) }
{
    let row = Text::from_str(alloc, row.as_str())?;
    if has_row(stores, table, &row) {
        return Ok(Err(Refusal::RowExists));
    }
    let values = match values_of(alloc, deployment, table, words)? {
        Some(values) => values,
        None => return Ok(Err(Refusal::BadFields)),
    };
    if is_new_duplicate(stores, table, &row, &values) {
        return Ok(Err(Refusal::Duplicate));
    }
    Ok(Ok(Action::ChangeRow {
        table,
        row,
        change: RowChange::RowAdded(values),
    }))
}

/// Other values for a row.
pub fn updating(
    alloc: Global,
    stores: &Stores,
    deployment: &Deployment,
    table: u32,
    row: &Word,
    words: &Fields,
) -> Result<Result<Action, Refusal>, NoMemory>
    requires deployed { deployed_of deployment.now.parts ≡ stores.now.state.deployment }
    requires order { AreInOrder (deployed_of deployment.now.parts) }
    requires table { IsTrue (has_table stores.now.state.deployment table) }
    ensures { IfOk result (λ answer. answer_in answer ≡ updating stores.now.state table row.now words.now) }
{
    let row = Text::from_str(alloc, row.as_str())?;
    if !has_row(stores, table, &row) {
        return Ok(Err(Refusal::NoRow));
    }
    let values = match values_of(alloc, deployment, table, words)? {
        Some(values) => values,
        None => return Ok(Err(Refusal::BadFields)),
    };
    if is_other_duplicate(stores, table, &row, &values) {
        return Ok(Err(Refusal::Duplicate));
    }
    Ok(Ok(Action::ChangeRow {
        table,
        row,
        change: RowChange::RowUpdated(values),
    }))
}

/// A row that goes.
pub fn removing(
    alloc: Global,
    stores: &Stores,
    table: u32,
    row: &Word,
) -> Result<Result<Action, Refusal>, NoMemory>
    requires table { IsTrue (has_table stores.now.state.deployment table) }
    ensures { IfOk result (λ answer. answer_in answer ≡ removing stores.now.state table row.now) }
{
    let row = Text::from_str(alloc, row.as_str())?;
    if !has_row(stores, table, &row) {
        return Ok(Err(Refusal::NoRow));
    }
    Ok(Ok(Action::ChangeRow {
        table,
        row,
        change: RowChange::RowRemoved,
    }))
}
