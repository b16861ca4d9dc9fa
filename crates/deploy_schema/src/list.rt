//! Arrays.
ghost use Rattle.std.specs.Prelude.{decimal};
ghost use Rattle.deploy_model.specs.Faults.{under, Says};
ghost use Rattle.serde_json.specs.View.{view, items_view};
ghost use Rattle.deploy_schema.specs.Forms.{list_of, items_fault};

use crate::fault::{here, under_step};
use crate::form::Form;
use deploy_model::{DeployBad, DeployFault};
use serde_json::Value;
use std::alloc::Global;

/// An array, each item of one form.
#[derive(Drop)]
pub(crate) struct ListOf<F>(pub F);

impl<F: Form> Form for ListOf<F> {
    ghost fault = { λ s. list_of (F.fault s.0) };

    fn check(
        &self,
        alloc: Global,
        _number: usize,
        owner: &Value,
        value: &Value,
    ) -> Result<(), DeployFault> {
        match value.as_array() {
            Some(items) => check_items(alloc, &self.0, owner, items.as_slice()),
            None => Err(here(alloc, DeployBad::WrongType)),
        }
    }
}

fn check_items<F: Form>(
    alloc: Global,
    form: &F,
    owner: &Value,
    items: &[Value],
) -> Result<(), DeployFault>
    ensures { Says (items_fault (λ n. F.fault form.now n (view owner.now)) 0 (items_view items.now)) result }
{
    for (i, item) in items.iter().enumerate() {
        check_item(alloc, form, owner, i, item)?;
    }
    Ok(())
}

fn check_item<F: Form>(
    alloc: Global,
    form: &F,
    owner: &Value,
    i: usize,
    item: &Value,
) -> Result<(), DeployFault>
    ensures { Says (under (decimal i) (F.fault form.now i (view owner.now) (view item.now))) result }
{
    match form.check(alloc, i, owner, item) {
        Ok(()) => Ok(()),
        Err(fault) => Err(under_step(alloc, format!(in alloc; "{i}")?.as_str(), fault)),
    }
}
