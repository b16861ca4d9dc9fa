//! Objects that stand for maps.
ghost use Rattle.deploy_model.specs.Faults.{under, Says};
ghost use Rattle.serde_json.specs.View.{view, members_view};
ghost use Rattle.deploy_schema.specs.Pointers.{escaped};
ghost use Rattle.deploy_schema.specs.Forms.{map_of, entries_fault, named};

use crate::fault::{here, under_name};
use crate::form::{EntryForm, Form};
use crate::text::check_name;
use deploy_model::{DeployBad, DeployFault};
use serde_json::{Map, Value};
use std::alloc::Global;

/// An object whose members have one form, which may go by their names.
#[derive(Drop)]
pub(crate) struct MapOf<E>(pub E);

impl<E: EntryForm> Form for MapOf<E> {
    ghost fault = { λ s. map_of (E.entry_fault s.0) };

    fn check(
        &self,
        alloc: Global,
        number: usize,
        owner: &Value,
        value: &Value,
    ) -> Result<(), DeployFault> {
        match value.as_object() {
            Some(members) => check_entries(alloc, &self.0, number, owner, members),
            None => Err(here(alloc, DeployBad::WrongType)),
        }
    }
}

fn check_entries<E: EntryForm>(
    alloc: Global,
    form: &E,
    number: usize,
    owner: &Value,
    members: &Map<String, Value>,
) -> Result<(), DeployFault>
    ensures { Says (entries_fault (λ k. E.entry_fault form.now k number (view owner.now)) (members_view members.now.entries)) result }
{
    for (name, item) in members {
        check_one(alloc, form, name.as_str(), number, owner, item)?;
    }
    Ok(())
}

fn check_one<E: EntryForm>(
    alloc: Global,
    form: &E,
    name: &str,
    number: usize,
    owner: &Value,
    item: &Value,
) -> Result<(), DeployFault>
    ensures { Says (under (escaped name.now) (E.entry_fault form.now name.now number (view owner.now) (view item.now))) result }
{
    match form.check_entry(alloc, name, number, owner, item) {
        Ok(()) => Ok(()),
        Err(fault) => Err(under_name(alloc, name, fault)),
    }
}

/// A member whose name is of the form of names.
#[derive(Drop)]
pub(crate) struct Named<F>(pub F);

impl<F: Form> EntryForm for Named<F> {
    ghost entry_fault = { λ s. named (F.fault s.0) };

    fn check_entry(
        &self,
        alloc: Global,
        name: &str,
        number: usize,
        owner: &Value,
        value: &Value,
    ) -> Result<(), DeployFault> {
        check_name(alloc, name)?;
        self.0.check(alloc, number, owner, value)
    }
}
