//! The whole document.
ghost use Rattle.deploy_model.specs.Faults.{Says};
ghost use Rattle.serde_json.specs.View.{view};
ghost use Rattle.deploy_schema.specs.Lookups.{names_of};
ghost use Rattle.deploy_schema.specs.Tables.{top_members, fault_by, shape_fault};

use crate::block::BlockForm;
use crate::event::EventForm;
use crate::form::Form;
use crate::list::ListOf;
use crate::lookup::{Lookup, lookup_of};
use crate::map::{MapOf, Named};
use crate::object::{End, May, Object, Table};
use crate::profile::ProfileForm;
use crate::service::ServiceForm;
use crate::text::{Reference, TextOf};
use deploy_model::DeployFault;
use serde_json::Value;
use std::alloc::Global;

/// The members of the whole document.
#[derive(Drop)]
struct TopTable<'a, 'v>(&'a Lookup<'v>);

impl<'a, 'v> Table for TopTable<'a, 'v> {
    ghost wants = { λ s. top_members (names_of s.0.now) };

    fn check_wanted(&self, alloc: Global, number: usize, value: &Value) -> Result<(), DeployFault> {
        let all = self.0;
        let services = May("services", ListOf(ServiceForm(all)), End);
        let blocks = May("blocks", ListOf(BlockForm(all)), services);
        let profile = Named(TextOf(Reference(&all.profiles.keys)));
        let tables = May("tables", MapOf(profile), blocks);
        let profiles = May("profiles", ListOf(ProfileForm(all)), tables);
        May("events", ListOf(EventForm(all)), profiles).check_wanted(alloc, number, value)
    }

    fn knows(&self, name: &str) -> bool {
        "events" == name
            || "profiles" == name
            || "tables" == name
            || "blocks" == name
            || "services" == name
    }
}

fn check_by(alloc: Global, all: &Lookup, document: &Value) -> Result<(), DeployFault>
    ensures { Says (fault_by (names_of all.now) (view document.now)) result }
{
    Object(TopTable(all)).check(alloc, 0, document, document)
}

/// The first fault of a document in the order of the walk.
pub fn check_document(alloc: Global, document: &Value) -> Result<(), DeployFault>
    ensures { Says (shape_fault (view document.now)) result }
{
    let all = lookup_of(alloc, document)?;
    check_by(alloc, &all, document)
}
