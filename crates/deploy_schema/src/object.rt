//! Objects with a table of members.
ghost use Rattle.std.specs.Prelude.{◌≡◌, ◌∷◌, []};
ghost use Rattle.deploy_model.specs.Faults.{under, Says};
ghost use Rattle.serde_json.specs.Find.{get};
ghost use Rattle.serde_json.specs.View.{view, members_view};
ghost use Rattle.deploy_schema.specs.Forms.{Want, object, wants_fault, others_fault, other_fault, value_fault, knows as known_to, need, may};

use crate::fault::{here, under_name, under_step};
use crate::form::Form;
use deploy_model::{DeployBad, DeployFault};
use serde_json::{Map, Value};
use std::alloc::Global;

/// The members that an object may have, in order.
pub(crate) trait Table {
    ghost use Rattle.std.specs.Prelude.{List};

    ghost wants: { Self → List Want };

    /// The first fault of the members that the table names.
    fn check_wanted(&self, alloc: Global, number: usize, value: &Value) -> Result<(), DeployFault>
        ensures { Says (wants_fault (wants self.now) number (view value.now)) result };

    /// Whether the table names this member.
    fn knows(&self, name: &str) -> bool
        ensures { result ≡ known_to (wants self.now) name.now };
}

/// The end of a table.
#[derive(Drop)]
pub(crate) struct End;

impl Table for End {
    ghost wants = { λ _. [] };

    fn check_wanted(
        &self,
        _alloc: Global,
        _number: usize,
        _value: &Value,
    ) -> Result<(), DeployFault> {
        Ok(())
    }

    fn knows(&self, _name: &str) -> bool {
        false
    }
}

/// A member that has to be there, and the rest of the table.
#[derive(Drop)]
pub(crate) struct Need<'n, F, R>(pub &'n str, pub F, pub R);

impl<'n, F: Form, R: Table> Table for Need<'n, F, R> {
    ghost wants = { λ s. need s.0.now (F.fault s.1) ∷ R.wants s.2 };

    fn check_wanted(&self, alloc: Global, number: usize, value: &Value) -> Result<(), DeployFault> {
        check_member(alloc, self.0, true, &self.1, number, value)?;
        self.2.check_wanted(alloc, number, value)
    }

    fn knows(&self, name: &str) -> bool {
        self.0 == name || self.2.knows(name)
    }
}

/// A member that may be absent, and the rest of the table.
#[derive(Drop)]
pub(crate) struct May<'n, F, R>(pub &'n str, pub F, pub R);

impl<'n, F: Form, R: Table> Table for May<'n, F, R> {
    ghost wants = { λ s. may s.0.now (F.fault s.1) ∷ R.wants s.2 };

    fn check_wanted(&self, alloc: Global, number: usize, value: &Value) -> Result<(), DeployFault> {
        check_member(alloc, self.0, false, &self.1, number, value)?;
        self.2.check_wanted(alloc, number, value)
    }

    fn knows(&self, name: &str) -> bool {
        self.0 == name || self.2.knows(name)
    }
}

/// A member that has to be there where the test says so, and the rest of the table.
#[derive(Drop)]
pub(crate) struct NeedIf<'n, F, R>(pub &'n str, pub bool, pub F, pub R);

impl<'n, F: Form, R: Table> Table for NeedIf<'n, F, R> {
    ghost wants = { λ s. record { name = s.0.now; needed = s.1; form = F.fault s.2 } ∷ R.wants s.3 };

    fn check_wanted(&self, alloc: Global, number: usize, value: &Value) -> Result<(), DeployFault> {
        check_member(alloc, self.0, self.1, &self.2, number, value)?;
        self.3.check_wanted(alloc, number, value)
    }

    fn knows(&self, name: &str) -> bool {
        self.0 == name || self.3.knows(name)
    }
}

/// The member of an object at this name.
fn check_member<F: Form>(
    alloc: Global,
    name: &str,
    needed: bool,
    form: &F,
    number: usize,
    value: &Value,
) -> Result<(), DeployFault>
    ensures { Says (under name.now (value_fault (record { name = name.now; needed = needed; form = F.fault form.now }) number (view value.now) (get name.now (view value.now)))) result }
{
    match check_value(alloc, name, needed, form, number, value) {
        Ok(()) => Ok(()),
        Err(fault) => Err(under_step(alloc, name, fault)),
    }
}

fn check_value<F: Form>(
    alloc: Global,
    name: &str,
    needed: bool,
    form: &F,
    number: usize,
    value: &Value,
) -> Result<(), DeployFault>
    ensures { Says (value_fault (record { name = name.now; needed = needed; form = F.fault form.now }) number (view value.now) (get name.now (view value.now))) result }
{
    match value.get(name) {
        Some(member) => form.check(alloc, number, value, member),
        None => if needed {
            Err(here(alloc, DeployBad::Missing))
        } else {
            Ok(())
        },
    }
}

/// An object that has the members of a table and no others.
#[derive(Drop)]
pub(crate) struct Object<T>(pub T);

impl<T: Table> Form for Object<T> {
    ghost fault = { λ s. object (T.wants s.0) };

    fn check(
        &self,
        alloc: Global,
        number: usize,
        _owner: &Value,
        value: &Value,
    ) -> Result<(), DeployFault> {
        match value.as_object() {
            Some(members) => {
                self.0.check_wanted(alloc, number, value)?;
                check_others(alloc, &self.0, members)
            }
            None => Err(here(alloc, DeployBad::WrongType)),
        }
    }
}

fn check_others<T: Table>(
    alloc: Global,
    table: &T,
    members: &Map<String, Value>,
) -> Result<(), DeployFault>
    ensures { Says (others_fault (known_to (T.wants table.now)) (members_view members.now.entries)) result }
{
    for (name, _) in members {
        check_other(alloc, table, name.as_str())?;
    }
    Ok(())
}

fn check_other<T: Table>(alloc: Global, table: &T, name: &str) -> Result<(), DeployFault>
    ensures { Says (other_fault (known_to (T.wants table.now)) name.now) result }
{
    if table.knows(name) {
        Ok(())
    } else {
        let fault = here(alloc, DeployBad::UnknownMember);
        Err(under_name(alloc, name, fault))
    }
}
