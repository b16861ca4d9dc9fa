//! Methods.
ghost use Rattle.std.specs.Prelude.{◌≡◌};
ghost use Rattle.deploy_model.specs.Faults.{Says};
ghost use Rattle.deploy_schema.specs.Numbers.{answer_of};
ghost use Rattle.deploy_schema.specs.Tables.{parameter, parameters, method};

use crate::firsts::Numbers;
use crate::form::Form;
use crate::leaf::OrNull;
use crate::list::ListOf;
use crate::numbers::{array_items, numbers_of};
use crate::object::{End, May, Need, Object};
use crate::script::ScriptForm;
use crate::text::{FreshName, TextOf};
use crate::word::TypeWord;
use deploy_model::DeployFault;
use serde_json::Value;
use std::alloc::Global;

/// A parameter, whose name no earlier one has.
#[derive(Drop)]
struct Parameter<'a, 'v>(&'a Numbers<'v>);

impl<'a, 'v> Form for Parameter<'a, 'v> {
    ghost fault = { λ s. parameter (answer_of s.0.now) };

    fn check(
        &self,
        alloc: Global,
        number: usize,
        owner: &Value,
        value: &Value,
    ) -> Result<(), DeployFault> {
        let kind = Need("type", TextOf(TypeWord), End);
        Object(Need("name", TextOf(FreshName(self.0)), kind)).check(alloc, number, owner, value)
    }
}

/// The parameters of a method.
#[derive(Drop)]
struct Parameters;

impl Form for Parameters {
    ghost fault = { λ _. parameters };

    fn check(
        &self,
        alloc: Global,
        number: usize,
        owner: &Value,
        value: &Value,
    ) -> Result<(), DeployFault> {
        let names = numbers_of(alloc, "name", array_items(value))?;
        ListOf(Parameter(&names)).check(alloc, number, owner, value)
    }
}

/// A method.
#[derive(Drop)]
pub(crate) struct MethodForm;

impl Form for MethodForm {
    ghost fault = { λ _. method };

    fn check(
        &self,
        alloc: Global,
        number: usize,
        owner: &Value,
        value: &Value,
    ) -> Result<(), DeployFault> {
        let body = Need("do", ScriptForm, End);
        let result = May("returns", OrNull(TextOf(TypeWord)), body);
        Object(May("params", Parameters, result)).check(alloc, number, owner, value)
    }
}
