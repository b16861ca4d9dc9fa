//! Forms of numbers and truth values.
ghost use Rattle.deploy_model.specs.Faults.{Says};
ghost use Rattle.deploy_schema.specs.Forms.{priority, flag, or_null};

use crate::fault::here;
use crate::form::Form;
use deploy_model::{DeployBad, DeployFault};
use serde_json::Value;
use std::alloc::Global;

/// The least priority.
const LEAST_PRIORITY: i64 = -128;

/// The greatest priority.
const GREATEST_PRIORITY: i64 = 127;

/// A priority.
#[derive(Drop)]
pub(crate) struct Priority;

impl Form for Priority {
    ghost fault = { λ _. priority };

    fn check(
        &self,
        alloc: Global,
        _number: usize,
        _owner: &Value,
        value: &Value,
    ) -> Result<(), DeployFault> {
        match value.as_i64() {
            Some(number) => if number < LEAST_PRIORITY || GREATEST_PRIORITY < number {
                Err(here(alloc, DeployBad::Range))
            } else {
                Ok(())
            },
            None => Err(here(alloc, DeployBad::WrongType)),
        }
    }
}

/// A truth value.
#[derive(Drop)]
pub(crate) struct Flag;

impl Form for Flag {
    ghost fault = { λ _. flag };

    fn check(
        &self,
        alloc: Global,
        _number: usize,
        _owner: &Value,
        value: &Value,
    ) -> Result<(), DeployFault> {
        match value.as_bool() {
            Some(_) => Ok(()),
            None => Err(here(alloc, DeployBad::WrongType)),
        }
    }
}

/// A value of a form, or null.
#[derive(Drop)]
pub(crate) struct OrNull<F>(pub F);

impl<F: Form> Form for OrNull<F> {
    ghost fault = { λ s. or_null (F.fault s.0) };

    fn check(
        &self,
        alloc: Global,
        number: usize,
        owner: &Value,
        value: &Value,
    ) -> Result<(), DeployFault> {
        if value.is_null() {
            Ok(())
        } else {
            self.0.check(alloc, number, owner, value)
        }
    }
}
