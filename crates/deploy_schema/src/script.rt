//! The form of scripts.
ghost use Rattle.deploy_model.specs.Faults.{Says};
ghost use Rattle.deploy_schema.specs.Scripts.{script};

use crate::form::Form;
use crate::list::ListOf;
use crate::text::{AnyText, TextOf};
use deploy_model::DeployFault;
use serde_json::Value;
use std::alloc::Global;

/// A text, or an array of texts.
#[derive(Drop)]
pub(crate) struct ScriptForm;

impl Form for ScriptForm {
    ghost fault = { λ _. script };

    fn check(
        &self,
        alloc: Global,
        number: usize,
        _owner: &Value,
        value: &Value,
    ) -> Result<(), DeployFault> {
        match value.as_str() {
            Some(_) => Ok(()),
            None => {
                let lines = ListOf(TextOf(AnyText));
                lines.check(alloc, number, &Value::Null, value)
            }
        }
    }
}
