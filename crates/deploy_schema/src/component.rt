//! The members that each array's items have.
ghost use Rattle.deploy_model.specs.Faults.{Says};
ghost use Rattle.deploy_schema.specs.Lookups.{id_answer};
ghost use Rattle.deploy_schema.specs.Tables.{version};

use crate::ids::Ids;
use crate::text::{TextRule, check_fresh, check_label};
use deploy_model::DeployFault;
use serde_json::Value;
use std::alloc::Global;

/// The version of a component of which no earlier item has all three texts.
#[derive(Drop)]
pub(crate) struct Version<'a, 'v>(pub &'a Ids<'v>);

impl<'a, 'v> TextRule for Version<'a, 'v> {
    ghost text_fault = { λ s. version (id_answer s.0.now) };

    fn check_text(
        &self,
        alloc: Global,
        number: usize,
        owner: &Value,
        text: &str,
    ) -> Result<(), DeployFault> {
        check_label(alloc, text)?;
        check_fresh(alloc, self.0.number_with(owner, text), number)
    }
}

/// The members that each array's items have: a key of this form, the component by the index of the array, and the rest of the table.
macro_rules! component {
    ($key:expr, $ids:expr, $rest:expr) => {
        Need(
            "key",
            $key,
            Need(
                "name",
                TextOf(Label),
                Need("vendor", TextOf(Label), Need("version", TextOf(Version($ids)), $rest)),
            ),
        )
    };
}

pub(crate) use component;
