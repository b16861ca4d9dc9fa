//! Forms that JSON values may have.
ghost use Rattle.deploy_model.specs.Faults.{Fault, Says};
ghost use Rattle.serde_json.specs.View.{view};

use deploy_model::DeployFault;
use serde_json::Value;
use std::alloc::Global;

/// A form of values.
pub(crate) trait Form {
    ghost use Rattle.std.specs.Prelude.{ℕ, Option};
    ghost use Rattle.serde_json.specs.Data.{Data};

    ghost fault: { Self → ℕ → Data → Data → Option Fault };

    /// The first fault of a value, by the number of the list's item in which it stands and by the object that has it.
    fn check(
        &self,
        alloc: Global,
        number: usize,
        owner: &Value,
        value: &Value,
    ) -> Result<(), DeployFault>
        ensures { Says (fault self.now number (view owner.now) (view value.now)) result };
}

/// A form of the members of a map, which may go by the member's name.
pub(crate) trait EntryForm {
    ghost use Rattle.std.specs.Prelude.{ℕ, Option};
    ghost use Rattle.script_tree.specs.Tree.{Bytes};
    ghost use Rattle.serde_json.specs.Data.{Data};

    ghost entry_fault: { Self → Bytes → ℕ → Data → Data → Option Fault };

    /// The first fault of a member: of its name, else of its value.
    fn check_entry(
        &self,
        alloc: Global,
        name: &str,
        number: usize,
        owner: &Value,
        value: &Value,
    ) -> Result<(), DeployFault>
        ensures { Says (entry_fault self.now name.now number (view owner.now) (view value.now)) result };
}
