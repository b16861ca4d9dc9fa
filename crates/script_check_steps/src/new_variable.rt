//! New variables, behind all others.
ghost use Rattle.std.specs.Prelude.{◌≡◌, OnOk};
ghost use Rattle.script_types.specs.Scopes.{with_value, with_child};

use script_check_terms::{Holding, Locals};
use script_tree::Identifier;
use slee_value::{Kind, NoMemory};

/// A variable that is a value of that type.
pub fn add_value<'a>(
    scope: &mut Locals<'a>,
    name: &'a Identifier,
    kind: Kind,
) -> Result<(), NoMemory>
    ensures { OnOk result (scope.new ≡ with_value scope.old name.now kind) }
{
    scope.add(name.as_bytes(), Holding::Value(kind))?;
    Ok(())
}

/// A variable that is a child of the block with that number.
pub fn add_child<'a>(
    scope: &mut Locals<'a>,
    name: &'a Identifier,
    block: u32,
) -> Result<(), NoMemory>
    ensures { OnOk result (scope.new ≡ with_child scope.old name.now block) }
{
    scope.add(name.as_bytes(), Holding::Child(block))?;
    Ok(())
}
