//! Names as texts of effects.
ghost use Rattle.std.specs.Prelude.{◌≡◌, IfOk};

use slee_value::{Name, NoMemory, Text};
use std::alloc::Global;

/// The name as a text.
pub(crate) fn text_of_name(alloc: Global, name: &Name) -> Result<Text, NoMemory>
    ensures { IfOk result (λ t. t ≡ name.now) }
{
    Text::from_str(alloc, name.as_str())
}
