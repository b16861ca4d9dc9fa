//! Where a line begins.
ghost use Rattle.std.specs.Prelude.{◌≡◌, [], IfOk, string_bytes};

use slee_value::NoMemory;
use std::alloc::Global;

/// How many bytes are made room for where a line begins: most are no longer.
const LINE_ROOM: usize = 48;

/// A line that nothing is written on yet.
pub(crate) fn empty_line(alloc: Global) -> Result<String, NoMemory>
    ensures { IfOk result (λ line. string_bytes line ≡ []) }
{
    Ok(String::with_capacity(alloc, LINE_ROOM)?)
}
