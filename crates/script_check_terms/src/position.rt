//! Places in a script, as the number of tokens before them.
ghost use Rattle.std.specs.Prelude.{◌≡◌, ◌≤◌, ◌+◌, IfOk, IsOk};

use slee_value::NoMemory;

/// The place so many tokens behind another one. A script with more tokens than can be counted fits into no memory.
pub fn behind(at: usize, tokens: usize) -> Result<usize, NoMemory>
    ensures place { IfOk result (λ n. n ≡ at + tokens) }
    ensures counted { at + tokens ≤ usize.MAX → IsOk result }
{
    match at.checked_add(tokens) {
        Some(place) => Ok(place),
        None => Err(NoMemory),
    }
}
