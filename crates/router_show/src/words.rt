//! Words of lines.
ghost use Rattle.std.specs.Prelude.{◌≡◌, ◌++◌, ◌∷◌, [], true, OnOk, codes, decimal};
ghost use Rattle.slee_value.specs.Escape.{escaped};
ghost use Rattle.router_state.specs.Show.{printed, reference, spaced};
ghost use Rattle.trace_history.specs.Lines.{line_text};

use slee_value::{NoMemory, Value, escape};
use std::alloc::Global;

/// Adds a text at the end.
pub fn put(text: &str, into: &mut Vec<u8>) -> Result<(), NoMemory>
    ensures { OnOk result (into.new.items ≡ into.old.items ++ text.now) }
{
    into.extend_from_slice(text.as_bytes())?;
    Ok(())
}

/// Adds a line.
pub fn put_line(line: &str, into: &mut Vec<u8>) -> Result<(), NoMemory>
    ensures { OnOk result (into.new.items ≡ into.old.items ++ line_text line.now) }
{
    put(line, into)?;
    put("\n", into)
}

/// Adds a word with a space before it.
pub fn put_spaced(word: &str, into: &mut Vec<u8>) -> Result<(), NoMemory>
    ensures { OnOk result (into.new.items ≡ into.old.items ++ spaced (word.now ∷ [])) }
{
    put(" ", into)?;
    put(word, into)
}

/// Adds a number in decimal digits.
pub fn put_number(alloc: Global, number: u64, into: &mut Vec<u8>) -> Result<(), NoMemory>
    ensures { OnOk result (into.new.items ≡ into.old.items ++ decimal number) }
{
    let digits = format!(in alloc; "{number}")?;
    put(&digits, into)
}

/// Adds a text as a word, with bytes escaped that would break it.
pub fn put_word(text: &[u8], into: &mut Vec<u8>) -> Result<(), NoMemory>
    ensures { OnOk result (into.new.items ≡ into.old.items ++ escaped true text.now) }
{
    escape(text, true, into)
}

fn put_reference(
    alloc: Global,
    letter: &str,
    number: u64,
    into: &mut Vec<u8>,
) -> Result<(), NoMemory>
    ensures { OnOk result (into.new.items ≡ into.old.items ++ reference letter.now number) }
{
    if number == 0 {
        return put("none", into);
    }
    put(letter, into)?;
    put_number(alloc, number, into)
}

/// Adds a value as it is printed.
pub fn put_value(alloc: Global, value: &Value, into: &mut Vec<u8>) -> Result<(), NoMemory>
    ensures { OnOk result (into.new.items ≡ into.old.items ++ printed value.now) }
{
    match value {
        Value::Int(number) => {
            let digits = format!(in alloc; "{number}")?;
            put(&digits, into)
        }
        Value::Text(text) => escape(text.as_bytes(), true, into),
        Value::Bool(flag) => put(if *flag { "true" } else { "false" }, into),
        Value::Activity(activity) => put_reference(alloc, "a", activity.0, into),
        Value::Timer(timer) => put_reference(alloc, "t", timer.0, into),
    }
}
