//! The text of the script at a place of a document.
ghost use Rattle.std.specs.Prelude.{◌≡◌, ◌++◌, IfOk, OnOk, string_bytes, option_map};
ghost use Rattle.serde_json.specs.View.{view, items_view};
ghost use Rattle.deploy_json.specs.Sources.{joined as joined_so, lines_after, source};
ghost use Rattle.deploy_hints.specs.Sources.{source_in};

use deploy_schema::{array_items, text_or_empty};
use serde_json::Value;
use slee_value::NoMemory;
use std::alloc::Global;

/// Adds each line behind a newline.
fn push_lines(text: &mut String, lines: &[Value]) -> Result<(), NoMemory>
    ensures { OnOk result (string_bytes text.new ≡ string_bytes text.old ++ lines_after (items_view lines.now)) }
{
    for line in lines {
        text.push_str("\n")?;
        text.push_str(text_or_empty(line))?;
    }
    Ok(())
}

/// The lines, joined by newlines.
fn joined(alloc: Global, lines: &[Value]) -> Result<String, NoMemory>
    ensures { IfOk result (λ s. string_bytes s ≡ joined_so (items_view lines.now)) }
{
    match lines {
        [] => Ok(String::new(alloc)),
        [first, rest @ ..] => {
            let mut text = String::from_str(alloc, text_or_empty(first))?;
            push_lines(&mut text, rest)?;
            Ok(text)
        }
    }
}

/// The text of the script that a value is.
fn source_of(alloc: Global, value: &Value) -> Result<String, NoMemory>
    ensures { IfOk result (λ s. string_bytes s ≡ source (view value.now)) }
{
    match value.as_str() {
        Some(text) => Ok(String::from_str(alloc, text)?),
        None => joined(alloc, array_items(value)),
    }
}

/// The text of the script at a JSON pointer, where the document has something there.
pub(crate) fn source_in(
    alloc: Global,
    document: &Value,
    pointer: &str,
) -> Result<Option<String>, NoMemory>
    ensures { IfOk result (λ text. option_map string_bytes text ≡ source_in (view document.now) pointer.now) }
{
    match document.pointer(pointer) {
        Some(value) => Ok(Some(source_of(alloc, value)?)),
        None => Ok(None),
    }
}
