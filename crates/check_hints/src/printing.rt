//! Types as text.
ghost use Rattle.std.specs.Prelude.{◌≡◌, ◌++◌, IfOk, OnOk, map, true};
ghost use Rattle.check_hints.specs.Texts.{items_text, kind_text, lead, listed, types_text};
ghost use Rattle.check_hints.specs.Mismatches.{types_of};

use crate::mismatch::MismatchHint;
use slee_value::{Kind, NoMemory};
use std::alloc::Global;

fn kind_text(kind: Kind) -> &'static [u8]
    ensures { result.now ≡ kind_text kind }
{
    match kind {
        Kind::Int => b"an int",
        Kind::Text => b"a text",
        Kind::Bool => b"a bool",
        Kind::Activity => b"an activity",
        Kind::Timer => b"a timer",
    }
}

/// What stands before an item of a list.
fn lead(is_first: bool) -> &'static [u8]
    ensures { result.now ≡ lead is_first }
{
    if is_first { b": " } else { b" or " }
}

fn add(text: &mut Vec<u8>, bytes: &[u8]) -> Result<(), NoMemory>
    ensures { OnOk result (text.new.items ≡ text.old.items ++ bytes.now) }
{
    text.extend_from_slice(bytes)?;
    Ok(())
}

fn add_kinds(text: &mut Vec<u8>, kinds: &[Kind]) -> Result<(), NoMemory>
    ensures { OnOk result (text.new.items ≡ text.old.items ++ items_text true (map kind_text kinds.now)) }
{
    let mut is_first = true;
    for kind in kinds {
        add(text, lead(is_first))?;
        add(text, kind_text(*kind))?;
        is_first = false;
    }
    Ok(())
}

/// Adds types behind a label, if there are any.
fn add_listed(text: &mut Vec<u8>, label: &[u8], kinds: &[Kind]) -> Result<(), NoMemory>
    ensures { OnOk result (text.new.items ≡ text.old.items ++ listed label.now kinds.now) }
{
    if kinds.is_empty() {
        return Ok(());
    }
    add(text, label)?;
    add_kinds(text, kinds)
}

/// The types as text, behind a sentence.
pub fn types_text(alloc: Global, hint: &MismatchHint) -> Result<Vec<u8>, NoMemory>
    ensures { IfOk result (λ text. text.items ≡ types_text (types_of hint.now)) }
{
    let mut text = Vec::new(alloc);
    add_listed(&mut text, b"; found", &hint.found)?;
    add_listed(&mut text, b"; expected", &hint.wanted)?;
    Ok(text)
}
