//! What is told, as text.
ghost use Rattle.std.specs.Prelude.{◌≡◌, ◌++◌, IfOk, OnOk, decimal, map, true};
ghost use Rattle.deploy_hints.specs.Texts.{choice_text, expected_text, found_text, group_text, hint_text, items_text, place_text, quoted, syntax_text};

use crate::hint::Hint;
use crate::words::{check_sentence, deep_text, group_text, lead, reserved_text, shape_sentence};
use itoa::Buffer;
use script_hints::{Choice, Expected, Found, Group, SyntaxHint};
use script_tree::Symbol;
use slee_value::NoMemory;
use std::alloc::Global;

fn add(text: &mut Vec<u8>, bytes: &[u8]) -> Result<(), NoMemory>
    ensures { OnOk result (text.new.items ≡ text.old.items ++ bytes.now) }
{
    text.extend_from_slice(bytes)?;
    Ok(())
}

/// Adds a word or sign between quotes.
fn add_quoted(text: &mut Vec<u8>, symbol: Symbol) -> Result<(), NoMemory>
    ensures { OnOk result (text.new.items ≡ text.old.items ++ quoted symbol) }
{
    add(text, b"\"")?;
    add(text, symbol.as_bytes())?;
    add(text, b"\"")
}

fn add_found(text: &mut Vec<u8>, found: Found) -> Result<(), NoMemory>
    ensures { OnOk result (text.new.items ≡ text.old.items ++ found_text found) }
{
    match found {
        Found::Name => add(text, b"a name"),
        Found::Number => add(text, b"a number"),
        Found::Text => add(text, b"a text"),
        Found::Symbol(symbol) => add_quoted(text, symbol),
        Found::Bad => add(text, b"what begins no token"),
        Found::End => add(text, b"the end of the script"),
    }
}

fn add_choice(text: &mut Vec<u8>, choice: Choice) -> Result<(), NoMemory>
    ensures { OnOk result (text.new.items ≡ text.old.items ++ choice_text choice) }
{
    match choice {
        Choice::Name => add(text, b"a name"),
        Choice::Number => add(text, b"a number"),
        Choice::Text => add(text, b"a text"),
        Choice::Symbol(symbol) => add_quoted(text, symbol),
    }
}

/// Adds the first items of a list.
fn add_groups(text: &mut Vec<u8>, groups: &[Group]) -> Result<(), NoMemory>
    ensures { OnOk result (text.new.items ≡ text.old.items ++ items_text true (map group_text groups.now)) }
{
    let mut is_first = true;
    for group in groups {
        add(text, lead(is_first))?;
        add(text, group_text(*group))?;
        is_first = false;
    }
    Ok(())
}

/// Adds items of a list, of which the first may be the list's first.
fn add_choices(text: &mut Vec<u8>, is_first: bool, choices: &[Choice]) -> Result<(), NoMemory>
    ensures { OnOk result (text.new.items ≡ text.old.items ++ items_text is_first (map choice_text choices.now)) }
{
    let mut is_first = is_first;
    for choice in choices {
        add(text, lead(is_first))?;
        add_choice(text, *choice)?;
        is_first = false;
    }
    Ok(())
}

fn add_expected(text: &mut Vec<u8>, expected: &Expected) -> Result<(), NoMemory>
    ensures { OnOk result (text.new.items ≡ text.old.items ++ expected_text expected.now) }
{
    add_groups(text, &expected.groups)?;
    add_choices(text, expected.groups.is_empty(), &expected.choices)
}

fn add_syntax(text: &mut Vec<u8>, hint: &SyntaxHint) -> Result<(), NoMemory>
    ensures { OnOk result (text.new.items ≡ text.old.items ++ syntax_text hint.now) }
{
    add(text, b"found ")?;
    add_found(text, hint.found)?;
    add(text, reserved_text(hint.is_reserved))?;
    add(text, deep_text(hint.kind))?;
    add(text, b"; expected")?;
    add_expected(text, &hint.expected)
}

fn add_number(text: &mut Vec<u8>, number: u64) -> Result<(), NoMemory>
    ensures { OnOk result (text.new.items ≡ text.old.items ++ decimal number) }
{
    let mut buffer = Buffer::new();
    add(text, buffer.format(number).as_bytes())
}

fn add_place(text: &mut Vec<u8>, line: u64, column: u64) -> Result<(), NoMemory>
    ensures { OnOk result (text.new.items ≡ text.old.items ++ place_text line column) }
{
    add(text, b"no JSON can go on at line ")?;
    add_number(text, line)?;
    add(text, b", column ")?;
    add_number(text, column)
}

fn add_hint(text: &mut Vec<u8>, hint: &Hint) -> Result<(), NoMemory>
    ensures { OnOk result (text.new.items ≡ text.old.items ++ hint_text hint.now) }
{
    match hint {
        Hint::Json { line, column } => add_place(text, *line, *column),
        Hint::Shape(kind) => add(text, shape_sentence(*kind)),
        Hint::Syntax(hint) => add_syntax(text, hint),
        Hint::Check(kind) => add(text, check_sentence(*kind)),
    }
}

/// What is told, as text without a newline.
pub fn hint_text(alloc: Global, hint: &Hint) -> Result<Vec<u8>, NoMemory>
    ensures { IfOk result (λ text. text.items ≡ hint_text hint.now) }
{
    let mut text = Vec::new(alloc);
    add_hint(&mut text, hint)?;
    Ok(text)
}
