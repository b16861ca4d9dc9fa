//! Scripts of a document: a text, or lines that a newline joins.
ghost use Rattle.std.specs.Prelude.{◌≡◌, ◌++◌, Option, Result, IfOk, OnOk, string_bytes, option_map};
ghost use Rattle.script_tree.specs.Tree.{Statements};
ghost use Rattle.script_tree.specs.Reading.{IsFault};
ghost use Rattle.serde_json.specs.View.{view, items_view};
ghost use Rattle.serde_json.specs.Find.{get};
ghost use Rattle.deploy_json.specs.Shapes.{Has};
ghost use Rattle.deploy_json.specs.Sources.{Says, Tells, misread_of, text_misread, script_misread, source, lines_after, joined as joined_so, source_at, member_misread, under};

use crate::parts_fault::PartsFault;
use deploy_schema::{array_items, text_or_empty};
use handler_lang::{Script, SyntaxFault, parse};
use serde_json::Value;
use slee_value::{NoMemory, Text};
use std::alloc::Global;

/// Adds each line behind a newline.
fn push_lines(text: &mut String, lines: &[Value]) -> Result<(), NoMemory>
    ensures { OnOk result (string_bytes text.new ≡ string_bytes text.old ++ lines_after (items_view lines.now)) }
{
    for line in lines {
        text.push_str("\n")?;
        text.push_str(text_or_empty(line))?;
    }
    Ok(())
}

/// The lines, joined by newlines.
fn joined(alloc: Global, lines: &[Value]) -> Result<String, NoMemory>
    ensures { IfOk result (λ s. string_bytes s ≡ joined_so (items_view lines.now)) }
{
    match lines {
        [] => Ok(String::new(alloc)),
        [first, rest @ ..] => {
            let mut text = String::from_str(alloc, text_or_empty(first))?;
            push_lines(&mut text, rest)?;
            Ok(text)
        }
    }
}

/// The fault of a script, seen from the script itself.
fn misread(alloc: Global, fault: SyntaxFault) -> PartsFault
    ensures { (r : Result Statements SyntaxFault) → IsFault r fault → Tells (misread_of r) result }
{
    match fault {
        SyntaxFault::NoMemory => PartsFault::NoMemory,
        SyntaxFault::At { line, column, kind } => PartsFault::Misread {
            path: Text::from(String::new(alloc)),
            fault: SyntaxFault::At { line, column, kind },
        },
    }
}

/// The script that a text is.
fn read_text(alloc: Global, text: &str) -> Result<Script, PartsFault>
    ensures text { IfOk result (λ s. s.text ≡ text.now) }
    ensures fault { Says (text_misread text.now) result }
{
    match parse(alloc, text) {
        Ok(script) => Ok(script),
        Err(fault) => Err(misread(alloc, fault)),
    }
}

/// The script that a value is.
fn read_script(alloc: Global, value: &Value) -> Result<Script, PartsFault>
    ensures text { IfOk result (λ s. s.text ≡ source (view value.now)) }
    ensures fault { Says (script_misread (view value.now)) result }
{
    match value.as_str() {
        Some(text) => read_text(alloc, text),
        None => {
            let text = joined(alloc, array_items(value))?;
            read_text(alloc, text.as_str())
        }
    }
}

/// The script that a value is which an object has at this member.
fn read_member(alloc: Global, name: &str, member: &Value) -> Result<Script, PartsFault>
    ensures text { IfOk result (λ s. s.text ≡ source (view member.now)) }
    ensures fault { Says (under name.now (script_misread (view member.now))) result }
{
    match read_script(alloc, member) {
        Ok(script) => Ok(script),
        Err(fault) => Err(fault.under(alloc, name)),
    }
}

/// The script of an object at a member, if it has one.
pub(crate) fn member_script(
    alloc: Global,
    value: &Value,
    name: &str,
) -> Result<Option<Script>, PartsFault>
    ensures text { IfOk result (λ o. option_map (λ s. s.text) o ≡ option_map source (get name.now (view value.now))) }
    ensures fault { Says (member_misread name.now (view value.now)) result }
{
    match value.get(name) {
        Some(member) => Ok(Some(read_member(alloc, name, member)?)),
        None => Ok(None),
    }
}

/// The script that an object has to have at a member.
pub(crate) fn needed_script(alloc: Global, value: &Value, name: &str) -> Result<Script, PartsFault>
    requires { Has name.now (view value.now) }
    ensures text { IfOk result (λ s. s.text ≡ source_at name.now (view value.now)) }
    ensures fault { Says (member_misread name.now (view value.now)) result }
{
    match value.get(name) {
        Some(member) => read_member(alloc, name, member),
        None => unreachable!(),
    }
}
