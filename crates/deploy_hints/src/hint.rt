//! What is told of the first fault of bytes that are no deployment.
ghost use Rattle.std.specs.Prelude.{◌≡◌, IfOk};
ghost use Rattle.serde_json.specs.View.{view};
ghost use Rattle.deploy_hints.specs.Sources.{source_in, text_in};
ghost use Rattle.deploy_hints.specs.Hints.{IsHint, IsJsonHint, IsScriptHint, IsTextHint, is_of};

use crate::source::source_in;
use deploy_json::ReadFault;
use deploy_model::DeployBad;
use script_hints::{SyntaxHint, syntax_hint};
use script_tree::SyntaxBad;
use script_types::CheckBad;
use serde_json::Value;
use slee_value::NoMemory;
use std::alloc::Global;

/// What is told of a fault of a deployment.
#[derive(Drop)]
pub enum Hint {
    /// Where no JSON can go on, by `serde_json`.
    Json { line: u64, column: u64 },
    /// What the JSON value has to be there.
    Shape(DeployBad),
    /// What stands where the script can't go on, and what may.
    Syntax(SyntaxHint),
    /// What the check of the script wants there.
    Check(CheckBad),
}

/// Where bytes are no JSON, if they are none.
fn json_hint(alloc: Global, bytes: &[u8]) -> Result<Option<Hint>, NoMemory>
    ensures { IfOk result (IsJsonHint bytes.now) }
{
    let error = match Value::from_slice(alloc, bytes) {
        Ok(_) => return Ok(None),
        Err(error) => error,
    };
    if error.is_memory() {
        return Err(NoMemory);
    }
    Ok(Some(Hint::Json {
        line: error.line() as u64,
        column: error.column() as u64,
    }))
}

/// A fault of a script's text.
#[derive(Clone, Copy)]
struct Misreading {
    line: u64,
    column: u64,
    kind: SyntaxBad,
}

/// Whether what is told is told of that fault.
fn is_of(hint: &SyntaxHint, fault: Misreading) -> bool
    ensures { result ≡ is_of hint.now fault }
{
    hint.place.line == fault.line && hint.place.column == fault.column && hint.kind == fault.kind
}

/// What is told of a text with that fault, if it is the text's first.
#[tactic(auto, using(crate::proofs::Syntax::told, crate::proofs::Syntax::other, crate::proofs::Syntax::fine))]
fn text_hint(alloc: Global, text: &str, fault: Misreading) -> Result<Option<Hint>, NoMemory>
    ensures { IfOk result (IsTextHint text.now fault) }
{
    let Some(hint) = syntax_hint(alloc, text)? else {
        return Ok(None);
    };
    if is_of(&hint, fault) {
        return Ok(Some(Hint::Syntax(hint)));
    }
    Ok(None)
}

/// What is told of the script at a JSON pointer.
fn document_hint(
    alloc: Global,
    document: &Value,
    pointer: &str,
    fault: Misreading,
) -> Result<Option<Hint>, NoMemory>
    ensures { IfOk result (IsScriptHint (source_in (view document.now) pointer.now) fault) }
{
    match source_in(alloc, document, pointer)? {
        Some(text) => text_hint(alloc, text.as_str(), fault),
        None => Ok(None),
    }
}

/// The same, where bytes are a document.
fn script_hint(
    alloc: Global,
    bytes: &[u8],
    pointer: &str,
    fault: Misreading,
) -> Result<Option<Hint>, NoMemory>
    ensures { IfOk result (IsScriptHint (text_in bytes.now pointer.now) fault) }
{
    match Value::from_slice(alloc, bytes) {
        Ok(document) => document_hint(alloc, &document, pointer, fault),
        Err(error) => if error.is_memory() {
            Err(NoMemory)
        } else {
            Ok(None)
        },
    }
}

/// What is told of the first fault of bytes that are no deployment. Nothing is told that disagrees with the fault.
pub fn hint_of(alloc: Global, bytes: &[u8], fault: &ReadFault) -> Result<Option<Hint>, NoMemory>
    ensures { IfOk result (IsHint bytes.now fault.now) }
{
    match fault {
        ReadFault::Json => json_hint(alloc, bytes),
        ReadFault::Shape { kind, .. } => Ok(Some(Hint::Shape(*kind))),
        ReadFault::Syntax {
            pointer,
            line,
            column,
            kind,
        } => {
            let fault = Misreading {
                line: *line,
                column: *column,
                kind: *kind,
            };
            script_hint(alloc, bytes, pointer.as_str(), fault)
        }
        ReadFault::Check { kind, .. } => Ok(Some(Hint::Check(*kind))),
        ReadFault::NoMemory => Ok(None),
    }
}
