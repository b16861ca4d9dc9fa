//! The parts of bytes: no JSON comes first, then the first fault of the JSON value, then the first script that can't be read.
ghost use Rattle.std.specs.Prelude.{◌≡◌, Option, IfOk, MatchResult, Ok};
ghost use Rattle.serde_json.specs.Data.{Data};
ghost use Rattle.serde_json.specs.View.{view};
ghost use Rattle.deploy_model.specs.Faults.{Tells as ShapeTells};
ghost use Rattle.deploy_model.specs.Tables.{parts_fault};
ghost use Rattle.deploy_schema.specs.Tables.{shape_fault};
ghost use Rattle.deploy_json.specs.Sources.{first_misread, Tells as ScriptTells};
ghost use Rattle.deploy_json.specs.Rows.{parts_row};
ghost use Rattle.deploy_json.specs.Reading.{Tells, document_parts, parts_of, value_in};

use crate::document::build_parts;
use crate::fault::ReadFault;
use crate::parts_fault::PartsFault;
use deploy_model::{DeployFault, Parts};
use deploy_schema::check_document;
use handler_lang::SyntaxFault;
use serde_json::Value;
use slee_value::Text;
use std::alloc::Global;

/// The JSON value that bytes are.
fn read_value(alloc: Global, bytes: &[u8]) -> Result<Value, ReadFault>
    ensures { MatchResult result (λ v. value_in bytes.now ≡ Option.Some (view v)) (Tells (parts_of bytes.now)) }
{
    match Value::from_slice(alloc, bytes) {
        Ok(value) => Ok(value),
        Err(error) => if error.is_memory() {
            Err(ReadFault::NoMemory)
        } else {
            Err(ReadFault::Json)
        },
    }
}

/// The fault of a script at a place of the document.
fn misread(pointer: Text, fault: SyntaxFault) -> ReadFault
    ensures { (d : Data) → shape_fault d ≡ Option.None → first_misread d ≡ Option.Some (record { path = pointer; fault = fault }) → Tells (document_parts d) result }
{
    match fault {
        SyntaxFault::NoMemory => ReadFault::NoMemory,
        SyntaxFault::At { line, column, kind } => ReadFault::Syntax {
            pointer,
            line,
            column,
            kind,
        },
    }
}

/// The fault of a document's first script that can't be read.
fn script_fault(fault: PartsFault) -> ReadFault
    ensures { (d : Data) → shape_fault d ≡ Option.None → ScriptTells (first_misread d) fault → Tells (document_parts d) result }
{
    match fault {
        PartsFault::NoMemory => ReadFault::NoMemory,
        PartsFault::Misread { path, fault } => misread(path, fault),
    }
}

/// The parts that a document without shape fault is.
fn read_scripts(alloc: Global, document: &Value) -> Result<Parts, ReadFault>
    requires { shape_fault (view document.now) ≡ Option.None }
    ensures sound { IfOk result (λ p. parts_fault p ≡ Option.None) }
    ensures read { MatchResult result (λ p. document_parts (view document.now) ≡ Ok (parts_row p)) (Tells (document_parts (view document.now))) }
{
    match build_parts(alloc, document) {
        Ok(parts) => Ok(parts),
        Err(fault) => Err(script_fault(fault)),
    }
}

/// The fault of a document's shape.
fn shape_of(fault: DeployFault) -> ReadFault
    ensures { (d : Data) → ShapeTells (shape_fault d) fault → Tells (document_parts d) result }
{
    match fault {
        DeployFault::NoMemory => ReadFault::NoMemory,
        DeployFault::At { path, kind } => ReadFault::Shape {
            pointer: path,
            kind,
        },
    }
}

/// The parts that a document is.
fn read_document(alloc: Global, document: &Value) -> Result<Parts, ReadFault>
    ensures sound { IfOk result (λ p. parts_fault p ≡ Option.None) }
    ensures read { MatchResult result (λ p. document_parts (view document.now) ≡ Ok (parts_row p)) (Tells (document_parts (view document.now))) }
{
    match check_document(alloc, document) {
        Ok(()) => read_scripts(alloc, document),
        Err(fault) => Err(shape_of(fault)),
    }
}

/// The parts that the bytes are, or the first thing that is wrong with them. The parts have no fault, and no script is checked.
pub fn read_parts(alloc: Global, bytes: &[u8]) -> Result<Parts, ReadFault>
    ensures sound { IfOk result (λ p. parts_fault p ≡ Option.None) }
    ensures read { MatchResult result (λ p. parts_of bytes.now ≡ Ok (parts_row p)) (Tells (parts_of bytes.now)) }
{
    match read_value(alloc, bytes) {
        Ok(document) => read_document(alloc, &document),
        Err(fault) => Err(fault),
    }
}
