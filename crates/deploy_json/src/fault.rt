//! What is wrong with bytes that are no deployment.

use deploy_model::DeployBad;
use handler_lang::SyntaxBad;
use script_types::CheckBad;
use slee_value::Text;

/// Why bytes are no deployment. Pointers are JSON pointers; lines and columns count from 1, columns in bytes.
#[derive(Debug, Drop)]
pub enum ReadFault {
    /// They are no JSON.
    Json,
    /// The first fault of the JSON value.
    Shape {
        pointer: Text,
        kind: DeployBad,
    },
    /// The first script that can't be read, and where.
    Syntax {
        pointer: Text,
        line: u64,
        column: u64,
        kind: SyntaxBad,
    },
    /// The first fault of a script that can be read, and where.
    Check {
        pointer: Text,
        line: u64,
        column: u64,
        kind: CheckBad,
    },
    NoMemory,
}
