//! Why a deployment is no checked one. Clauses tie an answer to its definition by `Tells`.

use script_types::CheckBad;
use slee_value::Text;

/// The first fault of all scripts: the JSON pointer of the script, the line and column in its text, and the kind. Or want of
/// memory.
#[derive(Debug, Drop)]
pub enum CheckFault {
    At {
        path: Text,
        line: u64,
        column: u64,
        kind: CheckBad,
    },
    NoMemory,
}
