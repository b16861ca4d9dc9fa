//! Faults of scripts.

use crate::told;
use slee_value::NoMemory;
use std::alloc::Global;
use std::test::Fail;

const HEAD: &[u8] =
    b"{\"blocks\":[{\"key\":\"b\",\"name\":\"b\",\"vendor\":\"t\",\"version\":\"1\",\"remove\":[";

const END: &[u8] = b"]}]}";

// Lines of a remove script, each with what is told of it.
const ROWS: &[(&str, &str)] = &[
    ("\"let a = 1; emit text(a);\"", ""),
    (
        "\"let to = 1;\"",
        "found \"to\", a word of the language and so no name; expected: a name",
    ),
    (
        "\"let a = 1;\", \"self.count = 2;\"",
        "found \"count\", a word of the language and so no name; expected: a name",
    ),
    ("\"let a\"", "found the end of the script; expected: \"=\""),
    (
        "\"emit 1 == 2 == 3;\"",
        "found \"==\"; expected: \";\", \"++\", \"+\", \"-\", \"*\", \"/\", \"%\", \"and\", \"or\"",
    ),
    (
        "\"emit 1 2;\"",
        "found a number; expected: an operator, \";\"",
    ),
    ("\"emit ;\"", "found \";\"; expected: an expression"),
    (
        "\"if true { emit }\"",
        "found \"}\"; expected: an expression",
    ),
    (
        "\"if true 1\"",
        "found a number; expected: an operator, \"{\"",
    ),
    (
        "\"if true { } 7\"",
        "found a number; expected: a statement, \"else\"",
    ),
    (
        "\"emit 'a';\"",
        "found what begins no token; expected: an expression",
    ),
    (
        "\"emit a;\"",
        "nothing that may be named there has this name, or a new variable has the name of one that is visible",
    ),
    (
        "\"if 1 { }\"",
        "a value of another type has to stand there; found: an int; expected: a bool",
    ),
    ("\"emit text(now);\"", "this isn't allowed in such a script"),
];

fn is_told(alloc: Global, row: &(&str, &str)) -> Result<bool, NoMemory> {
    let mut document = Vec::from_slice(alloc, HEAD)?;
    document.extend_from_slice(row.0.as_bytes())?;
    document.extend_from_slice(END)?;
    let text = told(alloc, document.as_slice())?;
    Ok(text.as_slice() == row.1.as_bytes())
}

#[test]
fn each_fault_of_a_script_has_its_words(rt: HostRuntime) -> Result<(), Fail> {
    for row in ROWS {
        assert!(rt; is_told(rt.alloc(), row)?);
    }
    Ok(())
}
