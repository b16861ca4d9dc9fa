//! Faults of documents.

use crate::told;
use slee_value::NoMemory;
use std::alloc::Global;
use std::test::Fail;

// Documents, each with what is told of it.
const ROWS: &[(&str, &str)] = &[
    ("{}", ""),
    ("", "no JSON can go on at line 1, column 0"),
    (
        "{\n \"events\": [1,]}",
        "no JSON can go on at line 2, column 15",
    ),
    (
        "[]",
        "a value of another JSON type has to stand there, or a whole number of at most 64 bits",
    ),
    ("{\"event\":[]}", "no member of that name belongs there"),
    ("{\"events\":[{}]}", "this member has to be there"),
    (
        "{\"events\":[{\"key\":\"Call\"}]}",
        "a name is a lower-case letter and at most 63 lower-case letters, digits and underscores",
    ),
    (
        "{\"events\":[{\"key\":\"timer\"}]}",
        "an earlier one has this already",
    ),
    (
        "{\"tables\":{\"t\":\"p\"}}",
        "nothing that may be named there has this name",
    ),
    (
        "{\"events\":[{\"key\":\"a\",\"name\":\"\"}]}",
        "this number, length or word isn't allowed there",
    ),
];

fn is_told(alloc: Global, row: &(&str, &str)) -> Result<bool, NoMemory> {
    let text = told(alloc, row.0.as_bytes())?;
    Ok(text.as_slice() == row.1.as_bytes())
}

#[test]
fn each_fault_of_a_document_has_its_words(rt: HostRuntime) -> Result<(), Fail> {
    for row in ROWS {
        assert!(rt; is_told(rt.alloc(), row)?);
    }
    Ok(())
}
