//! Expressions of another type than is asked for.

use crate::told;
use slee_value::NoMemory;
use std::alloc::Global;
use std::test::Fail;

const HEAD: &[u8] =
    b"{\"events\":[{\"key\":\"invite\",\"name\":\"invite\",\"vendor\":\"t\",\"version\":\"1\",\"fields\":{\"addr\":\"text\"}}],\"blocks\":[{\"key\":\"b\",\"name\":\"b\",\"vendor\":\"t\",\"version\":\"1\",\"fields\":{\"late\":\"timer\",\"leg\":\"activity\"},\"methods\":{\"m\":{\"params\":[{\"name\":\"x\",\"type\":\"int\"}],\"do\":\"emit x;\"}},\"events\":[{\"event\":\"invite\",\"on\":[";

const END: &[u8] = b"]}]}]}";

// Lines of a handler, each with the types that are told.
const ROWS: &[(&str, &str)] = &[
    ("\"if 1 { }\"", "; found: an int; expected: a bool"),
    ("\"if event.addr { }\"", "; found: a text; expected: a bool"),
    ("\"emit 1 + true;\"", "; found: a bool; expected: an int"),
    ("\"emit 1 + 2;\"", "; found: an int; expected: a text"),
    (
        "\"emit (1 + 2) ++ event.addr;\"",
        "; found: an int; expected: a text",
    ),
    (
        "\"emit text(event.addr);\"",
        "; found: a text; expected: an int or a bool",
    ),
    (
        "\"emit text(1 < event.addr);\"",
        "; found: a text; expected: an int",
    ),
    (
        "\"if true < false { }\"",
        "; found: a bool; expected: an int or a text",
    ),
    ("\"end 1;\"", "; found: an int; expected: an activity"),
    (
        "\"cancel activity;\"",
        "; found: an activity; expected: a timer",
    ),
    (
        "\"self.late = self.leg;\"",
        "; found: an activity; expected: a timer",
    ),
    (
        "\"self.leg = self.late;\"",
        "; found: a timer; expected: an activity",
    ),
    ("\"let x = 1; remove x;\"", ""),
    ("\"if event.addr + 1 { }\"", "; expected: a bool"),
];

const SENTENCE: &[u8] = b"a value of another type has to stand there";

fn is_told(alloc: Global, row: &(&str, &str)) -> Result<bool, NoMemory> {
    let mut document = Vec::from_slice(alloc, HEAD)?;
    document.extend_from_slice(row.0.as_bytes())?;
    document.extend_from_slice(END)?;
    let text = told(alloc, document.as_slice())?;
    let mut wanted = Vec::from_slice(alloc, SENTENCE)?;
    wanted.extend_from_slice(row.1.as_bytes())?;
    Ok(text.as_slice() == wanted.as_slice())
}

#[test]
fn each_type_that_is_not_asked_for_has_its_words(rt: HostRuntime) -> Result<(), Fail> {
    for row in ROWS {
        assert!(rt; is_told(rt.alloc(), row)?);
    }
    Ok(())
}
