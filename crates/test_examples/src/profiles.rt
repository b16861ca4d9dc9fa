//! Rows of profile tables that are added and refused.
use crate::playing::{PLAY, Step, play};
use std::test::Fail;
use test_run::running::Wanted;

// A table in which no two rows have the same pin.
const UNIQUE: &str =
    r#"{"events": [], "profiles": [{"key": "p", "name": "p", "vendor": "t", "version": "1", "attributes": {"pin": "int"}, "unique": ["pin"]}], "tables": {"t": "p"}, "blocks": [], "services": []}"#;

const UNIQUE_PLAYED: &[Step] = &[Step {
    words: PLAY,
    lines: "profile-add t tel:1 pin=5
profile-add t tel:1 pin=6
profile-add t y pin=5
profile-remove t z
",
    wanted: Wanted {
        code: 0,
        printed: "1 input profile-add t tel:1 pin=5
  queued v1 profile-added a1
2 finish a1 v1
3 input profile-add t tel:1 pin=6
  refused row-exists
4 input profile-add t y pin=5
  refused duplicate
5 input profile-remove t z
  refused no-row
status 0 ok
",
    },
}];

#[test]
fn a_row_that_is_there_or_not_unique_is_refused(rt: HostRuntime) -> Result<(), Fail> {
    play(&rt, rt.alloc(), UNIQUE, UNIQUE_PLAYED)
}
