//! Services that become active and are stopped.
use crate::playing::{PLAY, Step, play};
use std::test::Fail;
use test_run::running::Wanted;

// A service that is deployed inactive and handles its own start.
const INACTIVE: &str =
    r#"{"events": [], "blocks": [{"key": "b", "name": "b", "vendor": "t", "version": "1", "events": [{"event": "service-started", "initial": ["activity"], "on": "emit \"up\";"}]}], "services": [{"key": "s", "name": "s", "vendor": "t", "version": "1", "root": "b", "active": false}]}"#;

const INACTIVE_PLAYED: &[Step] = &[Step {
    words: PLAY,
    lines: "activate s\ndeactivate s\n",
    wanted: Wanted {
        code: 0,
        printed: "1 input activate s
  service s active
  started a1 service s
  queued v1 service-started a1
2 initial a1 v1 s e1 new
  attached e1 a1
3 deliver a1 v1 e1 fine
  say e1 up
4 finish a1 v1
5 input deactivate s
  service s stopping
  ending a1
  queued v2 activity-end a1
6 finish a1 v2
  gone a1
  removed e1
  service s inactive
status 0 ok
",
    },
}];

#[test]
fn a_service_starts_and_stops_by_its_own_activity(rt: HostRuntime) -> Result<(), Fail> {
    play(&rt, rt.alloc(), INACTIVE, INACTIVE_PLAYED)
}
