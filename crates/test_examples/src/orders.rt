//! The order in which entities receive an event.
use crate::playing::{PLAY, Step, play};
use std::test::Fail;
use test_run::running::Wanted;

// Two services, the lower priority deployed first.
const SERVICES: &str =
    r#"{"events": [{"key": "ping", "name": "ping", "vendor": "t", "version": "1"}], "blocks": [{"key": "b", "name": "b", "vendor": "t", "version": "1", "events": [{"event": "ping", "initial": ["activity"], "on": ""}]}], "services": [{"key": "low", "name": "low", "vendor": "t", "version": "1", "root": "b", "active": true, "priority": -128}, {"key": "high", "name": "high", "vendor": "t", "version": "1", "root": "b", "active": true, "priority": 127}]}"#;

const SERVICES_PLAYED: &[Step] = &[Step {
    words: PLAY,
    lines: "start c1\nfire c1 ping\n",
    wanted: Wanted {
        code: 0,
        printed: "1 input start c1
  started a1 c1
2 input fire c1 ping
  queued v1 ping a1
3 initial a1 v1 high e1 new
  attached e1 a1
4 initial a1 v1 low e2 new
  attached e2 a1
5 deliver a1 v1 e1 fine
6 deliver a1 v1 e2 fine
7 finish a1 v1
status 0 ok
",
    },
}];

// A parent of the lowest priority, and two children.
const PARENT: &str =
    r#"{"events": [{"key": "open", "name": "open", "vendor": "t", "version": "1"}, {"key": "ping", "name": "ping", "vendor": "t", "version": "1"}], "blocks": [{"key": "b", "name": "b", "vendor": "t", "version": "1", "relations": {"leg": {"block": "c"}}, "events": [{"event": "open", "initial": ["activity"], "on": "create leg as x priority 127; attach x to activity; create leg as y; attach y to activity;"}, {"event": "ping", "on": ""}]}, {"key": "c", "name": "c", "vendor": "t", "version": "1", "events": [{"event": "ping", "on": ""}]}], "services": [{"key": "s", "name": "s", "vendor": "t", "version": "1", "root": "b", "active": true, "priority": -128}]}"#;

const PARENT_PLAYED: &[Step] = &[Step {
    words: PLAY,
    lines: "start c1\nfire c1 open\nfire c1 ping\n",
    wanted: Wanted {
        code: 0,
        printed: "1 input start c1
  started a1 c1
2 input fire c1 open
  queued v1 open a1
3 initial a1 v1 s e1 new
  attached e1 a1
4 deliver a1 v1 e1 fine
  created e2 e1.leg
  attached e2 a1
  created e3 e1.leg
  attached e3 a1
5 finish a1 v1
6 input fire c1 ping
  queued v2 ping a1
7 deliver a1 v2 e1 fine
8 deliver a1 v2 e2 fine
9 deliver a1 v2 e3 fine
10 finish a1 v2
status 0 ok
",
    },
}];

// The same, both children of one priority.
const TIE: &str =
    r#"{"events": [{"key": "open", "name": "open", "vendor": "t", "version": "1"}, {"key": "ping", "name": "ping", "vendor": "t", "version": "1"}], "blocks": [{"key": "b", "name": "b", "vendor": "t", "version": "1", "relations": {"leg": {"block": "c"}}, "events": [{"event": "open", "initial": ["activity"], "on": "create leg as x; attach x to activity; create leg as y; attach y to activity;"}, {"event": "ping", "on": ""}]}, {"key": "c", "name": "c", "vendor": "t", "version": "1", "events": [{"event": "ping", "on": ""}]}], "services": [{"key": "s", "name": "s", "vendor": "t", "version": "1", "root": "b", "active": true, "priority": -128}]}"#;

const TIE_PLAYED: &[Step] = &[Step {
    words: PLAY,
    lines: "start c1\nfire c1 open\nfire c1 ping\n",
    wanted: Wanted {
        code: 0,
        printed: "1 input start c1
  started a1 c1
2 input fire c1 open
  queued v1 open a1
3 initial a1 v1 s e1 new
  attached e1 a1
4 deliver a1 v1 e1 fine
  created e2 e1.leg
  attached e2 a1
  created e3 e1.leg
  attached e3 a1
5 finish a1 v1
6 input fire c1 ping
  queued v2 ping a1
7 deliver a1 v2 e1 fine
8 deliver a1 v2 e2 fine
9 deliver a1 v2 e3 fine
10 finish a1 v2
status 0 ok
",
    },
}];

#[test]
fn the_service_of_the_higher_priority_comes_first(rt: HostRuntime) -> Result<(), Fail> {
    play(&rt, rt.alloc(), SERVICES, SERVICES_PLAYED)
}

#[test]
fn a_parent_comes_before_its_children(rt: HostRuntime) -> Result<(), Fail> {
    play(&rt, rt.alloc(), PARENT, PARENT_PLAYED)
}

#[test]
fn of_one_priority_the_lower_number_comes_first(rt: HostRuntime) -> Result<(), Fail> {
    play(&rt, rt.alloc(), TIE, TIE_PLAYED)
}
