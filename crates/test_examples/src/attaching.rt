//! Entities that attach and detach themselves and others.
use crate::playing::{PLAY, Step, play};
use std::test::Fail;
use test_run::running::Wanted;

// A child that is created while an event is delivered receives it; a masked event passes it by.
const MASKED: &str =
    r#"{"events": [{"key": "ping", "name": "ping", "vendor": "t", "version": "1"}, {"key": "pong", "name": "pong", "vendor": "t", "version": "1"}], "blocks": [{"key": "b", "name": "b", "vendor": "t", "version": "1", "relations": {"leg": {"block": "c"}}, "events": [{"event": "ping", "initial": ["activity"], "on": "create leg as x; attach x to activity;"}, {"event": "pong", "on": ""}]}, {"key": "c", "name": "c", "vendor": "t", "version": "1", "events": [{"event": "ping", "on": "emit \"now\";"}, {"event": "pong", "mask": true, "on": "emit \"later\";"}]}], "services": [{"key": "s", "name": "s", "vendor": "t", "version": "1", "root": "b", "active": true}]}"#;

const MASKED_PLAYED: &[Step] = &[Step {
    words: PLAY,
    lines: "start c1\nfire c1 ping\nfire c1 pong\n",
    wanted: Wanted {
        code: 0,
        printed: "1 input start c1
  started a1 c1
2 input fire c1 ping
  queued v1 ping a1
3 initial a1 v1 s e1 new
  attached e1 a1
4 deliver a1 v1 e1 fine
  created e2 e1.leg
  attached e2 a1
5 deliver a1 v1 e2 fine
  say e2 now
6 finish a1 v1
7 input fire c1 pong
  queued v2 pong a1
8 deliver a1 v2 e1 fine
9 finish a1 v2
status 0 ok
",
    },
}];

// An entity that detaches itself and attaches itself again.
const AGAIN: &str =
    r#"{"events": [{"key": "ping", "name": "ping", "vendor": "t", "version": "1"}], "blocks": [{"key": "b", "name": "b", "vendor": "t", "version": "1", "events": [{"event": "ping", "initial": ["activity"], "on": "detach self from activity; attach self to activity;"}]}], "services": [{"key": "s", "name": "s", "vendor": "t", "version": "1", "root": "b", "active": true}]}"#;

const AGAIN_PLAYED: &[Step] = &[Step {
    words: PLAY,
    lines: "start c1\nfire c1 ping\n",
    wanted: Wanted {
        code: 0,
        printed: "1 input start c1
  started a1 c1
2 input fire c1 ping
  queued v1 ping a1
3 initial a1 v1 s e1 new
  attached e1 a1
4 deliver a1 v1 e1 fine
  detached e1 a1
  attached e1 a1
5 finish a1 v1
status 0 ok
",
    },
}];

// A null activity with a name, and an entity that leaves it.
const NAMED: &str =
    r#"{"events": [{"key": "ping", "name": "ping", "vendor": "t", "version": "1"}, {"key": "pong", "name": "pong", "vendor": "t", "version": "1"}], "blocks": [{"key": "b", "name": "b", "vendor": "t", "version": "1", "events": [{"event": "ping", "initial": ["activity"], "on": "null as n; bind \"hold\" to n; attach self to n;"}, {"event": "pong", "on": "let n = lookup(\"hold\"); unbind \"hold\"; detach self from n;"}]}], "services": [{"key": "s", "name": "s", "vendor": "t", "version": "1", "root": "b", "active": true}]}"#;

const NAMED_PLAYED: &[Step] = &[Step {
    words: PLAY,
    lines: "start c1\nfire c1 ping\nfire c1 pong\n",
    wanted: Wanted {
        code: 0,
        printed: "1 input start c1
  started a1 c1
2 input fire c1 ping
  queued v1 ping a1
3 initial a1 v1 s e1 new
  attached e1 a1
4 deliver a1 v1 e1 fine
  started a2 null
  attached e1 a2
5 finish a1 v1
6 input fire c1 pong
  queued v2 pong a1
7 deliver a1 v2 e1 fine
  detached e1 a2
  ending a2
  queued v3 activity-end a2
8 finish a1 v2
9 finish a2 v3
  gone a2
status 0 ok
",
    },
}];

#[test]
fn a_new_child_receives_the_event_unless_it_is_masked(rt: HostRuntime) -> Result<(), Fail> {
    play(&rt, rt.alloc(), MASKED, MASKED_PLAYED)
}

#[test]
fn an_entity_that_attaches_itself_again_receives_the_event_once(
    rt: HostRuntime,
) -> Result<(), Fail> {
    play(&rt, rt.alloc(), AGAIN, AGAIN_PLAYED)
}

#[test]
fn a_null_activity_ends_where_nothing_holds_it(rt: HostRuntime) -> Result<(), Fail> {
    play(&rt, rt.alloc(), NAMED, NAMED_PLAYED)
}
