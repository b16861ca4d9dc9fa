//! Handlers that ask for a rollback and handlers that fail.
use crate::playing::{PLAY, Step, play};
use std::test::Fail;
use test_run::running::Wanted;

// A handler that asks for a rollback.
const ASKS: &str =
    r#"{"events": [{"key": "ping", "name": "ping", "vendor": "t", "version": "1"}, {"key": "pong", "name": "pong", "vendor": "t", "version": "1"}], "blocks": [{"key": "b", "name": "b", "vendor": "t", "version": "1", "fields": {"n": "int"}, "rolled_back": "emit \"undone \" ++ text(self.n);", "events": [{"event": "ping", "initial": ["activity"], "on": "self.n = 5; fire \"pong\" on activity; emit \"lost\"; rollback;"}]}], "services": [{"key": "s", "name": "s", "vendor": "t", "version": "1", "root": "b", "active": true}]}"#;

const ASKS_PLAYED: &[Step] = &[Step {
    words: PLAY,
    lines: "start c1\nfire c1 ping\n",
    wanted: Wanted {
        code: 0,
        printed: "1 input start c1
  started a1 c1
2 input fire c1 ping
  queued v1 ping a1
3 initial a1 v1 s e1 new
  attached e1 a1
4 deliver a1 v1 e1 asked
  rolled-back fine
  say e1 undone 0
5 finish a1 v1
status 0 ok
",
    },
}];

// A handler whose sum overflows, and a callback that throws.
const FAILS: &str =
    r#"{"events": [{"key": "ping", "name": "ping", "vendor": "t", "version": "1"}], "blocks": [{"key": "b", "name": "b", "vendor": "t", "version": "1", "exception": "emit \"seen\";", "rolled_back": "throw \"no\";", "events": [{"event": "ping", "initial": ["activity"], "on": "let x = 9223372036854775807; let y = x + 1;"}]}], "services": [{"key": "s", "name": "s", "vendor": "t", "version": "1", "root": "b", "active": true}]}"#;

const FAILS_PLAYED: &[Step] = &[Step {
    words: PLAY,
    lines: "start c1\nfire c1 ping\n",
    wanted: Wanted {
        code: 0,
        printed: "1 input start c1
  started a1 c1
2 input fire c1 ping
  queued v1 ping a1
3 initial a1 v1 s e1 new
  attached e1 a1
4 deliver a1 v1 e1 failed overflow
  exception fine
  rolled-back failed thrown
5 finish a1 v1
status 0 ok
",
    },
}];

#[test]
fn what_a_handler_did_before_it_asked_is_undone(rt: HostRuntime) -> Result<(), Fail> {
    play(&rt, rt.alloc(), ASKS, ASKS_PLAYED)
}

#[test]
fn a_failure_runs_both_callbacks(rt: HostRuntime) -> Result<(), Fail> {
    play(&rt, rt.alloc(), FAILS, FAILS_PLAYED)
}
