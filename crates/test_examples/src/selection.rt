//! Which root entity an initial event gets.
use crate::playing::{PLAY, Parts, Step, play, play_parts};
use std::test::Fail;
use test_run::running::Wanted;

// By the address of the event.
const ADDRESS: &str =
    r#"{"events": [{"key": "invite", "name": "invite", "vendor": "t", "version": "1", "fields": {"addr": "text"}}], "blocks": [{"key": "b", "name": "b", "vendor": "t", "version": "1", "events": [{"event": "invite", "initial": ["address"], "on": ""}]}], "services": [{"key": "s", "name": "s", "vendor": "t", "version": "1", "root": "b", "active": true}]}"#;

const ADDRESS_PLAYED: Parts = Parts {
    words: PLAY,
    lines: "start c1\nstart c2\nfire c1 invite addr=tel:5551\nfire c2 invite addr=tel:5551\n",
    parts: &["8 initial a2 v2 s e1 old\n"],
    end: "status 0 ok\n",
};

// By the first three digits of a text.
const DIGITS: &str =
    r#"{"events": [{"key": "invite", "name": "invite", "vendor": "t", "version": "1", "fields": {"addr": "text"}}], "blocks": [{"key": "b", "name": "b", "vendor": "t", "version": "1", "events": [{"event": "invite", "initial": ["custom"], "custom": {"rule": "digits3", "field": "addr"}, "on": ""}]}], "services": [{"key": "s", "name": "s", "vendor": "t", "version": "1", "root": "b", "active": true}]}"#;

const DIGITS_PLAYED: Parts = Parts {
    words: PLAY,
    lines: "start c1\nstart c2\nfire c1 invite addr=tel:5551\nfire c2 invite addr=tel:7771\n",
    parts: &["8 initial a2 v2 s e2 new\n"],
    end: "status 0 ok\n",
};

// By no variable: there is one root.
const NO_VARIABLE: &str =
    r#"{"events": [{"key": "invite", "name": "invite", "vendor": "t", "version": "1", "fields": {"addr": "text"}}], "blocks": [{"key": "b", "name": "b", "vendor": "t", "version": "1", "events": [{"event": "invite", "initial": [], "on": ""}]}], "services": [{"key": "s", "name": "s", "vendor": "t", "version": "1", "root": "b", "active": true}]}"#;

const NO_VARIABLE_PLAYED: Parts = Parts {
    words: PLAY,
    lines: "start c1\nstart c2\nfire c1 invite addr=tel:5551\nfire c2 invite addr=tel:5551\n",
    parts: &["8 initial a2 v2 s e1 old\n"],
    end: "status 0 ok\n",
};

// By a rule that leaves out anonymous callers.
const SCREENED: &str =
    r#"{"events": [{"key": "invite", "name": "invite", "vendor": "t", "version": "1", "fields": {"addr": "text"}}], "blocks": [{"key": "b", "name": "b", "vendor": "t", "version": "1", "events": [{"event": "invite", "initial": ["custom"], "custom": {"rule": "screened", "field": "addr"}, "on": ""}]}], "services": [{"key": "s", "name": "s", "vendor": "t", "version": "1", "root": "b", "active": true}]}"#;

const SCREENED_PLAYED: &[Step] = &[Step {
    words: PLAY,
    lines: "start c1\nfire c1 invite addr=anon:1\n",
    wanted: Wanted {
        code: 0,
        printed: "1 input start c1
  started a1 c1
2 input fire c1 invite addr=anon:1
  queued v1 invite a1
3 initial a1 v1 s none
4 finish a1 v1
status 0 ok
",
    },
}];

#[test]
fn one_address_has_one_root(rt: HostRuntime) -> Result<(), Fail> {
    play_parts(&rt, rt.alloc(), ADDRESS, ADDRESS_PLAYED)
}

#[test]
fn other_digits_have_another_root(rt: HostRuntime) -> Result<(), Fail> {
    play_parts(&rt, rt.alloc(), DIGITS, DIGITS_PLAYED)
}

#[test]
fn without_a_variable_there_is_one_root(rt: HostRuntime) -> Result<(), Fail> {
    play_parts(&rt, rt.alloc(), NO_VARIABLE, NO_VARIABLE_PLAYED)
}

#[test]
fn a_rule_may_leave_an_event_without_a_root(rt: HostRuntime) -> Result<(), Fail> {
    play(&rt, rt.alloc(), SCREENED, SCREENED_PLAYED)
}
