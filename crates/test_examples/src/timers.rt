//! Timers: what is queued where the clock goes on by a long time, and how many occurrences are too many.
use crate::playing::{PLAY, Parts, play_parts};
use std::test::Fail;

// Three timers that keep all, the last or none of what they missed.
const THREE: &str =
    r#"{"events": [{"key": "ping", "name": "ping", "vendor": "t", "version": "1"}], "blocks": [{"key": "b", "name": "b", "vendor": "t", "version": "1", "events": [{"event": "ping", "initial": ["activity"], "on": "timer x on activity at 1000 every 1000 times 0 keep all; timer y on activity at 1000 every 1000 times 0 keep last; timer z on activity at 1000 every 1000 times 0 keep none; "}, {"event": "timer", "on": "emit text(event.which == none);"}]}], "services": [{"key": "s", "name": "s", "vendor": "t", "version": "1", "root": "b", "active": true}]}"#;

const THREE_PLAYED: Parts = Parts {
    words: PLAY,
    lines: "start c1\nfire c1 ping\nclock 3000\n",
    parts: &[
        "4 deliver a1 v1 e1 fine
  timer t1 a1
  timer t2 a1
  timer t3 a1
5 finish a1 v1
6 input clock 3000
  queued v2 timer a1
  queued v3 timer a1
  queued v4 timer a1
  queued v5 timer a1
  queued v6 timer a1
",
    ],
    end: "status 0 ok\n",
};

// One timer that occurs each millisecond.
const MANY: &str =
    r#"{"events": [{"key": "ping", "name": "ping", "vendor": "t", "version": "1"}], "blocks": [{"key": "b", "name": "b", "vendor": "t", "version": "1", "events": [{"event": "ping", "initial": ["activity"], "on": "timer x on activity at 1 every 1 times 0 keep all;"}]}], "services": [{"key": "s", "name": "s", "vendor": "t", "version": "1", "root": "b", "active": true}]}"#;

const MANY_PLAYED: Parts = Parts {
    words: &["play", "1", "1000000"],
    lines: "start c1\nfire c1 ping\nclock 10001\nclock 10000\n",
    parts: &[
        "6 input clock 10001\n  refused too-many\n7 input clock 10000\n  queued v2 timer a1\n",
        "  queued v10001 timer a1\n8 finish a1 v2\n",
    ],
    end: "10007 finish a1 v10001\nstatus 0 ok\n",
};

// The events of timers say which timer it was.
const TOLD: &str =
    r#"{"events": [{"key": "ping", "name": "ping", "vendor": "t", "version": "1"}], "blocks": [{"key": "b", "name": "b", "vendor": "t", "version": "1", "fields": {"x": "timer", "y": "timer", "z": "timer"}, "events": [{"event": "ping", "initial": ["activity"], "on": "timer x on activity at 1000 every 1000 times 0 keep all; timer y on activity at 1000 every 1000 times 0 keep last; timer z on activity at 1000 every 1000 times 0 keep none; self.x = x; self.y = y; self.z = z;"}, {"event": "timer", "on": "if event.which == self.x { emit \"t1\"; } if event.which == self.y { emit \"t2\"; } if event.which == self.z { emit \"t3\"; }"}]}], "services": [{"key": "s", "name": "s", "vendor": "t", "version": "1", "root": "b", "active": true}]}"#;

const TOLD_PLAYED: Parts = Parts {
    words: PLAY,
    lines: "start c1\nfire c1 ping\nclock 3000\n",
    parts: &[
        "7 deliver a1 v2 e1 fine\n  say e1 t1\n",
        "9 deliver a1 v3 e1 fine\n  say e1 t1\n",
        "11 deliver a1 v4 e1 fine\n  say e1 t1\n",
        "13 deliver a1 v5 e1 fine\n  say e1 t2\n",
        "15 deliver a1 v6 e1 fine\n  say e1 t3\n",
    ],
    end: "status 0 ok\n",
};

#[test]
fn missed_occurrences_are_kept_as_the_timer_says(rt: HostRuntime) -> Result<(), Fail> {
    play_parts(&rt, rt.alloc(), THREE, THREE_PLAYED)
}

#[test]
fn ten_thousand_occurrences_come_and_one_more_is_refused(rt: HostRuntime) -> Result<(), Fail> {
    play_parts(&rt, rt.alloc(), MANY, MANY_PLAYED)
}

#[test]
fn an_event_of_a_timer_says_which(rt: HostRuntime) -> Result<(), Fail> {
    play_parts(&rt, rt.alloc(), TOLD, TOLD_PLAYED)
}
