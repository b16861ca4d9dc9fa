//! Several workers on one container.
use crate::gates::{Counting, Meeting, Slow};
use crate::running::run_by;
use slee_value::NoMemory;
use std::alloc::Global;
use std::process::Abort;
use std::sync::Wait;
use std::sync::atomic::Ordering;
use std::test::Fail;
use std::thread::Threads;
use test_run::prepaid::PREPAID;
use test_run::running::{Ran, text_of};
use worker_gate::{Gate, OpenGate};

/// A service that greets each activity.
pub const GREETING: &str = r#"{"events":[{"key":"ping","name":"ping","vendor":"t","version":"1"}],
"blocks":[{"key":"b","name":"b","vendor":"t","version":"1","events":[
{"event":"ping","initial":["activity"],"on":"emit \"hi\";"}]}],
"services":[{"key":"s","name":"s","vendor":"t","version":"1","root":"b","active":true}]}
"#;

/// Two activities are greeted, in ten entries.
pub const TWO_CALLS: &str = "start c1\nstart c2\nfire c1 ping\nfire c2 ping\n";

/// A service that adds up five fields of its entity.
const READING: &str = r#"{"events":[{"key":"ping","name":"ping","vendor":"t","version":"1"}],
"blocks":[{"key":"b","name":"b","vendor":"t","version":"1",
"fields":{"one":"int","two":"int","three":"int","four":"int","five":"int"},"events":[
{"event":"ping","initial":["activity"],"on":"emit text(self.one + self.two + self.three + self.four + self.five);"}]}],
"services":[{"key":"s","name":"s","vendor":"t","version":"1","root":"b","active":true}]}
"#;

/// Two activities, each with three events.
const SIX_EVENTS: &str =
    "start c1\nstart c2\nfire c1 ping\nfire c2 ping\nfire c1 ping\nfire c2 ping\nfire c1 ping\nfire c2 ping\n";

/// How many lines of a text contain this.
pub fn count_of(text: &str, part: &str) -> u64 {
    text.lines().filter(|line| line.contains(part)).count() as u64
}

// Whether the input lines of a trace are these lines in their order.
fn are_taken_in_order(text: &str, lines: &str) -> bool {
    let mut left = lines.lines();
    for line in text.lines() {
        if let Some((_, taken)) = line.split_once(" input ") {
            let Some(next) = left.next() else {
                return false;
            };
            if taken != next {
                return false;
            }
        }
    }
    left.next().is_none()
}

// A run of so many generated lines by so many workers, and the run whose text these lines are.
fn run_generated<G: Gate + Sync, R: Threads + Wait + Sync>(
    rt: &R,
    alloc: Global,
    count: &str,
    workers: &str,
    gate: &G,
) -> Result<(Ran, Ran), NoMemory> {
    let lines = run_by(rt, alloc, &["gen", "7", count], PREPAID, "", gate)?;
    let words = ["play", workers, "1000000"];
    let ran = run_by(rt, alloc, &words, PREPAID, text_of(&lines), gate)?;
    Ok((lines, ran))
}

// All lines were taken in their order, none is refused, and each activity that was to start did.
fn expect_played(rt: &impl Abort, lines: &str, text: &str) {
    assert!(rt; are_taken_in_order(text, lines));
    assert!(rt; count_of(text, "  refused ") == 0);
    assert!(rt; count_of(text, "  started ") == count_of(lines, "start "));
    assert!(rt; 0 < count_of(text, " deliver "));
}

// So many workers play so many generated lines, and the gate runs each delivery to its end.
fn expect_generated<R: Abort + Threads + Wait + Sync>(
    rt: &R,
    alloc: Global,
    count: &str,
    workers: &str,
) -> Result<(), Fail> {
    let gate = Counting::new();
    let (lines, ran) = run_generated(rt, alloc, count, workers, &gate)?;
    assert_eq!(rt; ran.code, 0);
    expect_played(rt, text_of(&lines), text_of(&ran));
    assert!(rt; count_of(text_of(&ran), " deliver ") <= gate.done.load(Ordering::SeqCst));
    Ok(())
}

// The first run of the gate waits for a run of the other activity, which nobody begins where the gate is asked under the turn.
#[test]
fn two_handlers_run_beside_each_other(rt: HostRuntime) -> Result<(), Fail> {
    let gate = Meeting::new();
    let ran = run_by(
        &rt,
        rt.alloc(),
        &["play", "2", "100"],
        GREETING,
        TWO_CALLS,
        &gate,
    )?;
    assert!(rt; ran.code == 0);
    assert!(rt; gate.met.load(Ordering::SeqCst) == 1);
    assert!(rt; gate.one_done.load(Ordering::SeqCst) == 1);
    assert!(rt; gate.other_done.load(Ordering::SeqCst) == 1);
    Ok(())
}

// An attempt is begun again by the gate for each field that it asks for, also where the worker had the answer at hand.
#[test]
fn each_run_of_an_attempt_is_by_the_gate(rt: HostRuntime) -> Result<(), Fail> {
    let gate = Counting::new();
    let words = ["play", "2", "100"];
    let ran = run_by(&rt, rt.alloc(), &words, READING, SIX_EVENTS, &gate)?;
    assert!(rt; ran.code == 0);
    assert!(rt; count_of(text_of(&ran), "  say ") == 6);
    assert!(rt; gate.done.load(Ordering::SeqCst) == 6);
    assert!(rt; gate.runs.load(Ordering::SeqCst) == 36);
    Ok(())
}

#[test]
fn four_workers_play_generated_lines(rt: HostRuntime) -> Result<(), Fail> {
    expect_generated(&rt, rt.alloc(), "2000", "4")
}

#[test]
fn two_workers_play_generated_lines(rt: HostRuntime) -> Result<(), Fail> {
    expect_generated(&rt, rt.alloc(), "500", "2")
}

#[test]
fn three_workers_play_generated_lines(rt: HostRuntime) -> Result<(), Fail> {
    expect_generated(&rt, rt.alloc(), "500", "3")
}

#[test]
fn sixty_four_workers_play_generated_lines(rt: HostRuntime) -> Result<(), Fail> {
    expect_generated(&rt, rt.alloc(), "200", "64")
}

#[test]
fn slow_handlers_are_played_all_the_same(rt: HostRuntime) -> Result<(), Fail> {
    let (lines, ran) = run_generated(&rt, rt.alloc(), "100", "3", &Slow)?;
    assert_eq!(rt; ran.code, 0);
    expect_played(&rt, text_of(&lines), text_of(&ran));
    Ok(())
}

#[test]
fn more_workers_than_activities_play_all(rt: HostRuntime) -> Result<(), Fail> {
    let ran = run_by(
        &rt,
        rt.alloc(),
        &["play", "64", "100"],
        GREETING,
        TWO_CALLS,
        &OpenGate,
    )?;
    assert!(rt; ran.code == 0);
    let text = text_of(&ran);
    assert!(rt; are_taken_in_order(text, TWO_CALLS));
    assert!(rt; count_of(text, "  say ") == 2);
    Ok(())
}
