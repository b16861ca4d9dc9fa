//! Runs of several workers that are stopped: for want of memory, by the most entries that they may make, by a journal that is full, by a
//! disk that fails, and at any moment. A later run goes on from what they leave.
use crate::gates::Starving;
use crate::limited::{Left, left_within};
use crate::running::{run_by, run_over};
use crate::workers::{GREETING, TWO_CALLS, count_of};
use commit_journal::SIDE_LIMIT;
use router_durable::Stop;
use slee_disk::{MemoryDisk, Side};
use slee_value::NoMemory;
use std::alloc::Global;
use std::process::Abort;
use std::sync::Wait;
use std::test::Fail;
use std::thread::Threads;
use test_run::running::{Ran, disk_of, failing_disk, text_of};
use worker_gate::OpenGate;

const PLAY: &[&str] = &["play", "3", "100"];

const RESUME: &[&str] = &["resume", "3", "100"];

/// What `show` says where so many lines were taken.
const TAKEN: [(u64, &str); 5] = [
    (0, "inputs 0"),
    (1, "inputs 1"),
    (2, "inputs 2"),
    (3, "inputs 3"),
    (4, "inputs 4"),
];

// How many lines were taken, as it is shown.
fn taken_in(shown: &str) -> Option<u64> {
    for (taken, line) in TAKEN {
        if count_of(shown, line) == 1 {
            return Some(taken);
        }
    }
    None
}

// A disk with the bytes that this one has, which doesn't fail.
fn same_bytes(alloc: Global, disk: &MemoryDisk) -> Result<MemoryDisk, NoMemory> {
    disk_of(alloc, disk.side(Side::A), disk.side(Side::B))
}

// How many lines were taken of what a disk has.
fn taken_on<R: Abort + Threads + Wait + Sync>(
    rt: &R,
    alloc: Global,
    disk: &MemoryDisk,
) -> Result<u64, Fail> {
    let disk = same_bytes(alloc, disk)?;
    let shown = run_over(rt, alloc, &["show"], GREETING, "", disk, &OpenGate)?;
    assert_eq!(rt; shown.code, 0);
    let taken = taken_in(text_of(&shown));
    assert!(rt; taken.is_some());
    Ok(taken.unwrap_or(0))
}

// A later run takes the lines that are left behind those that were taken, of which so many were told at least.
fn expect_goes_on<R: Abort + Threads + Wait + Sync>(
    rt: &R,
    alloc: Global,
    disk: &MemoryDisk,
    told: u64,
) -> Result<(), Fail> {
    let taken = taken_on(rt, alloc, disk)?;
    assert!(rt; told <= taken);
    let disk = same_bytes(alloc, disk)?;
    let resumed = run_over(rt, alloc, RESUME, GREETING, TWO_CALLS, disk, &OpenGate)?;
    assert_eq!(rt; resumed.code, 0);
    let left = count_of(text_of(&resumed), " input ");
    assert!(rt; taken.checked_add(left) == Some(4));
    Ok(())
}

// A run ended so, and a later one goes on from what it left.
fn expect_stopped<R: Abort + Threads + Wait + Sync>(
    rt: &R,
    alloc: Global,
    ran: &Ran,
    status: &str,
) -> Result<(), Fail> {
    let text = text_of(ran);
    assert!(rt; text.ends_with(status), "{text}");
    expect_goes_on(rt, alloc, &ran.disk, count_of(text, " input "))
}

// Each of the two deliveries is run at least once.
#[test]
fn a_gate_without_memory_stops_all_workers(rt: HostRuntime) -> Result<(), Fail> {
    for fed in 0..2 {
        let gate = Starving::behind(fed);
        let ran = run_by(&rt, rt.alloc(), PLAY, GREETING, TWO_CALLS, &gate)?;
        expect_stopped(&rt, rt.alloc(), &ran, "status 12 no-memory\n")?;
    }
    Ok(())
}

// How many entries a text has: its lines that begin with a number.
fn entries_of(text: &str) -> usize {
    text.lines()
        .filter(|line| line.starts_with(|c: char| c.is_ascii_digit()))
        .count()
}

#[test]
fn workers_make_as_many_entries_as_they_may(rt: HostRuntime) -> Result<(), Fail> {
    let words = ["play", "3", "5"];
    let ran = run_by(&rt, rt.alloc(), &words, GREETING, TWO_CALLS, &OpenGate)?;
    assert!(rt; entries_of(text_of(&ran)) == 5);
    expect_stopped(&rt, rt.alloc(), &ran, "status 11 steps-spent 5\n")
}

// Whether it is stopped since the record of the last of ten entries has no room in so many bytes.
fn is_full_at_the_last(left: Left, limit: u64) -> bool {
    match left.stop {
        Some(Stop::Full { length, adding }) => {
            left.entries == 9 && length <= limit && limit - length < adding
        }
        Some(Stop::DiskFault) | Some(Stop::NoMemory) | None => false,
    }
}

#[test]
fn a_full_journal_stops_all_workers(rt: HostRuntime) -> Result<(), Fail> {
    let whole = left_within(&rt, rt.alloc(), SIDE_LIMIT, GREETING, TWO_CALLS)?;
    assert!(rt; whole.stop.is_none());
    assert_eq!(rt; whole.entries, 10);
    let limit = whole.bytes.saturating_sub(1);
    let left = left_within(&rt, rt.alloc(), limit, GREETING, TWO_CALLS)?;
    assert!(rt; is_full_at_the_last(left, limit));
    assert!(rt; left.bytes <= limit);
    Ok(())
}

// A disk whose call of this number fails.
fn disk_failing_at(alloc: Global, call: u64) -> Result<MemoryDisk, Fail> {
    let mut fails = Vec::new(alloc);
    for k in 1..=call {
        fails.push(u8::from(k == call))?;
    }
    Ok(failing_disk(alloc, &fails)?)
}

fn expect_fault<R: Abort + Threads + Wait + Sync>(
    rt: &R,
    alloc: Global,
    call: u64,
) -> Result<(), Fail> {
    let disk = disk_failing_at(alloc, call)?;
    let ran = run_over(rt, alloc, PLAY, GREETING, TWO_CALLS, disk, &OpenGate)?;
    expect_stopped(rt, alloc, &ran, "status 7 disk-fault\n")
}

// Several workers make at least the calls that one makes.
#[test]
fn a_disk_that_fails_stops_all_workers(rt: HostRuntime) -> Result<(), Fail> {
    let words = ["play", "1", "100"];
    let alone = run_by(&rt, rt.alloc(), &words, GREETING, TWO_CALLS, &OpenGate)?;
    assert_eq!(rt; alone.code, 0);
    for call in 1..=alone.disk.calls() {
        expect_fault(&rt, rt.alloc(), call)?;
    }
    Ok(())
}

// Each write since a sync is whole to here, and then this byte.
const TEARS: &[(u64, u8)] = &[(0, 0), (1, 1), (65_536, 90)];

// A later run goes on from what a stop in this call may leave.
fn expect_images<R: Abort + Threads + Wait + Sync>(
    rt: &R,
    alloc: Global,
    disk: &MemoryDisk,
    call: u64,
) -> Result<(), Fail> {
    assert!(rt; call <= disk.calls());
    for (part, fill) in TEARS {
        let image = disk.image(call, *part, *fill)?;
        expect_goes_on(rt, alloc, &image, 0)?;
    }
    Ok(())
}

#[test]
fn a_stop_at_any_moment_leaves_a_run_that_goes_on(rt: HostRuntime) -> Result<(), Fail> {
    let ran = run_by(&rt, rt.alloc(), PLAY, GREETING, TWO_CALLS, &OpenGate)?;
    assert_eq!(rt; ran.code, 0);
    for call in 0..=ran.disk.calls() {
        expect_images(&rt, rt.alloc(), &ran.disk, call)?;
    }
    Ok(())
}
