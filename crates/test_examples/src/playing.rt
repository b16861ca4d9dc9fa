//! Runs one after another over one disk, each compared with what has to come of it.
use slee_value::NoMemory;
use std::alloc::Global;
use std::process::Abort;
use std::test::Fail;
use test_run::running::{Ran, Wanted, empty_disk, run_deployed, text_of};

/// Words that play all of a few lines.
pub const PLAY: &[&str] = &["play", "1", "100"];

/// The same, where the lines that were taken come first.
pub const RESUME: &[&str] = &["resume", "1", "100"];

pub const SHOW: &[&str] = &["show"];

/// Words, lines, and what comes of the run.
#[derive(Clone, Copy)]
pub struct Step {
    pub words: &'static [&'static str],
    pub lines: &'static str,
    pub wanted: Wanted,
}

/// Words, lines, parts of the text in their order, and its end.
#[derive(Clone, Copy)]
pub struct Parts {
    pub words: &'static [&'static str],
    pub lines: &'static str,
    pub parts: &'static [&'static str],
    pub end: &'static str,
}

fn compare(rt: &impl Abort, ran: &Ran, wanted: Wanted) {
    assert_eq!(rt; text_of(ran), wanted.printed);
    assert_eq!(rt; ran.code, wanted.code);
}

/// Plays a deployment, each run over the disk that the one before left.
pub fn play(rt: &impl Abort, alloc: Global, deployment: &str, steps: &[Step]) -> Result<(), Fail> {
    let mut disk = empty_disk(alloc)?;
    for step in steps {
        let ran = run_deployed(alloc, step.words, deployment, step.lines, disk)?;
        compare(rt, &ran, step.wanted);
        disk = ran.disk;
    }
    Ok(())
}

// Whether the parts stand in the text one behind another.
fn has_parts(text: &str, parts: &[&str]) -> bool {
    let mut rest = text;
    for part in parts {
        match rest.split_once(*part) {
            Some((_, behind)) => rest = behind,
            None => return false,
        }
    }
    true
}

fn run_parts(alloc: Global, deployment: &str, row: Parts) -> Result<Ran, NoMemory> {
    run_deployed(alloc, row.words, deployment, row.lines, empty_disk(alloc)?)
}

/// Plays a deployment over an empty disk, and looks for parts of the text.
pub fn play_parts(
    rt: &impl Abort,
    alloc: Global,
    deployment: &str,
    row: Parts,
) -> Result<(), Fail> {
    let ran = run_parts(alloc, deployment, row)?;
    assert_eq!(rt; ran.code, 0);
    assert!(rt; has_parts(text_of(&ran), row.parts), "{}", text_of(&ran));
    assert!(rt; text_of(&ran).ends_with(row.end), "{}", text_of(&ran));
    Ok(())
}
