//! The program: it makes the real source, sink and disk, and calls the top call.
#![tactic(auto)]

mod help;
mod kept;
mod telling;

use help::{HELP, VERSION};
use initial_select::{SelectRule, Selector, Selectors, custom_name};
use kept::KeepingSource;
use slee_disk::{HostDisk, HostSink, HostSource, LateFile, write_whole};
use slee_run::{Status, run};
use slee_value::NoMemory;
use std::fs::File;
use std::process::ExitCode;
use std::sync::Wait;
use std::thread::Threads;
use std::{env, io};
use telling::explain;
use worker_gate::OpenGate;

fn main(rt: HostRuntime) -> ExitCode {
    let status = match words_of(&rt) {
        Ok(words) => start(&rt, &rt, words.as_slice()),
        Err(error) if error.kind() == io::ErrorKind::OutOfMemory => Status::NoMemory,
        Err(_) => refuse(&rt, &rt),
    };
    ExitCode::from(status.code())
}

/// The words behind the program's name.
fn words_of(rt: &HostRuntime) -> io::Result<Vec<String>> {
    let mut words = Vec::new(rt.alloc());
    for word in env::args(rt)?.skip(1) {
        words.push(word)?;
    }
    Ok(words)
}

/// Words that are no text are of no form.
fn refuse<R: Threads + Wait + Sync>(rt: &HostRuntime, threads: &R) -> Status {
    match run_selecting(rt, threads, &[]) {
        Ok(status) => status,
        Err(NoMemory) => Status::NoMemory,
    }
}

/// Does what the words say, with threads by the handle that only `main` has. Where no memory is found to begin with, nothing is
/// printed.
fn start<R: Threads + Wait + Sync>(rt: &HostRuntime, threads: &R, words: &[String]) -> Status {
    match words {
        [word] if word.as_str() == "--help" => print(rt, HELP),
        [word] if word.as_str() == "--version" => print(rt, VERSION),
        _ => match run_words(rt, threads, words) {
            Ok(status) => status,
            Err(NoMemory) => Status::NoMemory,
        },
    }
}

fn print(rt: &HostRuntime, text: &str) -> Status {
    let mut out = HostSink::new(io::writer(rt));
    match write_whole(&mut out, text.as_bytes()) {
        Ok(()) => Status::Ok,
        Err(_) => Status::WriteFault,
    }
}

fn run_words<R: Threads + Wait + Sync>(
    rt: &HostRuntime,
    threads: &R,
    words: &[String],
) -> Result<Status, NoMemory> {
    let mut list = Vec::new(rt.alloc());
    for word in words {
        list.push(word.as_str())?;
    }
    run_selecting(rt, threads, list.as_slice())
}

/// Calls the top call with a selector of each rule: a closure that answers what the rule gives.
fn run_selecting<R: Threads + Wait + Sync>(
    rt: &HostRuntime,
    threads: &R,
    words: &[&str],
) -> Result<Status, NoMemory> {
    let alloc = rt.alloc();
    let whole = Box::new(alloc, move |text: &[u8]| {
        custom_name(alloc, SelectRule::Whole, text)
    })?;
    let digits3 = Box::new(alloc, move |text: &[u8]| {
        custom_name(alloc, SelectRule::Digits3, text)
    })?;
    let scheme = Box::new(alloc, move |text: &[u8]| {
        custom_name(alloc, SelectRule::Scheme, text)
    })?;
    let screened = Box::new(alloc, move |text: &[u8]| {
        custom_name(alloc, SelectRule::Screened, text)
    })?;
    let selectors = Selectors::new(
        Selector::new(SelectRule::Whole, whole),
        Selector::new(SelectRule::Digits3, digits3),
        Selector::new(SelectRule::Scheme, scheme),
        Selector::new(SelectRule::Screened, screened),
    );
    Ok(run_on_files(rt, threads, words, &selectors))
}

/// Calls the top call on the files of this folder. The system gives the place of a standard stream that is closed to the
/// next file that is opened: a folder takes it, which can be neither read nor written, and so no file of the journal does.
fn run_on_files<R: Threads + Wait + Sync>(
    rt: &HostRuntime,
    threads: &R,
    words: &[&str],
    selectors: &Selectors,
) -> Status {
    let _places = (
        File::open(rt, "/"),
        File::open(rt, "/"),
        File::open(rt, "/"),
    );
    let file = HostSource::new(LateFile::new(rt, "deploy.json"));
    let mut deploy = KeepingSource::new(rt.alloc(), file);
    let mut signals = HostSource::new(rt.reader());
    let mut out = HostSink::new(io::writer(rt));
    let disk = HostDisk::new(rt, ".", "journal.a", "journal.b");
    let (status, _disk) = run(
        threads,
        rt.alloc(),
        words,
        &mut deploy,
        &mut signals,
        &mut out,
        disk,
        selectors,
        &OpenGate,
    );
    explain(rt, &status, deploy.given());
    status
}
