//! The top call: one worker, or several.
ghost use Rattle.std.specs.Prelude.{◌≡◌, ◌⊎◌, ◌+◌, ◌<◌, ◌≤◌, None, IfSome, IsSome, true};
ghost use Rattle.std.specs.Io.KnownBytes.{IsAtEnd};
ghost use Rattle.slee_disk.specs.Causes.{Rose};
ghost use Rattle.slee_disk.specs.Taken.{ConsumesSome};
ghost use Rattle.slee_run.specs.Given.{deploy_limit, signals_limit};
ghost use Rattle.slee_run.specs.Headline.{Opens};
ghost use Rattle.slee_run.specs.Many.{IsCompleteOfMany, IsCompleteRun, IsCrew, IsPlayedByMany, IsRunOfMany, crew_in, crew_of, several};
ghost use Rattle.slee_run.specs.Opening.{IsBeforeOpening};
ghost use Rattle.slee_run.specs.Orderly.{IsOrderlyRun};
ghost use Rattle.slee_run.specs.Words.{is_in_range, texts};

use crate::finishing::refuse;
use crate::many::{Crew, play_inputs};
use crate::reading::read_inputs;
use crate::top::run_one;
use crate::words::command_of;
use crate::{Command, Given, Status};
use initial_select::Selectors;
use slee_container::Mode;
use slee_disk::{Disk, Sink, Source};
use std::alloc::Global;
use std::sync::Wait;
use std::thread::Threads;
use worker_gate::Gate;

/// Reads a deployment and lines, plays them with several workers and writes the trace.
fn play_sources<
    S: Source,
    T: Source,
    K: Sink,
    D: Disk + Send,
    G: Gate + Sync,
    R: Threads + Wait + Sync,
>(
    rt: &R,
    alloc: Global,
    deploy: &mut S,
    signals: &mut T,
    out: &mut K,
    disk: D,
    crew: Crew,
    selectors: &Selectors,
    gate: &G,
) -> (Status, D)
    requires crew { IsCrew crew }
    ensures played { IsPlayedByMany crew.mode crew.steps (S.left deploy.old) (T.left signals.old) (K.contents out.old) (K.contents out.new) (D.disk disk) (D.disk result.1) result.0 }
    ensures read { result.0 ≡ Status.ReadFault → Rose (S.faults deploy.old) (S.faults deploy.new) ⊎ Rose (T.faults signals.old) (T.faults signals.new) }
    ensures write { result.0 ≡ Status.WriteFault → Rose (K.faults out.old) (K.faults out.new) }
    ensures end { result.0 ≡ Status.Ok → IsAtEnd (S.left deploy.new) × IsAtEnd (T.left signals.new) }
    ensures large { result.0 ≡ Status.TooLarge Given.Signals → ConsumesSome (T.left signals.old) (T.left signals.new) (signals_limit + 1) }
    ensures deploy_large { result.0 ≡ Status.TooLarge Given.Deploy → ConsumesSome (S.left deploy.old) (S.left deploy.new) (deploy_limit + 1) }
    ensures untouched { IsBeforeOpening result.0 → result.1 ≡ disk }
{
    match read_inputs(alloc, deploy, signals) {
        Ok(inputs) => play_inputs(rt, alloc, &inputs, out, disk, crew, selectors, gate),
        Err(stood) => (refuse(out, stood), disk),
    }
}

/// So many workers, where they are several.
fn several(mode: Mode, workers: u64, steps: u64) -> Option<Crew>
    requires { workers ≤ 64 }
    ensures { result ≡ several mode workers steps }
{
    if workers == 1 {
        return None;
    }
    Some(Crew {
        workers: workers as usize,
        mode,
        steps,
    })
}

/// The workers that a command asks for, where they are several.
fn crew_of(command: Command) -> Option<Crew>
    requires { is_in_range command ≡ true }
    ensures { result ≡ crew_of command }
{
    match command {
        Command::Play { workers, steps } => several(Mode::AllNew, workers, steps),
        Command::Resume { workers, steps } => several(Mode::SkipTaken, workers, steps),
        Command::Check
        | Command::Show
        | Command::Compact
        | Command::Gen { .. }
        | Command::Trial { .. } => None,
    }
}

/// The workers that the words ask for, where they are several.
#[tactic(auto, using(crate::proofs::CrewLemmas::crew_ranges))]
pub fn crew_in(words: &[&str]) -> Option<Crew>
    ensures crew { result ≡ crew_in (texts words.now) }
    ensures ranges { IfSome result (λ crew. IsCrew crew) }
{
    match command_of(words) {
        Some(command) => crew_of(command),
        None => None,
    }
}

/// Plays with several workers, as the words say, and answers the status. The disk is handed back. It waits for its workers.
///
/// `words` are those behind the program's name.
pub fn run_many<
    S: Source,
    T: Source,
    K: Sink,
    D: Disk + Send,
    G: Gate + Sync,
    R: Threads + Wait + Sync,
>(
    rt: &R,
    alloc: Global,
    words: &[&str],
    deploy: &mut S,
    signals: &mut T,
    out: &mut K,
    disk: D,
    selectors: &Selectors,
    gate: &G,
) -> (Status, D)
    requires { IsSome (crew_in (texts words.now)) }

    // One legal history on the signals, which keeps all laws of runs, its text and its journal; each status with its cause.
    ensures headline { IsRunOfMany (texts words.now) (S.left deploy.old) (T.left signals.old) (K.contents out.old) (K.contents out.new) (D.disk disk) (D.disk result.1) result.0 }

    // On a good deployment, good lines and an honest journal, and without a fault, there is no other status than these.
    ensures complete { IsCompleteOfMany (S.left deploy.old) (T.left signals.old) (D.disk disk)
        (Rose (S.faults deploy.old) (S.faults deploy.new) ⊎ (Rose (T.faults signals.old) (T.faults signals.new) ⊎ (Rose (K.faults out.old) (K.faults out.new) ⊎ Rose (D.disk disk).faults (D.disk result.1).faults))) result.0 }

    // Faults come only where the object's count rose.
    ensures read { result.0 ≡ Status.ReadFault → Rose (S.faults deploy.old) (S.faults deploy.new) ⊎ Rose (T.faults signals.old) (T.faults signals.new) }
    ensures write { result.0 ≡ Status.WriteFault → Rose (K.faults out.old) (K.faults out.new) }

    // What was read: all at Ok, and at TooLarge one byte more than the limit.
    ensures end { result.0 ≡ Status.Ok → IsAtEnd (S.left deploy.new) × IsAtEnd (T.left signals.new) }
    ensures large { result.0 ≡ Status.TooLarge Given.Signals → ConsumesSome (T.left signals.old) (T.left signals.new) (signals_limit + 1) }
    ensures deploy_large { result.0 ≡ Status.TooLarge Given.Deploy → ConsumesSome (S.left deploy.old) (S.left deploy.new) (deploy_limit + 1) }

    // The disk isn't touched before all is read and understood.
    ensures untouched { IsBeforeOpening result.0 → result.1 ≡ disk }
{
    match crew_in(words) {
        Some(crew) => play_sources(rt, alloc, deploy, signals, out, disk, crew, selectors, gate),
        None => unreachable!(),
    }
}

/// Does what the words say, and answers the status. The disk is handed back. Only a run of several workers waits, for its workers.
///
/// `words` are those behind the program's name.
pub fn run<S: Source, T: Source, K: Sink, D: Disk + Send, G: Gate + Sync, R: Threads + Wait + Sync>(
    rt: &R,
    alloc: Global,
    words: &[&str],
    deploy: &mut S,
    signals: &mut T,
    out: &mut K,
    disk: D,
    selectors: &Selectors,
    gate: &G,
) -> (Status, D)
    // What is said of a run of one worker, or of other words, and what is said of several.
    ensures headline { crew_in (texts words.now) ≡ None → IsOrderlyRun (texts words.now) (S.left deploy.old) (T.left signals.old) (K.contents out.old) (K.contents out.new) (D.disk disk) (D.disk result.1) result.0 }
    ensures headline_many { IsSome (crew_in (texts words.now)) → IsRunOfMany (texts words.now) (S.left deploy.old) (T.left signals.old) (K.contents out.old) (K.contents out.new) (D.disk disk) (D.disk result.1) result.0 }

    // On a good deployment, good lines and an honest journal, and without a fault, there is no other status than these; a check, or
    // the generating of lines, gives the one answer to the bytes of a deployment.
    ensures complete { IsCompleteRun (texts words.now) (S.left deploy.old) (T.left signals.old) (D.disk disk)
        (Rose (S.faults deploy.old) (S.faults deploy.new) ⊎ (Rose (T.faults signals.old) (T.faults signals.new) ⊎ (Rose (K.faults out.old) (K.faults out.new) ⊎ Rose (D.disk disk).faults (D.disk result.1).faults))) result.0 }

    // Faults come only where the object's count rose.
    ensures read { result.0 ≡ Status.ReadFault → Rose (S.faults deploy.old) (S.faults deploy.new) ⊎ Rose (T.faults signals.old) (T.faults signals.new) }
    ensures write { result.0 ≡ Status.WriteFault → Rose (K.faults out.old) (K.faults out.new) }
    ensures disk { result.0 ≡ Status.DiskFault → Rose (D.disk disk).faults (D.disk result.1).faults }

    // The disk isn't touched before all is read and understood, and only by words that open the journal.
    ensures untouched { IsBeforeOpening result.0 → result.1 ≡ disk }
    ensures idle { (Opens (texts words.now) → ⊥) → result.1 ≡ disk }
{
    match crew_in(words) {
        Some(_) => run_many(
            rt, alloc, words, deploy, signals, out, disk, selectors, gate,
        ),
        None => run_one(alloc, words, deploy, signals, out, disk, selectors),
    }
}
