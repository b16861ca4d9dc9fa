//! The top call.
ghost use Rattle.std.specs.Prelude.{◌≡◌, ◌⊎◌, ◌+◌, ◌<◌, ◌^◌, ℕ, true, None};
ghost use Rattle.std.specs.Io.KnownBytes.{IsAtEnd};
ghost use Rattle.slee_disk.specs.Causes.{Rose};
ghost use Rattle.slee_disk.specs.Taken.{ConsumesSome};
ghost use Rattle.slee_container.specs.declared.container.Mode.{Mode as Lines};
ghost use Rattle.slee_run.specs.Words.{is_in_range, texts};
ghost use Rattle.slee_run.specs.Given.{deploy_limit, signals_limit};
ghost use Rattle.slee_run.specs.Many.{crew_in, crew_of};
ghost use Rattle.slee_run.specs.Headline.{IsComplete, IsCompleteTask, IsCompleteTrial, IsLegalRun, IsWholeCheck, Opens, Plays, Reads};
ghost use Rattle.slee_run.specs.Opening.{IsBeforeOpening};
ghost use Rattle.slee_run.specs.Orderly.{IsOrderlyRun};
ghost use Rattle.slee_run.specs.Answers.{IsFormOf};

use crate::checking::check;
use crate::finishing::{Report, refuse};
use crate::generating::{Seeded, try_generated, write_generated};
use crate::running::{Run, play_sources};
use crate::tending::{Task, tend};
use crate::words::command_of;
use crate::{Command, Given, Status};
use initial_select::Selectors;
use slee_container::Mode;
use slee_disk::{Disk, Sink, Source};
use std::alloc::Global;

/// Does what the words say, and answers the status. The disk is handed back.
///
/// `words` are those behind the program's name.
/// What is said of bytes is said of sources, sinks and disks that tell theirs, as those in memory do; of the others it says
/// which faults may be told, and when nothing is read or written.
pub fn run_one<S: Source, T: Source, K: Sink, D: Disk>(
    alloc: Global,
    words: &[&str],
    deploy: &mut S,
    signals: &mut T,
    out: &mut K,
    disk: D,
    selectors: &Selectors,
) -> (Status, D)
    // The words don't ask for several workers.
    requires { crew_in (texts words.now) ≡ None }

    // One legal history on the signals, the run of one worker, which keeps all laws of runs, its text and its journal, or what is
    // said of a deployment; each status with its cause.
    ensures headline { IsOrderlyRun (texts words.now) (S.left deploy.old) (T.left signals.old) (K.contents out.old) (K.contents out.new) (D.disk disk) (D.disk result.1) result.0 }

    // On a good deployment, good lines and an honest journal, and without a fault, there is no other status than these.
    ensures complete { IsComplete (texts words.now) (S.left deploy.old) (T.left signals.old) (D.disk disk)
        (Rose (S.faults deploy.old) (S.faults deploy.new) ⊎ (Rose (T.faults signals.old) (T.faults signals.new) ⊎ (Rose (K.faults out.old) (K.faults out.new) ⊎ Rose (D.disk disk).faults (D.disk result.1).faults))) result.0 }
    ensures complete_trial { IsCompleteTrial (texts words.now) (S.left deploy.old) (D.disk disk)
        (Rose (S.faults deploy.old) (S.faults deploy.new) ⊎ (Rose (T.faults signals.old) (T.faults signals.new) ⊎ (Rose (K.faults out.old) (K.faults out.new) ⊎ Rose (D.disk disk).faults (D.disk result.1).faults))) result.0 }
    ensures complete_task { IsCompleteTask (texts words.now) (S.left deploy.old) (D.disk disk)
        (Rose (S.faults deploy.old) (S.faults deploy.new) ⊎ (Rose (T.faults signals.old) (T.faults signals.new) ⊎ (Rose (K.faults out.old) (K.faults out.new) ⊎ Rose (D.disk disk).faults (D.disk result.1).faults))) result.0 }

    // A check, or the generating of lines, without a fault gives the one answer to the bytes of a deployment.
    ensures checked { IsWholeCheck (texts words.now) (S.left deploy.old)
        (Rose (S.faults deploy.old) (S.faults deploy.new) ⊎ (Rose (T.faults signals.old) (T.faults signals.new) ⊎ (Rose (K.faults out.old) (K.faults out.new) ⊎ Rose (D.disk disk).faults (D.disk result.1).faults))) result.0 }

    // Faults come only where the object's count rose.
    ensures read { result.0 ≡ Status.ReadFault → Rose (S.faults deploy.old) (S.faults deploy.new) ⊎ Rose (T.faults signals.old) (T.faults signals.new) }
    ensures write { result.0 ≡ Status.WriteFault → Rose (K.faults out.old) (K.faults out.new) }
    ensures disk { result.0 ≡ Status.DiskFault → Rose (D.disk disk).faults (D.disk result.1).faults }

    // What was read of the signals: at Ok of playing all, at TooLarge one byte more than the limit, and nothing where the words don't play.
    ensures end { (mode : Lines) (steps : ℕ) → Plays (texts words.now) mode steps → result.0 ≡ Status.Ok → IsAtEnd (T.left signals.new) }
    ensures too_large { result.0 ≡ Status.TooLarge Given.Signals → ConsumesSome (T.left signals.old) (T.left signals.new) (signals_limit + 1) }
    ensures unread { ((mode : Lines) (steps : ℕ) → Plays (texts words.now) mode steps → ⊥) → signals.new ≡ signals.old }

    // The same of the deployment.
    ensures end_of_deploy { Reads (texts words.now) → result.0 ≡ Status.Ok → IsAtEnd (S.left deploy.new) }
    ensures deploy_too_large { result.0 ≡ Status.TooLarge Given.Deploy → ConsumesSome (S.left deploy.old) (S.left deploy.new) (deploy_limit + 1) }
    ensures deploy_unread { (Reads (texts words.now) → ⊥) → deploy.new ≡ deploy.old }

    // The disk isn't touched before all is read and understood, and only by words that open the journal.
    ensures untouched { IsBeforeOpening result.0 → result.1 ≡ disk }
    ensures idle { (Opens (texts words.now) → ⊥) → result.1 ≡ disk }
{
    answer(alloc, words, deploy, signals, out, disk, selectors)
}

/// The same; that it is complete follows.
fn answer<S: Source, T: Source, K: Sink, D: Disk>(
    alloc: Global,
    words: &[&str],
    deploy: &mut S,
    signals: &mut T,
    out: &mut K,
    disk: D,
    selectors: &Selectors,
) -> (Status, D)
    requires { crew_in (texts words.now) ≡ None }
    ensures headline { IsLegalRun (texts words.now) (S.left deploy.old) (T.left signals.old) (K.contents out.old) (K.contents out.new) (D.disk disk) (D.disk result.1) result.0 }
    ensures read { result.0 ≡ Status.ReadFault → Rose (S.faults deploy.old) (S.faults deploy.new) ⊎ Rose (T.faults signals.old) (T.faults signals.new) }
    ensures write { result.0 ≡ Status.WriteFault → Rose (K.faults out.old) (K.faults out.new) }
    ensures disk { result.0 ≡ Status.DiskFault → Rose (D.disk disk).faults (D.disk result.1).faults }
    ensures end { (mode : Lines) (steps : ℕ) → Plays (texts words.now) mode steps → result.0 ≡ Status.Ok → IsAtEnd (T.left signals.new) }
    ensures too_large { result.0 ≡ Status.TooLarge Given.Signals → ConsumesSome (T.left signals.old) (T.left signals.new) (signals_limit + 1) }
    ensures unread { ((mode : Lines) (steps : ℕ) → Plays (texts words.now) mode steps → ⊥) → signals.new ≡ signals.old }
    ensures end_of_deploy { Reads (texts words.now) → result.0 ≡ Status.Ok → IsAtEnd (S.left deploy.new) }
    ensures deploy_too_large { result.0 ≡ Status.TooLarge Given.Deploy → ConsumesSome (S.left deploy.old) (S.left deploy.new) (deploy_limit + 1) }
    ensures deploy_unread { (Reads (texts words.now) → ⊥) → deploy.new ≡ deploy.old }
    ensures untouched { IsBeforeOpening result.0 → result.1 ≡ disk }
    ensures idle { (Opens (texts words.now) → ⊥) → result.1 ≡ disk }
{
    let command = match command_of(words) {
        Some(command) => command,
        None => return (refuse(out, Status::BadWords), disk),
    };
    match form_of(command) {
        Form::Check => (check(alloc, deploy, out), disk),
        Form::Play(run) => play_sources(alloc, deploy, signals, out, disk, run, selectors),
        Form::Tend(task) => tend(alloc, deploy, out, disk, task, selectors),
        Form::Gen(seeded) => (write_generated(alloc, deploy, out, seeded), disk),
        Form::Trial(seeded) => try_generated(alloc, deploy, out, disk, seeded, selectors),
    }
}

/// What a command asks of one worker.
enum Form {
    Check,
    /// Lines are played.
    Play(Run),
    /// A task is done with the journal.
    Tend(Task),
    /// Lines are generated and written.
    Gen(Seeded),
    /// Lines are generated and played.
    Trial(Seeded),
}

/// A run of one worker that writes its trace.
fn run_of(mode: Mode, steps: u64) -> Run
    ensures { result ≡ record { mode = mode; steps = steps; report = Report.Trace } }
{
    Run {
        mode,
        steps,
        report: Report::Trace,
    }
}

/// So many lines from a seed.
fn seeded_by(seed: u64, count: u64) -> Seeded
    requires seed { seed < 2 ^ 32 }
    requires count { count < 2 ^ 32 }
    ensures { result ≡ record { seed = seed; count = count } }
{
    Seeded {
        seed: seed as u32,
        count: count as u32,
    }
}

fn form_of(command: Command) -> Form
    requires range { is_in_range command ≡ true }
    requires one { crew_of command ≡ None }
    ensures { IsFormOf command result }
{
    match command {
        Command::Check => Form::Check,
        Command::Play { workers: _, steps } => Form::Play(run_of(Mode::AllNew, steps)),
        Command::Resume { workers: _, steps } => Form::Play(run_of(Mode::SkipTaken, steps)),
        Command::Show => Form::Tend(Task::Show),
        Command::Compact => Form::Tend(Task::Compact),
        Command::Gen { seed, count } => Form::Gen(seeded_by(seed, count)),
        Command::Trial { seed, count } => Form::Trial(seeded_by(seed, count)),
    }
}
