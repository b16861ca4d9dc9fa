//! Writing what a run came to, and its status.
ghost use Rattle.std.specs.Prelude.{◌≡◌, ◌≢◌, ◌≤◌, length, take, OnOk, OnErr};
ghost use Rattle.slee_disk.specs.Causes.{Rose};
ghost use Rattle.usage_totals.specs.Totals.{usage_totals};
ghost use Rattle.slee_run.specs.Status.{row_of, status_line};
ghost use Rattle.slee_run.specs.Text.{IsReachedTime, output_text, short_text};
ghost use Rattle.slee_run.specs.Headline.{IsWritten};
ghost use Rattle.slee_run.specs.Answers.{IsFinished};

use crate::Status;
use crate::printing::{write_report, write_short, write_status};
use slee_container::Container;
use slee_disk::{Disk, Failed, Sink};
use slee_value::NoMemory;
use std::alloc::Global;
use trace_history::History;
use usage_totals::{Totals, usage_totals};

/// What is written of the entries of a run.
#[derive(Clone, Copy, Debug, PartialEq, Eq)]
pub enum Report {
    /// Their trace.
    Trace,
    /// Counts of what they are.
    Summary,
}

/// Writes the status alone.
pub fn refuse<K: Sink>(out: &mut K, stood: Status) -> Status
    ensures output { IsWritten (K.contents out.old) (K.contents out.new) (status_line stood) stood result }
    ensures write { stood ≢ Status.WriteFault → result ≡ Status.WriteFault → Rose (K.faults out.old) (K.faults out.new) }
{
    let written = write_status(out, &stood);
    status_written(written, stood)
}

/// Writes the acknowledged entries of a container, the usage totals of these and the status.
pub fn finish<'d, K: Sink, D: Disk>(
    alloc: Global,
    out: &mut K,
    container: &Container<'d, D>,
    report: Report,
    stood: Status,
) -> Status
    requires unwritten { stood ≢ Status.WriteFault }
    requires reached { IsReachedTime (row_of stood).time }
    ensures finished { IsFinished report (take container.now.acked container.now.history) stood (K.contents out.old) (K.contents out.new) result }
    ensures write { result ≡ Status.WriteFault → Rose (K.faults out.old) (K.faults out.new) }
    ensures which { result ≢ Status.WriteFault → result ≢ Status.NoMemory → result ≡ stood }
{
    finish_history(
        alloc,
        out,
        container.history(),
        container.acked(),
        report,
        stood,
    )
}

/// Writes so many entries of a history, their usage totals and the status.
fn finish_history<K: Sink>(
    alloc: Global,
    out: &mut K,
    history: &History,
    entries: u64,
    report: Report,
    stood: Status,
) -> Status
    requires few { entries ≤ length history.now.entries }
    requires unwritten { stood ≢ Status.WriteFault }
    requires reached { IsReachedTime (row_of stood).time }
    ensures finished { IsFinished report (take entries history.now.entries) stood (K.contents out.old) (K.contents out.new) result }
    ensures write { result ≡ Status.WriteFault → Rose (K.faults out.old) (K.faults out.new) }
    ensures which { result ≢ Status.WriteFault → result ≢ Status.NoMemory → result ≡ stood }
{
    match usage_totals(alloc, history, entries) {
        Ok(totals) => finish_whole(out, history, entries, report, &totals, stood),
        Err(NoMemory) => finish_short(out, history, entries, report),
    }
}

/// Writes a report with its totals, and the status.
fn finish_whole<K: Sink>(
    out: &mut K,
    history: &History,
    entries: u64,
    report: Report,
    totals: &Totals,
    stood: Status,
) -> Status
    requires few { entries ≤ length history.now.entries }
    requires unwritten { stood ≢ Status.WriteFault }
    requires totals { totals.now ≡ usage_totals (take entries history.now.entries) }
    ensures output { IsWritten (K.contents out.old) (K.contents out.new) (output_text report (take entries history.now.entries) stood) stood result }
    ensures write { result ≡ Status.WriteFault → Rose (K.faults out.old) (K.faults out.new) }
{
    let written = write_report(out, history, entries, report, totals, &stood);
    status_written(written, stood)
}

/// Writes what can be written where memory ran out: a trace without its totals, and of a summary nothing.
fn finish_short<K: Sink>(out: &mut K, history: &History, entries: u64, report: Report) -> Status
    requires { entries ≤ length history.now.entries }
    ensures output { IsWritten (K.contents out.old) (K.contents out.new) (short_text report (take entries history.now.entries)) Status.NoMemory result }
    ensures write { result ≡ Status.WriteFault → Rose (K.faults out.old) (K.faults out.new) }
{
    let written = write_short(out, history, entries, report);
    status_written(written, Status::NoMemory)
}

/// The status that stood, unless writing it failed.
pub fn status_written(written: Result<(), Failed>, stood: Status) -> Status
    ensures ok { OnOk written (result ≡ stood) }
    ensures err { OnErr written (result ≡ Status.WriteFault) }
{
    match written {
        Ok(()) => stood,
        Err(_) => Status::WriteFault,
    }
}
