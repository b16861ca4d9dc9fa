//! Writing the text of a run.
ghost use Rattle.std.specs.Prelude.{◌≡◌, ◌++◌, ◌≤◌, codes, length, take};
ghost use Rattle.commit_journal.specs.Words.{kind_word};
ghost use Rattle.deploy_report.specs.Texts.{counts_text};
ghost use Rattle.signal_script.specs.Words.{bad_word};
ghost use Rattle.slee_disk.specs.Sides.{side_word};
ghost use Rattle.slee_disk.specs.Writes.{Writes};
ghost use Rattle.trace_history.specs.Trace.{trace_text};
ghost use Rattle.usage_totals.specs.Totals.{usage_totals};
ghost use Rattle.slee_run.specs.Status.{status_line, given_word, pair_text, place_text};
ghost use Rattle.slee_run.specs.Summary.{count_line, counted_text};
ghost use Rattle.slee_run.specs.Text.{generation_line, output_text, report_text, short_text, totals_text};

use crate::finishing::Report;
use crate::summing::{Summary, summary_of};
use crate::totals::write_totals;
use crate::{Given, Status};
use commit_journal::JournalBad;
use deploy_json::ReadFault;
use deploy_report::{Counts, write_counts, write_fault};
use signal_script::SignalBad;
use slee_disk::{Failed, Side, Sink, write_number, write_whole};
use trace_history::History;
use usage_totals::Totals;

/// Writes what is written of so many entries, their usage totals and the status line.
pub fn write_report<K: Sink>(
    out: &mut K,
    history: &History,
    entries: u64,
    report: Report,
    totals: &Totals,
    status: &Status,
) -> Result<(), Failed>
    requires few { entries ≤ length history.now.entries }
    requires totals { totals.now ≡ usage_totals (take entries history.now.entries) }
    ensures { Writes K.contents K.faults out.old out.new (output_text report (take entries history.now.entries) status.now) result }
{
    write_entries(out, history, entries, report)?;
    write_totals(out, totals)?;
    write_status(out, status)
}

/// Writes what is written of so many entries where memory for their totals ran out.
pub fn write_short<K: Sink>(
    out: &mut K,
    history: &History,
    entries: u64,
    report: Report,
) -> Result<(), Failed>
    requires { entries ≤ length history.now.entries }
    ensures { Writes K.contents K.faults out.old out.new (short_text report (take entries history.now.entries)) result }
{
    match report {
        Report::Trace => write_trace_alone(out, history, entries),
        Report::Summary => write_status(out, &Status::NoMemory),
    }
}

/// Writes so many entries without their totals, and that memory ran out.
fn write_trace_alone<K: Sink>(out: &mut K, history: &History, entries: u64) -> Result<(), Failed>
    requires { entries ≤ length history.now.entries }
    ensures { Writes K.contents K.faults out.old out.new (trace_text (take entries history.now.entries) ++ status_line Status.NoMemory) result }
{
    write_whole(out, history.text(entries))?;
    write_status(out, &Status::NoMemory)
}

/// Writes so many entries, numbered from 1, or their counts.
fn write_entries<K: Sink>(
    out: &mut K,
    history: &History,
    entries: u64,
    report: Report,
) -> Result<(), Failed>
    requires { entries ≤ length history.now.entries }
    ensures { Writes K.contents K.faults out.old out.new (report_text report (take entries history.now.entries)) result }
{
    match report {
        Report::Trace => write_whole(out, history.text(entries)),
        Report::Summary => write_summary(out, summary_of(history.text(entries)), entries),
    }
}

/// Writes the counts of so many entries.
fn write_summary<K: Sink>(out: &mut K, summary: Summary, entries: u64) -> Result<(), Failed>
    ensures { Writes K.contents K.faults out.old out.new (counted_text summary entries) result }
{
    write_count(out, b"lines ", summary.inputs)?;
    write_count(out, b"entries ", entries)?;
    write_count(out, b"started ", summary.started)?;
    write_count(out, b"deliveries ", summary.deliveries)?;
    write_count(out, b"refused ", summary.refused)
}

/// Writes a label and its count.
fn write_count<K: Sink>(out: &mut K, label: &[u8], count: u64) -> Result<(), Failed>
    ensures { Writes K.contents K.faults out.old out.new (count_line label.now count) result }
{
    write_whole(out, label)?;
    write_number(out, count)?;
    write_whole(out, b"\n")
}

/// Writes the counts of a deployment and that all is done.
pub fn write_checked<K: Sink>(out: &mut K, counts: Counts) -> Result<(), Failed>
    ensures { Writes K.contents K.faults out.old out.new (counts_text counts ++ status_line Status.Ok) result }
{
    write_counts(out, counts)?;
    write_status(out, &Status::Ok)
}

/// Writes the generation of the side that compacting wrote, and that all is done.
pub fn write_compacted<K: Sink>(out: &mut K, generation: u64) -> Result<(), Failed>
    ensures { Writes K.contents K.faults out.old out.new (generation_line generation ++ status_line Status.Ok) result }
{
    write_count(out, b"generation ", generation)?;
    write_status(out, &Status::Ok)
}

/// Writes the last line.
pub fn write_status<K: Sink>(out: &mut K, status: &Status) -> Result<(), Failed>
    ensures { Writes K.contents K.faults out.old out.new (status_line status.now) result }
{
    match status {
        Status::Ok => write_whole(out, b"status 0 ok\n"),
        Status::BadWords => write_whole(out, b"status 2 bad-words\n"),
        Status::ReadFault => write_whole(out, b"status 3 read-fault\n"),
        Status::BadDeploy(fault) => write_bad_deploy(out, fault),
        Status::BadSignals { line, kind } => write_bad_signals(out, *line, *kind),
        Status::WriteFault => write_whole(out, b""),
        Status::DiskFault => write_whole(out, b"status 7 disk-fault\n"),
        Status::BadJournal { side, at, kind } => write_bad_journal(out, *side, *at, *kind),
        Status::OtherDeployment {
            kept_len,
            first_difference,
        } => write_other_deployment(out, *kept_len, *first_difference),
        Status::Full { length, adding } => write_full(out, *length, *adding),
        Status::StepsSpent { entries } => write_steps_spent(out, *entries),
        Status::NoMemory => write_whole(out, b"status 12 no-memory\n"),
        Status::TooLarge {
            what: Given::Deploy,
        } => { write_whole(out, b"status 13 too-large deploy\n") }
        Status::TooLarge {
            what: Given::Signals,
        } => { write_whole(out, b"status 13 too-large signals\n") }
    }
}

fn write_bad_deploy<K: Sink>(out: &mut K, fault: &ReadFault) -> Result<(), Failed>
    ensures { Writes K.contents K.faults out.old out.new (status_line (Status.BadDeploy fault.now)) result }
{
    write_whole(out, b"status 4 bad-deploy ")?;
    write_fault(out, fault)?;
    write_whole(out, b"\n")
}

fn write_bad_signals<K: Sink>(out: &mut K, line: u64, kind: SignalBad) -> Result<(), Failed>
    ensures { Writes K.contents K.faults out.old out.new (status_line (Status.BadSignals line kind)) result }
{
    write_whole(out, b"status 5 bad-signals ")?;
    write_number(out, line)?;
    write_whole(out, b" ")?;
    write_bad(out, kind)?;
    write_whole(out, b"\n")
}

fn write_bad<K: Sink>(out: &mut K, kind: SignalBad) -> Result<(), Failed>
    ensures { Writes K.contents K.faults out.old out.new (bad_word kind) result }
{
    write_whole(out, kind.word().as_bytes())
}

fn write_bad_journal<K: Sink>(
    out: &mut K,
    side: Side,
    at: u64,
    kind: JournalBad,
) -> Result<(), Failed>
    ensures { Writes K.contents K.faults out.old out.new (status_line (Status.BadJournal side at kind)) result }
{
    write_whole(out, b"status 8 bad-journal ")?;
    write_side(out, side)?;
    write_whole(out, b" ")?;
    write_number(out, at)?;
    write_whole(out, b" ")?;
    write_kind(out, kind)?;
    write_whole(out, b"\n")
}

fn write_side<K: Sink>(out: &mut K, side: Side) -> Result<(), Failed>
    ensures { Writes K.contents K.faults out.old out.new (side_word side) result }
{
    write_whole(out, side.word().as_bytes())
}

fn write_kind<K: Sink>(out: &mut K, kind: JournalBad) -> Result<(), Failed>
    ensures { Writes K.contents K.faults out.old out.new (kind_word kind) result }
{
    write_whole(out, kind.word().as_bytes())
}

fn write_other_deployment<K: Sink>(out: &mut K, kept: u64, place: u64) -> Result<(), Failed>
    ensures { Writes K.contents K.faults out.old out.new (status_line (Status.OtherDeployment kept place)) result }
{
    write_whole(out, b"status 9 other-deployment ")?;
    write_pair(out, kept, place)
}

fn write_full<K: Sink>(out: &mut K, size: u64, adding: u64) -> Result<(), Failed>
    ensures { Writes K.contents K.faults out.old out.new (status_line (Status.Full size adding)) result }
{
    write_whole(out, b"status 10 full ")?;
    write_pair(out, size, adding)
}

/// Writes two numbers, and ends the line.
fn write_pair<K: Sink>(out: &mut K, first: u64, second: u64) -> Result<(), Failed>
    ensures { Writes K.contents K.faults out.old out.new (pair_text first second) result }
{
    write_number(out, first)?;
    write_whole(out, b" ")?;
    write_number(out, second)?;
    write_whole(out, b"\n")
}

fn write_steps_spent<K: Sink>(out: &mut K, entries: u64) -> Result<(), Failed>
    ensures { Writes K.contents K.faults out.old out.new (status_line (Status.StepsSpent entries)) result }
{
    write_whole(out, b"status 11 steps-spent ")?;
    write_number(out, entries)?;
    write_whole(out, b"\n")
}
