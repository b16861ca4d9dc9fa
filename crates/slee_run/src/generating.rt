//! Generated lines: written, or played.
ghost use Rattle.std.specs.Prelude.{◌≡◌, ◌+◌, ◌++◌, IfOk, IfErr, IfSome, OnOk};
ghost use Rattle.std.specs.Io.KnownBytes.{IsAtEnd};
ghost use Rattle.deploy_model.specs.Resolving.{deployed_of};
ghost use Rattle.signal_gen.specs.Generator.{generated};
ghost use Rattle.slee_disk.specs.Causes.{Rose};
ghost use Rattle.slee_disk.specs.Taken.{ConsumesSome};
ghost use Rattle.slee_run.specs.Checking.{IsBarred, IsCheckedAt};
ghost use Rattle.slee_run.specs.Given.{deploy_limit, refusal_of_deploy};
ghost use Rattle.slee_run.specs.Opening.{IsBeforeOpening, IsEarly};
ghost use Rattle.slee_run.specs.Text.{lines_text};
ghost use Rattle.slee_run.specs.Answers.{IsDeployedFrom, IsGeneratedBy, IsLinesOut, IsRefusalBy, IsTriedBy};

use crate::finishing::{Report, refuse, status_written};
use crate::reading::{Deployed, Inputs, read_deployed};
use crate::running::{Run, play_inputs};
use crate::{Given, Status};
use initial_select::Selectors;
use signal_gen::generate;
use signal_script::{Signal, Signals, print_signal};
use slee_container::Mode;
use slee_disk::{Disk, Sink, Source, write_whole};
use slee_value::NoMemory;
use std::alloc::Global;

/// The most entries of a trial.
const TRIAL_STEPS: u64 = 1_000_000;

/// How many lines are generated, and from what seed.
#[derive(Clone, Copy, Debug, PartialEq, Eq)]
pub struct Seeded {
    pub seed: u32,
    pub count: u32,
}

/// Reads a deployment, and generates lines for it, or answers the status of the refusal.
fn read_generated<S: Source>(
    alloc: Global,
    deploy: &mut S,
    seeded: Seeded,
) -> Result<Inputs, Status>
    ensures deployed { IfOk result (λ inputs. IsDeployedFrom (S.left deploy.old) inputs.deployed) }
    ensures lines { IfOk result (λ inputs. inputs.lines ≡ generated seeded.seed seeded.count (deployed_of inputs.deployed.checked.parts)) }
    ensures refused { IfErr result (λ status. IfSome (S.left deploy.old) (λ bytes. IsRefusalBy (refusal_of_deploy bytes) status)) }
    ensures barred { IfErr result (λ status. IfSome (S.left deploy.old) (λ bytes. IsBarred bytes status)) }
    ensures early { IfErr result (λ status. IsEarly status × IsCheckedAt status) }
    ensures end { OnOk result (IsAtEnd (S.left deploy.new)) }
    ensures failed { IfErr result (λ status. status ≡ Status.ReadFault → Rose (S.faults deploy.old) (S.faults deploy.new)) }
    ensures large { IfErr result (λ status. status ≡ Status.TooLarge Given.Deploy → ConsumesSome (S.left deploy.old) (S.left deploy.new) (deploy_limit + 1)) }
{
    match read_deployed(alloc, deploy) {
        Ok(deployed) => generated_for(alloc, deployed, seeded),
        Err(stood) => Err(stood),
    }
}

/// Lines that are generated for a deployment, beside it.
fn generated_for(alloc: Global, deployed: Deployed, seeded: Seeded) -> Result<Inputs, Status>
    ensures deployed { IfOk result (λ inputs. inputs.deployed ≡ deployed) }
    ensures lines { IfOk result (λ inputs. inputs.lines ≡ generated seeded.seed seeded.count (deployed_of deployed.checked.parts)) }
    ensures refused { IfErr result (λ status. status ≡ Status.NoMemory) }
{
    match generate(
        alloc,
        seeded.seed,
        seeded.count,
        deployed.checked.deployment(),
    ) {
        Ok(lines) => Ok(Inputs { deployed, lines }),
        Err(NoMemory) => Err(Status::NoMemory),
    }
}

/// Writes generated lines, and no status where all goes well.
pub fn write_generated<S: Source, K: Sink>(
    alloc: Global,
    deploy: &mut S,
    out: &mut K,
    seeded: Seeded,
) -> Status
    ensures generated { IsGeneratedBy seeded.seed seeded.count (S.left deploy.old) (K.contents out.old) (K.contents out.new) result }
    ensures read { result ≡ Status.ReadFault → Rose (S.faults deploy.old) (S.faults deploy.new) }
    ensures write { result ≡ Status.WriteFault → Rose (K.faults out.old) (K.faults out.new) }
    ensures end { result ≡ Status.Ok → IsAtEnd (S.left deploy.new) }
    ensures large { result ≡ Status.TooLarge Given.Deploy → ConsumesSome (S.left deploy.old) (S.left deploy.new) (deploy_limit + 1) }
{
    match read_generated(alloc, deploy, seeded) {
        Ok(inputs) => write_lines(alloc, out, &inputs.lines),
        Err(stood) => refuse(out, stood),
    }
}

/// Writes lines. All memory is taken before anything is written.
fn write_lines<K: Sink>(alloc: Global, out: &mut K, lines: &Signals) -> Status
    ensures lines { IsLinesOut lines.now (K.contents out.old) (K.contents out.new) result }
    ensures write { result ≡ Status.WriteFault → Rose (K.faults out.old) (K.faults out.new) }
    ensures quiet { (result ≡ Status.ReadFault → ⊥) × (result ≡ Status.TooLarge Given.Deploy → ⊥) }
{
    match text_of(alloc, lines) {
        Ok(text) => status_written(write_whole(out, &text), Status::Ok),
        Err(NoMemory) => refuse(out, Status::NoMemory),
    }
}

/// The text of lines, each with its newline.
fn text_of(alloc: Global, lines: &Signals) -> Result<Vec<u8>, NoMemory>
    ensures { IfOk result (λ text. text.items ≡ lines_text lines.now) }
{
    let mut text = Vec::new(alloc);
    add_lines(lines.as_slice(), &mut text)?;
    Ok(text)
}

/// Adds lines to a text, each with its newline.
fn add_lines(lines: &[Signal], text: &mut Vec<u8>) -> Result<(), NoMemory>
    ensures { OnOk result (text.new.items ≡ text.old.items ++ lines_text lines.now) }
{
    for line in lines {
        print_signal(line, text)?;
        text.push(b'\n')?;
    }
    Ok(())
}

/// Plays generated lines, and writes a summary of what came of them.
pub fn try_generated<S: Source, K: Sink, D: Disk>(
    alloc: Global,
    deploy: &mut S,
    out: &mut K,
    disk: D,
    seeded: Seeded,
    selectors: &Selectors,
) -> (Status, D)
    ensures tried { IsTriedBy seeded.seed seeded.count (S.left deploy.old) (K.contents out.old) (K.contents out.new) (D.disk disk) (D.disk result.1) result.0 }
    ensures read { result.0 ≡ Status.ReadFault → Rose (S.faults deploy.old) (S.faults deploy.new) }
    ensures write { result.0 ≡ Status.WriteFault → Rose (K.faults out.old) (K.faults out.new) }
    ensures disk { result.0 ≡ Status.DiskFault → Rose (D.disk disk).faults (D.disk result.1).faults }
    ensures end { result.0 ≡ Status.Ok → IsAtEnd (S.left deploy.new) }
    ensures large { result.0 ≡ Status.TooLarge Given.Deploy → ConsumesSome (S.left deploy.old) (S.left deploy.new) (deploy_limit + 1) }
    ensures untouched { IsBeforeOpening result.0 → result.1 ≡ disk }
    ensures quiet { result.0 ≡ Status.TooLarge Given.Signals → ⊥ }
{
    let run = Run {
        mode: Mode::AllNew,
        steps: TRIAL_STEPS,
        report: Report::Summary,
    };
    match read_generated(alloc, deploy, seeded) {
        Ok(inputs) => play_inputs(alloc, &inputs, out, disk, run, selectors),
        Err(stood) => (refuse(out, stood), disk),
    }
}
