//! Checking a deployment: its bytes are read and understood, and the counts of its parts are written.
ghost use Rattle.std.specs.Prelude.{◌≡◌, ◌≢◌, ◌≤◌, ◌+◌, IfErr, IfOk, IfSome, OnOk, length};
ghost use Rattle.std.specs.Io.KnownBytes.{IsAtEnd};
ghost use Rattle.slee_disk.specs.Causes.{Rose};
ghost use Rattle.slee_disk.specs.Taken.{ConsumesSome};
ghost use Rattle.slee_run.specs.Text.{checked_text};
ghost use Rattle.slee_run.specs.Checking.{IsCounted, IsBarred, IsCheckedAt};
ghost use Rattle.slee_run.specs.Headline.{IsWritten};
ghost use Rattle.slee_run.specs.Answers.{IsCheckedBy};
ghost use Rattle.slee_run.specs.Given.{deploy_limit};
ghost use Rattle.slee_run.specs.Opening.{IsEarly};

use crate::finishing::{refuse, status_written};
use crate::printing::write_checked;
use crate::reading::{DEPLOY_LIMIT, status_of_fault, status_of_reading};
use crate::{Given, Status};
use deploy_report::{Counts, count_deployment};
use slee_disk::{Sink, Source, read_whole};
use std::alloc::Global;

/// Reads the deployment, and writes the counts of its parts, or the status of the refusal.
pub fn check<S: Source, K: Sink>(alloc: Global, deploy: &mut S, out: &mut K) -> Status
    ensures checked { IsCheckedBy (S.left deploy.old) (K.contents out.old) (K.contents out.new) result }
    ensures read { result ≡ Status.ReadFault → Rose (S.faults deploy.old) (S.faults deploy.new) }
    ensures write { result ≡ Status.WriteFault → Rose (K.faults out.old) (K.faults out.new) }
    ensures end { result ≡ Status.Ok → IsAtEnd (S.left deploy.new) }
    ensures too_large { result ≡ Status.TooLarge Given.Deploy → ConsumesSome (S.left deploy.old) (S.left deploy.new) (deploy_limit + 1) }
{
    match read_counts(alloc, deploy) {
        Ok(counts) => finish_check(out, counts),
        Err(stood) => refuse(out, stood),
    }
}

/// Writes the counts, and that all is done.
#[tactic(auto, using(crate::proofs::EndLemmas::written))]
fn finish_check<K: Sink>(out: &mut K, counts: Counts) -> Status
    ensures output { IsWritten (K.contents out.old) (K.contents out.new) (checked_text counts) Status.Ok result }
    ensures write { result ≡ Status.WriteFault → Rose (K.faults out.old) (K.faults out.new) }
    ensures which { result ≢ Status.WriteFault → result ≡ Status.Ok }
{
    status_written(write_checked(out, counts), Status::Ok)
}

/// The counts of the deployment that a source gives, or the status of the refusal.
fn read_counts<S: Source>(alloc: Global, deploy: &mut S) -> Result<Counts, Status>
    ensures counts { IfOk result (λ counts. IfSome (S.left deploy.old) (λ bytes. IsCounted bytes counts)) }
    ensures barred { IfErr result (λ status. IfSome (S.left deploy.old) (λ bytes. IsBarred bytes status)) }
    ensures early { IfErr result (λ status. IsEarly status) }
    ensures comes { IfErr result (λ status. IsCheckedAt status) }
    ensures read { IfErr result (λ status. status ≡ Status.ReadFault → Rose (S.faults deploy.old) (S.faults deploy.new)) }
    ensures too_large { IfErr result (λ status. status ≡ Status.TooLarge Given.Deploy → ConsumesSome (S.left deploy.old) (S.left deploy.new) (deploy_limit + 1)) }
    ensures end { OnOk result (IsAtEnd (S.left deploy.new)) }
{
    match read_whole(alloc, deploy, DEPLOY_LIMIT) {
        Ok(bytes) => counts_of(alloc, bytes.as_slice()),
        Err(fault) => Err(status_of_reading(fault, Given::Deploy)),
    }
}

/// The counts of the deployment that bytes are, or the status of the refusal.
fn counts_of(alloc: Global, bytes: &[u8]) -> Result<Counts, Status>
    requires { length bytes.now ≤ deploy_limit }
    ensures counts { IfOk result (λ counts. IsCounted bytes.now counts) }
    ensures barred { IfErr result (λ status. IsBarred bytes.now status) }
    ensures early { IfErr result (λ status. IsEarly status) }
    ensures comes { IfErr result (λ status. IsCheckedAt status) }
    ensures quiet { IfErr result (λ status. (status ≢ Status.ReadFault) × (status ≢ Status.TooLarge Given.Deploy)) }
{
    match count_deployment(alloc, bytes) {
        Ok(counts) => Ok(counts),
        Err(fault) => Err(status_of_fault(fault)),
    }
}
