//! Reading what a run is given: the deployment and the signal lines.
ghost use Rattle.std.specs.Prelude.{◌≡◌, ◌≢◌, ◌⊎◌, ◌≤◌, ◌<◌, ◌+◌, Ok, IfOk, IfErr, IfSome, OnOk, length};
ghost use Rattle.std.specs.Io.KnownBytes.{IsAtEnd};
ghost use Rattle.signal_script.specs.Signals.{signals_of};
ghost use Rattle.slee_disk.specs.Causes.{Rose};
ghost use Rattle.slee_disk.specs.Taken.{ConsumesSome};
ghost use Rattle.deploy_json.specs.Checking.{reading_of};
ghost use Rattle.slee_run.specs.Checking.{IsBarred, IsCheckedAt};
ghost use Rattle.slee_run.specs.Given.{deploy_limit, signals_limit, refusal_of, refusal_of_deploy, unlined, unread};
ghost use Rattle.slee_run.specs.Opening.{IsEarly};
ghost use Rattle.slee_run.specs.Answers.{AreInputs, AreInputsFrom, IsDeployedBy, IsDeployedFrom, IsRefusalBy, IsRefusalFor, IsUnreadAs, status_of_fault, status_of_lines, status_of_reading};

use crate::{Given, Status};
use deploy_json::{ReadFault as DeployFault, read_deployment};
use handler_check::Checked;
use signal_script::{SignalFault, Signals, read_signals};
use slee_disk::{ReadFault, Source, read_whole};
use slee_value::Blob;
use std::alloc::Global;

/// The most bytes of a deployment.
pub const DEPLOY_LIMIT: usize = 1_048_576;

/// The most bytes of signals.
const SIGNALS_LIMIT: usize = 16_777_216;

/// A deployment that was read, beside the bytes of its document.
pub struct Deployed {
    pub bytes: Blob,
    pub checked: Checked,
}

impl Drop for Deployed {
    fn drop(self) {
        let Self {
            bytes: _,
            checked: _,
        } = self;
    }
}

/// What is played: a deployment and signal lines.
pub struct Inputs {
    pub deployed: Deployed,
    pub lines: Signals,
}

impl Drop for Inputs {
    fn drop(self) {
        let Self {
            deployed: _,
            lines: _,
        } = self;
    }
}

/// Reads a source to its end, or answers the status of the refusal.
fn read_source<S: Source>(
    alloc: Global,
    source: &mut S,
    limit: usize,
    what: Given,
) -> Result<Blob, Status>
    ensures read { IfOk result (λ blob. IfSome (S.left source.old) (λ bytes. blob ≡ bytes)) }
    ensures within { IfOk result (λ blob. length blob ≤ limit) }
    ensures end { OnOk result (IsAtEnd (S.left source.new)) }
    ensures unread { IfErr result (λ status. IsUnreadAs what status) }
    ensures above { IfErr result (λ status. status ≡ Status.TooLarge what → IfSome (S.left source.old) (λ bytes. limit < length bytes)) }
    ensures failed { IfErr result (λ status. status ≡ Status.ReadFault → Rose (S.faults source.old) (S.faults source.new)) }
    ensures large { IfErr result (λ status. status ≡ Status.TooLarge what → ConsumesSome (S.left source.old) (S.left source.new) (limit + 1)) }
{
    match read_whole(alloc, source, limit) {
        Ok(bytes) => Ok(bytes),
        Err(fault) => Err(status_of_reading(fault, what)),
    }
}

/// The status of a source that couldn't be read whole.
pub fn status_of_reading(fault: ReadFault, what: Given) -> Status
    ensures { result ≡ status_of_reading fault what }
{
    match fault {
        ReadFault::Failed => Status::ReadFault,
        ReadFault::TooLarge => Status::TooLarge { what },
        ReadFault::NoMemory => Status::NoMemory,
    }
}

/// The deployment of a source, or the status of the refusal.
pub fn read_deployed<S: Source>(alloc: Global, deploy: &mut S) -> Result<Deployed, Status>
    ensures deployed { IfOk result (λ d. IsDeployedFrom (S.left deploy.old) d) }
    ensures refused { IfErr result (λ status. IfSome (S.left deploy.old) (λ bytes. IsRefusalBy (refusal_of_deploy bytes) status)) }
    ensures barred { IfErr result (λ status. IfSome (S.left deploy.old) (λ bytes. IsBarred bytes status)) }
    ensures early { IfErr result (λ status. IsEarly status × IsCheckedAt status) }
    ensures end { OnOk result (IsAtEnd (S.left deploy.new)) }
    ensures failed { IfErr result (λ status. status ≡ Status.ReadFault → Rose (S.faults deploy.old) (S.faults deploy.new)) }
    ensures large { IfErr result (λ status. status ≡ Status.TooLarge Given.Deploy → ConsumesSome (S.left deploy.old) (S.left deploy.new) (deploy_limit + 1)) }
{
    match read_source(alloc, deploy, DEPLOY_LIMIT, Given::Deploy) {
        Ok(bytes) => deployed_of(alloc, bytes),
        Err(stood) => Err(stood),
    }
}

/// The deployment and the lines of two sources, or the status of the refusal: both are read before one of them is understood.
pub fn read_inputs<S: Source, T: Source>(
    alloc: Global,
    deploy: &mut S,
    signals: &mut T,
) -> Result<Inputs, Status>
    ensures inputs { IfOk result (λ inputs. AreInputsFrom (S.left deploy.old) (T.left signals.old) inputs) }
    ensures refused { IfErr result (λ status. IfSome (S.left deploy.old) (λ d. IfSome (T.left signals.old) (λ bytes. IsRefusalBy (refusal_of d bytes) status))) }
    ensures early { IfErr result (λ status. IsEarly status × (status ≢ Status.BadWords)) }
    ensures end { OnOk result (IsAtEnd (S.left deploy.new) × IsAtEnd (T.left signals.new)) }
    ensures failed { IfErr result (λ status. status ≡ Status.ReadFault → Rose (S.faults deploy.old) (S.faults deploy.new) ⊎ Rose (T.faults signals.old) (T.faults signals.new)) }
    ensures large { IfErr result (λ status. status ≡ Status.TooLarge Given.Signals → ConsumesSome (T.left signals.old) (T.left signals.new) (signals_limit + 1)) }
    ensures deploy_large { IfErr result (λ status. status ≡ Status.TooLarge Given.Deploy → ConsumesSome (S.left deploy.old) (S.left deploy.new) (deploy_limit + 1)) }
{
    match read_source(alloc, deploy, DEPLOY_LIMIT, Given::Deploy) {
        Ok(document) => read_behind(alloc, document, signals),
        Err(stood) => Err(stood),
    }
}

/// The deployment of a document, and the lines of a source.
fn read_behind<T: Source>(alloc: Global, document: Blob, signals: &mut T) -> Result<Inputs, Status>
    requires { length document ≤ deploy_limit }
    ensures inputs { IfOk result (λ inputs. IsDeployedBy document inputs.deployed × IfSome (T.left signals.old) (λ bytes. AreInputs document bytes inputs)) }
    ensures refused { IfErr result (λ status. IfSome (T.left signals.old) (λ bytes. IsRefusalBy (refusal_of document bytes) status)) }
    ensures early { IfErr result (λ status. IsEarly status × (status ≢ Status.BadWords)) }
    ensures end { OnOk result (IsAtEnd (T.left signals.new)) }
    ensures failed { IfErr result (λ status. status ≡ Status.ReadFault → Rose (T.faults signals.old) (T.faults signals.new)) }
    ensures large { IfErr result (λ status. status ≡ Status.TooLarge Given.Signals → ConsumesSome (T.left signals.old) (T.left signals.new) (signals_limit + 1)) }
    ensures deploy_within { IfErr result (λ status. status ≢ Status.TooLarge Given.Deploy) }
{
    match read_source(alloc, signals, SIGNALS_LIMIT, Given::Signals) {
        Ok(text) => inputs_of(alloc, document, text.as_slice()),
        Err(stood) => Err(stood),
    }
}

/// The deployment of a document, and the lines of a text.
fn inputs_of(alloc: Global, document: Blob, text: &[u8]) -> Result<Inputs, Status>
    requires document { length document ≤ deploy_limit }
    requires text { length text.now ≤ signals_limit }
    ensures inputs { IfOk result (λ inputs. IsDeployedBy document inputs.deployed × AreInputs document text.now inputs) }
    ensures refused { IfErr result (λ status. IsRefusalFor (refusal_of document text.now) status) }
{
    match deployed_of(alloc, document) {
        Ok(deployed) => with_lines(alloc, deployed, text),
        Err(stood) => Err(stood),
    }
}

/// The lines of a text beside a deployment.
fn with_lines(alloc: Global, deployed: Deployed, text: &[u8]) -> Result<Inputs, Status>
    ensures deployed { IfOk result (λ inputs. inputs.deployed ≡ deployed) }
    ensures lines { IfOk result (λ inputs. signals_of text.now ≡ Ok inputs.lines) }
    ensures refused { IfErr result (λ status. IsRefusalFor (unlined (signals_of text.now)) status) }
{
    match lines_of(alloc, text) {
        Ok(lines) => Ok(Inputs { deployed, lines }),
        Err(stood) => Err(stood),
    }
}

/// The deployment that bytes are, or the status of the refusal.
fn deployed_of(alloc: Global, bytes: Blob) -> Result<Deployed, Status>
    ensures deployed { IfOk result (λ d. IsDeployedBy bytes d) }
    ensures refused { IfErr result (λ status. IsRefusalFor (unread (reading_of bytes)) status) }
    ensures barred { IfErr result (λ status. length bytes ≤ deploy_limit → IsBarred bytes status) }
{
    match read_deployment(alloc, bytes.as_slice()) {
        Ok(checked) => Ok(Deployed { bytes, checked }),
        Err(fault) => Err(status_of_fault(fault)),
    }
}

/// The status of bytes that are no deployment.
pub fn status_of_fault(fault: DeployFault) -> Status
    ensures { result ≡ status_of_fault fault }
{
    match fault {
        DeployFault::NoMemory => Status::NoMemory,
        fault => Status::BadDeploy(fault),
    }
}

/// The lines that bytes spell, or the status of the refusal.
fn lines_of(alloc: Global, bytes: &[u8]) -> Result<Signals, Status>
    ensures lines { IfOk result (λ lines. signals_of bytes.now ≡ Ok lines) }
    ensures refused { IfErr result (λ status. IsRefusalFor (unlined (signals_of bytes.now)) status) }
{
    match read_signals(alloc, bytes) {
        Ok(lines) => Ok(lines),
        Err(fault) => Err(status_of_lines(fault)),
    }
}

/// The status of bytes that aren't lines.
fn status_of_lines(fault: SignalFault) -> Status
    ensures { result ≡ status_of_lines fault }
{
    match fault {
        SignalFault::At { line, kind } => Status::BadSignals { line, kind },
        SignalFault::NoMemory => Status::NoMemory,
    }
}
