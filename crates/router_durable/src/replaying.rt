//! Replaying what a journal keeps.
ghost use Rattle.std.specs.Prelude.{◌≡◌, ◌&&◌, None, Some, map, not, IfErr, IfOk, IsTrue, OnOk};
ghost use Rattle.std.specs.Str.{bytes_eq};
ghost use Rattle.commit_journal.specs.Spelling.{format_number};
ghost use Rattle.commit_journal.specs.Views.{payload_of};
ghost use Rattle.deploy_model.specs.Resolving.{deployed_of};
ghost use Rattle.router_core.specs.States.{HasRoomFor, IsOwn};
ghost use Rattle.router_laws_reading.specs.Holding.{CanHold};
ghost use Rattle.router_state.specs.Restoring.{state_of_snapshot};
ghost use Rattle.script_types.specs.ProgramOf.{kept_program};
ghost use Rattle.slee_descriptor.specs.declared.deployment.Deployment.{Deployment as Served};
ghost use Rattle.router_plans.specs.Plans.{IsPlanOf};
ghost use Rattle.router_steps.specs.Histories.{is_choice};
ghost use Rattle.router_steps.specs.Payloads.{choice_in};
ghost use Rattle.router_steps.specs.Steps.{after, is_enabled};
ghost use Rattle.router_durable.specs.Choices.{after_all};
ghost use Rattle.router_durable.specs.Facts.{initial_of};
ghost use Rattle.router_durable.specs.Opening.{IsReplayCause};
ghost use Rattle.router_durable.specs.Recovery.{after_if, choices_in, kept_part, misfit, past_on, wrong_at, wrong_by};
ghost use Rattle.router_durable.specs.Replaying.{IsMisfit, IsWrong, Replays, misfit_at, refusal_of};

use crate::OpenFault;
use crate::dropping::{drop_choice, drop_entry};
use crate::limits::{CLOCK_LEN, INPUT_FRAME};
use crate::planning::{Planning, plan_any};
use commit_journal::{Journal, JournalBad, Record};
use router_core::{Plan, State, StateFault};
use router_payloads::choice_in;
use signal_script::LINE_LIMIT;
use slee_descriptor::Deployment;
use slee_disk::{Disk, Side};
use std::snapshot::Snapshot;
use trace_history::Choice;

/// Why a payload isn't replayed.
#[derive(Clone, Copy)]
pub(crate) enum PayloadFault {
    Wrong(JournalBad),
    NoMemory,
}

/// Why records aren't replayed.
#[derive(Clone, Copy)]
pub(crate) enum ReplayFault {
    Misfit(u64, JournalBad),
    NoMemory,
}

/// Whether the bytes are others than those.
fn is_other(bytes: &[u8], those: &[u8]) -> bool
    ensures { result ≡ not (bytes_eq bytes.now those.now) }
{
    bytes != those
}

/// What a journal of the format keeps of a payload of the second format.
#[tactic(auto, using(crate::proofs::Recovers::kept_whole, crate::proofs::Recovers::kept_behind, crate::proofs::Recovers::kept_short))]
fn kept_part(format: u8, payload: &[u8]) -> &[u8]
    ensures { result.now ≡ kept_part format payload.now }
{
    if format == 2 {
        return payload;
    }
    if payload.len() <= CLOCK_LEN {
        return &[];
    }
    &payload[CLOCK_LEN..]
}

/// Whether the choice of a payload can be made at all: a line may be too long.
#[tactic(auto, using(crate::proofs::LineLemmas::input_two, crate::proofs::LineLemmas::input_other))]
fn is_choice(format: u8, choice: &Choice, payload: &[u8]) -> bool
    requires { choice_in format payload.now ≡ Some choice.now }
    ensures { result ≡ is_choice choice.now }
{
    let Choice::Input(_) = choice else {
        return true;
    };
    if format == 2 {
        payload.len() <= CLOCK_LEN + INPUT_FRAME + LINE_LIMIT
    } else {
        payload.len() <= INPUT_FRAME + LINE_LIMIT
    }
}

/// Whether the choice of a payload may be made here.
fn may_be_made(
    format: u8,
    state: &State,
    deployment: &Deployment,
    choice: &Choice,
    payload: &[u8],
) -> bool
    requires own { IsOwn deployment.now state.now.state }
    requires read { choice_in format payload.now ≡ Some choice.now }
    ensures { result ≡ (is_choice choice.now && is_enabled state.now.state choice.now) }
{
    is_choice(format, choice, payload) && state.is_enabled(deployment, choice)
}

/// Makes the memory for a plan, if the payload is what a journal of the format keeps of it.
fn reserve_kept(
    format: u8,
    state: &mut State,
    payload: &[u8],
    plan: &Plan,
) -> Result<(), PayloadFault>
    requires made { IsPlanOf state.old.state plan.now.choice plan.now }
    ensures same { state.new.state ≡ state.old.state }
    ensures fits { OnOk result (wrong_by format state.old.state payload.now (Some plan.now.choice) ≡ None) }
    ensures room { OnOk result (HasRoomFor plan.now state.new) }
    ensures bad { IfErr result (λ e. IsWrong e (wrong_by format state.old.state payload.now (Some plan.now.choice))) }
{
    if is_other(payload, kept_part(format, plan.payload())) {
        return Err(PayloadFault::Wrong(JournalBad::Replay));
    }
    let Ok(()) = state.reserve(plan) else {
        return Err(PayloadFault::NoMemory);
    };
    Ok(())
}

/// Makes the step of a plan, if the payload is what a journal of the format keeps of it.
fn replay_plan(
    format: u8,
    state: &mut State,
    payload: &[u8],
    plan: Plan,
) -> Result<(), PayloadFault>
    requires made { IsPlanOf state.old.state plan.choice plan }
    ensures fits { OnOk result (wrong_by format state.old.state payload.now (Some plan.choice) ≡ None) }
    ensures ok { OnOk result (state.new.state ≡ after state.old.state plan.choice) }
    ensures own { OnOk result ((d : Served) → IsOwn d state.old.state → IsOwn d state.new.state) }
    ensures bad { IfErr result (λ e. IsWrong e (wrong_by format state.old.state payload.now (Some plan.choice))) }
{
    match reserve_kept(format, state, payload, &plan) {
        Ok(()) => {
            drop_entry(state.apply(plan));
            Ok(())
        }
        Err(fault) => Err(fault),
    }
}

/// Makes the step of the choice that a payload spells.
fn replay_choice(
    planning: Planning<'_>,
    format: u8,
    state: &mut State,
    payload: &[u8],
    choice: Choice,
) -> Result<(), PayloadFault>
    requires own { IsOwn planning.deployment.now state.old.state }
    requires read { choice_in format payload.now ≡ Some choice }
    ensures fits { OnOk result (wrong_by format state.old.state payload.now (Some choice) ≡ None) }
    ensures ok { OnOk result (state.new.state ≡ after state.old.state choice) }
    ensures own { OnOk result (IsOwn planning.entry.deployment.now state.new.state) }
    ensures bad { IfErr result (λ e. IsWrong e (wrong_by format state.old.state payload.now (Some choice))) }
{
    if !may_be_made(format, state, planning.deployment, &choice, payload) {
        drop_choice(choice);
        return Err(PayloadFault::Wrong(JournalBad::Replay));
    }
    match plan_any(planning, state, choice) {
        Ok(plan) => replay_plan(format, state, payload, plan),
        Err(_) => Err(PayloadFault::NoMemory),
    }
}

/// Makes the step of a payload.
fn replay_one(
    planning: Planning<'_>,
    format: u8,
    state: &mut State,
    payload: &[u8],
) -> Result<(), PayloadFault>
    requires { IsOwn planning.deployment.now state.old.state }
    ensures fits { OnOk result (wrong_at format state.old.state payload.now ≡ None) }
    ensures ok { OnOk result (state.new.state ≡ after_if state.old.state (choice_in format payload.now)) }
    ensures own { OnOk result (IsOwn planning.entry.deployment.now state.new.state) }
    ensures bad { IfErr result (λ e. IsWrong e (wrong_at format state.old.state payload.now)) }
{
    match choice_in(planning.alloc, format, payload) {
        Ok(Some(choice)) => replay_choice(planning, format, state, payload, choice),
        Ok(None) => Err(PayloadFault::Wrong(JournalBad::Record)),
        Err(_) => Err(PayloadFault::NoMemory),
    }
}

/// Why records aren't replayed, where the one whose gate stands there isn't.
fn misfit_at(at: u64, fault: PayloadFault) -> ReplayFault
    ensures { result ≡ misfit_at at fault }
{
    match fault {
        PayloadFault::Wrong(kind) => ReplayFault::Misfit(at, kind),
        PayloadFault::NoMemory => ReplayFault::NoMemory,
    }
}

/// Why a journal isn't opened, where the records of this side aren't replayed.
fn refusal_of(side: Side, fault: ReplayFault) -> OpenFault
    ensures { result ≡ refusal_of side fault }
{
    match fault {
        ReplayFault::Misfit(at, kind) => OpenFault::BadJournal { side, at, kind },
        ReplayFault::NoMemory => OpenFault::NoMemory,
    }
}

/// Makes the steps of records, in order.
fn replay_all(
    planning: Planning<'_>,
    format: u8,
    records: &[Record],
    state: &mut State,
) -> Result<(), ReplayFault>
    requires { IsOwn planning.deployment.now state.old.state }
    ensures fits { OnOk result (misfit format state.old.state records.now ≡ None) }
    ensures ok { OnOk result (state.new.state ≡ after_all state.old.state (choices_in format (map payload_of records.now))) }
    ensures own { OnOk result (IsOwn planning.entry.deployment.now state.new.state) }
    ensures bad { IfErr result (λ e. IsMisfit e (misfit format state.old.state records.now)) }
{
    for record in records {
        match replay_one(planning, format, state, record.payload.as_slice()) {
            Ok(()) => {}
            Err(fault) => return Err(misfit_at(record.at, fault)),
        }
    }
    Ok(())
}

/// The state for which the snapshot of a journal stands.
fn started<D: Disk>(planning: Planning<'_>, journal: &Journal<D>) -> Result<State, OpenFault>
    requires own { IsOwn planning.deployment.now (initial_of planning.deployment.now.parts planning.deployment.now.codes) }
    requires held { CanHold (deployed_of planning.deployment.now.parts) }
    ensures started { IfOk result (λ s. state_of_snapshot (format_number journal.now.kept.head.format) (deployed_of planning.entry.deployment.now.parts) (kept_program planning.entry.deployment.now.codes) journal.now.kept.head.snapshot ≡ Some s.state) }
    ensures own { IfOk result (λ s. IsOwn planning.entry.deployment.now s.state) }
    ensures bad { IfErr result (λ e. IsReplayCause (past_on (initial_of planning.entry.deployment.now.parts planning.entry.deployment.now.codes) journal.now.kept.side journal.now.kept.head journal.now.records) e) }
{
    let Planning {
        alloc,
        deployment,
        ..
    } = planning;
    let snapshot = journal.snapshot();
    if snapshot.is_empty() {
        return match State::initial(alloc, deployment) {
            Ok(state) => Ok(state),
            Err(_) => Err(OpenFault::NoMemory),
        };
    }
    match State::from_bytes(alloc, deployment, journal.format(), snapshot) {
        Ok(state) => Ok(state),
        Err(StateFault::Bad) => Err(OpenFault::BadJournal {
            side: journal.side(),
            at: 0,
            kind: JournalBad::Snapshot,
        }),
        Err(StateFault::NoMemory) => Err(OpenFault::NoMemory),
    }
}

/// What a journal stands for: the state on which its records follow, and the one behind them.
#[derive(Drop)]
pub(crate) struct Restored {
    pub start: Snapshot<State>,
    pub state: State,
}

/// Makes the steps of all records that a journal was opened with, from the state for which its snapshot stands, or tells why that
/// can't be.
pub(crate) fn replayed<D: Disk>(
    planning: Planning<'_>,
    journal: &Journal<D>,
) -> Result<Restored, OpenFault>
    requires own { IsOwn planning.deployment.now (initial_of planning.deployment.now.parts planning.deployment.now.codes) }
    requires held { CanHold (deployed_of planning.deployment.now.parts) }
    ensures ok { IfOk result (λ r. Replays (deployed_of planning.entry.deployment.now.parts) (kept_program planning.entry.deployment.now.codes) journal.now.kept.head journal.now.records r.start.value.state r.state.state) }
    ensures own { IfOk result (λ r. IsOwn planning.entry.deployment.now r.state.state) }
    ensures bad { IfErr result (λ e. IsReplayCause (past_on (initial_of planning.entry.deployment.now.parts planning.entry.deployment.now.codes) journal.now.kept.side journal.now.kept.head journal.now.records) e) }
{
    let mut state = match started(planning, journal) {
        Ok(state) => state,
        Err(fault) => return Err(fault),
    };
    let start = Snapshot::of(&state);
    match replay_all(planning, journal.format(), journal.records(), &mut state) {
        Ok(()) => Ok(Restored { start, state }),
        Err(fault) => Err(refusal_of(journal.side(), fault)),
    }
}
