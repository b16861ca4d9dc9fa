//! What a worker does under the turn.
ghost use Rattle.std.specs.Prelude.{◌≡◌, ◌<◌, None, Some, false, length};
ghost use Rattle.router_state.specs.Next.{next};
ghost use Rattle.router_state.specs.declared.kindred.Kindred.TheVariants as kinds;
ghost use Rattle.slee_container.specs.Claims.{is_claimed};
ghost use Rattle.slee_container.specs.Container.{state_of};
ghost use Rattle.worker_gate.specs.Hands.{WasTried};
ghost use Rattle.worker_gate.specs.Moves.{ComesTo, GoesOn, MayEnd};

use crate::hand::{Held, Moved, Tried};
use crate::recall::Recall;
use crate::settling::settle;
use initial_select::Selectors;
use router_durable::StepFault;
use router_state::Kindred;
use slee_container::{Container, Work};
use slee_disk::Disk;
use slee_value::{ActivityId, NoMemory};

/// How many steps a worker makes at most before it lets others have the turn.
const TURN_STEPS: u64 = 16;

/// What a step comes to. Want of memory stops the container.
#[tactic(auto, using(crate::proofs::MoveLemmas::same_goes, crate::proofs::MoveLemmas::stays))]
fn after_step<'d, D: Disk>(container: &mut Container<'d, D>, made: Result<u64, StepFault>) -> Moved
    requires { MayEnd container.old made }
    ensures goes { GoesOn container.old container.new }
    ensures comes { ComesTo container.new result }
{
    match made {
        Ok(_) => Moved::Goes(Held::Nothing),
        Err(StepFault::NoMemory) => {
            container.halt_memory();
            Moved::NoMemory
        }
        Err(StepFault::DiskFault) => Moved::Leaves,
        Err(StepFault::Full { .. }) => Moved::Leaves,
        Err(StepFault::Spent) => Moved::Leaves,
    }
}

/// Takes the next line.
fn take_line<'d, D: Disk>(container: &mut Container<'d, D>) -> Moved
    requires live { container.old.stop ≡ None }
    requires left { container.old.taken < length container.old.setup.lines }
    ensures goes { GoesOn container.old container.new }
    ensures comes { ComesTo container.new result }
{
    let made = container.take_input();
    after_step(container, made)
}

/// Claims the delivery that is next on an activity, and looks where its handler asked the last time.
#[tactic(auto, using(crate::proofs::MoveLemmas::prepared_goes, crate::proofs::MoveLemmas::prepared_held, crate::proofs::MoveLemmas::never_none, crate::proofs::MoveLemmas::same_goes, crate::proofs::MoveLemmas::goes_further))]
fn claim<'d, D: Disk>(
    container: &mut Container<'d, D>,
    activity: ActivityId,
    recall: &Recall,
) -> Moved
    requires next { next (state_of container.old) activity.0 ≡ Some kinds.Deliver }
    requires unclaimed { is_claimed container.old.claims activity.0 ≡ false }
    ensures goes { GoesOn container.old container.new }
    ensures comes { ComesTo container.new result }
{
    match container.prepare(activity) {
        Ok(Some(ticket)) => {
            let answers = recall.answers(container, &ticket);
            Moved::Goes(Held::Fresh(ticket, answers))
        }
        Ok(None) => unreachable!(),
        Err(NoMemory) => {
            container.halt_memory();
            Moved::NoMemory
        }
    }
}

/// Does what is next on an activity: makes the step, or claims the delivery.
#[tactic(auto, using(crate::proofs::MoveLemmas::initial_next, crate::proofs::MoveLemmas::finish_next, crate::proofs::MoveLemmas::made_goes, crate::proofs::MoveLemmas::made_ends, crate::proofs::MoveLemmas::goes_further))]
fn step<'d, D: Disk>(
    container: &mut Container<'d, D>,
    activity: ActivityId,
    kindred: Kindred,
    selectors: &Selectors,
    recall: &Recall,
) -> Moved
    requires live { container.old.stop ≡ None }
    requires next { next (state_of container.old) activity.0 ≡ Some kindred }
    requires unclaimed { is_claimed container.old.claims activity.0 ≡ false }
    ensures goes { GoesOn container.old container.new }
    ensures comes { ComesTo container.new result }
{
    match kindred {
        Kindred::Initial => {
            let made = container.initial(activity, selectors);
            after_step(container, made)
        }
        Kindred::Deliver => claim(container, activity, recall),
        Kindred::Finish => {
            let made = container.finish(activity);
            after_step(container, made)
        }
    }
}

/// Writes what isn't acknowledged yet before it waits.
#[tactic(auto, using(crate::proofs::MoveLemmas::flushed_goes, crate::proofs::MoveLemmas::flushed_stops))]
fn rest<'d, D: Disk>(container: &mut Container<'d, D>) -> Moved
    requires live { container.old.stop ≡ None }
    ensures goes { GoesOn container.old container.new }
    ensures comes { ComesTo container.new result }
{
    match container.flush() {
        Ok(()) => Moved::Waits,
        Err(_) => Moved::Leaves,
    }
}

/// Does what is to be done next.
#[tactic(auto, using(crate::proofs::MoveLemmas::stays, crate::proofs::MoveLemmas::last_leaves, crate::proofs::MoveLemmas::idle_lives))]
fn advance<'d, D: Disk>(
    container: &mut Container<'d, D>,
    selectors: &Selectors,
    recall: &Recall,
) -> Moved
    ensures goes { GoesOn container.old container.new }
    ensures comes { ComesTo container.new result }
{
    match container.next_work() {
        Work::Step(activity, kindred) => step(container, activity, kindred, selectors, recall),
        Work::Line => take_line(container),
        Work::Idle { claims: _ } => rest(container),
        Work::Stopped(_) => Moved::Leaves,
        Work::Spent => Moved::Leaves,
        Work::Done => Moved::Leaves,
    }
}

/// One turn: what was tried is settled, and while nothing is left in hand, the next thing is done.
#[tactic(auto, using(crate::proofs::MoveLemmas::stays, crate::proofs::MoveLemmas::stop_leaves, crate::proofs::MoveLemmas::goes_further))]
pub(crate) fn play<'d, D: Disk>(
    container: &mut Container<'d, D>,
    tried: Tried,
    selectors: &Selectors,
    recall: &Recall,
) -> Moved
    requires tried { WasTried container.old.setup.origin.initial.program tried }
    ensures goes { GoesOn container.old container.new }
    ensures comes { ComesTo container.new result }
{
    if container.stop().is_some() {
        return Moved::Leaves;
    }
    let mut moved = settle(container, tried);
    for _ in 0..TURN_STEPS {
        match moved {
            Moved::Goes(Held::Nothing) => moved = advance(container, selectors, recall),
            other => return other,
        }
    }
    moved
}
