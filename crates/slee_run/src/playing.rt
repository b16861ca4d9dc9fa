//! Playing what a container has to do, a step at a time.
ghost use Rattle.std.specs.Prelude.{◌≡◌, ◌≤◌, [], None, Some, length, false};
ghost use Rattle.router_state.specs.Next.{next};
ghost use Rattle.router_steps.specs.Steps.{choice_on};
ghost use Rattle.router_durable.specs.Core.{is_down};
ghost use Rattle.router_durable.specs.Facts.{base_of};
ghost use Rattle.slee_container.specs.Container.{state_of};
ghost use Rattle.slee_run.specs.Playing.{Moves, Advances, IsPlayed, IsEndOf, HadRoom, end_of, left, stop_of};

use crate::delivering::deliver;
use initial_select::Selectors;
use router_durable::StepFault;
use router_state::Kindred;
use slee_container::{Container, Work};
use slee_disk::Disk;
use slee_value::ActivityId;
use std::alloc::Global;

/// How playing ended.
#[derive(Clone, Copy, Debug, PartialEq, Eq)]
pub enum End {
    /// No line is left and no choice is enabled.
    Done,
    /// The run may go no further.
    Spent,
    /// The next record has no room in the journal.
    Full { length: u64, adding: u64 },
    /// The disk failed in the last step, which isn't acknowledged.
    DiskFault,
    /// Memory ran out.
    NoMemory,
}

/// Plays what is to be done, until nothing is or nothing may be.
#[tactic(auto, using(crate::proofs::PlayLemmas::stopped))]
pub fn play<'d, D: Disk>(
    alloc: Global,
    container: &mut Container<'d, D>,
    selectors: &Selectors,
) -> End
    requires history { container.old.history ≡ [] }
    requires acked { container.old.acked ≡ 0 }
    requires taken { container.old.taken ≤ length container.old.setup.lines }
    requires claims { container.old.claims ≡ [] }
    requires live { container.old.stop ≡ None }
    ensures setup { container.new.setup ≡ container.old.setup }
    ensures played { IsPlayed container.old.setup.journal (base_of container.old.setup.origin) container.old.setup.steps (left container.old) container.new.history result }
    ensures stop { container.new.stop ≡ stop_of result }
    ensures whole { is_down container.new.stop ≡ false → container.new.acked ≡ length container.new.history }
    ensures room { HadRoom container.old.setup.origin container.old.setup.journal container.new.history }
{
    'entries: loop {
        match advance(alloc, container, selectors) {
            Some(end) => return close(container, end),
            None => {}
        }
    }
}

/// Makes sure of what isn't acknowledged yet, unless the disk has failed.
pub fn close<'d, D: Disk>(container: &mut Container<'d, D>, end: End) -> End
    requires stop { container.old.stop ≡ stop_of end }
    ensures closes { container.new ≡ record container.old { acked = container.new.acked; stop = container.new.stop; disk = container.new.disk } }
    ensures end { IsEndOf end result }
    ensures stop { container.new.stop ≡ stop_of result }
    ensures whole { is_down container.new.stop ≡ false → container.new.acked ≡ length container.new.history }
{
    let End::DiskFault = end else {
        return match container.flush() {
            Ok(()) => end,
            Err(_) => End::DiskFault,
        };
    };
    end
}

/// Does what is to be done next.
pub(crate) fn advance<'d, D: Disk>(
    alloc: Global,
    container: &mut Container<'d, D>,
    selectors: &Selectors,
) -> Option<End>
    requires live { container.old.stop ≡ None }
    requires claims { container.old.claims ≡ [] }
    ensures setup { container.new.setup ≡ container.old.setup }
    ensures advances { Advances container.old result container.new }
{
    match container.next_work() {
        Work::Done => Some(End::Done),
        Work::Spent => Some(End::Spent),
        Work::Line => end_of(container.take_input()),
        Work::Step(activity, kindred) => {
            end_of(step(alloc, container, activity, kindred, selectors))
        }
        Work::Stopped(_) => unreachable!(),
        Work::Idle { claims: _ } => unreachable!(),
    }
}

/// What playing ends with after a step.
fn end_of(moved: Result<u64, StepFault>) -> Option<End>
    ensures { result ≡ end_of moved }
{
    match moved {
        Ok(_) => None,
        Err(StepFault::DiskFault) => Some(End::DiskFault),
        Err(StepFault::Full { length, adding }) => Some(End::Full { length, adding }),
        Err(StepFault::Spent) => Some(End::Spent),
        Err(StepFault::NoMemory) => Some(End::NoMemory),
    }
}

/// Makes the step that is next on an activity.
fn step<'d, D: Disk>(
    alloc: Global,
    container: &mut Container<'d, D>,
    activity: ActivityId,
    kindred: Kindred,
    selectors: &Selectors,
) -> Result<u64, StepFault>
    requires live { container.old.stop ≡ None }
    requires claims { container.old.claims ≡ [] }
    requires next { next (state_of container.old) activity.0 ≡ Some kindred }
    ensures setup { container.new.setup ≡ container.old.setup }
    ensures moves { Moves container.old (choice_on (activity.0, kindred)) result container.new }
{
    match kindred {
        Kindred::Initial => container.initial(activity, selectors),
        Kindred::Deliver => deliver(alloc, container, activity),
        Kindred::Finish => container.finish(activity),
    }
}
