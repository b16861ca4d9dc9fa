//! The work of one worker.
ghost use Rattle.std.specs.Prelude.{◌≡◌};
ghost use Rattle.script_types.specs.ProgramOf.{kept_program};
ghost use Rattle.slee_turn.specs.Passes.{IsFreeOf};
ghost use Rattle.worker_gate.specs.Hands.{WasTried};
ghost use Rattle.worker_gate.specs.Works.{EndsRightly, IsLater, IsServed, TurnsTo};

use crate::gate::Gate;
use crate::hand::{Held, Moved, Tried, Worked, Worker};
use crate::moving::play;
use crate::recall::Recall;
use crate::trying::try_held;
use initial_select::Selectors;
use slee_container::Container;
use slee_descriptor::Deployment;
use slee_disk::Disk;
use slee_turn::Turnstile;
use std::alloc::Global;
use std::sync::Wait;
use std::thread;

/// Takes the turn, plays under it, and gives it back.
#[tactic(auto, using(crate::proofs::WorkLemmas::later, crate::proofs::WorkLemmas::may_give, crate::proofs::WorkLemmas::program_served, crate::proofs::WorkLemmas::turns_to))]
fn take_turn<'d, D: Disk + Send, R: Wait>(
    rt: &R,
    worker: &mut Worker<'d, D>,
    turn: &Turnstile<Container<'d, D>>,
    deployment: &Deployment,
    selectors: &Selectors,
    recall: &Recall,
    tried: Tried,
) -> Moved
    requires pass { IsFreeOf turn.now worker.old.pass }
    requires served { IsServed worker.old.pass.known.setup deployment.now }
    requires tried { WasTried (kept_program deployment.now.codes) tried }
    ensures number { worker.new.number ≡ worker.old.number }
    ensures pass { IsLater worker.old.pass worker.new.pass }
    ensures comes { TurnsTo D (kept_program deployment.now.codes) worker.new.pass result }
{
    let mut container = turn.take(rt, &mut worker.pass);
    container.kept();
    let moved = play(&mut container, tried, selectors, recall);
    container.kept();
    turn.give(&mut worker.pass, container);
    moved
}

/// Works until nothing is to be done, or nothing may be. The worker has the turn only while it asks what is next, makes steps,
/// or tells an attempt what it asked for; attempts are run by the gate, outside the turn. What a handler asked the last time is
/// looked for as its next delivery is claimed.
pub fn work<'d, D: Disk + Send, G: Gate, R: Wait>(
    rt: &R,
    alloc: Global,
    worker: &mut Worker<'d, D>,
    turn: &Turnstile<Container<'d, D>>,
    deployment: &Deployment,
    selectors: &Selectors,
    gate: &G,
) -> Worked
    requires pass { IsFreeOf turn.now worker.old.pass }
    requires served { IsServed worker.old.pass.known.setup deployment.now }
    ensures number { worker.new.number ≡ worker.old.number }
    ensures pass { IsLater worker.old.pass worker.new.pass }
    ensures left { EndsRightly D worker.new.pass result }
{
    let mut recall = Recall::new(alloc);
    let mut held = Held::Nothing;
    for _ in rt.forever() {
        let tried = try_held(alloc, gate, worker.number, deployment, &mut recall, held);
        match take_turn(rt, worker, turn, deployment, selectors, &recall, tried) {
            Moved::Goes(next) => held = next,
            Moved::Waits => {
                thread::yield_now();
                held = Held::Nothing;
            }
            Moved::Leaves => return Worked::Left,
            Moved::NoMemory => return Worked::NoMemory,
        }
    }
    unreachable!()
}
