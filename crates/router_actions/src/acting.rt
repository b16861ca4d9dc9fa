//! What a line does.
ghost use Rattle.std.specs.Prelude.{◌≡◌, ◌++◌, IsTrue, OnOk};
ghost use Rattle.router_steps.specs.Taking.{after_action, lines_of_action};
ghost use Rattle.router_inputs.specs.Acting.{action_in, can_act};
ghost use Rattle.router_draft.specs.Drafts.{CanBeMade, IsLow, laid};

use crate::Keys;
use crate::clock::set_clock;
use crate::rows::change_row;
use crate::services::{activate, stop};
use crate::starting::start;
use router_draft::Draft;
use router_inputs::Action;
use router_moves::{end, queue};
use slee_value::NoMemory;
use std::alloc::Global;

/// Does what a line does, in the state with the changes so far laid over it.
pub fn act<K: Keys>(
    alloc: Global,
    keys: &K,
    draft: &mut Draft,
    action: Action,
) -> Result<(), NoMemory>
    requires low { IsLow (K.state keys.now) }
    requires can { IsTrue (can_act (action_in action) (laid (K.state keys.now) draft.old)) }
    requires made { CanBeMade (K.state keys.now) draft.old }
    ensures state { OnOk result (laid (K.state keys.now) draft.new ≡ after_action (action_in action) (laid (K.state keys.now) draft.old)) }
    ensures lines { OnOk result (draft.new.lines ≡ draft.old.lines ++ lines_of_action (action_in action) (laid (K.state keys.now) draft.old)) }
    ensures made { OnOk result (CanBeMade (K.state keys.now) draft.new) }
{
    match action {
        Action::StartActivity { name } => start(alloc, keys, draft, name),
        Action::EndActivity { activity } => end(alloc, keys, draft, activity),
        Action::FireEvent {
            activity,
            event,
            fields,
            target,
        } => queue(alloc, keys, draft, activity, event, fields, target),
        Action::SetClock {
            to,
            suspensions,
            occurrences,
        } => set_clock(alloc, keys, draft, to, &suspensions, &occurrences),
        Action::ActivateService { service } => activate(alloc, keys, draft, service),
        Action::StopService { service, activity } => stop(alloc, keys, draft, service, activity),
        Action::ChangeRow { table, row, change } => change_row(
            alloc, keys, draft, table, row, change,
        ),
    }
}
