//! A step is closed: what it touched goes, stops or ends where nothing holds it any longer.
ghost use Rattle.std.specs.Prelude.{◌≡◌, ◌++◌, OnOk};
ghost use Rattle.router_state.specs.Well.{IsClosed};
ghost use Rattle.router_steps.specs.Closing.{closing, lines_behind_roots, lines_of_closing, without_stopped, without_unused};
ghost use Rattle.router_draft.specs.Drafts.{laid, CanBeMade, IsLow};

use crate::Closing;
use crate::activities::close_activities;
use crate::roots::close_roots;
use crate::services::close_services;
use router_draft::Draft;
use slee_value::NoMemory;
use std::alloc::Global;

/// Services without a tree are Inactive, and null activities that aren't in use end.
#[tactic(auto, using(crate::proofs::LineLemmas::told_behind))]
fn close_behind_roots<C: Closing>(
    alloc: Global,
    setting: &C,
    draft: &mut Draft,
) -> Result<(), NoMemory>
    requires closed { IsClosed (C.state setting.now) }
    requires low { IsLow (C.state setting.now) }
    requires made { CanBeMade (C.state setting.now) draft.old }
    ensures state { OnOk result (laid (C.state setting.now) draft.new ≡ without_unused (without_stopped (laid (C.state setting.now) draft.old))) }
    ensures lines { OnOk result (draft.new.lines ≡ draft.old.lines ++ lines_behind_roots (laid (C.state setting.now) draft.old)) }
    ensures made { OnOk result (CanBeMade (C.state setting.now) draft.new) }
{
    close_services(alloc, setting, draft)?;
    close_activities(alloc, setting, draft)?;
    Ok(())
}

/// The step is closed. What it didn't touch isn't looked at: the state with which it began was closed.
#[tactic(auto, using(crate::proofs::LineLemmas::told_closing))]
pub fn close<C: Closing>(alloc: Global, setting: &C, draft: &mut Draft) -> Result<(), NoMemory>
    requires closed { IsClosed (C.state setting.now) }
    requires low { IsLow (C.state setting.now) }
    requires made { CanBeMade (C.state setting.now) draft.old }
    ensures state { OnOk result (laid (C.state setting.now) draft.new ≡ closing (laid (C.state setting.now) draft.old)) }
    ensures lines { OnOk result (draft.new.lines ≡ draft.old.lines ++ lines_of_closing (laid (C.state setting.now) draft.old)) }
    ensures made { OnOk result (CanBeMade (C.state setting.now) draft.new) }
{
    close_roots(alloc, setting, draft)?;
    close_behind_roots(alloc, setting, draft)?;
    Ok(())
}
