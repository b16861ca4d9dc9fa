//! Deliveries: an entity receives the head event of an activity, and what its handler and its callbacks come to is told and done (JSR 240, 8.4).
ghost use Rattle.std.specs.Prelude.{◌≡◌, ◌++◌, ◌∷◌, [], OnOk};
ghost use Rattle.router_state.specs.Changes.{after_change};
ghost use Rattle.router_state.specs.declared.change.Change.TheVariants as changes;
ghost use Rattle.router_steps.specs.Applying.{done_effects, lines_of_done_effects};
ghost use Rattle.router_steps.specs.Effects.{resolved_in};
ghost use Rattle.router_steps.specs.Lines.{deliver_heading, exception_line, rolled_back_line};
ghost use Rattle.router_steps.specs.Steps.{line_of_callback};
ghost use Rattle.router_draft.specs.Drafts.{CanBeMade, IsLow, laid};

use crate::numbering::pass;
use rollback_calls::Delivered;
use router_draft::{Draft, change, reading};
use router_effects::do_effects;
use router_moves::Setting;
use router_state::Change;
use script_meaning::Outcome;
use slee_effect::{Effects, resolve};
use slee_value::{ActivityId, EntityId, EventId, NoMemory};
use std::alloc::Global;

/// The event on an activity that an entity receives.
#[derive(Clone, Copy)]
pub struct Receipt {
    pub activity: ActivityId,
    pub event: EventId,
    pub entity: EntityId,
}

/// The line of an exception callback that ran.
fn tell_exception(
    alloc: Global,
    draft: &mut Draft,
    exception: Option<Outcome>,
) -> Result<(), NoMemory>
    ensures changes { OnOk result (draft.new.changes ≡ draft.old.changes) }
    ensures lines { OnOk result (draft.new.lines ≡ draft.old.lines ++ line_of_callback exception_line exception) }
{
    if let Some(outcome) = exception {
        draft.tell(&router_text::exception(alloc, outcome)?)?;
    }
    Ok(())
}

/// The line of a rolled-back callback that ran.
fn tell_rolled_back(
    alloc: Global,
    draft: &mut Draft,
    rolled_back: Option<Outcome>,
) -> Result<(), NoMemory>
    ensures changes { OnOk result (draft.new.changes ≡ draft.old.changes) }
    ensures lines { OnOk result (draft.new.lines ≡ draft.old.lines ++ line_of_callback rolled_back_line rolled_back) }
{
    if let Some(outcome) = rolled_back {
        draft.tell(&router_text::rolled_back(alloc, outcome)?)?;
    }
    Ok(())
}

/// The effects of a run with numbers in place of what they create: the numbers that come next.
#[tactic(auto, using(crate::proofs::DropLemmas::nothing_laid))]
fn resolved<S: Setting>(setting: &S, draft: &Draft, effects: Effects) -> Effects
    requires low { IsLow (S.state setting.now) }
    requires begun { draft.now.changes ≡ [] }
    ensures { result ≡ resolved_in (S.state setting.now) effects }
{
    let mut effects = effects;
    let entity = reading::next_entity(setting, draft).0;
    let activity = reading::next_activity(setting, draft).0;
    let timer = reading::next_timer(setting, draft).0;
    pass(entity, activity, timer, effects.as_slice());
    resolve(&mut effects, entity, activity, timer);
    effects
}

/// The entity has received the event, and its effects are done.
#[tactic(auto, using(crate::proofs::DropLemmas::nothing_laid))]
fn mark_and_do<S: Setting>(
    alloc: Global,
    setting: &S,
    draft: &mut Draft,
    receipt: Receipt,
    effects: Effects,
) -> Result<(), NoMemory>
    requires low { IsLow (S.state setting.now) }
    requires made { CanBeMade (S.state setting.now) draft.old }
    requires begun { draft.old.changes ≡ [] }
    ensures state { OnOk result (laid (S.state setting.now) draft.new ≡ done_effects receipt.entity.0 effects (after_change (changes.MarkEntity receipt.activity receipt.entity) (S.state setting.now))) }
    ensures lines { OnOk result (draft.new.lines ≡ draft.old.lines ++ lines_of_done_effects receipt.entity.0 effects (after_change (changes.MarkEntity receipt.activity receipt.entity) (S.state setting.now))) }
    ensures made { OnOk result (CanBeMade (S.state setting.now) draft.new) }
{
    let effects = resolved(setting, draft, effects);
    change(
        setting,
        draft,
        Change::MarkEntity {
            activity: receipt.activity,
            entity: receipt.entity,
        },
    )?;
    do_effects(alloc, setting, draft, receipt.entity, effects.as_slice())
}

/// The lines of the callbacks.
fn tell_callbacks(alloc: Global, draft: &mut Draft, delivered: &Delivered) -> Result<(), NoMemory>
    ensures changes { OnOk result (draft.new.changes ≡ draft.old.changes) }
    ensures lines { OnOk result (draft.new.lines ≡ draft.old.lines ++ (line_of_callback exception_line delivered.now.exception ++ line_of_callback rolled_back_line delivered.now.rolled_back)) }
{
    tell_exception(alloc, draft, delivered.exception)?;
    tell_rolled_back(alloc, draft, delivered.rolled_back)?;
    Ok(())
}

/// The lines of the callbacks, behind the heading.
fn tell_run(
    alloc: Global,
    draft: &mut Draft,
    receipt: Receipt,
    delivered: &Delivered,
) -> Result<(), NoMemory>
    ensures changes { OnOk result (draft.new.changes ≡ draft.old.changes) }
    ensures lines { OnOk result (draft.new.lines ≡ draft.old.lines ++ deliver_heading receipt.activity.0 receipt.event.0 receipt.entity.0 delivered.now.outcome ∷ (line_of_callback exception_line delivered.now.exception ++ line_of_callback rolled_back_line delivered.now.rolled_back)) }
{
    draft.tell(&router_text::deliver(
        alloc,
        receipt.activity,
        receipt.event,
        receipt.entity,
        delivered.outcome,
    )?)?;
    tell_callbacks(alloc, draft, delivered)?;
    Ok(())
}

/// The entity receives the event: its handler and its callbacks come to this, and the effects that stand are done.
pub fn deliver<S: Setting>(
    alloc: Global,
    setting: &S,
    draft: &mut Draft,
    receipt: Receipt,
    delivered: Delivered,
) -> Result<(), NoMemory>
    requires low { IsLow (S.state setting.now) }
    requires made { CanBeMade (S.state setting.now) draft.old }
    requires begun { draft.old.changes ≡ [] }
    ensures state { OnOk result (laid (S.state setting.now) draft.new ≡ done_effects receipt.entity.0 delivered.effects (after_change (changes.MarkEntity receipt.activity receipt.entity) (S.state setting.now))) }
    ensures lines { OnOk result (draft.new.lines ≡ draft.old.lines ++ (deliver_heading receipt.activity.0 receipt.event.0 receipt.entity.0 delivered.outcome ∷ (line_of_callback exception_line delivered.exception ++ line_of_callback rolled_back_line delivered.rolled_back)) ++ lines_of_done_effects receipt.entity.0 delivered.effects (after_change (changes.MarkEntity receipt.activity receipt.entity) (S.state setting.now))) }
    ensures made { OnOk result (CanBeMade (S.state setting.now) draft.new) }
{
    tell_run(alloc, draft, receipt, &delivered)?;
    mark_and_do(alloc, setting, draft, receipt, delivered.effects)?;
    Ok(())
}
