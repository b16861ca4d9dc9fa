//! The clock comes to a moment: suspensions end, and occurrences of timers are fired (JSR 240, chapter 13).
ghost use Rattle.std.specs.Prelude.{◌≡◌, ◌++◌, ◌∷◌, [], codes, map, IfOk, OnOk};
ghost use Rattle.built_in_events.specs.declared.built_in.BuiltInEvent.TheVariants as built_in_events;
ghost use Rattle.built_in_events.specs.BuiltIn.{name_of as built_in_name};
ghost use Rattle.slee_value.specs.declared.value.Value.TheVariants as values;
ghost use Rattle.router_state.specs.Changes.{after_change};
ghost use Rattle.router_state.specs.declared.change.Change.TheVariants as changes;
ghost use Rattle.router_steps.specs.Taking.{all_occurred, all_resumed, clocked, lines_of_all_occurred, lines_of_all_resumed, occurred};
ghost use Rattle.router_steps.specs.Moves.{lines_of_queued};
ghost use Rattle.timer_facility.specs.Occurrences.{occurrence};
ghost use Rattle.router_draft.specs.Drafts.{CanBeMade, IsLow, laid};

use built_in_events::BuiltInEvent;
use router_draft::{Base, Draft, change};
use router_moves::{queue, resume};
use router_state::{Change, Suspension};
use slee_value::{Name, NoMemory, Payload, Text, TimerId, Value};
use std::alloc::Global;
use timer_facility::Due;

/// The field that names the timer.
fn fields_of(alloc: Global, timer: TimerId) -> Result<Payload, NoMemory>
    ensures { IfOk result (λ fields. fields ≡ (codes "which", values.Timer (record { 0 = timer.0 })) ∷ []) }
{
    let mut fields = Payload::new(alloc);
    fields.push(Name::from_slice(alloc, b"which")?, Value::Timer(timer))?;
    Ok(fields)
}

/// An occurrence is queued on the activity of its timer.
fn fire<B: Base>(alloc: Global, base: &B, draft: &mut Draft, due: &Due) -> Result<(), NoMemory>
    requires low { IsLow (B.state base.now) }
    requires made { CanBeMade (B.state base.now) draft.old }
    ensures state { OnOk result (laid (B.state base.now) draft.new ≡ occurred (occurrence due.now) (laid (B.state base.now) draft.old)) }
    ensures lines { OnOk result (draft.new.lines ≡ draft.old.lines ++ lines_of_queued (laid (B.state base.now) draft.old) due.now.activity.0 (built_in_name built_in_events.Timer)) }
    ensures made { OnOk result (CanBeMade (B.state base.now) draft.new) }
{
    let name = Text::from_str(alloc, BuiltInEvent::Timer.name())?;
    let fields = fields_of(alloc, due.timer)?;
    queue(alloc, base, draft, due.activity, name, fields, None)
}

/// The occurrences are queued, one after another.
fn fire_all<B: Base>(
    alloc: Global,
    base: &B,
    draft: &mut Draft,
    occurrences: &[Due],
) -> Result<(), NoMemory>
    requires low { IsLow (B.state base.now) }
    requires made { CanBeMade (B.state base.now) draft.old }
    ensures state { OnOk result (laid (B.state base.now) draft.new ≡ all_occurred (map occurrence occurrences.now) (laid (B.state base.now) draft.old)) }
    ensures lines { OnOk result (draft.new.lines ≡ draft.old.lines ++ lines_of_all_occurred (map occurrence occurrences.now) (laid (B.state base.now) draft.old)) }
    ensures made { OnOk result (CanBeMade (B.state base.now) draft.new) }
{
    'occurrences: for due in occurrences {
        fire(alloc, base, draft, due)?;
    }
    Ok(())
}

/// The suspensions end, one after another.
fn resume_all<B: Base>(
    alloc: Global,
    base: &B,
    draft: &mut Draft,
    suspensions: &[Suspension],
) -> Result<(), NoMemory>
    requires made { CanBeMade (B.state base.now) draft.old }
    ensures state { OnOk result (laid (B.state base.now) draft.new ≡ all_resumed suspensions.now (laid (B.state base.now) draft.old)) }
    ensures lines { OnOk result (draft.new.lines ≡ draft.old.lines ++ lines_of_all_resumed suspensions.now (laid (B.state base.now) draft.old)) }
    ensures made { OnOk result (CanBeMade (B.state base.now) draft.new) }
{
    'suspensions: for row in suspensions {
        resume(alloc, base, draft, row.activity)?;
    }
    Ok(())
}

/// The clock stands at the moment, and the suspensions have ended.
#[tactic(auto, using(crate::proofs::ClockLemmas::lines_resumed))]
fn end_suspensions<B: Base>(
    alloc: Global,
    base: &B,
    draft: &mut Draft,
    to: u64,
    suspensions: &[Suspension],
) -> Result<(), NoMemory>
    requires made { CanBeMade (B.state base.now) draft.old }
    ensures state { OnOk result (laid (B.state base.now) draft.new ≡ all_resumed suspensions.now (after_change (changes.Clock to) (laid (B.state base.now) draft.old))) }
    ensures lines { OnOk result (draft.new.lines ≡ draft.old.lines ++ lines_of_all_resumed suspensions.now (laid (B.state base.now) draft.old)) }
    ensures made { OnOk result (CanBeMade (B.state base.now) draft.new) }
{
    change(base, draft, Change::Clock { to })?;
    resume_all(alloc, base, draft, suspensions)
}

/// The clock comes to the moment: the suspensions end, due occurrences are used up, and these are queued.
pub fn set_clock<B: Base>(
    alloc: Global,
    base: &B,
    draft: &mut Draft,
    to: u64,
    suspensions: &[Suspension],
    occurrences: &[Due],
) -> Result<(), NoMemory>
    requires low { IsLow (B.state base.now) }
    requires made { CanBeMade (B.state base.now) draft.old }
    ensures state { OnOk result (laid (B.state base.now) draft.new ≡ clocked to suspensions.now (map occurrence occurrences.now) (laid (B.state base.now) draft.old)) }
    ensures lines { OnOk result (draft.new.lines ≡ draft.old.lines ++ (lines_of_all_resumed suspensions.now (laid (B.state base.now) draft.old) ++ lines_of_all_occurred (map occurrence occurrences.now) (laid (B.state base.now) draft.old))) }
    ensures made { OnOk result (CanBeMade (B.state base.now) draft.new) }
{
    end_suspensions(alloc, base, draft, to, suspensions)?;
    change(base, draft, Change::Advance { to })?;
    fire_all(alloc, base, draft, occurrences)?;
    Ok(())
}
