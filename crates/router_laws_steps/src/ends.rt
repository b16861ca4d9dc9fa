//! The ends of activities.
ghost use Rattle.std.specs.Prelude.{◌≡◌, ◌<◌, ℕ, true, false, [], List, Some, is_some, if◌then◌else◌};
ghost use Rattle.slee_value.specs.declared.ids.ActivityId.{ActivityId};
ghost use Rattle.router_laws_sound.specs.Rooms.{HasRoom, IsDeployed};
ghost use Rattle.router_laws_steps.specs.Reads.{AreRead};
ghost use Rattle.router_state.specs.Contexts.{activity_at};
ghost use Rattle.router_state.specs.Fits.{is_u64};
ghost use Rattle.router_state.specs.Queues.{head_event, queue};
ghost use Rattle.router_state.specs.State.{State};
ghost use Rattle.router_state.specs.Well.{IsSound, IsWell};
ghost use Rattle.router_state.specs.WellQueues.{has_end_last, has_no_end, is_end};
ghost use Rattle.router_state.specs.declared.rows.Activity.{Activity};
ghost use Rattle.router_state.specs.declared.rows.Event.{Event};
ghost use Rattle.router_steps.specs.Histories.{Legal, replay};
ghost use Rattle.router_steps.specs.Steps.{after};
ghost use Rattle.trace_history.specs.declared.choice.Choice.TheVariants as choices;
ghost use Rattle.trace_history.specs.declared.entry.Entry.{Entry};

/// An activity's end comes last (JSR 240, 7.6): where one waits no other event waits behind it, behind its finish the activity is
/// gone, and what is gone never comes back, nor does any event wait on it again.
pub fn ends_come_last()
    ensures last { (s : State) (a : ℕ) (row : Activity) → IsSound s → activity_at s.activities a ≡ Some row → (if row.ending then has_end_last (queue s.events a) else has_no_end (queue s.events a)) ≡ true }
    ensures finished { (s : State) (a : ActivityId) (v : Event) → IsSound s → head_event s.events a.0 ≡ Some v → is_end v ≡ true → (a.0 < (after s (choices.Finish a)).next_activity) × (is_some (activity_at (after s (choices.Finish a)).activities a.0) ≡ false) }
    ensures gone { (s : State) (h : List Entry) (a : ℕ) → IsWell s → IsDeployed s.deployment → Legal s h → AreRead h → HasRoom (replay s h) → is_u64 (replay s h).inputs ≡ true → a < s.next_activity → is_some (activity_at s.activities a) ≡ false → (is_some (activity_at (replay s h).activities a) ≡ false) × (queue (replay s h).events a ≡ []) }
{}
