//! The ends of activities in a run.
ghost use Rattle.std.specs.Prelude.{◌≡◌, ◌∷◌, ◌++◌, ℕ, true, List, Some};
ghost use Rattle.slee_value.specs.declared.ids.ActivityId.{ActivityId};
ghost use Rattle.router_laws_runs.specs.AsRead.{IsAsRead};
ghost use Rattle.router_laws_runs.specs.Headings.{IsLast};
ghost use Rattle.router_state.specs.Queues.{head_event};
ghost use Rattle.router_state.specs.State.{State};
ghost use Rattle.router_state.specs.Well.{IsWell};
ghost use Rattle.router_state.specs.WellQueues.{is_end};
ghost use Rattle.router_state.specs.declared.rows.Event.{Event};
ghost use Rattle.router_steps.specs.Histories.{Legal, replay};
ghost use Rattle.trace_history.specs.declared.choice.Choice.TheVariants as choices;
ghost use Rattle.trace_history.specs.declared.entry.Entry.{Entry};

/// Behind the finish of an activity's end no heading names the activity and no line queues an event on it, and of all that waited or
/// was queued there the end was the last (JSR 240, 7.6).
pub fn nothing_follows_an_end()
    ensures { (s : State) (k : List Entry) (e : Entry) (rest : List Entry) (a : ActivityId) (v : Event) → IsWell s → IsAsRead s.deployment s.program → Legal s (k ++ e ∷ rest) → e.choice ≡ choices.Finish a → head_event (replay s k).events a.0 ≡ Some v → is_end v ≡ true → IsLast s k rest e a.0 v.id.0 }
{}
