//! The head events of activities.
ghost use Rattle.std.specs.Prelude.{◌≡◌, ℕ, Some};
ghost use Rattle.router_laws_histories.specs.Words.{LeavesHead};
ghost use Rattle.router_state.specs.State.{State};
ghost use Rattle.router_state.specs.Queues.{head_event};
ghost use Rattle.router_state.specs.Well.{IsSound};
ghost use Rattle.router_state.specs.declared.rows.Event.{Event};
ghost use Rattle.router_steps.specs.Steps.{Subject, after, subject_of};
ghost use Rattle.trace_history.specs.declared.choice.Choice.{Choice};

/// A step that finishes no event of an activity leaves its head event where it is.
#[tactic(auto, using(crate::proofs::Bases::head_kept))]
pub fn other_steps_leave_the_head_event()
    ensures { (s : State) (c : Choice) (x : Subject) (a : ℕ) (v : Event) → IsSound s → subject_of s c ≡ Some x → LeavesHead a x → head_event s.events a ≡ Some v → head_event (after s c).events a ≡ Some v }
{}
