//! Single steps.
ghost use Rattle.std.specs.Prelude.{◌≡◌, ◌+◌, ℕ, true, None, Err};
ghost use Rattle.signal_script.specs.declared.signal.Signal.{Signal};
ghost use Rattle.router_state.specs.State.{State};
ghost use Rattle.router_state.specs.Next.{next};
ghost use Rattle.router_state.specs.Queues.{is_suspended};
ghost use Rattle.router_steps.specs.Actions.{action_of};
ghost use Rattle.router_steps.specs.Steps.{before_closing};
ghost use Rattle.router_steps.specs.declared.refusal.Refusal.{Refusal};
ghost use Rattle.trace_history.specs.declared.choice.Choice.TheVariants as choices;

/// On an activity whose head event is suspended nothing is next.
#[tactic(auto, using(crate::proofs::StepLemmas::suspended_waits))]
pub fn suspended_events_wait()
    ensures { (s : State) (a : ℕ) → is_suspended s.suspensions a ≡ true → next s a ≡ None }
{}

/// A line that is refused changes the count of inputs alone, before closing.
#[tactic(auto, using(crate::proofs::StepLemmas::refused_counts))]
pub fn refused_lines_are_counted()
    ensures { (s : State) (signal : Signal) (why : Refusal) → action_of s signal ≡ Err why → before_closing s (choices.Input signal) ≡ record s { inputs = s.inputs + 1 } }
{}
