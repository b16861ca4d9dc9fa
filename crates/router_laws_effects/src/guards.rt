//! Where a run makes its effects.
ghost use Rattle.std.specs.Prelude.{◌≡◌, ◌<◌, ◌++◌, List, true};
ghost use Rattle.std.specs.List.{AllByRecursion};
ghost use Rattle.slee_effect.specs.Resolving.{resolved_ref};
ghost use Rattle.slee_effect.specs.declared.effect.Effect.{Effect};
ghost use Rattle.slee_effect.specs.declared.reference.Ref.{Ref};
ghost use Rattle.script_types.specs.Program.{Program, Steps};
ghost use Rattle.script_meaning.specs.Calls.{call_at};
ghost use Rattle.script_meaning.specs.Observing.{used_active};
ghost use Rattle.script_meaning.specs.Running.{Gave, Setting, State as RunState};
ghost use Rattle.script_meaning.specs.Steps.{Flow, act_all};
ghost use Rattle.script_meaning.specs.declared.seen.AcSeen.{AcSeen};
ghost use Rattle.router_laws_effects.specs.Guards.{Guarded};
ghost use Rattle.router_laws_effects.specs.Runs.{EndsOld, IsOld};
ghost use Rattle.router_state.specs.State.{State};
ghost use Rattle.router_state.specs.Contexts.{is_active};
ghost use Rattle.router_steps.specs.Effects.{after_effects, number_in, resolved_in};
ghost use Rattle.router_steps.specs.Scripts.{answers_in};

/// Each effect of a run was made where the run had seen, with the effects before it laid over, that it may be: an activity that it
/// names was there, and Active, null or attached where the effect asks that; a name was free, or stood for something; numbers lie
/// in their ranges.
#[tactic(auto, using(crate::proofs::GuardedRuns::run_is_guarded))]
pub fn effects_are_guarded()
    ensures { (s : Setting) (program : Program) (steps : Steps) (flow : Flow) (st su : RunState) → act_all s (call_at s program 8) steps st ≡ Gave flow su → (new : List Effect) × (su.effects ≡ st.effects ++ new) × Guarded s.answers (s.effects ++ st.effects) new }
{}

/// An activity that a run used as an Active one is Active where its effects so far are done.
#[tactic(auto, using(crate::proofs::GuardLemmas::active_where_used))]
pub fn used_activities_are_active()
    ensures { (s : State) (m : Setting) (r : Ref) (x : AcSeen) (st su : RunState) → m.answers ≡ answers_in s → AllByRecursion (λ row. row.number.0 < s.next_activity) s.activities → AllByRecursion (EndsOld s.next_activity) (m.effects ++ st.effects) → IsOld s.next_activity r → used_active m r st ≡ Gave x su → is_active (after_effects (resolved_in s (m.effects ++ st.effects)) s).activities (number_in (resolved_ref s.next_activity r)) ≡ true }
{}
