//! Values of expressions, and of effects.
ghost use Rattle.std.specs.Prelude.{◌≡◌, ◌<◌, ◌^◌, ◌++◌, [], ℕ, true, List, length};
ghost use Rattle.std.specs.List.{AllByRecursion};
ghost use Rattle.slee_effect.specs.declared.effect.Effect.{Effect};
ghost use Rattle.slee_effect.specs.declared.value.Val.{Val};
ghost use Rattle.script_types.specs.Program.{Program, Steps, Term};
ghost use Rattle.script_meaning.specs.Calls.{call_at};
ghost use Rattle.script_meaning.specs.Meaning.{start};
ghost use Rattle.script_meaning.specs.Running.{Broke, Gave, Setting, State};
ghost use Rattle.script_meaning.specs.Steps.{Flow, act_all};
ghost use Rattle.script_meaning.specs.Terms.{eval};
ghost use Rattle.script_meaning.specs.declared.outcome.FailKind.{FailKind};
ghost use Rattle.router_laws_values.specs.Spelled.{EffectSpelled, IsSpelled, MethodsSpelled, SettingSpelled, StepsSpelled, TermSpelled, VariableSpelled};
ghost use Rattle.router_state.specs.Fits.{is_text};

/// The value that an expression gives has a spelling, where its constants, the variables, the effects before and all that the run
/// is told of have one: a number has 64 bits, and a text is UTF-8 whose length has 32. Effects and variables stay as they were.
pub fn values_of_expressions_have_a_spelling()
    ensures { (m : Setting) (x : Term) (st su : State) (y : Val) → SettingSpelled m → AllByRecursion EffectSpelled (m.effects ++ st.effects) → length (m.effects ++ st.effects) < 2 ^ 62 → AllByRecursion VariableSpelled st.variables → TermSpelled x → eval m x st ≡ Gave y su → IsSpelled y × (m.effects ++ su.effects ≡ m.effects ++ st.effects) × (su.variables ≡ st.variables) }
{}

/// The values, priorities and texts of each effect that a run makes have a spelling, where the constants of its script and of all
/// methods, the effects before and all that the run is told of have one.
pub fn values_of_effects_have_a_spelling()
    ensures { (m : Setting) (program : Program) (steps : Steps) (flow : Flow) (su : State) → SettingSpelled m → length m.effects < 2 ^ 61 → AllByRecursion EffectSpelled m.effects → MethodsSpelled program → StepsSpelled steps → act_all m (call_at m program 8) steps start ≡ Gave flow su → AllByRecursion EffectSpelled (m.effects ++ su.effects) }
{}

/// The text of a run's failure is a text, where the constants of its script and of all methods, the effects before and all that the
/// run is told of have a spelling.
#[tactic(auto, using(crate::proofs::SpelledSteps::run_fails))]
pub fn texts_of_failures_are_texts()
    ensures { (m : Setting) (program : Program) (steps : Steps) (kind : FailKind) (text : List ℕ) (su : State) → SettingSpelled m → length m.effects < 2 ^ 61 → AllByRecursion EffectSpelled m.effects → MethodsSpelled program → StepsSpelled steps → act_all m (call_at m program 8) steps start ≡ Broke kind text su → is_text text ≡ true }
{}
