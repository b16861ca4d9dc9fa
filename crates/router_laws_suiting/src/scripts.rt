//! The effects of scripts, and of deliveries.
ghost use Rattle.std.specs.Prelude.{◌≡◌, [], ℕ, List, Ok, Some, slice_get};
ghost use Rattle.slee_value.specs.declared.ids.EntityId.{EntityId};
ghost use Rattle.script_types.specs.Codes.{Block, Codes};
ghost use Rattle.script_types.specs.Program.{BlockProgram, Program, Steps};
ghost use Rattle.script_types.specs.Programs.{program_of};
ghost use Rattle.script_meaning.specs.Calls.{call_at};
ghost use Rattle.script_meaning.specs.Meaning.{nothing_before, script_in, setting_of, start};
ghost use Rattle.script_meaning.specs.Running.{Gave, State as RunState};
ghost use Rattle.script_meaning.specs.Steps.{Flow, act_all};
ghost use Rattle.script_meaning.specs.declared.outcome.Args.{Args};
ghost use Rattle.script_meaning.specs.declared.which.Part.{Part};
ghost use Rattle.router_laws_sound.specs.Rooms.{HasRoom, IsDeployed};
ghost use Rattle.router_laws_suiting.specs.Declared.{AreSpelled, Declares, DeclaresAll, IsProgrammed};
ghost use Rattle.router_laws_suiting.specs.Known.{IsSmall};
ghost use Rattle.router_laws_suiting.specs.Typed.{AllTyped};
ghost use Rattle.router_state.specs.State.{State};
ghost use Rattle.router_state.specs.Well.{IsSound};
ghost use Rattle.router_steps.specs.Applying.{Apply};
ghost use Rattle.router_steps.specs.Effects.{after_effects, resolved_in};
ghost use Rattle.router_steps.specs.Scripts.{answers_in};
ghost use Rattle.router_steps.specs.Steps.{Receipt, delivery_at, marked_entity};

/// The effects of a script of checked codes, which are those of the deployment, are typed: what each names is declared and of its
/// kind, a fired event has its fields, a priority lies in its range, and its entity is the one for which the script runs, or lives
/// below it, methods of children included.
pub fn effects_of_scripts_are_typed()
    ensures { (s : State) (own a : ℕ) (e : EntityId) (all : Codes) (program : Program) (block : BlockProgram) (which : Part) (steps : Steps) (arguments : Args) (flow : Flow) (su : RunState) → IsSound s → program_of all ≡ Ok program → ((n : ℕ) (x : Block) → slice_get all.blocks n ≡ Some x → Declares s.deployment n x) → DeclaresAll s.deployment all → slice_get program own ≡ Some block → script_in block which ≡ Some steps → arguments.activity.0 ≡ a → act_all (setting_of (answers_in s) block e arguments nothing_before) (call_at (setting_of (answers_in s) block e arguments nothing_before) program 8) steps start ≡ Gave flow su → AllTyped s e.0 own a [] su.effects }
{}

/// Each effect of every delivery applies at its turn, so none is left out: over a sound state of a deployment whose program is that
/// of its checked scripts, whose constants have spellings, whose next numbers of entities and activities are at most 2^62, where the
/// numbers that come next behind it have 64 bits.
pub fn effects_of_deliveries_apply()
    ensures { (s : State) (a : ℕ) (x : Receipt) → IsSound s → IsDeployed s.deployment → IsProgrammed s.deployment s.program → AreSpelled s.program → IsSmall s → delivery_at s a ≡ Some x → HasRoom (after_effects (resolved_in s x.delivered.effects) (marked_entity x s)) → Apply x.entity.number.0 (resolved_in s x.delivered.effects) (marked_entity x s) }
{}
