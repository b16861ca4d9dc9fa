//! Laws: effects refer to what is known. `known` is any set of references that has what a script is given and told, so they hold of the least one.
ghost use Rattle.std.specs.Prelude.{◌≡◌, Bool, ℕ, List, [], ◌∷◌, ◌++◌, Some, Ok, slice_get};
ghost use Rattle.std.specs.List.{AllByRecursion};
ghost use Rattle.slee_value.specs.declared.ids.EntityId.{EntityId};
ghost use Rattle.slee_value.specs.declared.ids.ActivityId.{ActivityId};
ghost use Rattle.slee_value.specs.declared.value.Value.{Value};
ghost use Rattle.slee_effect.specs.declared.effect.Effect.{Effect};
ghost use Rattle.script_types.specs.Codes.{Codes};
ghost use Rattle.script_types.specs.Program.{Steps, BlockProgram, Program};
ghost use Rattle.script_types.specs.Programs.{program_of};
ghost use Rattle.script_meaning.specs.declared.key.Key.{Key};
ghost use Rattle.script_meaning.specs.declared.outcome.Args.{Args};
ghost use Rattle.script_meaning.specs.declared.which.Part.{Part};
ghost use Rattle.script_meaning.specs.Answers.{Answers};
ghost use Rattle.script_meaning.specs.Meaning.{Before, Report, Done, script_in, meaning_in};
ghost use Rattle.script_meaning.specs.Delivery.{Delivered, Complete, handler_of, delivered_by};
ghost use Rattle.script_laws.specs.References.{Reference, Among, IsKnown, Refer};
ghost use Rattle.script_laws.specs.Told.{HasGiven, HasAnswers, in_answer};

/// Each effect of a script of a checked deployment refers to what the script was given, to what answers to the keys that its
/// transaction read told it of, or to what its transaction made before that effect; and so do the effects before its own, where
/// they did so when it began.
pub fn scripts_refer_to_what_is_known()
    ensures { (known : Reference → Bool) (all : Codes) (program : Program) (answers : Answers) (number : ℕ) (block : BlockProgram) (which : Part) (steps : Steps) (e : EntityId) (arguments : Args) (before : Before) (report : Report) → program_of all ≡ Ok program → slice_get program number ≡ Some block → script_in block which ≡ Some steps → HasGiven (Among known) all e arguments → Refer (Among known) before.effects → meaning_in answers program block steps e arguments before ≡ Done report → HasAnswers (Among known) answers (before.keys ++ report.keys) → Refer (Among known) (before.effects ++ report.effects) }
{}

/// Each effect that stands of a delivery refers to what the handler and its callbacks were given, to what answers may tell of, or
/// to what was made by the effects before it.
pub fn deliveries_refer_to_what_is_known()
    ensures { (known : Reference → Bool) (all : Codes) (program : Program) (answers : Answers) (number : ℕ) (block : BlockProgram) (steps : Steps) (e : EntityId) (a : ActivityId) (event : List ℕ) (fields : List (List ℕ × Value)) (delivered : Delivered) → program_of all ≡ Ok program → slice_get program number ≡ Some block → handler_of event block ≡ Some steps → HasGiven (Among known) all e (record { activity = a; fields = fields; failure = [] }) → ((key : Key) → AllByRecursion (Among known) (in_answer key (answers key))) → delivered_by answers program block steps e a fields ≡ Complete delivered → Refer (Among known) delivered.effects }
{}

/// What is known or made stays so when more effects are done.
pub fn what_is_known_stays_known()
    ensures { (known : Reference → Bool) (es more : List Effect) (r : Reference) → IsKnown (Among known) es r → IsKnown (Among known) (es ++ more) r }
{}
