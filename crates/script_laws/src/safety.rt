//! Laws: checked scripts come to nothing that a checked program doesn't have.
ghost use Rattle.std.specs.Prelude.{◌≡◌, ◌≤◌, ℕ, List, length, Some, Ok, slice_get};
ghost use Rattle.slee_value.specs.declared.ids.EntityId.{EntityId};
ghost use Rattle.slee_value.specs.declared.ids.ActivityId.{ActivityId};
ghost use Rattle.slee_value.specs.declared.value.Value.{Value};
ghost use Rattle.script_tree.specs.Tree.{Expression};
ghost use Rattle.script_types.specs.Codes.{Codes};
ghost use Rattle.script_types.specs.TypingExpressions as typing;
ghost use Rattle.script_types.specs.Scopes.{Scope};
ghost use Rattle.script_types.specs.Elaboration.{Typed, expression_of};
ghost use Rattle.script_types.specs.Program.{Steps, BlockProgram, Program};
ghost use Rattle.script_types.specs.Programs.{program_of};
ghost use Rattle.script_meaning.specs.declared.outcome.Args.{Args};
ghost use Rattle.script_meaning.specs.declared.which.Part.{Part};
ghost use Rattle.script_meaning.specs.Answers.{Answers};
ghost use Rattle.script_meaning.specs.Running.{Setting, State, key_limit};
ghost use Rattle.script_meaning.specs.Terms.{eval};
ghost use Rattle.script_meaning.specs.Delivery.{handler_of, delivered_by};
ghost use Rattle.script_meaning.specs.Meaning.{Before, script_in, meaning_in};
ghost use Rattle.script_laws.specs.Fitting.{Sound, Safe, Is, IsSound, IsSoundDelivery};

/// What a checked expression is made into gives a value of its type wherever variables fit the scope, and leaves them fitting; or
/// it fails, or wants an answer that isn't there. It never finds a name that isn't known, nor a value of another type.
pub fn checked_expressions_give_their_type()
    ensures { (m : Setting) (s : typing.Setting) (scope : Scope) (at : ℕ) (x : Expression) (one : Typed) (st : State) → expression_of s scope at x ≡ Ok one → Sound m scope st → Safe m (Is m one.kind scope) (eval m one.term st) }
{}

/// A script of a checked deployment means a whole run, with at most 256 effects of at most 32,768 bytes and at most 64 keys, or
/// the first key that has no answer. Whatever the answers, it meets no unknown name, no wrong type and no wrong number of
/// arguments, in itself and in the methods that it calls; and where each key has an answer, it comes to its end.
pub fn checked_scripts_have_a_meaning()
    ensures { (all : Codes) (program : Program) (answers : Answers) (number : ℕ) (block : BlockProgram) (which : Part) (steps : Steps) (e : EntityId) (arguments : Args) (before : Before) → program_of all ≡ Ok program → slice_get program number ≡ Some block → script_in block which ≡ Some steps → length before.keys ≤ key_limit → IsSound answers before (meaning_in answers program block steps e arguments before) }
{}

/// A delivery of an event to an entity of a checked block, whose block has a handler of the event, comes to an outcome with at most
/// 256 effects of at most 32,768 bytes, its callbacks run, or to the first key that has no answer.
pub fn checked_deliveries_have_an_outcome()
    ensures { (all : Codes) (program : Program) (answers : Answers) (number : ℕ) (block : BlockProgram) (steps : Steps) (e : EntityId) (a : ActivityId) (event : List ℕ) (fields : List (List ℕ × Value)) → program_of all ≡ Ok program → slice_get program number ≡ Some block → handler_of event block ≡ Some steps → IsSoundDelivery answers (delivered_by answers program block steps e a fields) }
{}
