//! Laws on what scripts and deliveries read: they depend on that alone, and over more answers they go the same way.
ghost use Rattle.std.specs.Prelude.{◌≡◌, ◌<◌, ◌*◌, ◌||◌, ◌++◌, ℕ, List, None, Ok, Some, length, slice_get, true};
ghost use Rattle.std.specs.List.{list_any};
ghost use Rattle.slee_value.specs.declared.ids.ActivityId.{ActivityId};
ghost use Rattle.slee_value.specs.declared.ids.EntityId.{EntityId};
ghost use Rattle.slee_value.specs.declared.value.Value.{Value};
ghost use Rattle.script_types.specs.Codes.{Codes};
ghost use Rattle.script_types.specs.Program.{Steps, BlockProgram, Program};
ghost use Rattle.script_types.specs.Programs.{program_of};
ghost use Rattle.script_meaning.specs.declared.key.Key.{Key};
ghost use Rattle.script_meaning.specs.declared.seen.Seen.{Seen};
ghost use Rattle.script_meaning.specs.Seeing.{same_key};
ghost use Rattle.script_meaning.specs.declared.outcome.Args.{Args};
ghost use Rattle.script_meaning.specs.declared.which.Part.{Part};
ghost use Rattle.script_meaning.specs.Answers.{Answers, kept};
ghost use Rattle.script_meaning.specs.Delivery.{Delivered, Complete, Wants, delivered};
ghost use Rattle.script_meaning.specs.Meaning.{Before, Report, Done, Need, meaning_in, nothing_before, script_in};
ghost use Rattle.script_meaning.specs.Running.{key_limit};
ghost use Rattle.script_laws.specs.Asking.{WereAsked, lacked_by, lacked_in};
ghost use Rattle.script_laws.specs.Dependence.{Extends};

/// What a script means depends on the answers to the keys that it read, and on no others: where other answers are the same at these
/// and at those that its transaction had read before, it ends in the same way with the same effects.
pub fn runs_depend_on_what_they_read()
    ensures { (answers other : Answers) (program : Program) (block : BlockProgram) (steps : Steps) (e : EntityId) (arguments : Args) (before : Before) (report : Report) → meaning_in answers program block steps e arguments before ≡ Done report → ((key : Key) → (list_any (same_key key) before.keys || list_any (same_key key) report.keys) ≡ true → answers key ≡ other key) → meaning_in other program block steps e arguments before ≡ Done report }
{}

/// Over more answers a run that came to its end comes to the same end.
pub fn runs_stay_over_more_answers()
    ensures { (answers other : Answers) (program : Program) (block : BlockProgram) (steps : Steps) (e : EntityId) (arguments : Args) (before : Before) (report : Report) → Extends answers other → meaning_in answers program block steps e arguments before ≡ Done report → meaning_in other program block steps e arguments before ≡ Done report }
{}

/// A key that a run lacked is read by a run over more answers that comes to its end.
pub fn lacked_keys_are_read_over_more_answers()
    ensures { (answers other : Answers) (program : Program) (block : BlockProgram) (steps : Steps) (e : EntityId) (arguments : Args) (before : Before) (key : Key) (report : Report) → Extends answers other → meaning_in answers program block steps e arguments before ≡ Need key → meaning_in other program block steps e arguments before ≡ Done report → (list_any (same_key key) before.keys || list_any (same_key key) report.keys) ≡ true }
{}

/// Determinacy: a delivery that is complete over some answers is the same over more.
pub fn deliveries_stay_over_more_answers()
    ensures { (answers other : Answers) (program : Program) (number : ℕ) (e : EntityId) (a : ActivityId) (event : List ℕ) (fields : List (List ℕ × Value)) (delivery : Delivered) → Extends answers other → delivered answers program number e a event fields ≡ Complete delivery → delivered other program number e a event fields ≡ Complete delivery }
{}

/// What more is known leaves what was known.
pub fn more_answers_are_kept()
    ensures { (known more : List (Key × Seen)) → Extends (kept known) (kept (known ++ more)) }
{}

/// A script of a checked deployment that asks for one key after another, over what is known and what was learned, asks for at most 64.
pub fn scripts_ask_for_few_keys()
    ensures { (all : Codes) (program : Program) (number : ℕ) (block : BlockProgram) (which : Part) (steps : Steps) (e : EntityId) (arguments : Args) (known learned : List (Key × Seen)) (key : Key) → program_of all ≡ Ok program → slice_get program number ≡ Some block → script_in block which ≡ Some steps → WereAsked (λ answers. lacked_in (meaning_in answers program block steps e arguments nothing_before)) known learned → meaning_in (kept (known ++ learned)) program block steps e arguments nothing_before ≡ Need key → length learned < key_limit }
{}

/// A delivery by checked scripts asks for a key that has no answer.
pub fn deliveries_ask_for_unknown_keys()
    ensures { (all : Codes) (program : Program) (number : ℕ) (e : EntityId) (a : ActivityId) (event : List ℕ) (fields : List (List ℕ × Value)) (answers : Answers) (key : Key) → program_of all ≡ Ok program → delivered answers program number e a event fields ≡ Wants key → answers key ≡ None }
{}

/// A delivery by checked scripts that asks for one key after another, over what is known and what was learned, asks for at most 128: 64
/// that are read before its rolled-back callback, and 64 in it.
pub fn deliveries_ask_for_few_keys()
    ensures { (all : Codes) (program : Program) (number : ℕ) (e : EntityId) (a : ActivityId) (event : List ℕ) (fields : List (List ℕ × Value)) (known learned : List (Key × Seen)) (key : Key) → program_of all ≡ Ok program → WereAsked (λ answers. lacked_by (delivered answers program number e a event fields)) known learned → delivered (kept (known ++ learned)) program number e a event fields ≡ Wants key → length learned < 2 * key_limit }
{}
