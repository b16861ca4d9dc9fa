//! Words and commands, and what words and lines determine.
ghost use Rattle.std.specs.Prelude.{◌≡◌, ℕ, List, true, Some, None, IsTrue};
ghost use Rattle.slee_run.specs.declared.command.Command.{Command};
ghost use Rattle.slee_run.specs.Answers.{Outcome};
ghost use Rattle.slee_run.specs.Headline.{IsByFault};
ghost use Rattle.slee_run.specs.Determined.{IsRunOver};
ghost use Rattle.slee_run.specs.Many.{crew_in};
ghost use Rattle.slee_run.specs.Words.{command_of, spelled, is_in_range};

use slee_disk::Disk;

/// Words that ask a command are its spelling, and its numbers are in range.
#[tactic(auto, using(crate::proofs::WordLemmas::command_spelled, crate::proofs::WordLemmas::command_in_range))]
pub fn command_is_spelled()
    ensures spelled { (words : List (List ℕ)) (command : Command) → command_of words ≡ Some command → spelled command ≡ words }
    ensures in_range { (words : List (List ℕ)) (command : Command) → command_of words ≡ Some command → is_in_range command ≡ true }
{}

/// A command whose numbers are in range is asked by its spelling.
#[tactic(auto, using(crate::proofs::WordLemmas::spelled_command))]
pub fn spelled_is_command()
    ensures { (command : Command) → is_in_range command ≡ true → command_of (spelled command) ≡ Some command }
{}

/// The words, the bytes of the sources and the journal determine the status, the history and the text, but for faults of the
/// outside and want of memory, and where the words ask for several workers. Two runs found the one disk, and left the others.
pub fn run_is_determined<D: Disk>(found: &D, one: &D, other: &D)
    ensures { (words : List (List ℕ)) (deploy bytes : List ℕ) (p q : Outcome) → crew_in words ≡ None → IsTrue (D.disk found.now).told
        → IsRunOver words deploy bytes (D.disk found.now) (D.disk one.now) p → IsRunOver words deploy bytes (D.disk found.now) (D.disk other.now) q
        → (IsByFault p.stood → ⊥) → (IsByFault q.stood → ⊥) → (p.stood ≡ q.stood) × (p.history ≡ q.history) × (p.text ≡ q.text) }
{}
