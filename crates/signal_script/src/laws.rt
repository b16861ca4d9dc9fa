//! A signal has one spelling.
ghost use Rattle.std.specs.Prelude.{◌≡◌, ℕ, List, length, nat_le, true, Ok};
ghost use Rattle.signal_script.specs.Lines.{line_limit};
ghost use Rattle.signal_script.specs.declared.signal.Signal.{Signal};
ghost use Rattle.signal_script.specs.Signals.{signal_of, signal_unbounded, spelled, is_signal};

/// A printed signal is read as itself.
#[tactic(auto, using(crate::proofs::LawLemmas::printed_read))]
pub fn printed_is_read()
    ensures { (signal : Signal) → is_signal signal ≡ true → signal_of (spelled signal) ≡ Ok signal }
{}

/// A line that is read is the spelling of its signal, and the signal is one that a line can give.
#[tactic(auto, using(crate::proofs::LawLemmas::read_spelled, crate::proofs::LawLemmas::read_valid))]
pub fn read_is_spelled()
    ensures spelled { (line : List ℕ) (signal : Signal) → signal_of line ≡ Ok signal → spelled signal ≡ line }
    ensures valid { (line : List ℕ) (signal : Signal) → signal_of line ≡ Ok signal → is_signal signal ≡ true }
{}

/// Where a line is of the grammar but for its length, its signal is one that a line can give exactly where the line isn't too long.
#[tactic(auto, using(crate::proofs::LawLemmas::unbounded_valid))]
pub fn length_alone_decides()
    ensures { (line : List ℕ) (signal : Signal) → signal_unbounded line ≡ Ok signal → is_signal signal ≡ nat_le (length line) line_limit }
{}
