//! A value to take in turns, whose entries are numbers.
ghost use Rattle.std.specs.Prelude.{false};
ghost use mathlib.Core.List.{IsPrefix};
ghost use Rattle.slee_turn.specs.Setups.{no_setup};
ghost use Rattle.test_turns.specs.Entries.{history_of};

use slee_turn::Grows;
use slee_value::NoMemory;
use std::alloc::Global;

/// A value whose entries are numbers.
#[derive(Drop)]
pub struct Counted {
    pub entries: Vec<u64>,
}

impl Grows for Counted {
    ghost setup = { λ _. no_setup };

    ghost history = { λ c. history_of c.entries.items };

    ghost halted = { λ _. false };

    fn length(&self) -> u64 {
        self.entries.len() as u64
    }

    fn stopped(&self) -> bool {
        false
    }
}

impl Counted {
    /// A value with the entries 1, 2 and 3.
    pub fn of_three(alloc: Global) -> Result<Counted, NoMemory> {
        let entries = vec![in alloc; 1u64, 2, 3]?;
        Ok(Counted { entries })
    }

    /// Adds an entry.
    #[tactic(auto, using(crate::proofs::EntryLemmas::same))]
    pub fn add(&mut self, number: u64) -> Result<(), NoMemory>
        ensures grown { IsPrefix (history_of self.old.entries.items) (history_of self.new.entries.items) }
    {
        self.entries.reserve(1)?;
        self.entries.push_reserved(number);
        Ok(())
    }
}
