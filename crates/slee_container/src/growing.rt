//! A container as a value that is taken in turns.
use crate::Container;
use slee_disk::Disk;
use slee_turn::Grows;

impl<'d, D: Disk> Grows for Container<'d, D> {
    ghost use Rattle.std.specs.Prelude.{is_some};
    ghost use Rattle.trace_history.specs.Histories.{choices_of};
    ghost use Rattle.slee_container.specs.Turns.{setup_told};

    ghost setup = { λ c. setup_told c.setup };

    ghost history = { λ c. choices_of c.history };

    ghost halted = { λ c. is_some c.stop };

    fn length(&self) -> u64 {
        self.core.len()
    }

    fn stopped(&self) -> bool {
        self.core.stop().is_some()
    }
}
