//! What a value must be that is taken in turns.

/// A value with a setup that stays, and a history that grows. It may be stopped.
pub trait Grows {
    ghost use Rattle.std.specs.Prelude.{◌≡◌, List, Bool, length};
    ghost use Rattle.trace_history.specs.declared.choice.Choice.{Choice};
    ghost use Rattle.slee_turn.specs.Setups.{Setup};

    ghost setup: { Self → Setup };

    ghost history: { Self → List Choice };

    ghost halted: { Self → Bool };

    /// How many entries its history has.
    fn length(&self) -> u64
        ensures { result ≡ length (history self.now) };

    /// Whether it is stopped.
    fn stopped(&self) -> bool
        ensures { result ≡ halted self.now };
}
