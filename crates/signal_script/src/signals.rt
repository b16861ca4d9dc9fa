//! The signals of a text.
ghost use Rattle.std.specs.Prelude.{◌≡◌, ◌++◌, ◌∷◌, [], IsTrue, OnOk, OnErr, length};
ghost use Rattle.std.specs.List.{list_all};
ghost use Rattle.signal_script.specs.Signals.{is_signal};

use crate::Signal;
use slee_value::NoMemory;
use std::alloc::Global;
use std::marker::Model;

/// Signals in order, each of which a line can give.
#[derive(Debug, Drop)]
pub struct Signals {
    signals: Vec<Signal>,
}

impl Model for Signals {
    ghost use Rattle.std.specs.Prelude.{List, IsTrue};
    ghost use Rattle.std.specs.List.{list_all};
    ghost use Rattle.signal_script.specs.Signals.{is_signal};
    ghost use Rattle.signal_script.specs.declared.signal.Signal.{Signal};

    ghost Value = { List Signal };

    ghost view = { λ s. s.signals.items };

    ghost invariant = { λ s. IsTrue (list_all is_signal s.signals.items) };
}

impl Signals {
    /// No signals.
    pub fn new(alloc: Global) -> Self
        ensures { result ≡ [] }
    {
        Signals {
            signals: Vec::new(alloc),
        }
    }

    /// How many there are.
    pub fn len(&self) -> u64
        ensures { result ≡ length self.now }
    {
        self.signals.len() as u64
    }

    pub fn as_slice(&self) -> &[Signal]
        ensures same { result.now ≡ self.now }
        ensures valid { IsTrue (list_all is_signal self.now) }
    {
        &self.signals
    }

    /// Adds a signal at the end.
    pub fn push(&mut self, signal: Signal) -> Result<(), NoMemory>
        requires { IsTrue (is_signal signal) }
        ensures ok { OnOk result (self.new ≡ self.old ++ signal ∷ []) }
        ensures err { OnErr result (self.new ≡ self.old) }
    {
        self.signals.push(signal)?;
        Ok(())
    }
}
