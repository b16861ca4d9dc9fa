//! Why lines are no signals.
use slee_value::NoMemory;

/// What is wrong with a line. Of several faults the first in this order is told, and from `Name` on that of the first word.
#[derive(Clone, Copy, Debug, PartialEq, Eq)]
pub enum SignalBad {
    /// It has more than 4,096 bytes.
    Long,
    /// It has a byte below 0x20, or 0x7F.
    Control,
    /// It isn't UTF-8.
    Utf8,
    /// It has no bytes.
    Empty,
    /// Its first word is none of the nine verbs.
    Verb,
    /// It has too few words for its verb, or too many.
    Count,
    /// A word isn't the name that stands there.
    Name,
    /// A word isn't a decimal number up to the latest moment.
    Number,
    /// A field word has no equals sign, no name before it, or a name that an earlier one has.
    Field,
    /// A byte of a text should be escaped and isn't, or the other way round.
    Escape,
}

impl SignalBad {
    ghost use Rattle.std.specs.Prelude.{◌≡◌};
    ghost use Rattle.signal_script.specs.Words.{bad_word};

    /// The word for it in messages.
    pub fn word(self) -> &'static str
        ensures { result.now ≡ bad_word self }
    {
        match self {
            SignalBad::Long => "long",
            SignalBad::Control => "control",
            SignalBad::Utf8 => "utf8",
            SignalBad::Empty => "empty",
            SignalBad::Verb => "verb",
            SignalBad::Count => "count",
            SignalBad::Name => "name",
            SignalBad::Number => "number",
            SignalBad::Field => "field",
            SignalBad::Escape => "escape",
        }
    }
}

/// Why bytes are no signals.
#[derive(Clone, Copy, Debug, PartialEq, Eq)]
pub enum SignalFault {
    /// This line is the first that is none of the grammar, lines being counted from 1.
    At { line: u64, kind: SignalBad },
    /// Memory ran out.
    NoMemory,
}

/// Why a line is no signal.
#[derive(Clone, Copy, Debug, PartialEq, Eq)]
pub enum LineFault {
    Bad { kind: SignalBad },
    /// Memory ran out.
    NoMemory,
}

impl From<SignalBad> for LineFault {
    ghost use Rattle.std.specs.Prelude.{◌≡◌};
    ghost use Rattle.signal_script.specs.declared.fault.LineFault.TheVariants.{Bad};

    ghost from_gives = { λ kind e. e ≡ Bad kind };

    fn from(kind: SignalBad) -> Self {
        LineFault::Bad { kind }
    }
}

impl From<NoMemory> for LineFault {
    ghost use Rattle.std.specs.Prelude.{◌≡◌};
    ghost use Rattle.signal_script.specs.declared.fault.LineFault.TheVariants.{NoMemory};

    ghost from_gives = { λ _ e. e ≡ NoMemory };

    fn from(_: NoMemory) -> Self {
        LineFault::NoMemory
    }
}

impl From<NoMemory> for SignalFault {
    ghost use Rattle.std.specs.Prelude.{◌≡◌};
    ghost use Rattle.signal_script.specs.declared.fault.SignalFault.TheVariants.{NoMemory};

    ghost from_gives = { λ _ e. e ≡ NoMemory };

    fn from(_: NoMemory) -> Self {
        SignalFault::NoMemory
    }
}
