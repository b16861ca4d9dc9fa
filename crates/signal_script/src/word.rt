//! A word of a line that isn't a name: an event's or a row's. Contracts see its bytes.
ghost use Rattle.std.specs.Prelude.{◌≡◌, IsUtf8, IfOk};

use slee_value::NoMemory;
use smallvec::SmallVec;
use std::alloc::Global;
use std::marker::Model;
use std::{fmt, str};

/// The most bytes of a word that takes no memory: they are kept in the word itself.
pub const INLINE_WORD: usize = 16;

/// What a word of a line stands for: UTF-8 bytes.
#[derive(Drop)]
pub struct Word {
    bytes: SmallVec<u8, INLINE_WORD>,
}

impl Model for Word {
    ghost use Rattle.std.specs.Prelude.{List, ℕ, IsUtf8};

    ghost Value = { List ℕ };

    ghost view = { λ w. w.bytes.items };

    ghost invariant = { λ w. IsUtf8 w.bytes.items };
}

impl Word {
    /// A copy of this text.
    pub fn from_str(alloc: Global, text: &str) -> Result<Self, NoMemory>
        ensures { IfOk result (λ word. word ≡ text.now) }
    {
        Ok(Word {
            bytes: SmallVec::from_slice(alloc, text.as_bytes())?,
        })
    }

    /// Its text.
    pub fn as_str(&self) -> &str
        ensures bytes { result.now ≡ self.now }
        ensures utf8 { IsUtf8 self.now }
    {
        // The bytes are those of a text.
        unsafe { str::from_utf8_unchecked(self.bytes.as_slice()) }
    }

    /// Its bytes.
    pub fn as_bytes(&self) -> &[u8]
        ensures { result.now ≡ self.now }
    {
        self.bytes.as_slice()
    }

    /// A copy.
    pub fn copy(&self, alloc: Global) -> Result<Self, NoMemory>
        ensures { IfOk result (λ word. word ≡ self.now) }
    {
        Word::from_str(alloc, self.as_str())
    }
}

impl fmt::Debug for Word {
    fn fmt<W: fmt::Write>(&self, f: &mut fmt::Formatter<W>) -> fmt::Result {
        write!(f, "{:?}", self.as_str())
    }
}
