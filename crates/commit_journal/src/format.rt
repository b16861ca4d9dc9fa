//! The two formats of a side, which differ in the name that stands first. What payloads and snapshots are in each of them
//! is up to the caller.
ghost use Rattle.std.specs.Prelude.{◌≡◌};
ghost use Rattle.commit_journal.specs.Spelling.{format_number};

/// The name of the first format.
pub(crate) const MAGIC_ONE: [u8; 6] = *b"SLEEJ1";

/// The name of the second format, in which every side is written.
pub(crate) const MAGIC_TWO: [u8; 6] = *b"SLEEJ2";

/// The format of a side.
#[derive(Clone, Copy, Debug, PartialEq, Eq)]
pub enum Format {
    One,
    Two,
}

impl Format {
    /// Its number, 1 or 2.
    pub fn number(self) -> u8
        ensures { result ≡ format_number self }
    {
        match self {
            Format::One => 1,
            Format::Two => 2,
        }
    }
}
