//! Lines of text. Contracts see the list of them.
ghost use Rattle.std.specs.Prelude.{◌≡◌, ◌++◌, ◌∷◌, [], OnOk, OnErr};
ghost use Rattle.trace_history.specs.Lines.{line_text, line_texts};

use slee_value::{NoMemory, Text};
use std::alloc::Global;
use std::fmt;
use std::marker::Model;
use std::snapshot::Snapshot;

/// How many bytes are made room for where lines begin.
const TEXT_ROOM: usize = 96;

/// Lines of text, in one piece of memory. Where one begins is known to contracts alone: a snapshot has no bytes.
#[derive(Drop)]
pub struct Lines {
    text: Vec<u8>,
    lines: Vec<Snapshot<Text>>,
}

impl Model for Lines {
    ghost use Rattle.std.specs.Prelude.{◌≡◌, List, ℕ, map};
    ghost use Rattle.trace_history.specs.Lines.{line_texts};

    ghost Value = { List (List ℕ) };

    ghost view = { λ l. map (λ line. line.value) l.lines.items };

    ghost invariant = { λ l. l.text.items ≡ line_texts (map (λ line. line.value) l.lines.items) };
}

impl Lines {
    /// No lines.
    pub fn new(alloc: Global) -> Self
        ensures { result ≡ [] }
    {
        Lines {
            text: Vec::new(alloc),
            lines: Vec::new(alloc),
        }
    }

    /// The lines, each with its newline.
    pub fn text(&self) -> &[u8]
        ensures { result.now ≡ line_texts self.now }
    {
        &self.text
    }

    /// Adds a line at the end.
    #[tactic(auto, using(crate::proofs::LinesLemmas::line_more, crate::proofs::LinesLemmas::one_more))]
    pub fn push(&mut self, line: &Text) -> Result<(), NoMemory>
        ensures ok { OnOk result (self.new ≡ self.old ++ line.now ∷ []) }
        ensures err { OnErr result (self.new ≡ self.old) }
    {
        if self.text.is_empty() {
            make_room(&mut self.text)?;
        }
        self.lines.reserve(1)?;
        add_line(&mut self.text, line.as_bytes())?;
        self.lines.push_reserved(Snapshot::of(line));
        Ok(())
    }
}

impl fmt::Debug for Lines {
    fn fmt<W: fmt::Write>(&self, f: &mut fmt::Formatter<W>) -> fmt::Result {
        write!(f, "{:?}", self.text)
    }
}

/// Makes room for the lines of a step: most have no more.
fn make_room(text: &mut Vec<u8>) -> Result<(), NoMemory>
    ensures { text.new.items ≡ text.old.items }
{
    text.reserve(TEXT_ROOM)?;
    Ok(())
}

/// Adds a line and its newline, or nothing.
fn add_line(text: &mut Vec<u8>, line: &[u8]) -> Result<(), NoMemory>
    ensures ok { OnOk result (text.new.items ≡ text.old.items ++ line_text line.now) }
    ensures err { OnErr result (text.new.items ≡ text.old.items) }
{
    text.reserve(line.len() + 1)?;
    text.extend_from_slice(line)?;
    text.push_reserved(b'\n');
    Ok(())
}
