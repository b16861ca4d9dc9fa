//! Reading the lines of a text.
ghost use Rattle.std.specs.Prelude.{◌≡◌, MatchResult, Ok};
ghost use Rattle.signal_script.specs.Answers.{Answers, IsFaultOfText};
ghost use Rattle.signal_script.specs.Lines.{words_of};
ghost use Rattle.signal_script.specs.Signals.{signal_of, signal_unbounded, signals_of, signal_of_words, signal_of_bytes};

use crate::forms::read_behind;
use crate::line::{LINE_LIMIT, first_line, first_word, has_control};
use crate::verb::Verb;
use crate::{LineFault, Signal, SignalBad, SignalFault, Signals};
use std::alloc::Global;
use std::str;

/// The signals that the bytes spell, a line each, or the first line that is bad. The last line may lack its newline.
#[tactic(auto, using(crate::proofs::LawLemmas::read_valid, crate::proofs::LineLemmas::line_more, crate::proofs::LineLemmas::line_fault))]
pub fn read_signals(alloc: Global, bytes: &[u8]) -> Result<Signals, SignalFault>
    ensures { MatchResult result (λ list. signals_of bytes.now ≡ Ok list) (λ fault. IsFaultOfText bytes.now fault) }
{
    let mut list = Signals::new(alloc);
    let mut rest = bytes;
    'lines: while !rest.is_empty() {
        let (line, after) = first_line(rest);
        match read_line(alloc, line) {
            Ok(signal) => {
                let Ok(()) = list.push(signal) else {
                    return Err(SignalFault::NoMemory);
                };
            }
            Err(LineFault::Bad { kind }) => {
                let line = list.len() + 1;
                return Err(SignalFault::At { line, kind });
            }
            Err(LineFault::NoMemory) => return Err(SignalFault::NoMemory),
        }
        rest = after;
    }
    Ok(list)
}

/// The signal that one line spells, without its newline.
pub fn read_line(alloc: Global, line: &[u8]) -> Result<Signal, LineFault>
    ensures { Answers result (signal_of line.now) }
{
    if line.len() > LINE_LIMIT {
        return Err(LineFault::Bad {
            kind: SignalBad::Long,
        });
    }
    read_unbounded(alloc, line)
}

/// The signal that one line spells, without its newline, whatever its length.
#[tactic(auto, using(crate::proofs::LineLemmas::utf8_test, crate::proofs::LineLemmas::utf8_refused))]
pub fn read_unbounded(alloc: Global, line: &[u8]) -> Result<Signal, LineFault>
    ensures { Answers result (signal_unbounded line.now) }
{
    if has_control(line) {
        return Err(LineFault::Bad {
            kind: SignalBad::Control,
        });
    }
    let Ok(text) = str::from_utf8(line) else {
        return Err(LineFault::Bad {
            kind: SignalBad::Utf8,
        });
    };
    read_text(alloc, text)
}

/// The signal of a line whose bytes are those of a text.
fn read_text(alloc: Global, text: &str) -> Result<Signal, LineFault>
    ensures { Answers result (signal_of_bytes text.now) }
{
    if text.is_empty() {
        return Err(LineFault::Bad {
            kind: SignalBad::Empty,
        });
    }
    read_words(alloc, text)
}

fn read_words(alloc: Global, text: &str) -> Result<Signal, LineFault>
    ensures { Answers result (signal_of_words (words_of text.now)) }
{
    let (word, behind) = first_word(text);
    match Verb::of(word) {
        Some(verb) => read_behind(alloc, verb, behind),
        None => Err(LineFault::Bad {
            kind: SignalBad::Verb,
        }),
    }
}
