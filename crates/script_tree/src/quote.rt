//! A text between quotes read with its escapes.
ghost use Rattle.std.specs.Prelude.{◌≡◌, ◌≤◌, false, length, IfOk};
ghost use Rattle.std.specs.List.{prefix_len};
ghost use Rattle.script_tree.specs.Lexer.{text_cut, quote_of};
ghost use Rattle.script_tree.specs.Quotes.{is_plain, stop_in, escape_in};

use crate::lexeme::{Cut, Lexeme, Quote};
use crate::{LITERAL_LIMIT, Literal};
use slee_value::{NoMemory, Text};
use std::alloc::Global;

/// A text behind its opening quote.
pub fn quoted(alloc: Global, behind: &str) -> Result<Cut, NoMemory>
    ensures { IfOk result (λ x. x ≡ text_cut (quote_of false behind.now)) }
{
    let Some(quote) = unquoted(alloc, behind)? else {
        return Ok(no_text());
    };
    let Quote { text, size } = quote;
    if size > LITERAL_LIMIT {
        return Ok(no_text());
    }
    Ok(Cut {
        lexeme: Lexeme::Text(Literal::new(text)),
        size: size + 2,
    })
}

fn no_text() -> Cut<'static>
    ensures { result ≡ record { lexeme = Lexeme.Bad; size = 1 } }
{
    Cut {
        lexeme: Lexeme::Bad,
        size: 1,
    }
}

/// The text up to its closing quote.
fn unquoted(alloc: Global, behind: &str) -> Result<Option<Quote>, NoMemory>
    ensures { IfOk result (λ x. x ≡ quote_of false behind.now) }
{
    let mut text = String::new(alloc);
    let mut size = 0;
    let mut rest = behind;
    'runs: loop {
        let n = plain_len(rest.as_bytes());
        let (run, after) = rest.split_at(n);
        text.push_str(run)?;
        size += n;
        match stop_in(after.as_bytes()) {
            Stop::Closed => {
                return Ok(Some(Quote {
                    text: Text::from(text),
                    size,
                }));
            }
            Stop::Broken => return Ok(None),
            Stop::Escape(b) => {
                text.push(char::from(b))?;
                size += 2;
                let (_, further) = after.split_at(2);
                rest = further;
            }
        }
    }
}

/// How many bytes come first that stand for themselves in a text.
fn plain_len(bytes: &[u8]) -> usize
    ensures value { result ≡ prefix_len is_plain bytes.now }
    ensures within { result ≤ length bytes.now }
{
    bytes
        .iter()
        .take_while(|b| **b >= 0x20 && **b != b'"' && **b != b'\\')
        .count()
}

/// What ends a run of bytes that stand for themselves.
#[derive(Clone, Copy)]
pub enum Stop {
    /// The closing quote.
    Closed,
    /// A byte that is written behind a backslash.
    Escape(u8),
    /// Anything else.
    Broken,
}

fn stop_in(bytes: &[u8]) -> Stop
    ensures { result ≡ stop_in bytes.now }
{
    let [first, rest @ ..] = bytes else {
        return Stop::Broken;
    };
    match first {
        b'"' => Stop::Closed,
        b'\\' => escape_in(rest),
        _ => Stop::Broken,
    }
}

/// What stands behind a backslash.
fn escape_in(bytes: &[u8]) -> Stop
    ensures { result ≡ escape_in bytes.now }
{
    let [first, ..] = bytes else {
        return Stop::Broken;
    };
    match first {
        b'"' => Stop::Escape(b'"'),
        b'\\' => Stop::Escape(b'\\'),
        b'n' => Stop::Escape(b'\n'),
        _ => Stop::Broken,
    }
}
