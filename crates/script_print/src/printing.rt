//! Scripts printed for people: a statement or brace a line, and blocks indented.
ghost use Rattle.std.specs.Prelude.{◌≡◌, ◌++◌, OnOk, OnErr, IfOk, Ok, length, drop};
ghost use Rattle.script_print.specs.Layout.{printed, laid_out, lexeme_text, gap, indent};
ghost use Rattle.script_tree.specs.Reading.{script_read};
ghost use Rattle.script_tree.specs.Script.{tree_of_script};
ghost use Rattle.script_tree.specs.Words.{quoted, quoted_byte};

use crate::manner::Manner;
use script_tree::{Lexeme, Lexemes, Script, lexemes};
use slee_value::NoMemory;
use std::alloc::Global;

/// Adds the script's text at the end, laid out for people: a statement or brace a line, blocks two
/// blanks further in. What was added is read as that very script.
pub fn print(alloc: Global, script: &Script, into: &mut Vec<u8>) -> Result<(), NoMemory>
    ensures ok { OnOk result (into.new.items ≡ into.old.items ++ printed (tree_of_script script.now)) }
    ensures again { OnOk result (script_read (drop (length into.old.items) into.new.items) ≡ Ok (tree_of_script script.now)) }
    ensures err { OnErr result (into.new.items ≡ into.old.items) }
{
    let tokens = lexemes(alloc, script.text().as_str())?;
    let text = text_of(alloc, &tokens)?;
    into.extend_from_slice(&text)?;
    Ok(())
}

/// Tokens with what stands between them.
fn text_of(alloc: Global, tokens: Lexemes) -> Result<Vec<u8>, NoMemory>
    ensures { IfOk result (λ v. v.items ≡ laid_out tokens.now) }
{
    let mut text = Vec::new(alloc);
    let [first, rest @ ..] = tokens else {
        return Ok(text);
    };
    put(alloc, first, &mut text)?;
    let mut manner = Manner::of(first);
    let mut depth = manner.nesting(0);
    for token in rest {
        let next = Manner::of(token);
        put_gap(depth, manner, next, &mut text)?;
        put(alloc, token, &mut text)?;
        depth = next.nesting(depth);
        manner = next;
    }
    text.push(b'\n')?;
    Ok(text)
}

/// What stands between two tokens, of which the first has so many open braces behind it.
fn put_gap(depth: usize, manner: Manner, next: Manner, text: &mut Vec<u8>) -> Result<(), NoMemory>
    ensures { OnOk result (text.new.items ≡ text.old.items ++ gap depth manner next) }
{
    if manner.is_tight(next) {
        return Ok(());
    }
    if manner.ends_line(next) {
        text.push(b'\n')?;
        return put_indent(next.margin(depth), text);
    }
    text.push(b' ')?;
    Ok(())
}

/// Two blanks for each open brace.
fn put_indent(depth: usize, text: &mut Vec<u8>) -> Result<(), NoMemory>
    ensures { OnOk result (text.new.items ≡ text.old.items ++ indent depth) }
{
    'braces: for brace in 0..depth {
        text.extend_from_slice(b"  ")?;
    }
    Ok(())
}

fn put(alloc: Global, token: &Lexeme, text: &mut Vec<u8>) -> Result<(), NoMemory>
    ensures { OnOk result (text.new.items ≡ text.old.items ++ lexeme_text token.now) }
{
    match token {
        Lexeme::Int(number) => {
            let digits = number.get().to_string(alloc)?;
            text.extend_from_slice(digits.as_bytes())?;
            Ok(())
        }
        Lexeme::Name(name) => {
            text.extend_from_slice(name.as_bytes())?;
            Ok(())
        }
        Lexeme::Text(literal) => {
            text.push(b'"')?;
            put_quoted(literal.text().as_bytes(), text)?;
            text.push(b'"')?;
            Ok(())
        }
        Lexeme::Symbol(symbol) => {
            text.extend_from_slice(symbol.as_bytes())?;
            Ok(())
        }
        Lexeme::Bad => Ok(()),
    }
}

fn put_quoted(bytes: &[u8], text: &mut Vec<u8>) -> Result<(), NoMemory>
    ensures { OnOk result (text.new.items ≡ text.old.items ++ quoted bytes.now) }
{
    for b in bytes {
        put_byte(*b, text)?;
    }
    Ok(())
}

/// A byte as it stands between quotes.
fn put_byte(b: u8, text: &mut Vec<u8>) -> Result<(), NoMemory>
    ensures { OnOk result (text.new.items ≡ text.old.items ++ quoted_byte b) }
{
    if b == b'"' {
        text.extend_from_slice(b"\\\"")?;
    } else if b == b'\\' {
        text.extend_from_slice(b"\\\\")?;
    } else if b == b'\n' {
        text.extend_from_slice(b"\\n")?;
    } else {
        text.push(b)?;
    }
    Ok(())
}
