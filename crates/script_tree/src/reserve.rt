//! The words of the language, told from names.
ghost use Rattle.std.specs.Prelude.{◌≡◌, ◌≤◌, ◌-◌, take, drop};
ghost use Rattle.script_tree.specs.declared.symbol.TheConstants.{WORDS};
ghost use Rattle.script_tree.specs.Words.{find_word, reserved};

use crate::Symbol;
use crate::symbol::WORDS;

/// The word of the language that is spelled so. The list rises, so those with one first letter stand together.
pub fn reserved(run: &[u8]) -> Option<Symbol>
    ensures { result ≡ reserved run.now }
{
    let [first, ..] = run else {
        return None;
    };
    match first {
        b'a' => among(0, 10, run),
        b'b' => among(10, 12, run),
        b'c' => among(12, 16, run),
        b'd' => among(16, 17, run),
        b'e' => among(17, 22, run),
        b'f' => among(22, 27, run),
        b'h' => among(27, 29, run),
        b'i' => among(29, 31, run),
        b'k' => among(31, 32, run),
        b'l' => among(32, 36, run),
        b'm' => among(36, 38, run),
        b'n' => among(38, 42, run),
        b'o' => among(42, 44, run),
        b'p' => among(44, 46, run),
        b'r' => among(46, 50, run),
        b's' => among(50, 52, run),
        b't' => among(52, 59, run),
        b'u' => among(59, 62, run),
        b'w' => among(62, 63, run),
        b'g' | b'j' | b'q' | b'v' | b'x' | b'y' | b'z' => None,
        _ => find_word(&WORDS, run),
    }
}

/// The one of the words between two places of the list that is spelled so.
fn among(start: usize, end: usize, bytes: &[u8]) -> Option<Symbol>
    requires order { start ≤ end }
    requires within { end ≤ 63 }
    ensures { result ≡ find_word (take (end - start) (drop start WORDS)) bytes.now }
{
    find_word(&WORDS[start..end], bytes)
}

/// The word among these that is spelled so.
fn find_word(words: &[Symbol], bytes: &[u8]) -> Option<Symbol>
    ensures { result ≡ find_word words.now bytes.now }
{
    for word in words {
        if word.as_bytes() == bytes {
            return Some(*word);
        }
    }
    None
}
