//! Lines and their words, as they are cut.
ghost use Rattle.std.specs.Prelude.{◌≡◌, ◌∷◌, ◌<◌, ◌+◌, [], not, length, MatchOption, IfSome, Some, None, option_copied};
ghost use Rattle.std.specs.List.{list_any};
ghost use Rattle.signal_script.specs.Lines.{lines_of, words_of, words_behind, is_control};

use memchr::memchr;

/// The most bytes that a line has, without its newline.
pub const LINE_LIMIT: usize = 4096;

/// The first line, without its newline, and what follows it.
#[tactic(auto, using(crate::proofs::LineLemmas::newline_found, crate::proofs::LineLemmas::newline_missing))]
pub fn first_line(bytes: &[u8]) -> (&[u8], &[u8])
    requires { 0 < length bytes.now }
    ensures lines { lines_of bytes.now ≡ result.0.now ∷ lines_of result.1.now }
    ensures shorter { length result.1.now < length bytes.now }
{
    match memchr(b'\n', bytes) {
        Some(end) => (&bytes[..end], &bytes[end + 1..]),
        None => (bytes, &bytes[bytes.len()..]),
    }
}

/// Whether the line has a byte that no line has. It looks at each, since so many are looked at side by side.
#[tactic(auto, using(crate::proofs::LineLemmas::one_byte_looked_at))]
pub fn has_control(line: &[u8]) -> bool
    ensures { result ≡ list_any is_control line.now }
{
    let mut found = false;
    for b in line {
        found = is_control(*b) | found;
    }
    found
}

fn is_control(b: u8) -> bool
    ensures { result ≡ is_control b }
{
    b < 0x20 || b == 0x7F
}

/// The first word, and what stands behind the space after it; none where the text is one word.
fn split_word(text: &str) -> Option<(&str, &str)>
    ensures words { MatchOption result (words_of text.now ≡ text.now ∷ []) (λ parts. words_of text.now ≡ parts.0.now ∷ words_of parts.1.now) }
    ensures shorter { IfSome result (λ parts. length parts.1.now < length text.now) }
{
    text.split_once(' ')
}

/// The first word, and what stands behind the space after it, if there is one.
pub fn first_word(text: &str) -> (&str, Option<&str>)
    ensures words { words_of text.now ≡ result.0.now ∷ words_behind (option_copied result.1) }
    ensures shorter { IfSome result.1 (λ behind. length behind.now < length text.now) }
{
    match split_word(text) {
        Some((word, behind)) => (word, Some(behind)),
        None => (text, None),
    }
}
