//! Lines of a text and their words, as they are cut.
ghost use Rattle.std.specs.Prelude.{◌≡◌, ◌∷◌, ◌<◌, [], length, MatchOption};
ghost use Rattle.signal_script.specs.Lines.{lines_of, words_of};

use memchr::memchr;

/// The first line, without its newline, and what follows it.
pub fn first_line(bytes: &[u8]) -> (&[u8], &[u8])
    requires { 0 < length bytes.now }
    ensures lines { lines_of bytes.now ≡ result.0.now ∷ lines_of result.1.now }
    ensures shorter { length result.1.now < length bytes.now }
{
    match memchr(b'\n', bytes) {
        Some(end) => (&bytes[..end], &bytes[end + 1..]),
        None => (bytes, &bytes[bytes.len()..]),
    }
}

/// The first word, and what stands behind the space after it; none where there is one word.
pub fn first_word(line: &[u8]) -> Option<(&[u8], &[u8])>
    ensures { MatchOption result (words_of line.now ≡ line.now ∷ []) (λ parts. words_of line.now ≡ parts.0.now ∷ words_of parts.1.now) }
{
    match memchr(b' ', line) {
        Some(end) => Some((&line[..end], &line[end + 1..])),
        None => None,
    }
}
