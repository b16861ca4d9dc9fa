//! Numbers as words.
ghost use Rattle.std.specs.Prelude.{◌≡◌, ◌↔◌, ◌<◌, ◌^◌, ℕ, IsTrue, MatchOption, decimal};

use itoa::Buffer;

/// The number that the word spells, without a sign or a leading zero.
pub fn number_of(word: &str) -> Option<u64>
    ensures { MatchOption result ((n : ℕ) → n < 2 ^ 64 → word.now ≡ decimal n → ⊥) (λ n. word.now ≡ decimal n) }
{
    let Ok(number) = word.parse::<u64>() else {
        return None;
    };
    if is_spelling(word, number) {
        Some(number)
    } else {
        None
    }
}

fn is_spelling(word: &str, number: u64) -> bool
    ensures { IsTrue result ↔ (word.now ≡ decimal number) }
{
    let mut buffer = Buffer::new();
    word == buffer.format(number)
}
