//! Reading the usage lines of a history.
ghost use Rattle.std.specs.Prelude.{◌≡◌, pos, bytes_eq, option_map, option_and_then, codes};
ghost use Rattle.std.specs.Option.{unwrap_or};
ghost use Rattle.signal_script.specs.Lines.{words_of};
ghost use Rattle.trace_history.specs.Decimals.{int_in};
ghost use Rattle.usage_totals.specs.Usage.{amount_in, behind, usage_in};

use crate::lines::first_word;
use signed_decimals::int_in;

/// What a usage line adds: the name of the count and the amount.
#[derive(Debug, Clone, Copy)]
pub struct Usage<'a> {
    pub name: &'a [u8],
    pub amount: i64,
}

/// What a line adds, where it is a usage line.
#[tactic(auto, using(crate::proofs::UsageLemmas::no_usage, crate::proofs::UsageLemmas::usage_behind))]
pub fn usage_in(line: &[u8]) -> Option<Usage<'_>>
    ensures { option_map (λ usage. (usage.name.now, usage.amount)) result ≡ usage_in (words_of line.now) }
{
    let one_space = behind(line, b"")?;
    let two_spaces = behind(one_space, b"")?;
    let words = behind(two_spaces, b"usage")?;
    amount_in(words)
}

/// What stands behind the first word, where that is this word and a space follows.
#[tactic(auto, using(crate::proofs::UsageLemmas::behind_first))]
fn behind<'a>(line: &'a [u8], word: &[u8]) -> Option<&'a [u8]>
    ensures { option_map (λ rest. words_of rest.now) result ≡ behind word.now (words_of line.now) }
{
    let (first, rest) = first_word(line)?;
    if is_word(first, word) {
        Some(rest)
    } else {
        None
    }
}

fn is_word(one: &[u8], other: &[u8]) -> bool
    ensures { result ≡ bytes_eq one.now other.now }
{
    one == other
}

/// What the words behind `usage` add: an entity, the name and the amount.
#[tactic(auto, using(crate::proofs::UsageLemmas::too_many))]
fn amount_in(line: &[u8]) -> Option<Usage<'_>>
    ensures { option_map (λ usage. (usage.name.now, usage.amount)) result ≡ amount_in (words_of line.now) }
{
    let (_, rest) = first_word(line)?;
    let (name, rest) = first_word(rest)?;
    match first_word(rest) {
        Some(_) => None,
        None => Some(Usage {
            name,
            amount: amount_of(rest),
        }),
    }
}

/// The amount that a word stands for, and 0 where it stands for none.
fn amount_of(word: &[u8]) -> i64
    ensures { result ≡ unwrap_or (int_in word.now) (pos 0) }
{
    match int_in(word) {
        Some(amount) => amount,
        None => 0,
    }
}
