//! The words of the command line.
ghost use Rattle.std.specs.Prelude.{◌≡◌, ◌&&◌, true, Some, None, IfSome, nat_le, if◌then◌else◌};
ghost use Rattle.slee_run.specs.Words.{texts, command_of, command_alone, command_of_two, is_in_range, number_within, made_of, workers_of, steps_of, seed_of, count_of};

use crate::Command;
use signal_script::number_of;

const MOST_WORKERS: u64 = 64;

const MOST_STEPS: u64 = 1_000_000;

const MOST_SEED: u64 = 4_294_967_295;

const MOST_LINES: u64 = 100_000;

/// What the words ask, if they are of a form and their numbers in range.
#[tactic(auto, using(crate::proofs::WordLemmas::one_word, crate::proofs::WordLemmas::three_words, crate::proofs::WordLemmas::other_words, crate::proofs::WordLemmas::asked_in_range))]
pub fn command_of(words: &[&str]) -> Option<Command>
    ensures command { result ≡ command_of (texts words.now) }
    ensures in_range { IfSome result (λ command. is_in_range command ≡ true) }
{
    match words {
        [verb] => command_alone(verb),
        [verb, first, second] => command_of_two(verb, first, second),
        _ => None,
    }
}

fn command_alone(verb: &str) -> Option<Command>
    ensures { result ≡ command_alone verb.now }
{
    if verb == "check" {
        Some(Command::Check)
    } else if verb == "show" {
        Some(Command::Show)
    } else if verb == "compact" {
        Some(Command::Compact)
    } else {
        None
    }
}

fn command_of_two(verb: &str, first: &str, second: &str) -> Option<Command>
    ensures { result ≡ command_of_two verb.now first.now second.now }
{
    if verb == "play" {
        play(first, second)
    } else if verb == "resume" {
        resume(first, second)
    } else if verb == "gen" {
        generate(first, second)
    } else if verb == "trial" {
        trial(first, second)
    } else {
        None
    }
}

fn play(workers: &str, steps: &str) -> Option<Command>
    ensures { result ≡ made_of Command.Play (workers_of workers.now) (steps_of steps.now) }
{
    let workers = number_within(workers, 1, MOST_WORKERS)?;
    let steps = number_within(steps, 1, MOST_STEPS)?;
    Some(Command::Play { workers, steps })
}

fn resume(workers: &str, steps: &str) -> Option<Command>
    ensures { result ≡ made_of Command.Resume (workers_of workers.now) (steps_of steps.now) }
{
    let workers = number_within(workers, 1, MOST_WORKERS)?;
    let steps = number_within(steps, 1, MOST_STEPS)?;
    Some(Command::Resume { workers, steps })
}

fn generate(seed: &str, count: &str) -> Option<Command>
    ensures { result ≡ made_of Command.Gen (seed_of seed.now) (count_of count.now) }
{
    let seed = number_within(seed, 0, MOST_SEED)?;
    let count = number_within(count, 0, MOST_LINES)?;
    Some(Command::Gen { seed, count })
}

fn trial(seed: &str, count: &str) -> Option<Command>
    ensures { result ≡ made_of Command.Trial (seed_of seed.now) (count_of count.now) }
{
    let seed = number_within(seed, 0, MOST_SEED)?;
    let count = number_within(count, 0, MOST_LINES)?;
    Some(Command::Trial { seed, count })
}

/// The number that the word spells, if it lies in this range.
#[tactic(auto, using(crate::proofs::WordLemmas::number_spelled, crate::proofs::WordLemmas::number_none))]
fn number_within(word: &str, low: u64, high: u64) -> Option<u64>
    ensures { result ≡ number_within low high word.now }
{
    match number_of(word) {
        None => None,
        Some(number) => within(number, low, high),
    }
}

fn within(number: u64, low: u64, high: u64) -> Option<u64>
    ensures { result ≡ (if nat_le low number && nat_le number high then Some number else None) }
{
    if low <= number && number <= high {
        Some(number)
    } else {
        None
    }
}
