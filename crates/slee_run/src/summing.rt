//! The counts of a trial: what the lines of a trace say.
ghost use Rattle.std.specs.Prelude.{◌≡◌, ◌≤◌, ◌^◌};
ghost use Rattle.slee_run.specs.Summary.{AreBelow, behind_space, one_if, summary_of, with_line};

use memchr::memchr;
use usage_totals::first_line;

/// What stands behind the number of a heading that takes a line.
const INPUT: &[u8] = b"input ";

/// What stands behind the number of a heading of a delivery.
const DELIVER: &[u8] = b"deliver ";

/// What a line begins with, behind its first space, that says that an activity has started.
const STARTED: &[u8] = b" started ";

/// What a line begins with, behind its first space, that says why a signal line was refused.
const REFUSED: &[u8] = b" refused ";

/// How many lines of each kind there are.
#[derive(Clone, Copy, Debug, PartialEq, Eq)]
pub struct Summary {
    pub inputs: u64,
    pub started: u64,
    pub deliveries: u64,
    pub refused: u64,
}

/// What stands behind the first space of a line: behind its number in a heading, else behind the first of two.
fn behind_space(line: &[u8]) -> &[u8]
    ensures { result.now ≡ behind_space line.now }
{
    match memchr(b' ', line) {
        Some(end) => &line[end + 1..],
        None => &line[line.len()..],
    }
}

/// One where it is so, and else none.
fn one_if(is: bool) -> u64
    ensures value { result ≡ one_if is }
    ensures small { result ≤ 1 }
{
    if is { 1 } else { 0 }
}

/// The counts, and what a line adds to them.
fn with_line(summary: Summary, line: &[u8]) -> Summary
    requires { AreBelow (2 ^ 63) summary }
    ensures { result ≡ with_line summary line.now }
{
    let said = behind_space(line);
    Summary {
        inputs: summary.inputs + one_if(said.starts_with(INPUT)),
        started: summary.started + one_if(said.starts_with(STARTED)),
        deliveries: summary.deliveries + one_if(said.starts_with(DELIVER)),
        refused: summary.refused + one_if(said.starts_with(REFUSED)),
    }
}

/// The counts of the lines of a trace.
#[tactic(auto, using(crate::proofs::SumLemmas::none_below))]
pub fn summary_of(text: &[u8]) -> Summary
    ensures { result ≡ summary_of text.now }
{
    let mut summary = Summary {
        inputs: 0,
        started: 0,
        deliveries: 0,
        refused: 0,
    };
    let mut rest = text;
    'lines: while !rest.is_empty() {
        let (line, after) = first_line(rest);
        let more = with_line(summary, line);
        summary = more;
        rest = after;
    }
    summary
}
