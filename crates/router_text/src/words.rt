//! Words of the trace: why a line is refused, and how a run of a script ended.
ghost use Rattle.std.specs.Prelude.{◌≡◌, ◌++◌, IfOk, OnOk, string_bytes};
ghost use Rattle.router_steps.specs.Lines.{outcome_words, refusal_word, refused_line, exception_line, rolled_back_line};

use crate::line::empty_line;
use handler_run::word_of;
use router_steps::Refusal;
use script_meaning::Outcome;
use slee_value::{NoMemory, Text};
use std::alloc::Global;

/// The word of a refusal.
fn refusal_word(why: Refusal) -> &'static str
    ensures { result.now ≡ refusal_word why }
{
    match why {
        Refusal::Exists => "exists",
        Refusal::UnknownActivity => "unknown-activity",
        Refusal::Ending => "ending",
        Refusal::UnknownEvent => "unknown-event",
        Refusal::UnknownService => "unknown-service",
        Refusal::BadFields => "bad-fields",
        Refusal::ClockBack => "clock-back",
        Refusal::TooMany => "too-many",
        Refusal::NotInactive => "not-inactive",
        Refusal::NotActive => "not-active",
        Refusal::UnknownTable => "unknown-table",
        Refusal::RowExists => "row-exists",
        Refusal::NoRow => "no-row",
        Refusal::Duplicate => "duplicate",
    }
}

/// A line is refused.
pub fn refused(alloc: Global, why: Refusal) -> Result<Text, NoMemory>
    ensures { IfOk result (λ line. line ≡ refused_line why) }
{
    let word = refusal_word(why);
    let mut line = empty_line(alloc)?;
    write!(line, "  refused {word}")?;
    Ok(Text::from(line))
}

/// Writes how a run of a script ended.
pub(crate) fn write_outcome(line: &mut String, outcome: Outcome) -> Result<(), NoMemory>
    ensures { OnOk result (string_bytes line.new ≡ string_bytes line.old ++ outcome_words outcome) }
{
    match outcome {
        Outcome::Fine => line.push_str("fine")?,
        Outcome::Asked => line.push_str("asked")?,
        Outcome::Broken(kind) => {
            let word = word_of(kind);
            write!(line, "failed {word}")?;
        }
    }
    Ok(())
}

/// The exception callback ran, and ended so.
pub fn exception(alloc: Global, outcome: Outcome) -> Result<Text, NoMemory>
    ensures { IfOk result (λ line. line ≡ exception_line outcome) }
{
    let mut line = empty_line(alloc)?;
    line.push_str("  exception ")?;
    write_outcome(&mut line, outcome)?;
    Ok(Text::from(line))
}

/// The rolled-back callback ran, and ended so.
pub fn rolled_back(alloc: Global, outcome: Outcome) -> Result<Text, NoMemory>
    ensures { IfOk result (λ line. line ≡ rolled_back_line outcome) }
{
    let mut line = empty_line(alloc)?;
    line.push_str("  rolled-back ")?;
    write_outcome(&mut line, outcome)?;
    Ok(Text::from(line))
}
