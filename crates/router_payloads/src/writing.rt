//! Writing what the journal keeps of a step.
ghost use Rattle.std.specs.Prelude.{◌≡◌, ◌==◌, ◌++◌, ◌∷◌, [], ◌<◌, ◌^◌, if◌then◌else◌, OnOk, length};
ghost use Rattle.slee_value.specs.Bytes.{spelled_u64, spelled_text};
ghost use Rattle.slee_effect.specs.Bytes.{spelling_of_effects};
ghost use Rattle.slee_effect.specs.Fitting.{FitEffects};
ghost use Rattle.router_steps.specs.Outcomes.{outcome_byte};

use crate::fitting::check_effects;
use crate::outcomes::outcome_byte;
use script_meaning::Outcome;
use slee_effect::{Effect, write_effects};
use slee_value::{ActivityId, NoMemory, write_bytes, write_u64};

/// The format in which the clock stands before a step.
const FORMAT_WITH_CLOCK: u8 = 2;

/// The kinds of steps, as the journal tells them apart.
const TAKING: u8 = 1;

const SELECTING: u8 = 2;

const DELIVERING: u8 = 3;

const FINISHING: u8 = 4;

/// Adds the clock, in a format that has it.
pub fn write_clock(format: u8, clock: u64, into: &mut Vec<u8>) -> Result<(), NoMemory>
    ensures { OnOk result (into.new.items ≡ into.old.items ++ (if format == 2 then spelled_u64 clock else [])) }
{
    if format == FORMAT_WITH_CLOCK {
        write_u64(clock, into)?;
    }
    Ok(())
}

/// Adds a line that is taken.
pub fn write_taking(line: &[u8], into: &mut Vec<u8>) -> Result<(), NoMemory>
    requires { length line.now < 2 ^ 32 }
    ensures { OnOk result (into.new.items ≡ into.old.items ++ 1 ∷ spelled_text line.now) }
{
    into.push(TAKING)?;
    write_bytes(line, into)?;
    Ok(())
}

/// Adds a kind and an activity.
fn write_numbered(kind: u8, activity: ActivityId, into: &mut Vec<u8>) -> Result<(), NoMemory>
    ensures { OnOk result (into.new.items ≡ into.old.items ++ kind ∷ spelled_u64 activity.0) }
{
    into.push(kind)?;
    write_u64(activity.0, into)?;
    Ok(())
}

/// Adds an initial selection on an activity.
pub fn write_selecting(activity: ActivityId, into: &mut Vec<u8>) -> Result<(), NoMemory>
    ensures { OnOk result (into.new.items ≡ into.old.items ++ 2 ∷ spelled_u64 activity.0) }
{
    write_numbered(SELECTING, activity, into)
}

/// Adds what a delivery comes to.
fn write_outcome(outcome: Outcome, effects: &[Effect], into: &mut Vec<u8>) -> Result<(), NoMemory>
    ensures bytes { OnOk result (into.new.items ≡ into.old.items ++ outcome_byte outcome ∷ spelling_of_effects effects.now) }
    ensures fit { OnOk result (FitEffects effects.now) }
{
    check_effects(effects)?;
    into.push(outcome_byte(outcome))?;
    write_effects(effects, into)?;
    Ok(())
}

/// Adds a delivery on an activity, with what it comes to.
pub fn write_delivering(
    activity: ActivityId,
    outcome: Outcome,
    effects: &[Effect],
    into: &mut Vec<u8>,
) -> Result<(), NoMemory>
    ensures bytes { OnOk result (into.new.items ≡ into.old.items ++ 3 ∷ (spelled_u64 activity.0 ++ outcome_byte outcome ∷ spelling_of_effects effects.now)) }
    ensures fit { OnOk result (FitEffects effects.now) }
{
    write_numbered(DELIVERING, activity, into)?;
    write_outcome(outcome, effects, into)?;
    Ok(())
}

/// Adds the finish of an activity's head event.
pub fn write_finishing(activity: ActivityId, into: &mut Vec<u8>) -> Result<(), NoMemory>
    ensures { OnOk result (into.new.items ≡ into.old.items ++ 4 ∷ spelled_u64 activity.0) }
{
    write_numbered(FINISHING, activity, into)
}
