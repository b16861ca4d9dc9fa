//! Runs of the scripts of a checked deployment: the call that others make.
ghost use Rattle.std.specs.Prelude.{◌≡◌, ◌≤◌, IfOk, Some, length};
ghost use Rattle.script_types.specs.Program.{Steps};
ghost use Rattle.script_types.specs.ProgramOf.{kept_program, IsChecked};
ghost use Rattle.script_meaning.specs.Answers.{kept};
ghost use Rattle.script_meaning.specs.Running.{effect_limit, key_limit};
ghost use Rattle.script_meaning.specs.Meaning.{meaning};
ghost use Rattle.handler_run.specs.Runs.{before_of, meaning_of_run};
ghost use Rattle.handler_run.specs.Scripts.{script_of};

use crate::before::Before;
use crate::keys::Known;
use crate::run::{Run, Unfinished, run_in};
use script_meaning::{Args, Which};
use script_types::Codes;
use slee_value::{EntityId, NoMemory};
use std::alloc::Global;

/// What a script of a checked deployment means for an entity, over the answers that are known: how the run ended with its own effects
/// and keys, or the first key of which nothing is known.
pub fn run_script(
    alloc: Global,
    codes: &Codes,
    which: Which,
    me: EntityId,
    arguments: &Args,
    before: &Before,
    known: &Known,
) -> Result<Run, NoMemory>
    requires checked { IsChecked codes.now }
    requires there { (steps : Steps) × (script_of (kept_program codes.now) which ≡ Some steps) }
    requires effects { length before.now.effects ≤ effect_limit }
    requires keys { length before.now.keys ≤ key_limit }
    ensures { IfOk result (λ run. meaning_of_run run ≡ meaning (kept known.now) (kept_program codes.now) which me arguments.now (before_of before.now)) }
{
    let blocks = codes.programs.as_slice();
    let names = &codes.names;
    match run_in(alloc, names, blocks, which, me, arguments, before, known) {
        Ok(run) => Ok(run),
        Err(Unfinished::NoMemory) => Err(NoMemory),
        Err(Unfinished::Unchecked) => unreachable!(),
    }
}
