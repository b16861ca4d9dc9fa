//! Whole runs of tidy scripts.
ghost use Rattle.std.specs.Prelude.{◌≡◌, ◌≤◌, length, map};
ghost use Rattle.script_types.specs.Numbers.{AreNumberedSteps, IsNumberedProgram};
ghost use Rattle.script_types.specs.ProgramOf.{steps_of, block_program_of};
ghost use Rattle.script_meaning.specs.Answers.{kept};
ghost use Rattle.script_meaning.specs.Running.{effect_limit};
ghost use Rattle.script_meaning.specs.Meaning.{start, meaning, report};
ghost use Rattle.script_run_blocks.specs.Stages.{all_in, IsTidyStage};
ghost use Rattle.script_run_blocks.specs.Tidy.{AreTidy, IsTidyProgram};
ghost use Rattle.handler_run.specs.declared.run.Unfinished.TheVariants as unfinished;
ghost use Rattle.handler_run.specs.Runs.{before_of, Means, ended, gone_through};

use crate::before::Before;
use crate::keys::{Keys, Known};
use crate::scripts::script_in;
use crate::words::word_of;
use script_meaning::{Args, FailKind, Key, Outcome, Which};
use script_run_blocks::{Stage, block_at, do_all};
use script_run_machine::{
    Finished, Machine, Scene, Stop, numbers_of_answers, numbers_of_effects, numbers_of_keys,
};
use script_types::{BlockSteps, NamedList, Step};
use slee_effect::{Effects, Ref};
use slee_value::{EntityId, NoMemory, Text};
use std::alloc::Global;

/// How deep calls of methods may be nested.
const CALL_DEPTH: u32 = 8;

/// What a run comes to.
#[derive(Debug, Drop)]
pub enum Run {
    /// Its end: how it ended, the text of its failure, and its own effects and keys.
    Done {
        outcome: Outcome,
        failure: Text,
        effects: Effects,
        keys: Keys,
    },
    /// The first key of which nothing is known.
    Need(Key),
}

/// Why a run comes to nothing.
#[derive(Debug, Clone, Copy, PartialEq, Eq)]
pub(crate) enum Unfinished {
    NoMemory,
    /// No checked script comes here.
    Unchecked,
}

impl From<NoMemory> for Unfinished {
    ghost from_gives = { λ _ e. e ≡ unfinished.NoMemory };

    fn from(_: NoMemory) -> Self {
        Unfinished::NoMemory
    }
}

/// A run that ended so.
fn done(
    alloc: Global,
    finished: Finished,
    outcome: Outcome,
    failure: &str,
) -> Result<Run, Unfinished>
    ensures { Means (ended outcome failure.now finished) result }
{
    let failure = Text::from_str(alloc, failure)?;
    Ok(Run::Done {
        outcome,
        failure,
        effects: Effects::from_vec(finished.effects),
        keys: Keys::from_vec(finished.keys),
    })
}

/// A run that went through is fine, unless rollback was asked for.
fn went_through(alloc: Global, finished: Finished) -> Result<Run, Unfinished>
    ensures { Means (gone_through finished) result }
{
    if finished.is_asked {
        return done(alloc, finished, Outcome::Asked, "asked");
    }
    done(alloc, finished, Outcome::Fine, "")
}

/// Runs steps from their start.
fn run_steps(alloc: Global, stage: &Stage, steps: &[Step]) -> Result<Run, Unfinished>
    requires stage { IsTidyStage stage.now }
    requires steps { AreTidy (steps_of steps.now) }
    requires numbered { AreNumberedSteps stage.now.scene.names.now (steps_of steps.now) }
    ensures { Means (report (all_in stage.now 8 (steps_of steps.now) start)) result }
{
    let mut machine = Machine::new(alloc, stage.scene.names);
    let end = do_all(&mut machine, stage, CALL_DEPTH, steps);
    let finished = machine.finish();
    match end {
        Ok(_) => went_through(alloc, finished),
        Err(Stop::Broken(kind)) => { done(alloc, finished, Outcome::Broken(kind), word_of(kind)) }
        Err(Stop::Thrown(text)) => {
            let outcome = Outcome::Broken(FailKind::Thrown);
            done(alloc, finished, outcome, text.as_str())
        }
        Err(Stop::Need(key)) => Ok(Run::Need(Box::into_inner(key))),
        Err(Stop::NoMemory) => Err(Unfinished::NoMemory),
        Err(Stop::Unchecked) => Err(Unfinished::Unchecked),
    }
}

/// What a script of a block means for an entity, over the answers that are known.
pub(crate) fn run_in(
    alloc: Global,
    names: &NamedList<Text>,
    blocks: &[BlockSteps],
    which: Which,
    me: EntityId,
    arguments: &Args,
    before: &Before,
    known: &Known,
) -> Result<Run, Unfinished>
    requires tidy { IsTidyProgram (map block_program_of blocks.now) }
    requires numbered { IsNumberedProgram names.now (map block_program_of blocks.now) }
    requires effects { length before.now.effects ≤ effect_limit }
    ensures { Means (meaning (kept known.now) (map block_program_of blocks.now) which me arguments.now (before_of before.now)) result }
{
    let Some(block) = block_at(blocks, which.block) else {
        return Err(Unfinished::Unchecked);
    };
    let Some(steps) = script_in(block, which.part) else {
        return Err(Unfinished::Unchecked);
    };
    let answers = known.as_slice();
    let effects = before.effects.as_slice();
    let keys = before.keys.as_slice();
    let masks = block.masks.as_slice();
    let known_numbers = numbers_of_answers(alloc, names, answers)?;
    let effect_numbers = numbers_of_effects(alloc, names, effects)?;
    let key_numbers = numbers_of_keys(alloc, names, keys)?;
    let stage = Stage {
        scene: Scene {
            alloc,
            names,
            known: answers,
            known_numbers: &known_numbers,
            effects,
            effect_numbers: &effect_numbers,
            keys,
            key_numbers: &key_numbers,
            arguments,
            me: Ref::Known(me.0),
            masks,
        },
        blocks,
    };
    run_steps(alloc, &stage, steps.as_slice())
}
