//! The scripts of a block.
ghost use Rattle.std.specs.Prelude.{◌≡◌, is_some, map, slice_get, option_map};
ghost use Rattle.std.specs.Option.{option_copied};
ghost use Rattle.script_types.specs.ProgramOf.{steps_of, block_program_of, kept_program};
ghost use Rattle.script_meaning.specs.Meaning.{script_in};
ghost use Rattle.handler_run.specs.Scripts.{script_of};

use script_meaning::{Part, Which};
use script_types::{BlockSteps, CodeList, Codes, HandlerSteps, Step};

/// The handler in this place.
fn handler_at(handlers: &[HandlerSteps], place: u32) -> Option<&HandlerSteps>
    ensures { option_copied result ≡ slice_get handlers.now place }
{
    handlers.get(place as usize)
}

/// The script of a block that is run.
pub(crate) fn script_in(block: &BlockSteps, part: Part) -> Option<&CodeList<Step>>
    ensures { option_map steps_of (option_copied result) ≡ script_in (block_program_of block.now) part }
{
    match part {
        Part::On(place) => match handler_at(block.handlers.as_slice(), place) {
            None => None,
            Some(handler) => Some(&handler.steps),
        },
        Part::Exception => block.exception.as_ref(),
        Part::RolledBack => block.rolled_back.as_ref(),
        Part::Remove => block.remove.as_ref(),
    }
}

/// Whether a block has this script.
fn block_has(block: &BlockSteps, part: Part) -> bool
    ensures { result ≡ is_some (script_in (block_program_of block.now) part) }
{
    script_in(block, part).is_some()
}

/// Whether these blocks have this script.
fn blocks_have(blocks: &[BlockSteps], which: Which) -> bool
    ensures { result ≡ is_some (script_of (map block_program_of blocks.now) which) }
{
    match blocks.get(which.block as usize) {
        Some(block) => block_has(block, which.part),
        None => false,
    }
}

/// Whether there is this script.
pub fn has_script(codes: &Codes, which: Which) -> bool
    ensures { result ≡ is_some (script_of (kept_program codes.now) which) }
{
    blocks_have(codes.programs.as_slice(), which)
}
