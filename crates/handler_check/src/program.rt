//! The program of all scripts.
ghost use Rattle.std.specs.Prelude.{◌≡◌, map};
ghost use Rattle.script_types.specs.CodesOf.{codes_of, block_of_code};
ghost use Rattle.script_types.specs.Program.{BlockProgram};
ghost use Rattle.script_types.specs.ProgramOf.{block_program_of};
ghost use Rattle.script_types.specs.Programs.{block_of, program_of};
ghost use Rattle.handler_check.specs.Building.{Builds};

use crate::block::check_block;
use crate::code_fault::CodeFault;
use crate::events::BuiltInFields;
use crate::making::{Making, item_number, make_each};
use crate::task::Home;
use script_types::{BlockCode, BlockSteps, CodeList, Codes};
use std::alloc::Global;

/// The blocks of codes.
#[derive(Drop)]
struct BlockMaking<'a> {
    alloc: Global,
    codes: &'a Codes,
    fields: &'a BuiltInFields,
}

impl<'a> Making<BlockCode, BlockSteps> for BlockMaking<'a> {
    ghost Value = { BlockProgram };

    ghost value_of = { block_program_of };

    ghost built = { λ s n b. block_of (codes_of s.codes.now) n (block_of_code b) };

    fn make(&self, number: usize, item: &BlockCode) -> Result<BlockSteps, CodeFault> {
        let home = Home {
            alloc: self.alloc,
            codes: self.codes,
            block: item,
            number: item_number(number)?,
        };
        check_block(&home, self.fields)
    }
}

/// What all scripts are made into, block by block, where these are the fields of the built-in events.
#[tactic(auto, using(crate::proofs::Lists::blocks_are))]
fn check_blocks(
    alloc: Global,
    codes: &Codes,
    fields: &BuiltInFields,
) -> Result<CodeList<BlockSteps>, CodeFault>
    ensures { Builds (λ l. map block_program_of l) result (program_of (codes_of codes.now)) }
{
    let making = BlockMaking {
        alloc,
        codes,
        fields,
    };
    make_each(alloc, &making, codes.blocks.as_slice())
}

/// What all scripts are made into, block by block, or the first fault with the script in which it stands.
pub(crate) fn check_codes(alloc: Global, codes: &Codes) -> Result<CodeList<BlockSteps>, CodeFault>
    ensures { Builds (λ l. map block_program_of l) result (program_of (codes_of codes.now)) }
{
    let fields = BuiltInFields::new(alloc)?;
    check_blocks(alloc, codes, &fields)
}
