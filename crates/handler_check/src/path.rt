//! Where a script of a deployment stands: its JSON pointer, and the line and column of a token of it.
ghost use Rattle.std.specs.Prelude.{◌≡◌, IfOk, option_and_then, option_copied, slice_get, string_bytes};
ghost use Rattle.script_tree.specs.Reading.{place_of_token};
ghost use Rattle.handler_check.specs.Paths.{method_name, path_in_block, path_of, script_in, text_of};

use script_tree::{Place, Script, place_of_token};
use script_types::{BlockCode, CodePart, CodePlace};
use slee_value::{NoMemory, Text};
use std::alloc::Global;

/// The name of a method, empty where there is none.
fn method_name(blocks: &[BlockCode], block: u32, number: u32) -> &str
    ensures { result.now ≡ method_name blocks.now block number }
{
    let Some(block) = blocks.get(block as usize) else {
        return "";
    };
    match block.methods.as_slice().get(number as usize) {
        Some(method) => method.name.as_str(),
        None => "",
    }
}

/// The members and items that lead from a block to one of its scripts.
fn path_in_block(
    alloc: Global,
    blocks: &[BlockCode],
    block: u32,
    part: CodePart,
) -> Result<String, NoMemory>
    ensures { IfOk result (λ t. string_bytes t ≡ path_in_block blocks.now block part) }
{
    match part {
        CodePart::Handler(number) => Ok(format!(in alloc; "/events/{number}/on")?),
        CodePart::Method(number) => {
            let name = method_name(blocks, block, number);
            Ok(format!(in alloc; "/methods/{name}/do")?)
        }
        CodePart::Exception => Ok(String::from_str(alloc, "/exception")?),
        CodePart::RolledBack => Ok(String::from_str(alloc, "/rolled_back")?),
        CodePart::Remove => Ok(String::from_str(alloc, "/remove")?),
    }
}

/// The JSON pointer of a script.
pub(crate) fn path_of(
    alloc: Global,
    blocks: &[BlockCode],
    place: CodePlace,
) -> Result<Text, NoMemory>
    ensures { IfOk result (λ t. t ≡ path_of blocks.now place) }
{
    let number = place.block;
    let mut path = format!(in alloc; "/blocks/{number}")?;
    path.push_str(path_in_block(alloc, blocks, number, place.part)?.as_str())?;
    Ok(Text::from(path))
}

/// One of a block's scripts.
fn script_in(block: &BlockCode, part: CodePart) -> Option<&Script>
    ensures { option_copied result ≡ script_in block.now part }
{
    match part {
        CodePart::Handler(number) => {
            let handler = block.handlers.as_slice().get(number as usize)?;
            Some(&handler.script)
        }
        CodePart::Method(number) => {
            let method = block.methods.as_slice().get(number as usize)?;
            Some(&method.script)
        }
        CodePart::Exception => block.exception.as_ref(),
        CodePart::RolledBack => block.rolled_back.as_ref(),
        CodePart::Remove => block.remove.as_ref(),
    }
}

/// The script at a place.
fn script_at(blocks: &[BlockCode], place: CodePlace) -> Option<&Script>
    ensures { option_copied result ≡ option_and_then (λ b. script_in b place.part) (slice_get blocks.now place.block) }
{
    let block = blocks.get(place.block as usize)?;
    script_in(block, place.part)
}

/// The line and column of the token of a script that has so many before it.
pub(crate) fn token_place(
    alloc: Global,
    blocks: &[BlockCode],
    place: CodePlace,
    tokens_before: usize,
) -> Result<Place, NoMemory>
    ensures { IfOk result (λ p. p ≡ place_of_token (text_of blocks.now place) tokens_before) }
{
    match script_at(blocks, place) {
        Some(script) => script.place(alloc, tokens_before),
        None => place_of_token(alloc, "", tokens_before),
    }
}
