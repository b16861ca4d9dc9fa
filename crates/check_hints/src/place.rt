//! The script of a deployment at a JSON pointer.
ghost use Rattle.std.specs.Prelude.{◌≡◌, ◌++◌, IfOk, OnOk, bytes_eq, find, map, string_bytes};
ghost use Rattle.std.specs.List.{range_with_len};
ghost use Rattle.script_types.specs.declared.codes.CodePart.TheVariants as code_part;
ghost use Rattle.script_types.specs.CodesOf.{block_of_code};
ghost use Rattle.script_types.specs.Programs.{place_of};
ghost use Rattle.script_types.specs.Typing.{parts_of, places_in};
ghost use Rattle.handler_check.specs.Paths.{method_name, path_in_block, path_of};
ghost use Rattle.check_hints.specs.Places.{place_at};

use script_types::{BlockCode, CodePart, CodePlace};
use slee_value::NoMemory;
use std::alloc::Global;

/// The name of a method, empty where there is none.
fn method_name(blocks: &[BlockCode], block: u32, number: u32) -> &str
    ensures { result.now ≡ method_name blocks.now block number }
{
    let Some(block) = blocks.get(block as usize) else {
        return "";
    };
    match block.methods.as_slice().get(number as usize) {
        Some(method) => method.name.as_str(),
        None => "",
    }
}

/// The members and items that lead from a block to one of its scripts.
fn path_in_block(
    alloc: Global,
    blocks: &[BlockCode],
    block: u32,
    part: CodePart,
) -> Result<String, NoMemory>
    ensures { IfOk result (λ path. string_bytes path ≡ path_in_block blocks.now block part) }
{
    match part {
        CodePart::Handler(number) => Ok(format!(in alloc; "/events/{number}/on")?),
        CodePart::Method(number) => {
            let name = method_name(blocks, block, number);
            Ok(format!(in alloc; "/methods/{name}/do")?)
        }
        CodePart::Exception => Ok(String::from_str(alloc, "/exception")?),
        CodePart::RolledBack => Ok(String::from_str(alloc, "/rolled_back")?),
        CodePart::Remove => Ok(String::from_str(alloc, "/remove")?),
    }
}

/// The JSON pointer of a script.
fn path_of(alloc: Global, blocks: &[BlockCode], place: CodePlace) -> Result<String, NoMemory>
    ensures { IfOk result (λ path. string_bytes path ≡ path_of blocks.now place) }
{
    let number = place.block;
    let mut path = format!(in alloc; "/blocks/{number}")?;
    path.push_str(path_in_block(alloc, blocks, number, place.part)?.as_str())?;
    Ok(path)
}

/// A place in a list as a number. No list has room for more items than there are numbers.
fn item_number(place: usize) -> Result<u32, NoMemory>
    ensures { IfOk result (λ number. number ≡ place) }
{
    match u32::try_from(place) {
        Ok(number) => Ok(number),
        Err(_) => Err(NoMemory),
    }
}

/// Adds so many handlers of a block.
fn add_handlers(parts: &mut Vec<CodePart>, count: usize) -> Result<(), NoMemory>
    ensures { OnOk result (parts.new.items ≡ parts.old.items ++ map code_part.Handler (range_with_len 0 count)) }
{
    for place in 0..count {
        parts.push(CodePart::Handler(item_number(place)?))?;
    }
    Ok(())
}

/// Adds so many methods of a block.
fn add_methods(parts: &mut Vec<CodePart>, count: usize) -> Result<(), NoMemory>
    ensures { OnOk result (parts.new.items ≡ parts.old.items ++ map code_part.Method (range_with_len 0 count)) }
{
    for place in 0..count {
        parts.push(CodePart::Method(item_number(place)?))?;
    }
    Ok(())
}

/// The scripts that a block may have, in their order.
fn parts_of(alloc: Global, block: &BlockCode) -> Result<Vec<CodePart>, NoMemory>
    ensures { IfOk result (λ parts. parts.items ≡ parts_of (block_of_code block.now)) }
{
    let mut parts = Vec::new(alloc);
    add_handlers(&mut parts, block.handlers.as_slice().len())?;
    add_methods(&mut parts, block.methods.as_slice().len())?;
    parts.push(CodePart::Exception)?;
    parts.push(CodePart::RolledBack)?;
    parts.push(CodePart::Remove)?;
    Ok(parts)
}

/// Adds these scripts of a block.
fn add_places(places: &mut Vec<CodePlace>, block: u32, parts: &[CodePart]) -> Result<(), NoMemory>
    ensures { OnOk result (places.new.items ≡ places.old.items ++ map (place_of block) parts.now) }
{
    for part in parts {
        places.push(CodePlace { block, part: *part })?;
    }
    Ok(())
}

/// The scripts of all blocks, in their order.
fn places_in(alloc: Global, blocks: &[BlockCode]) -> Result<Vec<CodePlace>, NoMemory>
    ensures { IfOk result (λ places. places.items ≡ places_in 0 (map block_of_code blocks.now)) }
{
    let mut places = Vec::new(alloc);
    'each: for (number, block) in blocks.iter().enumerate() {
        let parts = parts_of(alloc, block)?;
        add_places(&mut places, item_number(number)?, &parts)?;
    }
    Ok(places)
}

/// The first of these places with that JSON pointer.
fn place_among(
    alloc: Global,
    blocks: &[BlockCode],
    places: &[CodePlace],
    pointer: &str,
) -> Result<Option<CodePlace>, NoMemory>
    ensures { IfOk result (λ place. place ≡ find (λ at. bytes_eq (path_of blocks.now at) pointer.now) places.now) }
{
    for place in places {
        if path_of(alloc, blocks, *place)?.as_bytes() == pointer.as_bytes() {
            return Ok(Some(*place));
        }
    }
    Ok(None)
}

/// Where the script at a JSON pointer stands, if that is the pointer of a script.
pub(crate) fn place_at(
    alloc: Global,
    blocks: &[BlockCode],
    pointer: &str,
) -> Result<Option<CodePlace>, NoMemory>
    ensures { IfOk result (λ place. place ≡ place_at blocks.now pointer.now) }
{
    let places = places_in(alloc, blocks)?;
    place_among(alloc, blocks, &places, pointer)
}
