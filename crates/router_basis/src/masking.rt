//! The events that an entity masks where it is attached, in byte order.
ghost use Rattle.std.specs.Prelude.{◌≡◌, [], slice_get, IfOk, OnOk};
ghost use Rattle.std.specs.Option.{option_map_or};
ghost use Rattle.slee_value.specs.Order.{is_below, rises};
ghost use Rattle.deploy_model.specs.Deployed.{with_text};
ghost use Rattle.router_basis.specs.Masks.{masks, place_for};

use crate::declared::block_at;
use script_types::{Codes, HandlerCode};
use slee_value::{Names, NoMemory, Text};
use std::alloc::Global;

/// Whether the one text stands before the other in byte order.
fn is_below(text: &Text, other: &Text) -> bool
    ensures { result ≡ is_below text.now other.now }
{
    text.as_bytes().cmp(other.as_bytes()).is_lt()
}

/// The place of the first text before which this one stands.
fn place_for(texts: &[Text], text: &Text) -> usize
    ensures { result ≡ place_for text.now texts.now }
{
    let mut place = 0;
    'texts: for other in texts {
        if is_below(text, other) {
            return place;
        }
        place += 1;
    }
    place
}

/// Puts a text into its place among texts that rise.
#[tactic(auto, using(crate::proofs::MaskLemmas::put_at_place, crate::proofs::MaskLemmas::place_within))]
fn put_text(texts: &mut Vec<Text>, text: Text) -> Result<(), NoMemory>
    ensures { OnOk result (texts.new.items ≡ with_text text texts.old.items) }
{
    let place = place_for(texts.as_slice(), &text);
    texts.insert(place, text)?;
    Ok(())
}

/// The events that these handlers mask, in byte order.
#[tactic(auto, using(crate::proofs::MaskLemmas::one_masked, crate::proofs::MaskLemmas::one_unmasked, crate::proofs::MaskLemmas::all_masked))]
fn masked(alloc: Global, handlers: &[HandlerCode]) -> Result<Vec<Text>, NoMemory>
    ensures { IfOk result (λ texts. texts.items ≡ masks handlers.now) }
{
    let mut texts = Vec::new(alloc);
    'handlers: for behind in 0..handlers.len() {
        let handler = &handlers[handlers.len() - 1 - behind];
        if handler.mask {
            put_text(&mut texts, handler.event.copy(alloc)?)?;
        }
    }
    Ok(texts)
}

/// Whether the texts rise.
fn are_rising(texts: &[Text]) -> bool
    ensures { result ≡ rises texts.now }
{
    let mut left = texts;
    'left: while let [first, rest @ ..] = left {
        match rest {
            [next, ..] if !is_below(first, next) => return false,
            _ => {}
        }
        left = rest;
    }
    true
}

/// The events that an entity of this block masks where it is attached. A block that handled an event twice would find no memory.
pub fn masked_on_attach(alloc: Global, codes: &Codes, block: u32) -> Result<Names, NoMemory>
    ensures { IfOk result (λ names. names ≡ option_map_or (λ b. masks b.handlers) (slice_get codes.now.blocks block) []) }
{
    let texts = match block_at(codes, block) {
        Some(block) => masked(alloc, block.handlers.as_slice())?,
        None => Vec::new(alloc),
    };
    if !are_rising(texts.as_slice()) {
        return Err(NoMemory);
    }
    Ok(Names::from_vec(texts))
}
