//! Where the handler of an event stands.
ghost use Rattle.std.specs.Prelude.{◌≡◌, ◌↔◌, IfOk, IsTrue, bytes_eq, map, position};
ghost use Rattle.script_types.specs.ProgramOf.{block_program_of, handler_program_of, kept_program};
ghost use Rattle.handler_run.specs.Scripts.{script_of};
ghost use Rattle.rollback_calls.specs.Deliveries.{Handles, PlaceIn, StandsAt, handler_in};

use script_meaning::{Part, Which};
use script_types::{BlockSteps, Codes, HandlerSteps};
use slee_value::{NoMemory, Text};

/// The place of the first handler of the event.
fn first_of(handlers: &[HandlerSteps], event: &[u8]) -> Option<usize>
    ensures { result ≡ position (λ h. bytes_eq h.event event.now) handlers.now }
{
    handlers
        .iter()
        .position(|handler| handler.event.as_bytes() == event)
}

/// The place of the handler of the event, among those of a program.
#[tactic(auto, using(crate::proofs::HandlingLemmas::stands_at))]
fn place_of(handlers: &[HandlerSteps], event: &[u8]) -> Option<usize>
    ensures { StandsAt event.now (map handler_program_of handlers.now) result }
{
    first_of(handlers, event)
}

/// The place of the handler of the event in the block of this number.
fn place_in(blocks: &[BlockSteps], block: u32, event: &[u8]) -> Option<usize>
    ensures { PlaceIn (map block_program_of blocks.now) block event.now result }
{
    match blocks.get(block as usize) {
        Some(block) => place_of(block.handlers.as_slice(), event),
        None => None,
    }
}

/// The handler of the event in the block of this number. No block has more handlers than there are numbers.
#[tactic(auto, using(crate::proofs::HandlingLemmas::place_script))]
pub(crate) fn handler_of(codes: &Codes, block: u32, event: &[u8]) -> Result<Which, NoMemory>
    requires { Handles (kept_program codes.now) block event.now }
    ensures block { IfOk result (λ which. which.block ≡ block) }
    ensures script { IfOk result (λ which. script_of (kept_program codes.now) which ≡ handler_in (kept_program codes.now) block event.now) }
{
    match place_in(codes.programs.as_slice(), block, event) {
        None => unreachable!(),
        Some(place) => match u32::try_from(place) {
            Ok(place) => Ok(Which {
                block,
                part: Part::On(place),
            }),
            Err(_) => Err(NoMemory),
        },
    }
}

/// Whether the block of this number is there and handles the event.
#[tactic(auto, using(crate::proofs::HandlingLemmas::handled_by))]
pub fn handles(codes: &Codes, block: u32, event: &Text) -> bool
    ensures { IsTrue result ↔ Handles (kept_program codes.now) block event.now }
{
    place_in(codes.programs.as_slice(), block, event.as_bytes()).is_some()
}
