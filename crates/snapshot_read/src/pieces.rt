//! Items without parts of their own: numbers, texts, pairs, services, names, timers, suspensions.
ghost use Rattle.std.specs.Prelude.{◌≡◌};
ghost use Rattle.slee_value.specs.Reading.{Gives};
ghost use Rattle.router_state.specs.Parsing.{state_at};

use crate::item::Item;
use crate::named::stray;
use crate::parts::Pair;
use router_state::{Named, Service, ServiceState, Suspension, Timer};
use slee_descriptor::Deployment;
use slee_effect::read_keep;
use slee_value::{
    ActivityId, PartFault, Text, TimerId, ValueBad, read_part, read_text, read_u32, read_u64,
};
use std::alloc::Global;

/// That the bytes end too early.
pub(crate) fn ended() -> PartFault
    ensures { result ≡ PartFault.Bad 0 ValueBad.Short }
{
    PartFault::Bad {
        left: 0,
        kind: ValueBad::Short,
    }
}

impl Item for u32 {
    ghost use Rattle.router_state.specs.Parsing.{u32_at};

    ghost item_at = { λ format d. u32_at };

    fn read<'b>(
        _alloc: Global,
        _deployment: &Deployment,
        _format: u8,
        bytes: &'b [u8],
    ) -> Result<(u32, &'b [u8]), PartFault> {
        read_u32(bytes)
    }
}

impl Item for u64 {
    ghost use Rattle.router_state.specs.Parsing.{u64_at};

    ghost item_at = { λ format d. u64_at };

    fn read<'b>(
        _alloc: Global,
        _deployment: &Deployment,
        _format: u8,
        bytes: &'b [u8],
    ) -> Result<(u64, &'b [u8]), PartFault> {
        read_u64(bytes)
    }
}

impl Item for Text {
    ghost use Rattle.slee_value.specs.Reading.{text_at};

    ghost item_at = { λ format d. text_at };

    fn read<'b>(
        alloc: Global,
        _deployment: &Deployment,
        _format: u8,
        bytes: &'b [u8],
    ) -> Result<(Text, &'b [u8]), PartFault> {
        read_text(alloc, bytes)
    }
}

impl Item for Pair {
    ghost use Rattle.router_state.specs.Parsing.{pair_at};

    ghost item_at = { λ format d. pair_at };

    fn read<'b>(
        alloc: Global,
        _deployment: &Deployment,
        _format: u8,
        bytes: &'b [u8],
    ) -> Result<(Pair, &'b [u8]), PartFault> {
        let (name, rest) = read_text(alloc, bytes)?;
        let (value, rest) = read_part(alloc, rest)?;
        Ok((Pair { name, value }, rest))
    }
}

fn read_state(bytes: &[u8]) -> Result<(ServiceState, &[u8]), PartFault>
    ensures { Gives (λ x. (x.0, x.1.now)) result (state_at bytes.now) }
{
    match bytes {
        [] => Err(ended()),
        [0, rest @ ..] => Ok((ServiceState::Inactive, rest)),
        [1, rest @ ..] => Ok((ServiceState::Active, rest)),
        [2, rest @ ..] => Ok((ServiceState::Stopping, rest)),
        [_, ..] => Err(stray(bytes)),
    }
}

impl Item for Service {
    ghost use Rattle.router_state.specs.Parsing.{service_at};

    ghost item_at = { λ format d. service_at };

    fn read<'b>(
        _alloc: Global,
        _deployment: &Deployment,
        _format: u8,
        bytes: &'b [u8],
    ) -> Result<(Service, &'b [u8]), PartFault> {
        let (state, rest) = read_state(bytes)?;
        let (activity, rest) = read_u64(rest)?;
        let service = Service {
            state,
            activity: ActivityId(activity),
        };
        Ok((service, rest))
    }
}

impl Item for Named {
    ghost use Rattle.router_state.specs.Parsing.{named_at};

    ghost item_at = { λ format d. named_at };

    fn read<'b>(
        alloc: Global,
        _deployment: &Deployment,
        _format: u8,
        bytes: &'b [u8],
    ) -> Result<(Named, &'b [u8]), PartFault> {
        let (name, rest) = read_text(alloc, bytes)?;
        let (activity, rest) = read_u64(rest)?;
        let named = Named {
            name,
            activity: ActivityId(activity),
        };
        Ok((named, rest))
    }
}

impl Item for Timer {
    ghost use Rattle.router_state.specs.Parsing.{timer_at};

    ghost item_at = { λ format d. timer_at };

    fn read<'b>(
        _alloc: Global,
        _deployment: &Deployment,
        _format: u8,
        bytes: &'b [u8],
    ) -> Result<(Timer, &'b [u8]), PartFault> {
        let (number, rest) = read_u64(bytes)?;
        let (activity, rest) = read_u64(rest)?;
        let (next, rest) = read_u64(rest)?;
        let (period, rest) = read_u64(rest)?;
        let (left, rest) = read_u64(rest)?;
        let (keep, rest) = read_keep(rest)?;
        let timer = Timer {
            number: TimerId(number),
            activity: ActivityId(activity),
            next,
            period,
            left,
            keep,
        };
        Ok((timer, rest))
    }
}

impl Item for Suspension {
    ghost use Rattle.router_state.specs.Parsing.{suspension_at};

    ghost item_at = { λ format d. suspension_at };

    fn read<'b>(
        _alloc: Global,
        _deployment: &Deployment,
        _format: u8,
        bytes: &'b [u8],
    ) -> Result<(Suspension, &'b [u8]), PartFault> {
        let (activity, rest) = read_u64(bytes)?;
        let (until, rest) = read_u64(rest)?;
        let suspension = Suspension {
            activity: ActivityId(activity),
            until,
        };
        Ok((suspension, rest))
    }
}
