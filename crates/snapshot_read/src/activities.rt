//! Activities, each with its attributes, its queue and what stands beside the queue.
ghost use Rattle.slee_value.specs.Reading.{Gives, option_at};
ghost use Rattle.deploy_model.specs.Resolving.{deployed_of};
ghost use Rattle.router_state.specs.Parsing.{kind_at, service_number_at, until_at};
ghost use Rattle.snapshot_read.specs.Parts.{kind_of};

use crate::entities::read_option;
use crate::item::Item;
use crate::lists::read_list;
use crate::named::{read_service, read_table, stray};
use crate::parts::{ActivityPart, EventPart, PartKind};
use crate::pieces::ended;
use slee_descriptor::Deployment;
use slee_value::{EventId, PartFault, read_flag, read_text, read_u64};
use std::alloc::Global;

/// The format in which an activity has its suspension.
const WITH_SUSPENSION: u8 = 2;

/// What an activity stands for.
fn read_kind<'b>(
    alloc: Global,
    deployment: &Deployment,
    bytes: &'b [u8],
) -> Result<(PartKind, &'b [u8]), PartFault>
    ensures { Gives (λ x. (kind_of x.0, x.1.now)) result (kind_at (deployed_of deployment.now.parts) bytes.now) }
{
    match bytes {
        [] => Err(ended()),
        [0, rest @ ..] => {
            let (name, rest) = read_text(alloc, rest)?;
            Ok((PartKind::External(name), rest))
        }
        [1, rest @ ..] => Ok((PartKind::Null, rest)),
        [2, rest @ ..] => {
            let (service, rest) = read_service(deployment, rest)?;
            Ok((PartKind::Service(service), rest))
        }
        [3, rest @ ..] => {
            let (table, rest) = read_table(deployment, rest)?;
            Ok((PartKind::Table(table), rest))
        }
        [_, ..] => Err(stray(bytes)),
    }
}

/// The service that alone receives an event, if there is one.
fn read_target<'b>(
    deployment: &Deployment,
    bytes: &'b [u8],
) -> Result<(Option<u32>, &'b [u8]), PartFault>
    ensures { Gives (λ x. (x.0, x.1.now)) result (option_at (service_number_at (deployed_of deployment.now.parts)) bytes.now) }
{
    let (is_some, rest) = read_flag(bytes)?;
    if !is_some {
        return Ok((None, rest));
    }
    let (service, rest) = read_service(deployment, rest)?;
    Ok((Some(service), rest))
}

impl Item for EventPart {
    ghost use Rattle.router_state.specs.Parsing.{event_at};

    ghost item_at = { λ format. event_at };

    fn read<'b>(
        alloc: Global,
        deployment: &Deployment,
        format: u8,
        bytes: &'b [u8],
    ) -> Result<(EventPart, &'b [u8]), PartFault> {
        let (number, rest) = read_u64(bytes)?;
        let (name, rest) = read_text(alloc, rest)?;
        let (target, rest) = read_target(deployment, rest)?;
        let (fields, rest) = read_list(alloc, deployment, format, rest)?;
        let event = EventPart {
            id: EventId(number),
            name,
            target,
            fields,
        };
        Ok((event, rest))
    }
}

/// The moment at which the suspension of the head event ends, as format 2 has it.
fn read_until(format: u8, bytes: &[u8]) -> Result<(Option<u64>, &[u8]), PartFault>
    ensures { Gives (λ x. (x.0, x.1.now)) result (until_at format bytes.now) }
{
    if format == WITH_SUSPENSION {
        read_option(bytes)
    } else {
        Ok((None, bytes))
    }
}

impl Item for ActivityPart {
    ghost use Rattle.router_state.specs.Parsing.{activity_at};

    ghost item_at = { activity_at };

    fn read<'b>(
        alloc: Global,
        deployment: &Deployment,
        format: u8,
        bytes: &'b [u8],
    ) -> Result<(ActivityPart, &'b [u8]), PartFault> {
        let (number, rest) = read_u64(bytes)?;
        let (kind, rest) = read_kind(alloc, deployment, rest)?;
        let (ending, rest) = read_flag(rest)?;
        let (attributes, rest) = read_list(alloc, deployment, format, rest)?;
        let (events, rest) = read_list(alloc, deployment, format, rest)?;
        let (services_done, rest) = read_list(alloc, deployment, format, rest)?;
        let (delivered, rest) = read_list(alloc, deployment, format, rest)?;
        let (until, rest) = read_until(format, rest)?;
        let activity = ActivityPart {
            number,
            kind,
            ending,
            attributes,
            events,
            services_done,
            delivered,
            until,
        };
        Ok((activity, rest))
    }
}
