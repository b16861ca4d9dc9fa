//! Entities, each with its convergence name and its fields.
ghost use Rattle.std.specs.Prelude.{◌≡◌};
ghost use Rattle.slee_value.specs.Reading.{Gives, option_at, text_at};
ghost use Rattle.deploy_model.specs.Resolving.{deployed_of};
ghost use Rattle.router_state.specs.Parsing.{activity_of, conv_at, event_of, name_at, stem_at, u64_at};
ghost use Rattle.snapshot_read.specs.Parts.{stem_of};

use crate::item::Item;
use crate::lists::read_list;
use crate::named::{read_block, read_service};
use crate::parts::{EntityPart, PartStem};
use slee_descriptor::Deployment;
use slee_value::{
    ActivityId, Blob, ConvName, EntityId, EventId, PartFault, Text, read_flag, read_i8, read_str,
    read_text, read_u64,
};
use std::alloc::Global;

/// Where the entity stands, by the number of its parent, or 0 for a root.
fn read_stem<'b>(
    alloc: Global,
    deployment: &Deployment,
    parent: u64,
    bytes: &'b [u8],
) -> Result<(PartStem, &'b [u8]), PartFault>
    ensures { Gives (λ x. (stem_of x.0, x.1.now)) result (stem_at (deployed_of deployment.now.parts) parent bytes.now) }
{
    if parent == 0 {
        let (service, rest) = read_service(deployment, bytes)?;
        return Ok((PartStem::Root(service), rest));
    }
    let (relation, rest) = read_text(alloc, bytes)?;
    Ok((PartStem::Child(EntityId(parent), relation), rest))
}

/// A number, if there is one.
pub(crate) fn read_option(bytes: &[u8]) -> Result<(Option<u64>, &[u8]), PartFault>
    ensures { Gives (λ x. (x.0, x.1.now)) result (option_at u64_at bytes.now) }
{
    let (is_some, rest) = read_flag(bytes)?;
    if !is_some {
        return Ok((None, rest));
    }
    let (number, rest) = read_u64(rest)?;
    Ok((Some(number), rest))
}

/// A text, if there is one.
fn read_optional(alloc: Global, bytes: &[u8]) -> Result<(Option<Text>, &[u8]), PartFault>
    ensures { Gives (λ x. (x.0, x.1.now)) result (option_at text_at bytes.now) }
{
    let (is_some, rest) = read_flag(bytes)?;
    if !is_some {
        return Ok((None, rest));
    }
    let (text, rest) = read_text(alloc, rest)?;
    Ok((Some(text), rest))
}

/// The bytes of a text, if there is one.
fn read_custom(alloc: Global, bytes: &[u8]) -> Result<(Option<Blob>, &[u8]), PartFault>
    ensures { Gives (λ x. (x.0, x.1.now)) result (option_at text_at bytes.now) }
{
    let (is_some, rest) = read_flag(bytes)?;
    if !is_some {
        return Ok((None, rest));
    }
    let (text, rest) = read_str(rest)?;
    Ok((Some(Blob::from_slice(alloc, text.as_bytes())?), rest))
}

fn activity_of(number: Option<u64>) -> Option<ActivityId>
    ensures { result ≡ activity_of number }
{
    match number {
        None => None,
        Some(number) => Some(ActivityId(number)),
    }
}

fn event_of(number: Option<u64>) -> Option<EventId>
    ensures { result ≡ event_of number }
{
    match number {
        None => None,
        Some(number) => Some(EventId(number)),
    }
}

fn read_conv(alloc: Global, bytes: &[u8]) -> Result<(ConvName, &[u8]), PartFault>
    ensures { Gives (λ x. (x.0, x.1.now)) result (conv_at bytes.now) }
{
    let (activity, rest) = read_option(bytes)?;
    let (address, rest) = read_optional(alloc, rest)?;
    let (event_type, rest) = read_optional(alloc, rest)?;
    let (event, rest) = read_option(rest)?;
    let (custom, rest) = read_custom(alloc, rest)?;
    let name = ConvName {
        activity: activity_of(activity),
        address,
        event_type,
        event: event_of(event),
        custom,
    };
    Ok((name, rest))
}

/// The convergence name of a root. A child has none.
fn read_name<'b>(
    alloc: Global,
    stem: &PartStem,
    bytes: &'b [u8],
) -> Result<(Option<ConvName>, &'b [u8]), PartFault>
    ensures { Gives (λ x. (x.0, x.1.now)) result (name_at (stem_of stem.now) bytes.now) }
{
    match stem {
        PartStem::Root(_) => {
            let (name, rest) = read_conv(alloc, bytes)?;
            Ok((Some(name), rest))
        }
        PartStem::Child(_, _) => Ok((None, bytes)),
    }
}

impl Item for EntityPart {
    ghost use Rattle.router_state.specs.Parsing.{entity_at};

    ghost item_at = { λ format. entity_at };

    fn read<'b>(
        alloc: Global,
        deployment: &Deployment,
        format: u8,
        bytes: &'b [u8],
    ) -> Result<(EntityPart, &'b [u8]), PartFault> {
        let (number, rest) = read_u64(bytes)?;
        let (block, rest) = read_block(deployment, rest)?;
        let (parent, rest) = read_u64(rest)?;
        let (stem, rest) = read_stem(alloc, deployment, parent, rest)?;
        let (priority, rest) = read_i8(rest)?;
        let (name, rest) = read_name(alloc, &stem, rest)?;
        let (fields, rest) = read_list(alloc, deployment, format, rest)?;
        let entity = EntityPart {
            number,
            block,
            stem,
            priority,
            name,
            fields,
        };
        Ok((entity, rest))
    }
}
