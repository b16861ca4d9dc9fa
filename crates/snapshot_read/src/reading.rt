//! All rows of a snapshot: its counts, then its lists, and nothing after them.
ghost use Rattle.std.specs.Prelude.{◌≡◌, ◌==◌, [], if◌then◌else◌, false, Ok, Err, IfOk};
ghost use Rattle.slee_value.specs.Reading.{Gives};
ghost use Rattle.script_types.specs.Program.{Program};
ghost use Rattle.deploy_model.specs.Deployed.{Deployed};
ghost use Rattle.deploy_model.specs.Resolving.{deployed_of};
ghost use Rattle.router_state.specs.Parsing.{suspensions_at};
ghost use Rattle.router_state.specs.Restoring.{parsed};
ghost use Rattle.snapshot_rows.specs.Rows.{state_of};
ghost use Rattle.snapshot_read.specs.Holding.{Holds};
ghost use Rattle.snapshot_read.specs.Lists.{counts_at, lists_at, lists_of, state_in};
ghost use Rattle.snapshot_read.specs.Names.{are_named, is_held};

use crate::ReadFault;
use crate::activity_rows::activity_rows;
use crate::entity_rows::entity_rows;
use crate::link_rows::link_rows;
use crate::lists::read_list;
use crate::named::stray;
use crate::parts::{ActivityPart, EntityPart, LinkPart, RowPart};
use crate::profile_rows::profile_rows;
use router_state::{Named, Service, Suspension, Timer};
use slee_descriptor::Deployment;
use slee_value::{PartFault, read_u64};
use snapshot_rows::Rows;
use std::alloc::Global;

/// The format in which suspensions stand with their activities.
const LATER_FORMAT: u8 = 2;

/// The counts.
#[derive(Clone, Copy)]
struct Counts {
    clock: u64,
    inputs: u64,
    next_entity: u64,
    next_activity: u64,
    next_timer: u64,
    next_event: u64,
}

/// The lists as they are spelled.
#[derive(Drop)]
struct Lists {
    services: Vec<Service>,
    entities: Vec<EntityPart>,
    activities: Vec<ActivityPart>,
    links: Vec<LinkPart>,
    names: Vec<Named>,
    timers: Vec<Timer>,
    rows: Vec<RowPart>,
    suspensions: Vec<Suspension>,
}

fn read_counts(bytes: &[u8]) -> Result<(Counts, &[u8]), PartFault>
    ensures { Gives (λ x. (x.0, x.1.now)) result (counts_at bytes.now) }
{
    let (clock, rest) = read_u64(bytes)?;
    let (inputs, rest) = read_u64(rest)?;
    let (next_entity, rest) = read_u64(rest)?;
    let (next_activity, rest) = read_u64(rest)?;
    let (next_timer, rest) = read_u64(rest)?;
    let (next_event, rest) = read_u64(rest)?;
    let counts = Counts {
        clock,
        inputs,
        next_entity,
        next_activity,
        next_timer,
        next_event,
    };
    Ok((counts, rest))
}

/// The suspensions that format 1 has at the end, where there are any.
fn read_suspensions<'b>(
    alloc: Global,
    deployment: &Deployment,
    format: u8,
    bytes: &'b [u8],
) -> Result<(Vec<Suspension>, &'b [u8]), PartFault>
    ensures { Gives (λ x. (x.0.items, x.1.now)) result (suspensions_at format bytes.now) }
{
    match bytes {
        [] => Ok((Vec::new(alloc), bytes)),
        [_, ..] => {
            if format == LATER_FORMAT {
                return Err(stray(bytes));
            }
            let (rows, rest): (Vec<Suspension>, &[u8]) = read_list(
                alloc, deployment, format, bytes,
            )?;
            if rows.is_empty() {
                return Err(stray(rest));
            }
            Ok((rows, rest))
        }
    }
}

fn read_lists<'b>(
    alloc: Global,
    deployment: &Deployment,
    format: u8,
    bytes: &'b [u8],
) -> Result<(Lists, &'b [u8]), PartFault>
    ensures { Gives (λ x. (lists_of x.0, x.1.now)) result (lists_at format (deployed_of deployment.now.parts) bytes.now) }
{
    let (services, rest) = read_list(alloc, deployment, format, bytes)?;
    let (entities, rest) = read_list(alloc, deployment, format, rest)?;
    let (activities, rest) = read_list(alloc, deployment, format, rest)?;
    let (links, rest) = read_list(alloc, deployment, format, rest)?;
    let (names, rest) = read_list(alloc, deployment, format, rest)?;
    let (timers, rest) = read_list(alloc, deployment, format, rest)?;
    let (rows, rest) = read_list(alloc, deployment, format, rest)?;
    let (suspensions, rest) = read_suspensions(alloc, deployment, format, rest)?;
    let lists = Lists {
        services,
        entities,
        activities,
        links,
        names,
        timers,
        rows,
        suspensions,
    };
    Ok((lists, rest))
}

/// The suspensions of a format: those that stand with their activities, or those at the end.
fn suspensions_of(
    format: u8,
    with_activities: Vec<Suspension>,
    at_end: Vec<Suspension>,
) -> Vec<Suspension>
    ensures { result.items ≡ (if format == 2 then with_activities.items else at_end.items) }
{
    if format == LATER_FORMAT {
        with_activities
    } else {
        at_end
    }
}

/// The rows that counts and lists are.
fn rows_of(alloc: Global, format: u8, counts: Counts, lists: Lists) -> Result<Rows, ReadFault>
    ensures { (d : Deployed) → (p : Program) → Holds (λ rows. state_of d p rows ≡ state_in format d p counts (lists_of lists)) (are_named (state_in format d p counts (lists_of lists))) result }
{
    let (entities, activities) = (lists.entities, lists.activities);
    let (links, rows) = (lists.links, lists.rows);
    let entities = entity_rows(alloc, entities)?;
    let activities = activity_rows(alloc, activities)?;
    let links = link_rows(alloc, links)?;
    let rows = profile_rows(alloc, rows)?;
    Ok(Rows {
        clock: counts.clock,
        inputs: counts.inputs,
        next_entity: counts.next_entity,
        next_activity: counts.next_activity,
        next_timer: counts.next_timer,
        next_event: counts.next_event,
        services: lists.services,
        entities: entities.entities,
        root_names: entities.root_names,
        fields: entities.fields,
        activities: activities.activities,
        attributes: activities.attributes,
        links: links.links,
        masks: links.masks,
        names: lists.names,
        events: activities.events,
        services_done: activities.services_done,
        delivered: activities.delivered,
        suspensions: suspensions_of(format, activities.suspensions, lists.suspensions),
        timers: lists.timers,
        rows,
    })
}

/// The rows that these bytes are, all of them, in a format.
pub fn read_rows(
    alloc: Global,
    deployment: &Deployment,
    format: u8,
    bytes: &[u8],
) -> Result<Rows, ReadFault>
    // What is read is the state that the definitions read, whatever the scripts.
    ensures read { IfOk result (λ rows. (p : Program) → parsed format (deployed_of deployment.now.parts) p bytes.now ≡ Ok (state_of (deployed_of deployment.now.parts) p rows, [])) }
    // A fault comes where the definitions read none, or leave bytes, or where the state has a name that is none.
    ensures bad { result ≡ Err ReadFault.Bad → (p : Program) → is_held (parsed format (deployed_of deployment.now.parts) p bytes.now) ≡ false }
{
    let (counts, rest) = read_counts(bytes)?;
    let (lists, rest) = read_lists(alloc, deployment, format, rest)?;
    if !rest.is_empty() {
        return Err(ReadFault::Bad);
    }
    rows_of(alloc, format, counts, lists)
}
