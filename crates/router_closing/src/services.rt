//! Stopping services without a tree are Inactive (JSR 240, chapter 9).
ghost use Rattle.std.specs.Prelude.{◌≡◌, ◌++◌, ◌+◌, ◌<◌, ◌≤◌, ◌^◌, ◌∷◌, [], codes, flat_map, length, slice_get, IfOk, OnOk};
ghost use Rattle.std.specs.List.{fold};
ghost use Rattle.deploy_model.specs.Deployed.{service_key};
ghost use Rattle.router_state.specs.Closed.{has_tree, is_stopped};
ghost use Rattle.router_state.specs.declared.rows.ServiceState.TheVariants as states;
ghost use Rattle.router_steps.specs.Closing.{lines_of_services, without_stopped};
ghost use Rattle.router_steps.specs.Lines.{service_line};
ghost use Rattle.router_steps.specs.Moves.{with_service};
ghost use Rattle.router_draft.specs.Drafts.{laid, CanBeMade, IsLow};
ghost use Rattle.router_closing.specs.Services.{close_service_at, close_services_from, has_new_root, lines_of_service_at, lines_of_services_from, makes, makes_root, removed_by, service_after};

use crate::Closing;
use crate::numbers::rising;
use crate::roots::stands;
use router_draft::{Draft, change};
use router_state::{Change, Service, ServiceState};
use slee_value::{ActivityId, EntityId, NoMemory};
use std::alloc::Global;

/// The row of a service after a change.
fn service_behind(change: &Change, service: u32, was: Option<Service>) -> Option<Service>
    ensures { result ≡ service_after change.now service was }
{
    match change {
        Change::Service {
            service: other,
            state,
            activity,
        } => {
            if *other != service || was.is_none() {
                return was;
            }
            Some(Service {
                state: *state,
                activity: *activity,
            })
        }
        _ => was,
    }
}

/// The same after changes.
fn service_through(changes: &[Change], service: u32, was: Option<Service>) -> Option<Service>
    ensures { result ≡ fold (λ was c. service_after c service was) was changes.now }
{
    changes
        .iter()
        .fold(was, |was, change| service_behind(change, service, was))
}

/// The row of a service.
#[tactic(auto, using(crate::proofs::ServiceLemmas::service_laid))]
fn service_at<C: Closing>(setting: &C, draft: &Draft, service: u32) -> Option<Service>
    ensures { result ≡ slice_get (laid (C.state setting.now) draft.now).services service }
{
    service_through(draft.changes(), service, setting.service(service))
}

/// The entity that the change removes.
fn push_removed(change: &Change, all: &mut Vec<u64>) -> Result<(), NoMemory>
    ensures { OnOk result (all.new.items ≡ all.old.items ++ removed_by change.now) }
{
    match change {
        Change::Remove { entity } => all.push(entity.0)?,
        _ => {}
    }
    Ok(())
}

/// The entities that changes remove.
fn removed(alloc: Global, changes: &[Change]) -> Result<Vec<u64>, NoMemory>
    ensures { IfOk result (λ all. all.items ≡ flat_map removed_by changes.now) }
{
    let mut all = Vec::new(alloc);
    'changes: for change in changes {
        push_removed(change, &mut all)?;
    }
    Ok(all)
}

/// Whether the change makes a root of the service.
fn is_making_root(change: &Change, service: u32) -> bool
    ensures { result ≡ makes_root service change.now }
{
    match change {
        Change::CreateRoot { service: own, .. } => *own == service,
        _ => false,
    }
}

/// How many entities the change makes.
fn count_made(change: &Change) -> u64
    ensures count { result ≡ makes change.now }
    ensures few { result ≤ 1 }
{
    match change {
        Change::CreateRoot { .. } => 1,
        Change::CreateChild { .. } => 1,
        _ => 0,
    }
}

/// Whether a root of the service that the changes make, from this number on, is there after the whole step so far.
fn has_new_root<C: Closing>(
    setting: &C,
    draft: &Draft,
    service: u32,
    first: u64,
    changes: &[Change],
) -> bool
    requires low { first ≤ 2 ^ 62 }
    requires few { length changes.now < 2 ^ 63 }
    ensures { result ≡ has_new_root (laid (C.state setting.now) draft.now).entities service first changes.now }
{
    let mut next = first;
    'changes: for change in changes {
        if is_making_root(change, service) && stands(setting, draft, EntityId(next)) {
            return true;
        }
        next += count_made(change);
    }
    false
}

/// Whether a root of the service is there: one that was there before the step and wasn't removed, or one that the step makes.
#[tactic(auto, using(crate::proofs::ServiceLemmas::old_tree, crate::proofs::ServiceLemmas::new_tree))]
fn has_tree<C: Closing>(
    alloc: Global,
    setting: &C,
    draft: &Draft,
    service: u32,
) -> Result<bool, NoMemory>
    requires low { IsLow (C.state setting.now) }
    requires made { CanBeMade (C.state setting.now) draft.now }
    ensures { IfOk result (λ is. is ≡ has_tree (laid (C.state setting.now) draft.now).entities service) }
{
    setting.ordered();
    let changes = draft.changes();
    let all = removed(alloc, changes)?;
    let gone = rising(all);
    if setting.has_root(service, &gone) {
        return Ok(true);
    }
    Ok(has_new_root(setting, draft, service, setting.next_entity(), changes))
}

/// Whether the service is Stopping and has no tree any longer.
fn is_stopped<C: Closing>(
    alloc: Global,
    setting: &C,
    draft: &Draft,
    service: u32,
    row: Service,
) -> Result<bool, NoMemory>
    requires low { IsLow (C.state setting.now) }
    requires made { CanBeMade (C.state setting.now) draft.now }
    ensures { IfOk result (λ is. is ≡ is_stopped (laid (C.state setting.now) draft.now).entities service row) }
{
    match row.state {
        ServiceState::Stopping => {
            let has = has_tree(alloc, setting, draft, service)?;
            Ok(!has)
        }
        ServiceState::Inactive => Ok(false),
        ServiceState::Active => Ok(false),
    }
}

/// The service is Inactive from now on, with the line that says so.
#[tactic(auto, using(crate::proofs::ServiceLemmas::key_laid, crate::proofs::ServiceLemmas::there_at))]
fn deactivate<C: Closing>(
    alloc: Global,
    setting: &C,
    draft: &mut Draft,
    service: u32,
    activity: ActivityId,
) -> Result<(), NoMemory>
    requires made { CanBeMade (C.state setting.now) draft.old }
    requires there { service < length (laid (C.state setting.now) draft.old).services }
    ensures state { OnOk result (laid (C.state setting.now) draft.new ≡ with_service (laid (C.state setting.now) draft.old) service states.Inactive activity.0) }
    ensures lines { OnOk result (draft.new.lines ≡ draft.old.lines ++ service_line (service_key (laid (C.state setting.now) draft.old).deployment service) (codes "inactive") ∷ []) }
    ensures made { OnOk result (CanBeMade (C.state setting.now) draft.new) }
{
    let key = setting.service_key(service);
    draft.tell(&router_text::service(alloc, key, "inactive")?)?;
    let state = ServiceState::Inactive;
    change(
        setting,
        draft,
        Change::Service {
            service,
            state,
            activity,
        },
    )?;
    Ok(())
}

/// The service is Inactive where it is Stopping and has no tree.
#[tactic(auto, using(crate::proofs::ServiceLemmas::within))]
fn close_service<C: Closing>(
    alloc: Global,
    setting: &C,
    draft: &mut Draft,
    service: u32,
) -> Result<(), NoMemory>
    requires low { IsLow (C.state setting.now) }
    requires made { CanBeMade (C.state setting.now) draft.old }
    ensures state { OnOk result (laid (C.state setting.now) draft.new ≡ close_service_at service (laid (C.state setting.now) draft.old)) }
    ensures lines { OnOk result (draft.new.lines ≡ draft.old.lines ++ lines_of_service_at service (laid (C.state setting.now) draft.old)) }
    ensures made { OnOk result (CanBeMade (C.state setting.now) draft.new) }
{
    match service_at(setting, draft, service) {
        None => Ok(()),
        Some(row) => {
            if is_stopped(alloc, setting, draft, service, row)? {
                deactivate(alloc, setting, draft, service, row.activity)?;
            }
            Ok(())
        }
    }
}

/// The same of all services up to this number.
#[tactic(auto, using(crate::proofs::ServiceLemmas::services_on, crate::proofs::ServiceLemmas::lines_on))]
fn close_all<C: Closing>(
    alloc: Global,
    setting: &C,
    draft: &mut Draft,
    count: u32,
) -> Result<(), NoMemory>
    requires low { IsLow (C.state setting.now) }
    requires made { CanBeMade (C.state setting.now) draft.old }
    ensures state { OnOk result (laid (C.state setting.now) draft.new ≡ close_services_from 0 count (laid (C.state setting.now) draft.old)) }
    ensures lines { OnOk result (draft.new.lines ≡ draft.old.lines ++ lines_of_services_from 0 count (laid (C.state setting.now) draft.old)) }
    ensures made { OnOk result (CanBeMade (C.state setting.now) draft.new) }
{
    'services: for service in 0..count {
        close_service(alloc, setting, draft, service)?;
    }
    Ok(())
}

/// Each Stopping service without a tree is Inactive.
#[tactic(auto, using(crate::proofs::ServiceLemmas::services_close, crate::proofs::ServiceLemmas::services_tell))]
pub fn close_services<C: Closing>(
    alloc: Global,
    setting: &C,
    draft: &mut Draft,
) -> Result<(), NoMemory>
    requires low { IsLow (C.state setting.now) }
    requires made { CanBeMade (C.state setting.now) draft.old }
    ensures state { OnOk result (laid (C.state setting.now) draft.new ≡ without_stopped (laid (C.state setting.now) draft.old)) }
    ensures lines { OnOk result (draft.new.lines ≡ draft.old.lines ++ lines_of_services 0 (laid (C.state setting.now) draft.old).services (laid (C.state setting.now) draft.old)) }
    ensures made { OnOk result (CanBeMade (C.state setting.now) draft.new) }
{
    let count = setting.service_count();
    close_all(alloc, setting, draft, count)
}
