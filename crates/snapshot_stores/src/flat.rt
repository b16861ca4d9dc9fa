//! Stores of one list: fields, masks, timers, convergence names, rows of profile tables.
ghost use Rattle.std.specs.Prelude.{◌≡◌, IfOk, IsTrue};
ghost use Rattle.rows_sorted.specs.Orders.{are_below, rises_by, rises_in};
ghost use Rattle.deploy_model.specs.Resolving.{deployed_of};
ghost use Rattle.router_state.specs.Fields.{field_before};
ghost use Rattle.router_state.specs.Masks.{mask_before};
ghost use Rattle.router_state.specs.Profiles.{row_before};
ghost use Rattle.router_state.specs.Trees.{root_name_before};
ghost use Rattle.router_stores.specs.TableSpecs.{specs_of};
ghost use Rattle.snapshot_stores.specs.Flat.{AreFlat, HoldFlat};

use cmp_store::Fields;
use event_mask::Masks;
use profile_tables::Profiles;
use router_state::{Field, Mask, ProfileRow, RootName, Timer};
use router_stores::specs_of;
use rows_leaves::Leaves;
use slee_descriptor::Deployment;
use slee_value::NoMemory;
use std::alloc::Global;
use timer_facility::Timers;

/// The fields of entities.
pub(crate) fn fields_of(alloc: Global, rows: Vec<Field>) -> Result<Fields, NoMemory>
    requires { IsTrue (rises_by field_before rows.items) }
    ensures { IfOk result (λ fields. fields.rows ≡ rows.items) }
{
    let mut fields = Fields::new(alloc);
    fields.reserve(rows.len() as u64)?;
    'rows: for row in rows {
        fields.restore(row);
    }
    Ok(fields)
}

/// The masks of attachments.
pub(crate) fn masks_of(alloc: Global, rows: Vec<Mask>) -> Result<Masks, NoMemory>
    requires { IsTrue (rises_by mask_before rows.items) }
    ensures { IfOk result (λ masks. masks.rows ≡ rows.items) }
{
    let mut masks = Masks::new(alloc);
    masks.reserve(rows.len() as u64)?;
    'rows: for row in rows {
        masks.restore(row);
    }
    Ok(masks)
}

/// The convergence names of roots.
pub(crate) fn root_names_of(
    alloc: Global,
    rows: Vec<RootName>,
) -> Result<Leaves<RootName>, NoMemory>
    requires { IsTrue (rises_by root_name_before rows.items) }
    ensures { IfOk result (λ names. names.rows ≡ rows.items) }
{
    let mut names = Leaves::new(alloc);
    names.reserve(rows.len())?;
    'rows: for row in rows {
        names.put_row(row);
    }
    Ok(names)
}

/// The timers, and the number of the next one.
pub(crate) fn timers_of(alloc: Global, next: u64, rows: Vec<Timer>) -> Result<Timers, NoMemory>
    requires rises { IsTrue (rises_in (λ row. row.number.0) rows.items) }
    requires below { IsTrue (are_below (λ row. row.number.0) next rows.items) }
    ensures timers { IfOk result (λ timers. timers.timers ≡ rows.items) }
    ensures next { IfOk result (λ timers. timers.next ≡ next) }
{
    let mut timers = Timers::new(alloc);
    timers.set_next(next);
    timers.reserve(rows.len() as u64)?;
    'rows: for row in rows {
        timers.restore(row);
    }
    Ok(timers)
}

/// The rows of the profile tables of a deployment.
pub(crate) fn profiles_of(
    alloc: Global,
    deployment: &Deployment,
    rows: Vec<ProfileRow>,
) -> Result<Profiles, NoMemory>
    requires { IsTrue (rises_by row_before rows.items) }
    ensures rows { IfOk result (λ profiles. profiles.rows ≡ rows.items) }
    ensures tables { IfOk result (λ profiles. profiles.tables ≡ specs_of (deployed_of deployment.now.parts)) }
{
    let mut profiles = Profiles::new(alloc, specs_of(alloc, deployment)?);
    profiles.reserve(rows.len() as u64)?;
    'rows: for row in rows {
        profiles.restore(row);
    }
    Ok(profiles)
}

/// The stores of one list, all of them.
#[derive(Drop)]
pub(crate) struct FlatStores {
    pub(crate) fields: Fields,
    pub(crate) masks: Masks,
    pub(crate) root_names: Leaves<RootName>,
    pub(crate) timers: Timers,
    pub(crate) profiles: Profiles,
}

/// The rows of these stores.
#[derive(Drop)]
pub(crate) struct FlatRows {
    pub(crate) fields: Vec<Field>,
    pub(crate) masks: Vec<Mask>,
    pub(crate) root_names: Vec<RootName>,
    pub(crate) timers: Vec<Timer>,
    pub(crate) rows: Vec<ProfileRow>,
}

/// The stores of one list, filled from their rows.
pub(crate) fn flat_stores(
    alloc: Global,
    deployment: &Deployment,
    next_timer: u64,
    rows: FlatRows,
) -> Result<FlatStores, NoMemory>
    requires { AreFlat next_timer rows }
    ensures { IfOk result (HoldFlat (deployed_of deployment.now.parts) next_timer rows) }
{
    let FlatRows {
        fields,
        masks,
        root_names,
        timers,
        rows,
    } = rows;
    Ok(FlatStores {
        fields: fields_of(alloc, fields)?,
        masks: masks_of(alloc, masks)?,
        root_names: root_names_of(alloc, root_names)?,
        timers: timers_of(alloc, next_timer, timers)?,
        profiles: profiles_of(alloc, deployment, rows)?,
    })
}
