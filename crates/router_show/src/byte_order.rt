//! Names and rows in byte order. The stores keep them in another one.
ghost use Rattle.std.specs.Prelude.{◌≡◌, IfOk, OnOk, map};
ghost use Rattle.std.specs.Ordering.{is_lt};
ghost use Rattle.slee_value.specs.Order.{is_below};
ghost use Rattle.rows_sorted.specs.Orders.{sorted};
ghost use Rattle.router_state.specs.Profiles.{row_before};
ghost use Rattle.activity_context.specs.Views.{parts_of_name};
ghost use Rattle.router_show.specs.Names.{names_seen};

use activity_context::Contexts;
use profile_tables::Profiles;
use router_state::ProfileRow;
use router_stores::Stores;
use slee_value::{ActivityId, NoMemory, Text};
use std::alloc::Global;
use std::cmp::Ordering;

fn names_kept(alloc: Global, contexts: &Contexts) -> Result<Vec<(&Text, ActivityId)>, NoMemory>
    ensures { IfOk result (λ v. names_seen v.items ≡ map parts_of_name contexts.now.names_kept) }
{
    contexts.ordered();
    let mut names = Vec::new(alloc);
    'names: for place in 0..contexts.names_len() {
        names.push(contexts.names_at(place))?;
    }
    Ok(names)
}

/// Puts names in byte order. The list is turned round before a stable sort, which so is the one of the definitions.
fn sort_names(names: &mut Vec<(&Text, ActivityId)>) -> Result<(), NoMemory>
    ensures { OnOk result (names_seen names.new.items ≡ sorted (λ x y. is_below x.0 y.0) (names_seen names.old.items)) }
{
    names.reverse();
    names.sort_by(|one, other| one.0.compare(other.0))?;
    Ok(())
}

/// All names of the naming facility, in byte order.
pub fn names_in_order(alloc: Global, stores: &Stores) -> Result<Vec<(&Text, ActivityId)>, NoMemory>
    ensures { IfOk result (λ v. names_seen v.items ≡ map parts_of_name stores.now.state.names) }
{
    let contexts = stores.contexts();
    contexts.ordered();
    let mut names = names_kept(alloc, contexts)?;
    sort_names(&mut names)?;
    Ok(names)
}

fn rows_kept(alloc: Global, profiles: &Profiles) -> Result<Vec<&ProfileRow>, NoMemory>
    ensures { IfOk result (λ v. map (λ row. row.now) v.items ≡ profiles.now.kept) }
{
    let mut rows = Vec::new(alloc);
    'rows: for place in 0..profiles.len() {
        rows.push(profiles.at(place))?;
    }
    Ok(rows)
}

fn compare(one: &ProfileRow, other: &ProfileRow) -> Ordering
    ensures { is_lt result ≡ row_before one.now other.now }
{
    one.table
        .cmp(&other.table)
        .then(one.row.compare(&other.row))
}

/// Puts rows in order, in the same way.
fn sort_rows(rows: &mut Vec<&ProfileRow>) -> Result<(), NoMemory>
    ensures { OnOk result (map (λ row. row.now) rows.new.items ≡ sorted row_before (map (λ row. row.now) rows.old.items)) }
{
    rows.reverse();
    rows.sort_by(|one, other| compare(one, other))?;
    Ok(())
}

/// All rows of profile tables, by table, then in byte order of their names.
pub fn rows_in_order(alloc: Global, stores: &Stores) -> Result<Vec<&ProfileRow>, NoMemory>
    ensures { IfOk result (λ v. map (λ row. row.now) v.items ≡ stores.now.state.rows) }
{
    let profiles = stores.profiles();
    let _count = profiles.len();
    let mut rows = rows_kept(alloc, profiles)?;
    sort_rows(&mut rows)?;
    Ok(rows)
}
