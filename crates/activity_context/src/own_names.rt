//! The names of one activity, in byte order.
ghost use Rattle.std.specs.Prelude.{◌≡◌, ◌==◌, ◌++◌, filter, map, IfOk, OnOk};
ghost use Rattle.std.specs.List.{flat_map};
ghost use Rattle.slee_value.specs.Order.{is_below};
ghost use Rattle.rows_sorted.specs.Orders.{sorted};
ghost use Rattle.activity_context.specs.Naming.{AreFiled, in_byte_order, texts_under};

use crate::numbered::NumberedName;
use rows_index::Entry;
use rows_leaves::{Leaves, Run};
use slee_value::{ActivityId, NoMemory, Text};
use std::alloc::Global;

/// Adds the names of the activity that stand under the number.
fn push_names(
    alloc: Global,
    rows: &Leaves<NumberedName>,
    number: u64,
    activity: ActivityId,
    into: &mut Vec<Text>,
) -> Result<(), NoMemory>
    ensures { OnOk result (into.new.items ≡ into.old.items ++ texts_under activity.0 rows.now.rows number) }
{
    'names: for row in rows.rows_of_pair(number, activity.0) {
        into.push(Text::from_str(alloc, row.named.name.as_str())?)?;
    }
    Ok(())
}

/// The names of the activity under these numbers.
fn names_under(
    alloc: Global,
    rows: &Leaves<NumberedName>,
    entries: Run<'_, Entry>,
    activity: ActivityId,
) -> Result<Vec<Text>, NoMemory>
    ensures { IfOk result (λ all. all.items ≡ flat_map (λ e. texts_under activity.0 rows.now.rows e.number) entries.entry) }
{
    let mut all = Vec::new(alloc);
    'numbers: for entry in entries {
        push_names(alloc, rows, entry.number, activity, &mut all)?;
    }
    Ok(all)
}

/// Puts names in byte order. The list is turned round before a stable sort, which so is the one of the definitions.
fn sort_names(names: &mut Vec<Text>) -> Result<(), NoMemory>
    ensures { OnOk result (names.new.items ≡ sorted is_below names.old.items) }
{
    names.reverse();
    names.sort_by(|one, other| one.compare(other))?;
    Ok(())
}

/// The names that stand for the activity, in byte order. Only these are looked at.
pub fn names_of(
    alloc: Global,
    rows: &Leaves<NumberedName>,
    entries: &Leaves<Entry>,
    activity: ActivityId,
) -> Result<Vec<Text>, NoMemory>
    requires { AreFiled rows.now.rows entries.now.rows }
    ensures { IfOk result (λ all. all.items ≡ map (λ row. row.name) (filter (λ row. row.activity.0 == activity.0) (in_byte_order rows.now.rows))) }
{
    rows.rises();
    entries.rises();
    let mut names = names_under(alloc, rows, entries.rows_of(activity.0), activity)?;
    sort_names(&mut names)?;
    Ok(names)
}
