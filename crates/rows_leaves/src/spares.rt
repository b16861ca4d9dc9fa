//! Spare leaves, made ahead of the rows that may come.
ghost use Rattle.std.specs.Prelude.{◌≡◌, ◌+◌, ◌≤◌, OnOk, vec_len};
ghost use Rattle.rows_leaves.specs.Invariant.{Stands};

use crate::leaf::{LEAF_ROWS, Leaf, last_numbers};
use prefix_sums::Counts;
use rows_sorted::Keyed;
use std::alloc::{AllocError, Global};

/// One more spare leaf.
pub fn add_spare<R: Keyed + Drop>(
    leaves: &mut Vec<Leaf<R>>,
    spares: &mut Vec<Leaf<R>>,
    counts: &mut Counts,
    alloc: Global,
) -> Result<(), AllocError>
    requires { Stands R.key leaves.old spares.old counts.old }
    ensures leaves { leaves.new.items ≡ leaves.old.items }
    ensures stands { Stands R.key leaves.new spares.new counts.new }
    ensures more { OnOk result (vec_len spares.new ≡ vec_len spares.old + 1) }
    ensures kept { vec_len spares.old ≤ vec_len spares.new }
{
    let rows = Vec::with_capacity(alloc, LEAF_ROWS)?;
    leaves.reserve(spares.len() + 1)?;
    spares.reserve(leaves.len() + 1)?;
    counts.reserve(leaves.len() + spares.len() + 1)?;
    let last = last_numbers(rows.as_slice());
    spares.push(Leaf { rows, last })?;
    Ok(())
}

/// So many leaves at least, with the spare ones.
pub fn add_spares<R: Keyed + Drop>(
    leaves: &mut Vec<Leaf<R>>,
    spares: &mut Vec<Leaf<R>>,
    counts: &mut Counts,
    alloc: Global,
    count: usize,
) -> Result<(), AllocError>
    requires { Stands R.key leaves.old spares.old counts.old }
    ensures leaves { leaves.new.items ≡ leaves.old.items }
    ensures stands { Stands R.key leaves.new spares.new counts.new }
    ensures more { OnOk result (count ≤ vec_len leaves.new + vec_len spares.new) }
    ensures kept { vec_len leaves.old + vec_len spares.old ≤ vec_len leaves.new + vec_len spares.new }
{
    'more: while leaves.len() + spares.len() < count {
        add_spare(leaves, spares, counts, alloc)?;
    }
    Ok(())
}
