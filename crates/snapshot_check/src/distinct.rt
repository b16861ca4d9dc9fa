//! Whether things of one list are all different: they are put in order, and neighbours are compared.
ghost use Rattle.std.specs.Prelude.{◌≡◌, ◌∷◌, IfOk};
ghost use Rattle.rows_sorted.specs.Orders.{rises_by};
ghost use Rattle.router_state.specs.WellEntities.{all_differ};
ghost use Rattle.snapshot_check.specs.Keys.{are_apart};

use slee_value::NoMemory;

/// Whether the first key and the others differ, each from the next.
fn differ_in_turn<K: Ord>(first: &K, rest: &[K]) -> bool
    ensures { result ≡ rises_by (are_apart K.cmp) (first.now ∷ rest.now) }
{
    let mut last = first;
    'keys: for key in rest {
        if last.cmp(key).is_eq() {
            return false;
        }
        last = key;
    }
    true
}

/// Whether each key differs from the next.
fn neighbours_differ<K: Ord>(keys: &[K]) -> bool
    ensures { result ≡ rises_by (are_apart K.cmp) keys.now }
{
    match keys.split_first() {
        Some((first, rest)) => differ_in_turn(first, rest),
        None => true,
    }
}

/// Whether the keys are all different.
pub fn are_distinct<K: Ord + Drop>(mut keys: Vec<K>) -> Result<bool, NoMemory>
    ensures { IfOk result (λ distinct. distinct ≡ all_differ (are_apart K.cmp) keys.items) }
{
    keys.sort()?;
    Ok(neighbours_differ(&keys))
}
