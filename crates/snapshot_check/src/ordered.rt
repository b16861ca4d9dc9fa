//! Whether rows rise by their keys.
ghost use Rattle.std.specs.Prelude.{◌≡◌, ◌∷◌};
ghost use Rattle.rows_sorted.specs.Orders.{rises_by};
ghost use Rattle.rows_sorted.specs.Keys.{key_before};

use rows_sorted::Keyed;

/// Whether the key of the first row stands before that of the second.
fn is_before<R: Keyed>(one: &R, other: &R) -> bool
    ensures { result ≡ key_before (R.key one.now) (R.key other.now) }
{
    one.first() < other.first()
        || (one.first() == other.first()
            && (one.second() < other.second()
                || (one.second() == other.second() && one.text().cmp(other.text()).is_lt())))
}

/// Whether the first row and the others rise by their keys.
fn rise_from<R: Keyed>(first: &R, rest: &[R]) -> bool
    ensures { result ≡ rises_by (λ x y. key_before (R.key x) (R.key y)) (first.now ∷ rest.now) }
{
    let mut last = first;
    'rows: for row in rest {
        if !is_before(last, row) {
            return false;
        }
        last = row;
    }
    true
}

/// Whether the rows rise by their keys.
pub fn rise<R: Keyed>(rows: &[R]) -> bool
    ensures { result ≡ rises_by (λ x y. key_before (R.key x) (R.key y)) rows.now }
{
    match rows.split_first() {
        Some((first, rest)) => rise_from(first, rest),
        None => true,
    }
}
