//! A full leaf split in two, and a row put into one of them.
ghost use Rattle.std.specs.Prelude.{◌≡◌, ◌+◌, ◌<◌, ◌≤◌, ◌++◌, [], ◌∷◌, IsTrue, false, length, vec_capacity, vec_len};
ghost use Rattle.std.specs.List.{AllByRecursion};
ghost use Rattle.rows_leaves.specs.Laying.{last_key};
ghost use Rattle.rows_sorted.specs.Orders.{put};
ghost use Rattle.rows_sorted.specs.Keys.{Rises, key_before};

use rows_sorted::{Keyed, count_before, put_row};

/// So many of the last rows move to a place that has none.
fn move_last<R: Drop>(rows: &mut Vec<R>, behind: &mut Vec<R>, count: usize)
    requires within { count ≤ vec_len rows.old }
    requires none { behind.old.items ≡ [] }
    requires memory { count ≤ vec_capacity behind.old }
    ensures items { rows.new.items ++ behind.new.items ≡ rows.old.items }
    ensures left { vec_len rows.new + count ≡ vec_len rows.old }
    ensures moved { vec_len behind.new ≡ count }
    ensures memory { vec_capacity rows.new ≡ vec_capacity rows.old }
    ensures memory_behind { vec_capacity behind.old ≤ vec_capacity behind.new }
{
    'moves: for _ in 0..count {
        match rows.pop() {
            Some(row) => push_item(behind, row),
            None => unreachable!(),
        }
    }
    behind.reverse();
}

pub fn push_item<R: Drop>(rows: &mut Vec<R>, row: R)
    requires { vec_len rows.old < vec_capacity rows.old }
    ensures items { rows.new.items ≡ rows.old.items ++ row ∷ [] }
    ensures len { vec_len rows.new ≡ vec_len rows.old + 1 }
    ensures memory { vec_capacity rows.old ≤ vec_capacity rows.new }
{
    match rows.push(row) {
        Ok(()) => {}
        Err(_) => unreachable!(),
    }
}

/// Whether all rows stand before this one.
fn all_before<R: Keyed>(rows: &[R], row: &R) -> bool
    requires { Rises R.key rows.now }
    ensures before { IsTrue result → AllByRecursion (λ x. IsTrue (key_before (R.key x) (R.key row.now))) rows.now }
    ensures other { result ≡ false → key_before (last_key R.key rows.now) (R.key row.now) ≡ false }
{
    count_before(rows, row.first(), row.second(), row.text()) == rows.len()
}

/// So many of the last rows move to a place that has none, and the row is put into one of both parts.
pub fn put_in_two<R: Keyed + Drop>(rows: &mut Vec<R>, behind: &mut Vec<R>, count: usize, row: R)
    requires rises { Rises R.key rows.old.items }
    requires some { 0 < count }
    requires within { count < vec_len rows.old }
    requires none { behind.old.items ≡ [] }
    requires memory { count < vec_capacity behind.old }
    ensures items { rows.new.items ++ behind.new.items ≡ put (λ x y. key_before (R.key x) (R.key y)) row rows.old.items }
    ensures left { 0 < length rows.new.items }
    ensures moved { 0 < length behind.new.items }
    ensures memory { vec_capacity rows.old ≤ vec_capacity rows.new }
    ensures memory_behind { vec_capacity behind.old ≤ vec_capacity behind.new }
{
    move_last(rows, behind, count);
    if all_before(rows, &row) {
        put_row(behind, row);
    } else {
        put_row(rows, row);
    }
}
