//! For how many rows room is made before changes.
ghost use Rattle.std.specs.Prelude.{◌≡◌, ◌^◌, ◌≤◌, IfSome, None};
ghost use Rattle.router_stores.specs.Views.{width, widths};

use router_state::Change;

fn width(change: &Change) -> u64
    ensures { result ≡ width change.now }
{
    match change {
        Change::MaskOnAttach { names, .. } => names.len() as u64,
        _ => 1,
    }
}

/// The sum of the changes' widths, if it is a number of 64 bits.
pub fn rows_for(changes: &[Change]) -> Option<u64>
    ensures sum { IfSome result (λ n. n ≡ widths changes.now) }
    ensures none { result ≡ None → 2 ^ 64 ≤ widths changes.now }
{
    let mut all: u64 = 0;
    'each: for change in changes {
        all = all.checked_add(width(change))?;
    }
    Some(all)
}
