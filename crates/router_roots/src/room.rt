//! For how many entries room is made before changes.
ghost use Rattle.std.specs.Prelude.{◌≡◌, ◌≤◌, length};
ghost use Rattle.router_roots.specs.Room.{added, all_added};

use router_state::Change;

fn added(change: &Change) -> usize
    ensures { result ≡ added change.now }
{
    match change {
        Change::CreateRoot { .. } | Change::Root { .. } => 1,
        _ => 0,
    }
}

/// The most entries that the changes add to one list.
pub fn all_added(changes: &[Change]) -> usize
    ensures { result ≡ all_added changes.now }
{
    let mut all = 0;
    'each: for change in changes {
        all += added(change);
    }
    all
}
