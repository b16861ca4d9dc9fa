//! An entry under another key.
ghost use Rattle.std.specs.Prelude.{◌≡◌, ◌≤◌, not, filter, IsTrue};
ghost use Rattle.std.specs.List.{list_any};
ghost use Rattle.rows_sorted.specs.Orders.{put};
ghost use Rattle.rows_sorted.specs.Keys.{is_key, key_before, Rises};
ghost use Rattle.rows_index.specs.Index.{entry_key};

use crate::Entry;
use rows_leaves::Leaves;

/// The entry stands under this key, in the room that it had.
pub fn move_entry(entries: &mut Leaves<Entry>, entry: Entry, key: u64)
    requires { IsTrue (list_any (λ other. is_key (entry_key other) (entry_key entry)) entries.old.rows) }
    ensures rows { entries.new.rows ≡ put (λ x y. key_before (entry_key x) (entry_key y)) (record { key = key; number = entry.number }) (filter (λ other. not (is_key (entry_key other) (entry_key entry))) entries.old.rows) }
    ensures rises { Rises entry_key entries.new.rows }
    ensures room { entries.old.room ≤ entries.new.room }
{
    entries.cut_row(entry.key, entry.number, &[]);
    entries.put_row(Entry {
        key,
        number: entry.number,
    });
}
