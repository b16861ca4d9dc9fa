//! Rows of attributes.
ghost use Rattle.std.specs.Prelude.{◌≡◌, ◌+◌, ◌<◌, ◌≤◌};
ghost use Rattle.router_state.specs.Contexts.{with_attribute};
ghost use Rattle.router_state.specs.Keys.{attribute_key};
ghost use Rattle.rows_sorted.specs.Keys.{Rises};

use router_state::Attribute;
use rows_leaves::Leaves;
use slee_value::{ActivityId, Text, Value};

/// The activity's attribute has this value.
pub fn put_attribute(rows: &mut Leaves<Attribute>, activity: ActivityId, key: Text, value: Value)
    requires { 0 < rows.old.room }
    ensures rows { rows.new.rows ≡ with_attribute rows.old.rows activity.0 key value }
    ensures rises { Rises attribute_key rows.new.rows }
    ensures room { rows.old.room ≤ rows.new.room + 1 }
{
    rows.put_row(Attribute {
        activity,
        key,
        value,
    });
}
