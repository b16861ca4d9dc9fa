//! Names of the naming facility.
ghost use Rattle.std.specs.Prelude.{◌≡◌, ◌++◌, OnOk};
ghost use Rattle.router_state.specs.Snapshot.{listed, spelled_name};

use crate::values::put_text;
use slee_value::{ActivityId, NoMemory, Text, write_u64};

fn put_name(name: &Text, activity: ActivityId, into: &mut Vec<u8>) -> Result<(), NoMemory>
    ensures { OnOk result (into.new.items ≡ into.old.items ++ spelled_name (record { name = name.now; activity = activity })) }
{
    put_text(name.as_bytes(), into)?;
    write_u64(activity.0, into)
}

/// Adds these names.
pub fn put_names(names: &[(&Text, ActivityId)], into: &mut Vec<u8>) -> Result<(), NoMemory>
    ensures { OnOk result (into.new.items ≡ into.old.items ++ listed (λ parts. spelled_name (record { name = parts.0.now; activity = parts.1 })) names.now) }
{
    write_u64(names.len() as u64, into)?;
    'names: for (name, activity) in names {
        put_name(name, *activity, into)?;
    }
    Ok(())
}
