//! Convergence names.
ghost use Rattle.std.specs.Prelude.{◌≡◌, ◌++◌, [], OnOk, option_copied};
ghost use Rattle.std.specs.Option.{option_map_or};
ghost use Rattle.slee_value.specs.Bytes.{spelled_option, spelled_text, spelled_u64};
ghost use Rattle.router_state.specs.Snapshot.{spelled_conv};

use crate::values::{put_some_text, put_text};
use slee_value::{ActivityId, Blob, ConvName, EventId, NoMemory, write_flag, write_u64};

fn put_activity(activity: Option<ActivityId>, into: &mut Vec<u8>) -> Result<(), NoMemory>
    ensures { OnOk result (into.new.items ≡ into.old.items ++ spelled_option (λ a. spelled_u64 a.0) activity) }
{
    match activity {
        None => write_flag(false, into),
        Some(activity) => {
            write_flag(true, into)?;
            write_u64(activity.0, into)
        }
    }
}

fn put_event(event: Option<EventId>, into: &mut Vec<u8>) -> Result<(), NoMemory>
    ensures { OnOk result (into.new.items ≡ into.old.items ++ spelled_option (λ v. spelled_u64 v.0) event) }
{
    match event {
        None => write_flag(false, into),
        Some(event) => {
            write_flag(true, into)?;
            write_u64(event.0, into)
        }
    }
}

fn put_custom(custom: &Option<Blob>, into: &mut Vec<u8>) -> Result<(), NoMemory>
    ensures { OnOk result (into.new.items ≡ into.old.items ++ spelled_option spelled_text custom.now) }
{
    match custom {
        None => write_flag(false, into),
        Some(custom) => {
            write_flag(true, into)?;
            put_text(custom.as_slice(), into)
        }
    }
}

fn put_name(name: &ConvName, into: &mut Vec<u8>) -> Result<(), NoMemory>
    ensures { OnOk result (into.new.items ≡ into.old.items ++ spelled_conv name.now) }
{
    put_activity(name.activity, into)?;
    put_some_text(&name.address, into)?;
    put_some_text(&name.event_type, into)?;
    put_event(name.event, into)?;
    put_custom(&name.custom, into)
}

/// Adds a convergence name, and nothing where there is none.
pub fn put_found_name(name: Option<&ConvName>, into: &mut Vec<u8>) -> Result<(), NoMemory>
    ensures { OnOk result (into.new.items ≡ into.old.items ++ option_map_or spelled_conv (option_copied name.entry) []) }
{
    match name {
        None => Ok(()),
        Some(name) => put_name(name, into),
    }
}
