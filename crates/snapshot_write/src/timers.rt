//! Timers.
ghost use Rattle.std.specs.Prelude.{◌≡◌, ◌++◌, OnOk};
ghost use Rattle.router_state.specs.Snapshot.{listed, spelled_timer};

use router_state::Timer;
use slee_effect::write_keep;
use slee_value::{NoMemory, write_u64};
use timer_facility::Timers;

fn put_timer(row: &Timer, into: &mut Vec<u8>) -> Result<(), NoMemory>
    ensures { OnOk result (into.new.items ≡ into.old.items ++ spelled_timer row.now) }
{
    write_u64(row.number.0, into)?;
    write_u64(row.activity.0, into)?;
    write_u64(row.next, into)?;
    write_u64(row.period, into)?;
    write_u64(row.left, into)?;
    write_keep(row.keep, into)
}

/// Adds all timers.
pub fn put_timers(timers: &Timers, into: &mut Vec<u8>) -> Result<(), NoMemory>
    ensures { OnOk result (into.new.items ≡ into.old.items ++ listed spelled_timer timers.now.timers) }
{
    write_u64(timers.len(), into)?;
    'rows: for place in 0..timers.len() {
        put_timer(timers.at(place), into)?;
    }
    Ok(())
}
