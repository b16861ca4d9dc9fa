//! The lines of timers.
ghost use Rattle.std.specs.Prelude.{◌≡◌, ◌++◌, OnOk, map};
ghost use Rattle.router_state.specs.Show.{timer_line};
ghost use Rattle.trace_history.specs.Lines.{line_text, line_texts};

use crate::words::put_line;
use router_state::Timer;
use slee_value::NoMemory;
use std::alloc::Global;
use timer_facility::Timers;

fn put_timer(alloc: Global, row: &Timer, into: &mut Vec<u8>) -> Result<(), NoMemory>
    ensures { OnOk result (into.new.items ≡ into.old.items ++ line_text (timer_line row.now)) }
{
    let line = format!(in alloc;
        "timer t{} a{} next {}",
        row.number.0, row.activity.0, row.next
    )?;
    put_line(&line, into)
}

/// Adds the lines of all timers.
pub fn put_timers(alloc: Global, timers: &Timers, into: &mut Vec<u8>) -> Result<(), NoMemory>
    ensures { OnOk result (into.new.items ≡ into.old.items ++ line_texts (map timer_line timers.now.timers)) }
{
    'rows: for place in 0..timers.len() {
        put_timer(alloc, timers.at(place), into)?;
    }
    Ok(())
}
