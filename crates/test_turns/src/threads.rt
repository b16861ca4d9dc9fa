//! Passes of several threads.
ghost use Rattle.std.specs.Prelude.{◌≡◌};
ghost use Rattle.slee_turn.specs.Passes.{IsFreeOf};

use crate::adding::{ENTRIES, add_often};
use crate::counted::Counted;
use slee_turn::{Grows, Pass, Turnstile};
use std::test::Fail;
use std::thread::join;

// How many entries have this number.
fn count_of(value: &Counted, number: u64) -> u64 {
    let entries = value.entries.iter();
    entries.filter(|entry| **entry == number).count() as u64
}

#[test]
fn entries_of_two_threads_are_all_there_once(rt: HostRuntime) -> Result<(), Fail> {
    let value = Counted {
        entries: Vec::with_capacity(rt.alloc(), 2 * ENTRIES as usize)?,
    };
    let Ok((turn, mut first)) = Turnstile::new(rt.alloc(), value) else {
        panic!(rt; "no memory")
    };
    let one = turn.split(&mut first);
    let other = turn.split(&mut first);
    let shared = &turn;
    let handle = &rt;
    let (one, other) = join(
        &rt,
        move || -> Pass<Counted>
            requires { IsFreeOf shared.now one }
            ensures { IsFreeOf shared.entry.now result × (result.known.number ≡ one.known.number) }
        { add_often(handle, shared, one, 7) },
        move || -> Pass<Counted>
            requires { IsFreeOf shared.now other }
            ensures { IsFreeOf shared.entry.now result × (result.known.number ≡ other.known.number) }
        { add_often(handle, shared, other, 8) },
    );
    turn.join(&mut first, one);
    turn.join(&mut first, other);
    let value = turn.close(first);
    assert!(rt; value.length() == 2 * ENTRIES);
    assert!(rt; count_of(&value, 7) == ENTRIES);
    assert!(rt; count_of(&value, 8) == ENTRIES);
    Ok(())
}
