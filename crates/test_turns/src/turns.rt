//! Passes of one thread, one after another.
use crate::counted::Counted;
use slee_turn::{Grows, Turn, Turnstile};
use std::test::Fail;

#[test]
fn second_pass_hears_and_takes_what_the_first_added(rt: HostRuntime) -> Result<(), Fail> {
    let opened = Turnstile::new(rt.alloc(), Counted::of_three(rt.alloc())?);
    let Ok((turn, mut first)) = opened else {
        panic!(rt; "no memory")
    };
    let mut second = turn.split(&mut first);
    let mut value = turn.take(&rt, &mut first);
    value.add(4)?;
    turn.give(&mut first, value);
    assert!(rt; turn.published(&mut second) == 4);
    let value = turn.take(&rt, &mut second);
    assert!(rt; value.length() == 4);
    turn.give(&mut second, value);
    turn.join(&mut first, second);
    let value = turn.close(first);
    assert!(rt; value.entries.as_slice() == [1, 2, 3, 4].as_slice());
    Ok(())
}

#[test]
fn length_is_published_when_it_is_given_back_and_no_sooner(rt: HostRuntime) -> Result<(), Fail> {
    let opened = Turnstile::new(rt.alloc(), Counted::of_three(rt.alloc())?);
    let Ok((turn, mut first)) = opened else {
        panic!(rt; "no memory")
    };
    let mut second = turn.split(&mut first);
    assert!(rt; turn.published(&mut second) == 3);
    let mut value = turn.take(&rt, &mut first);
    value.add(4)?;
    assert!(rt; turn.published(&mut second) == 3);
    turn.give(&mut first, value);
    assert!(rt; turn.published(&mut second) == 4);
    Ok(())
}

#[test]
fn pass_that_finds_another_inside_is_told_its_number(rt: HostRuntime) -> Result<(), Fail> {
    let opened = Turnstile::new(rt.alloc(), Counted::of_three(rt.alloc())?);
    let Ok((turn, mut first)) = opened else {
        panic!(rt; "no memory")
    };
    let mut second = turn.split(&mut first);
    let mut third = turn.split(&mut first);
    let value = turn.take(&rt, &mut first);
    assert!(rt; matches!(turn.try_take(&mut second), Turn::Busy { holder: 1 }));
    turn.give(&mut first, value);
    let value = turn.take(&rt, &mut third);
    assert!(rt; matches!(turn.try_take(&mut first), Turn::Busy { holder: 3 }));
    turn.give(&mut third, value);
    assert!(rt; matches!(turn.try_take(&mut second), Turn::Taken(_)));
    Ok(())
}

#[test]
fn value_that_finds_no_memory_comes_back(rt: HostRuntime) -> Result<(), Fail> {
    match Turnstile::new(rt.alloc(), Counted::of_three(rt.alloc())?) {
        Ok((turn, pass)) => {
            let value = turn.close(pass);
            assert!(rt; value.entries.as_slice() == [1, 2, 3].as_slice());
        }
        Err((_, value)) => {
            assert!(rt; value.entries.as_slice() == [1, 2, 3].as_slice());
        }
    }
    Ok(())
}
