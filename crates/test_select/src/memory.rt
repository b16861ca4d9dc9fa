//! A selector that finds no memory.

use crate::deployed::{DIGITS3, WHOLE, deployed, fields};
use initial_select::{Custom, SelectRule, Selector, Selectors, convergence, custom_name};
use slee_descriptor::Deployment;
use slee_value::{ActivityId, EventId, NoMemory, Text};
use std::alloc::Global;
use std::mem;
use std::test::Fail;

// Whether there is an answer, by these selectors.
fn is_answered(
    alloc: Global,
    deployment: &Deployment,
    service: u32,
    selectors: &Selectors,
) -> Result<bool, NoMemory> {
    let name = Text::from_str(alloc, "invite")?;
    let fields = fields(alloc, "tel:5551")?;
    let answer = convergence(
        alloc,
        deployment,
        service,
        ActivityId(1),
        EventId(1),
        &name,
        &fields,
        selectors,
    );
    Ok(answer.is_ok())
}

// The same where the one of three digits never finds memory.
fn is_answered_in_want(
    alloc: Global,
    deployment: &Deployment,
    service: u32,
) -> Result<bool, NoMemory> {
    let whole = Box::new(
        alloc,
        move |text: &[u8]| custom_name(alloc, SelectRule::Whole, text),
    )?;
    let digits3 = Box::new(alloc, |_text: &[u8]| -> Result<Custom, NoMemory> {
        Err(NoMemory)
    })?;
    let scheme = Box::new(
        alloc,
        move |text: &[u8]| custom_name(alloc, SelectRule::Scheme, text),
    )?;
    let screened = Box::new(alloc, move |text: &[u8]| {
        custom_name(alloc, SelectRule::Screened, text)
    })?;
    let selectors = Selectors::new(
        Selector::new(SelectRule::Whole, whole),
        Selector::new(SelectRule::Digits3, digits3),
        Selector::new(SelectRule::Scheme, scheme),
        Selector::new(SelectRule::Screened, screened),
    );
    is_answered(alloc, deployment, service, &selectors)
}

// A deployment is never freed here: a test ends soon.
fn asked(alloc: Global, service: u32) -> Result<bool, NoMemory> {
    let checked = deployed(alloc)?;
    let answer = is_answered_in_want(alloc, checked.deployment(), service);
    mem::forget(checked);
    answer
}

#[test]
fn want_of_memory_of_a_selector_is_answered(rt: HostRuntime) -> Result<(), Fail> {
    let alloc = rt.alloc();
    assert!(rt; !asked(alloc, DIGITS3)?);
    assert!(rt; asked(alloc, WHOLE)?);
    Ok(())
}
