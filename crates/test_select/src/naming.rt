//! The convergence names that events have for services.

use crate::deployed::{
    ADDRESSED, DIGITS3, FULL, PINGED, PLAIN, SCHEME, SCREENED, WHOLE, deployed, fields,
};
use crate::lines::line_of;
use crate::select;
use slee_descriptor::Deployment;
use slee_value::{ActivityId, EventId, NoMemory, Text};
use std::alloc::Global;
use std::mem;
use std::test::Fail;

// What an event with this address selects on the activity. Event and activity have the same number.
fn selected(
    alloc: Global,
    deployment: &Deployment,
    service: u32,
    number: u64,
    event: &str,
    address: &str,
) -> Result<String, NoMemory> {
    let name = Text::from_str(alloc, event)?;
    let fields = fields(alloc, address)?;
    let selection = select(
        alloc,
        deployment,
        service,
        ActivityId(number),
        EventId(number),
        &name,
        &fields,
    )?;
    Ok(line_of(alloc, &selection)?)
}

// A deployment is never freed here: a test ends soon.
fn told(
    alloc: Global,
    service: u32,
    number: u64,
    event: &str,
    address: &str,
) -> Result<String, NoMemory> {
    let checked = deployed(alloc)?;
    let line = selected(alloc, checked.deployment(), service, number, event, address);
    mem::forget(checked);
    line
}

#[test]
fn events_are_named_by_variables_and_rules(rt: HostRuntime) -> Result<(), Fail> {
    let alloc = rt.alloc();
    for (service, number, event, address, wanted) in [
        (PLAIN, 1, "invite", "tel:5551", ""),
        (ADDRESSED, 1, "invite", "tel:5551", "address tel:5551|"),
        (ADDRESSED, 2, "invite", "tel:5551", "address tel:5551|"),
        (WHOLE, 1, "invite", "tel:5551", "custom tel:5551|"),
        (DIGITS3, 1, "invite", "tel:5551", "custom 555|"),
        (DIGITS3, 2, "invite", "tel:7771", "custom 777|"),
        (SCHEME, 1, "invite", "tel:5551", "custom tel|"),
        (SCREENED, 1, "invite", "tel:5551", "custom tel:5551|"),
        (SCREENED, 1, "invite", "anon:1", "not initial"),
        (
            FULL,
            7,
            "invite",
            "tel:5551",
            "activity 7|address tel:5551|type invite|event 7|custom 555|",
        ),
        (PINGED, 5, "ping", "", "activity 5|"),
    ] {
        let line = told(alloc, service, number, event, address)?;
        assert_eq!(rt; line.as_str(), wanted);
    }
    Ok(())
}
