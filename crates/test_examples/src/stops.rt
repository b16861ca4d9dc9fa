//! A stop within any disk call of a call of the prepaid service: what was kept is shown, and the rest is taken.
use crate::playing::{PLAY, RESUME, SHOW};
use slee_disk::MemoryDisk;
use slee_value::NoMemory;
use std::alloc::Global;
use std::process::Abort;
use std::test::Fail;
use test_run::prepaid::PREPAID;
use test_run::running::{Ran, empty_disk, run_deployed, text_of};

const CALL: &str = "start c1\nfire c1 invite addr=tel:5551\nend c1\n";

const ENDED: &str =
    "clock 0\ninputs 3\nservice prepaid active\nactivity a1 active table accounts\nstatus 0 ok\n";

fn played(alloc: Global) -> Result<Ran, NoMemory> {
    run_deployed(alloc, PLAY, PREPAID, CALL, empty_disk(alloc)?)
}

// Each write since a sync is whole to here, and then this byte.
const TEARS: &[(u64, u8)] = &[
    (0, 0),
    (0, 1),
    (0, 90),
    (1, 0),
    (1, 1),
    (1, 90),
    (65_536, 0),
    (65_536, 1),
    (65_536, 90),
];

// What a stop leaves is shown; a later run takes the lines that are left, and comes to the end of the call.
fn expect_resumed(rt: &impl Abort, alloc: Global, image: MemoryDisk) -> Result<(), Fail> {
    let shown = run_deployed(alloc, SHOW, PREPAID, "", image)?;
    assert_eq!(rt; shown.code, 0);
    let resumed = run_deployed(alloc, RESUME, PREPAID, CALL, shown.disk)?;
    assert_eq!(rt; resumed.code, 0);
    let ended = run_deployed(alloc, SHOW, PREPAID, "", resumed.disk)?;
    assert_eq!(rt; text_of(&ended), ENDED);
    Ok(())
}

fn expect_each(rt: &impl Abort, alloc: Global, disk: &MemoryDisk, call: u64) -> Result<(), Fail> {
    assert!(rt; call <= disk.calls());
    for (part, fill) in TEARS {
        expect_resumed(rt, alloc, disk.image(call, *part, *fill)?)?;
    }
    Ok(())
}

#[test]
fn a_stop_within_any_call_is_resumed(rt: HostRuntime) -> Result<(), Fail> {
    let ran = played(rt.alloc())?;
    assert_eq!(rt; ran.code, 0);
    for call in 0..=ran.disk.calls() {
        expect_each(&rt, rt.alloc(), &ran.disk, call)?;
    }
    Ok(())
}
