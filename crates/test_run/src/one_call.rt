//! One call from its first line to its last: its lines, its trace, and what is kept behind each of its entries.
use crate::running::{Ran, disk_of, run_over};
use slee_disk::{MemoryDisk, Side};
use slee_value::NoMemory;
use std::alloc::Global;

/// A service of calls: it rings, and says when a call is over.
pub const SERVICE: &str =
    r#"{"events":[{"key":"invite","name":"Invite","vendor":"demo","version":"1.0","fields":{"addr":"text"}}],
"blocks":[{"key":"call","name":"Call","vendor":"demo","version":"1.0","events":[
{"event":"invite","initial":["activity"],"on":"emit \"call \" ++ event.addr;"},
{"event":"activity-end","on":"emit \"over\";"}]}],
"services":[{"key":"prepaid","name":"Prepaid","vendor":"demo","version":"1.0","root":"call","active":true}]}
"#;

/// Words that play all of the call.
pub const PLAY: &[&str] = &["play", "1", "100"];

pub const SHOW: &[&str] = &["show"];

pub const CALL: &str = "start c1\nfire c1 invite addr=tel:5551\nend c1\n";

pub const CALL_TRACE: &str = "1 input start c1
  started a1 c1
2 input fire c1 invite addr=tel:5551
  queued v1 invite a1
3 initial a1 v1 prepaid e1 new
  attached e1 a1
4 deliver a1 v1 e1 fine
  say e1 call tel:5551
5 finish a1 v1
6 input end c1
  ending a1
  queued v2 activity-end a1
7 deliver a1 v2 e1 fine
  say e1 over
8 finish a1 v2
  gone a1
  removed e1
status 0 ok
";

const STARTED: &str = "clock 0
inputs 1
service prepaid active
activity a1 active external c1
status 0 ok
";

const QUEUED: &str = "clock 0
inputs 2
service prepaid active
activity a1 active external c1
pending v1 invite a1
status 0 ok
";

const SELECTED: &str = "clock 0
inputs 2
service prepaid active
activity a1 active external c1
entity e1 call root prepaid 0
attached e1 a1
pending v1 invite a1
status 0 ok
";

const RINGING: &str = "clock 0
inputs 2
service prepaid active
activity a1 active external c1
entity e1 call root prepaid 0
attached e1 a1
status 0 ok
";

const ENDING: &str = "clock 0
inputs 3
service prepaid active
activity a1 ending external c1
entity e1 call root prepaid 0
attached e1 a1
pending v2 activity-end a1
status 0 ok
";

/// What `show` prints behind each number of the call's entries. A delivery of the service changes nothing that is shown.
pub const SHOWN: [&str; 9] = [
    "clock 0\ninputs 0\nservice prepaid active\nstatus 0 ok\n",
    STARTED,
    QUEUED,
    SELECTED,
    SELECTED,
    RINGING,
    ENDING,
    ENDING,
    "clock 0\ninputs 3\nservice prepaid active\nstatus 0 ok\n",
];

/// Shows what a disk has, over one that doesn't fail.
pub fn show(alloc: Global, disk: &MemoryDisk) -> Result<Ran, NoMemory> {
    let disk = disk_of(alloc, disk.side(Side::A), disk.side(Side::B))?;
    run_over(alloc, SHOW, "", disk)
}
