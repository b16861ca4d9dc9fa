//! Calls of the prepaid service: without credit, with credit, none at all, and in a few entries.
use crate::playing::{PLAY, SHOW, Step, play};
use std::test::Fail;
use test_run::prepaid::PREPAID;
use test_run::running::Wanted;

const WITHOUT_CREDIT: &[Step] = &[
    Step {
        words: PLAY,
        lines: "start c1\nfire c1 invite addr=tel:5551\nend c1\n",
        wanted: Wanted {
            code: 0,
            printed: "1 input start c1
  started a2 c1
2 input fire c1 invite addr=tel:5551
  queued v1 invite a2
3 initial a2 v1 prepaid e1 new
  attached e1 a2
4 deliver a2 v1 e1 fine
  say e1 call tel:5551
  say e1 no account
5 finish a2 v1
6 input end c1
  ending a2
  queued v2 activity-end a2
7 deliver a2 v2 e1 fine
  say e1 over
8 finish a2 v2
  gone a2
  removed e1
status 0 ok
",
        },
    },
    Step {
        words: SHOW,
        lines: "",
        wanted: Wanted {
            code: 0,
            printed: "clock 0\ninputs 3\nservice prepaid active\nactivity a1 active table accounts\nstatus 0 ok\n",
        },
    },
];

const NO_LINES: &[Step] = &[
    Step {
        words: PLAY,
        lines: "",
        wanted: Wanted {
            code: 0,
            printed: "status 0 ok\n",
        },
    },
    Step {
        words: SHOW,
        lines: "",
        wanted: Wanted {
            code: 0,
            printed: "clock 0\ninputs 0\nservice prepaid active\nactivity a1 active table accounts\nstatus 0 ok\n",
        },
    },
];

// The last line may lack its end, and may not end with a carriage return.
const NO_LAST_END: &[Step] = &[Step {
    words: PLAY,
    lines: "start c1",
    wanted: Wanted {
        code: 0,
        printed: "1 input start c1\n  started a2 c1\nstatus 0 ok\n",
    },
}];

const CARRIAGE_RETURN: &[Step] = &[Step {
    words: PLAY,
    lines: "start c1\r\n",
    wanted: Wanted {
        code: 5,
        printed: "status 5 bad-signals 1 control\n",
    },
}];

// As many entries as the call has, and fewer.
const SPENT: &[Step] = &[Step {
    words: &["play", "1", "5"],
    lines: "start c1\nfire c1 invite addr=tel:5551\nend c1\n",
    wanted: Wanted {
        code: 11,
        printed: "1 input start c1
  started a2 c1
2 input fire c1 invite addr=tel:5551
  queued v1 invite a2
3 initial a2 v1 prepaid e1 new
  attached e1 a2
4 deliver a2 v1 e1 fine
  say e1 call tel:5551
  say e1 no account
5 finish a2 v1
status 11 steps-spent 5
",
    },
}];

const JUST_ENOUGH: &[Step] = &[Step {
    words: &["play", "1", "8"],
    lines: "start c1\nfire c1 invite addr=tel:5551\nend c1\n",
    wanted: Wanted {
        code: 0,
        printed: "1 input start c1
  started a2 c1
2 input fire c1 invite addr=tel:5551
  queued v1 invite a2
3 initial a2 v1 prepaid e1 new
  attached e1 a2
4 deliver a2 v1 e1 fine
  say e1 call tel:5551
  say e1 no account
5 finish a2 v1
6 input end c1
  ending a2
  queued v2 activity-end a2
7 deliver a2 v2 e1 fine
  say e1 over
8 finish a2 v2
  gone a2
  removed e1
status 0 ok
",
    },
}];

const WITH_CREDIT: &[Step] = &[Step {
    words: PLAY,
    lines: "profile-add accounts tel:5551 seconds=30
start c1
fire c1 invite addr=tel:5551
clock 30000
end c1
",
    wanted: Wanted {
        code: 0,
        printed: "1 input profile-add accounts tel:5551 seconds=30
  queued v1 profile-added a1
2 finish a1 v1
3 input start c1
  started a2 c1
4 input fire c1 invite addr=tel:5551
  queued v2 invite a2
5 initial a2 v2 prepaid e1 new
  attached e1 a2
6 deliver a2 v2 e1 fine
  say e1 call tel:5551
  usage e1 call.granted 30
  timer t1 a2
7 finish a2 v2
8 input clock 30000
  queued v3 timer a2
9 deliver a2 v3 e1 fine
  say e1 credit used by tel:5551
10 finish a2 v3
11 input end c1
  ending a2
  queued v4 activity-end a2
12 deliver a2 v4 e1 fine
  say e1 over
13 finish a2 v4
  gone a2
  removed e1
usage call.granted 1 30
status 0 ok
",
    },
}];

#[test]
fn a_call_without_credit(rt: HostRuntime) -> Result<(), Fail> {
    play(&rt, rt.alloc(), PREPAID, WITHOUT_CREDIT)
}

#[test]
fn no_lines_leave_the_initial_state(rt: HostRuntime) -> Result<(), Fail> {
    play(&rt, rt.alloc(), PREPAID, NO_LINES)
}

#[test]
fn the_last_line_may_lack_its_end_alone(rt: HostRuntime) -> Result<(), Fail> {
    play(&rt, rt.alloc(), PREPAID, NO_LAST_END)?;
    play(&rt, rt.alloc(), PREPAID, CARRIAGE_RETURN)
}

#[test]
fn a_call_in_as_many_entries_as_it_has_and_in_fewer(rt: HostRuntime) -> Result<(), Fail> {
    play(&rt, rt.alloc(), PREPAID, SPENT)?;
    play(&rt, rt.alloc(), PREPAID, JUST_ENOUGH)
}

#[test]
fn a_call_with_credit(rt: HostRuntime) -> Result<(), Fail> {
    play(&rt, rt.alloc(), PREPAID, WITH_CREDIT)
}
