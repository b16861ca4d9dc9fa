//! Generated lines of the prepaid service, and their trial.
use crate::playing::{Step, play};
use std::test::Fail;
use test_run::prepaid::PREPAID;
use test_run::running::Wanted;

const GENERATED: &[Step] = &[
    Step {
        words: &["gen", "7", "3"],
        lines: "",
        wanted: Wanted {
            code: 0,
            printed: "start g1\nstart g2\nfire g1 invite addr=tel:54\n",
        },
    },
    Step {
        words: &["trial", "7", "3"],
        lines: "",
        wanted: Wanted {
            code: 0,
            printed: "lines 3\nentries 6\nstarted 2\ndeliveries 1\nrefused 0\nstatus 0 ok\n",
        },
    },
];

#[test]
fn a_trial_of_generated_lines_is_counted(rt: HostRuntime) -> Result<(), Fail> {
    play(&rt, rt.alloc(), PREPAID, GENERATED)
}
