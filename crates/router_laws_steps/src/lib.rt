//! Laws of whole steps: each leaves a well-formed state, and so does a history; an activity's end comes last; what runs keep; effects apply.
#![tactic(auto)]

mod ends;
mod runs;
mod states;
mod turns;

pub use ends::ends_come_last;
pub use runs::runs_keep_their_order;
pub use states::{histories_leave_well_formed_states, steps_leave_well_formed_states};
pub use turns::effects_of_histories_apply;
