//! Laws of states that can be kept: the first one, those of snapshots and those behind them have snapshots that stand for them.
#![tactic(auto)]

mod states;

pub use states::{kept_states_are_read_back, states_can_be_kept};
