//! What blocks of steps do, with loops and calls of methods: each as the meaning of scripts says, over the answers that were kept.
#![tactic(auto)]

mod calls;
mod flags;
mod items;
mod plain;
mod stage;
mod steps;

pub use calls::block_at;
pub use stage::Stage;
pub use steps::do_all;
