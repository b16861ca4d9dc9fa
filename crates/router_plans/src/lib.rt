//! Plans of steps: what a step changes, what it tells, and what the journal keeps of it.
#![tactic(auto)]

mod closing;
mod delivering;
mod finishing;
mod limits;
mod plan;
mod selecting;
mod taking;

pub use closing::close_plan;
pub use delivering::begin_delivering;
pub use finishing::begin_finishing;
pub use limits::PAYLOAD_LIMIT;
pub use plan::Plan;
pub use selecting::begin_selecting;
pub use taking::begin_taking;
