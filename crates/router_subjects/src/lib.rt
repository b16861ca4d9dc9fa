//! What a selection, a delivery and a finish do, as changes of a step while it is planned, with the lines that tell it.
#![tactic(auto)]

mod delivering;
mod dropping;
mod finishing;
mod numbering;
mod selecting;

pub use delivering::{Receipt, deliver};
pub use finishing::finish;
pub use selecting::{Due, Root, select};
