//! Laws of masks: those with which a script reckons are those of the deployment.
#![tactic(auto)]

mod masks;

pub use masks::programs_mask_as_deployed;
