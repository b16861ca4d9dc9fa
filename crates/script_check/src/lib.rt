//! The check of whole scripts: the steps that each is made into, or its first fault.
#![tactic(auto)]

mod blocks;
mod loops;
mod plain;
mod script;

pub use script::check_script;
