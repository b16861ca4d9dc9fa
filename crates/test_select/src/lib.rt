//! Tests of initial selection, by its public calls.
#![tactic(auto)]

#[cfg(test)]
mod deployed;
#[cfg(test)]
mod lines;
#[cfg(test)]
mod memory;
#[cfg(test)]
mod naming;
#[cfg(test)]
mod rules;
mod selecting;

pub use selecting::select;
