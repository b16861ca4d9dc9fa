//! Tests of what is told of bytes that are no deployment, by the public calls: each mistake with the words for it.
#![tactic(auto)]

#[cfg(test)]
mod rows;
#[cfg(test)]
mod scripts;
mod telling;
#[cfg(test)]
mod types;

pub use telling::told;
