//! Tests of turns: what passes hear and take, one after another and in several threads.
#![tactic(auto)]

mod adding;
mod counted;
#[cfg(test)]
mod threads;
#[cfg(test)]
mod turns;
