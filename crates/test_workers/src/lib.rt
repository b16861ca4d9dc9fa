//! Tests of runs of several workers: what is played, that handlers run beside each other, outside the turn, and what is left of a run
//! that is stopped.
#![tactic(auto)]

#[cfg(test)]
mod gates;
#[cfg(test)]
mod limited;
#[cfg(test)]
mod running;
#[cfg(test)]
mod stops;
#[cfg(test)]
mod workers;
