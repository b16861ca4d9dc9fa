//! Worked examples, played by the whole program over objects in memory.
#![tactic(auto)]

#[cfg(test)]
mod attaching;
#[cfg(test)]
mod credit;
#[cfg(test)]
mod orders;
#[cfg(test)]
mod playing;
#[cfg(test)]
mod profiles;
#[cfg(test)]
mod rollbacks;
#[cfg(test)]
mod selection;
#[cfg(test)]
mod services;
#[cfg(test)]
mod stops;
#[cfg(test)]
mod timers;
#[cfg(test)]
mod trials;
