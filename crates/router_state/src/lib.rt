//! The state of a service container: its rows as Rust data with their keys, and in specs/ what the state is and what can be read off it.
#![tactic(auto)]

mod change;
mod keyed_by_number;
mod keyed_by_pair;
mod keyed_by_text;
mod kindred;
mod rows;

pub use change::Change;
pub use kindred::Kindred;
pub use rows::{
    AcKind, Activity, Attribute, Entity, EntityMark, Event, Field, Link, Mask, Named, ProfileRow,
    Queued, RootName, Service, ServiceMark, ServiceState, Stem, Suspension, Timer, TimerSpec,
};
