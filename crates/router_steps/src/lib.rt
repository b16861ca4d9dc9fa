//! The steps of a service container: what each is about, the state after it, its lines and its payload, in specs/.
#![tactic(auto)]

mod refusal;

pub use refusal::Refusal;
