//! The events that wait on activities, the marks beside head events, and suspensions (JSR 240, chapter 8).
#![tactic(auto)]

mod queues;

pub use queues::Queues;
