//! A script read from tokens: its statements, or the first token that can't go on.
#![tactic(auto)]

mod activities;
mod assignments;
mod calls;
mod commands;
mod entities;
mod events;
mod simple;
mod statement;
mod timers;

pub use crate::statement::script;
