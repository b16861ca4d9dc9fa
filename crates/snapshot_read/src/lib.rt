//! Reading a snapshot: the rows that bytes are, in formats 1 and 2.
#![tactic(auto)]

mod activities;
mod activity_rows;
mod entities;
mod entity_rows;
mod fault;
mod holding;
mod item;
mod link_rows;
mod links;
mod lists;
mod named;
mod parts;
mod pieces;
mod profile_rows;
mod reading;

pub use fault::ReadFault;
pub use reading::read_rows;
