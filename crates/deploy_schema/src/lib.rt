//! The schema of a deployment's JSON: forms of values that compose, the tables of members over them, and a document's first fault.
#![tactic(auto)]

mod block;
mod component;
mod document;
mod event;
mod fault;
mod firsts;
mod form;
mod handler;
mod ids;
mod kinds;
mod leaf;
mod list;
mod lookup;
mod map;
mod member;
mod method;
mod numbers;
mod object;
mod profile;
mod script;
mod selection;
mod service;
mod text;
mod word;

pub use document::check_document;
pub use fault::{escaped_step, moved, printed};
pub use member::{object_at, text_at, text_or_empty};
pub use numbers::{array_items, items_in, member_text};
pub use word::kind_of_word;
