//! Scripts as text: each in one layout, and the laws of the grammar and of reading what is spelled.
#![tactic(auto)]

mod grammar;
mod laws;
mod manner;
mod printing;

pub use grammar::{
    a_fault_stands_at_the_first_misfit, tokens_of_a_text_are_proper, what_is_read_is_spelled,
    what_stands_before_a_fault_can_be_continued,
};
pub use laws::{
    a_refused_token_continues_no_script, one_spelling_one_tree, printed_is_read_as_itself,
    printed_is_read_as_spelled, spelled_is_read_as_itself,
};
pub use printing::print;
