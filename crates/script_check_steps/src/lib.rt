//! The check of statements without blocks: the step that each is made into, or its first fault.
#![tactic(auto)]

mod activities;
mod assignments;
mod children;
mod laws;
mod lookup;
mod made;
mod new_variable;
mod part;
mod sayings;
mod timers;

pub use activities::{
    check_attach, check_bind, check_detach, check_mask, check_null, check_unmask,
};
pub use assignments::check_assignment;
pub use children::{check_create, check_priority, check_remove};
pub use laws::variables_before_statements_stay;
pub use made::MadeStep;
pub use new_variable::{add_child, add_value};
pub use part::{Part, TypedPart, check_part, check_typed_part};
pub use sayings::{check_rollback, check_usage, check_verb};
pub use timers::check_timer;
