//! The parts of deployments, what names in them stand for, and the first fault of parts that are no deployment.
#![tactic(auto)]

mod built_in;
mod choice;
mod fault;
mod first;
mod handling;
mod ids;
mod leaf;
mod lookup;
mod parts;
mod rule;
mod walk;

pub use built_in::{built_in_field, is_built_in};
pub use choice::{SelectRule, Variable};
pub use fault::{DeployBad, DeployFault};
pub use first::{Firsts, Numbers, numbers_of};
pub use handling::{rule_of, variable_of};
pub use leaf::LABEL_LIMIT;
pub use parts::{
    Block, BlockEvent, CustomRule, EventType, Method, Parts, ProfileSpec, Relation, Service, Table,
};
pub use walk::check_parts;
