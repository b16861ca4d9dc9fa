//! Deployments: parts in which the walk finds no fault, with all that scripts may name in them and all that is looked up by key.
#![tactic(auto)]

mod block_coding;
mod by_event;
mod coding;
mod deployment;
mod indexes;
mod keys;
mod naming;
mod part_coding;
mod selection;

pub use deploy_model::{
    Block, BlockEvent, CustomRule, DeployBad, DeployFault, EventType, LABEL_LIMIT, Method, Parts,
    ProfileSpec, Relation, SelectRule, Service, Table, Variable, rule_of, variable_of,
};
pub use deployment::Deployment;
