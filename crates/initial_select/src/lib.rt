//! Initial event selection (JSR 240, 8.5): the convergence name by which an event selects a root of a service. Custom selection is by stored closures, each of a rule of this project's own.
#![tactic(auto)]

mod converging;
mod custom;
mod handlers;
mod naming;
mod selection;
mod selector;
mod selectors;

pub use converging::convergence;
pub use custom::{Custom, custom_name};
pub use deploy_model::SelectRule;
pub use selection::Selection;
pub use selector::{Pick, Selector};
pub use selectors::Selectors;
