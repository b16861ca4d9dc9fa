//! The check of expressions: the type of one and the term that it is made into, or its first fault.
#![tactic(auto)]

mod expression;
mod fault;
mod joining;
mod kind;
mod leaf;
mod locals;
mod lookup;
mod making;
mod operator;
mod position;
mod query;
mod scope;
mod setting;

pub use expression::{AskedTerm, TypedTerm, check_asked, check_expression};
pub use fault::{ScriptFault, check_known, check_test};
pub use kind::{as_kind, expr_as_kind, expr_serves, is_nothing, none_of, same_kind, serves};
pub use leaf::{TypedAtom, check_leaf, tokens_of_leaf};
pub use locals::Locals;
pub use lookup::{
    attribute_named, event_named, is_built_in, is_event, is_table, kind_in_row, kind_of_field,
    name_of, place_of_table, relation_named, symbol_of, table_named,
};
pub use position::behind;
pub use scope::{ChildAt, Holding, ValueAt, check_child, check_new, check_value, is_visible};
pub use setting::{Role, Setting, check_not_on_remove};
