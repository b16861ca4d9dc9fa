//! The machine on which scripts run: variables, units, keys that were observed, and effects. Each of its steps is what the meaning of scripts says, over the answers that were kept.
#![tactic(auto)]

mod arithmetic;
mod asked;
mod comparing;
mod effect_bytes;
mod effects;
mod frames;
mod keys;
mod kinds;
mod lent;
mod machine;
mod numbering;
mod numbers;
mod observing;
mod operators;
mod places;
mod scalars;
mod scene;
mod spare;
mod stop;
mod texts;
mod variable;
mod variables;
mod wanted;

pub use arithmetic::{is_arithmetic, is_choice, reckon};
pub use asked::Asked;
pub use comparing::{is_decided_flag, is_of_numbers, is_same_ref};
pub use effects::{EFFECT_BYTES_LIMIT, EFFECT_LIMIT};
pub use frames::Finished;
pub use kinds::{
    activity_of, flag_in, flag_of, flag_within, int_in, int_of, int_within, text_in, text_of,
    text_within, timer_of,
};
pub use lent::{Lent, initial, is_of};
pub use machine::{Machine, UNIT_LIMIT};
pub use numbering::{AnswerNumbers, NumberedName, Spelling, is_same_name};
pub use numbers::{numbers_of_answers, numbers_of_effects, numbers_of_keys};
pub use observing::{KEY_LIMIT, Looked, NewKey};
pub use places::{Place, set_at};
pub use scalars::Scalar;
pub use scene::Scene;
pub use stop::Stop;
pub use texts::{TEXT_LIMIT, write_number};
pub use variable::Variable;
pub use variables::is_removed;
pub use wanted::{Wanted, WantedAttribute, WantedField, WantedState};
