//! All that scripts may name, and when a script is well typed.
#![tactic(auto)]

mod checked_script;
mod checked_step;
mod checked_term;
mod code_list;
mod codes;
mod laws;
mod misuse;
mod named;
mod named_list;
mod places;
mod step;
mod symbol;
mod term;

pub use checked_script::{BlockSteps, HandlerSteps, MethodSteps};
pub use checked_step::{
    Assigning, Call, FieldTerm, OnActivities, OnEntities, OnTimers, Rank, Recurrence, Saying, Step,
    TimerStart,
};
pub use checked_term::Term;
pub use code_list::CodeList;
pub use codes::{
    AttributeCode, BlockCode, CodePart, CodePlace, Codes, EventCode, FieldCode, HandlerCode,
    MethodCode, RelationCode, TableCode,
};
pub use laws::{
    codes_without_fault_are_well_typed, remove_scripts_stay_inside, variables_stay_in_place,
    well_typed_codes_have_no_fault,
};
pub use misuse::{CheckBad, Misuse};
pub use named::Named;
pub use named_list::NamedList;
pub use places::Places;
pub use step::{Range, Who};
pub use symbol::Symbol;
pub use term::{Atom, Joint, Question, Scale, Test};
