//! Laws over scripts: well typed is the same as made into steps; names have their numbers; checked scripts are safe; a run depends on
//! what it read alone; and what effects refer to is known.
#![tactic(auto)]

mod dependence;
mod numbering;
mod own_effects;
mod references;
mod safety;
mod typing;

pub use dependence::{
    deliveries_ask_for_few_keys, deliveries_ask_for_unknown_keys,
    deliveries_stay_over_more_answers, lacked_keys_are_read_over_more_answers,
    more_answers_are_kept, runs_depend_on_what_they_read, runs_stay_over_more_answers,
    scripts_ask_for_few_keys,
};
pub use numbering::checked_scripts_are_numbered;
pub use own_effects::{
    activities_of_a_run_are_read, children_of_a_run_are_read, names_and_timers_of_a_run_are_read,
    values_that_a_run_gave_are_read,
};
pub use references::{
    deliveries_refer_to_what_is_known, scripts_refer_to_what_is_known, what_is_known_stays_known,
};
pub use safety::{
    checked_deliveries_have_an_outcome, checked_expressions_give_their_type,
    checked_scripts_have_a_meaning,
};
pub use typing::{
    expressions_have_the_type_of_their_term, programs_are_for_well_typed_codes,
    programs_have_the_first_fault, scripts_have_the_scope_of_their_steps,
    well_typed_codes_have_a_program,
};
