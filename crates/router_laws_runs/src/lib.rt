//! Laws of runs: what is so of every legal history over a well-formed state of a deployment that was read, and nothing more is asked.
#![tactic(auto)]

mod ends;
mod events;
mod headings;
mod states;
mod turns;

pub use ends::nothing_follows_an_end;
pub use events::events_keep_their_order;
pub use headings::{deliveries_name_the_first, headings_name_the_next_event};
pub use states::legal_histories_stay_well_formed;
pub use turns::effects_of_runs_apply;
