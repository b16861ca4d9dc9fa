//! What handlers do to the state: effects, and their bytes in the journal.
#![tactic(auto)]

mod effect;
mod effects;
mod fault;
mod fired;
mod laws;
mod making;
mod names;
mod next;
mod parts;
mod reading;
mod reference;
mod resolving;
mod rows;
mod tag;
mod value;
mod writing;

pub use effect::Effect;
pub use effects::{Effects, resolve};
pub use fault::EffectFault;
pub use fired::FiredFields;
pub use laws::{effects_have_one_spelling, lists_have_one_spelling, names_stop_at_the_first_byte};
pub use parts::read_keep;
pub use reading::read_effects;
pub use reference::Ref;
pub use value::Val;
pub use writing::{write_effects, write_keep};
