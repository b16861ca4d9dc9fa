//! The interpreter of checked scripts: a whole run is what a script means, over the answers that were kept.
#![tactic(auto)]

mod before;
mod checked;
mod keys;
mod run;
mod scripts;
mod view;
mod words;

pub use before::Before;
pub use checked::run_script;
pub use keys::{Keys, Known};
pub use run::Run;
pub use scripts::has_script;
pub use view::View;
pub use words::word_of;
