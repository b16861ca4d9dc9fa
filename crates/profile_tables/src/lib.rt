//! Profile tables (JSR 240, chapter 10): rows with attributes, some of which differ from row to row of a table.
#![tactic(auto)]

mod counted;
mod fault;
mod fitting;
mod numbered;
mod profiles;
mod rivals;
mod same;
mod table_spec;
mod values;

pub use fault::RowFault;
pub use profiles::Profiles;
pub use table_spec::TableSpec;
