//! Signal lines: what they are, how they are read and how they are printed.
#![tactic(auto)]

mod fault;
mod fields;
mod forms;
mod laws;
mod line;
mod number;
mod parts;
mod printing;
mod reading;
mod signal;
mod signals;
mod unescaping;
mod verb;
mod word;

pub use fault::{LineFault, SignalBad, SignalFault};
pub use fields::{Fields, FieldsLeft};
pub use laws::{length_alone_decides, printed_is_read, read_is_spelled};
pub use line::LINE_LIMIT;
pub use number::number_of;
pub use parts::CLOCK_LIMIT;
pub use printing::print_signal;
pub use reading::{read_line, read_signals, read_unbounded};
pub use signal::Signal;
pub use signals::Signals;
pub use unescaping::unescape;
pub use word::Word;
