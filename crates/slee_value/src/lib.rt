//! The values that everything else speaks of: texts, names, numbers of things, typed values.
#![tactic(auto)]

mod blob;
mod component;
mod convergence;
mod escaping;
mod fault;
mod ids;
mod keep;
mod kind;
mod laws;
mod memory;
mod name;
mod names;
mod payload;
mod reading;
mod tag;
mod text;
mod value;
mod writing;

pub use blob::Blob;
pub use component::ComponentId;
pub use convergence::ConvName;
pub use escaping::{escape, hex_digit, needs_escape};
pub use fault::{PartFault, ValueBad, ValueFault};
pub use ids::{ActivityId, EntityId, EventId, TimerId};
pub use keep::Keep;
pub use kind::Kind;
pub use laws::{bytes_have_one_spelling, texts_have_one_spelling, values_have_one_spelling};
pub use memory::NoMemory;
pub use name::{INLINE_NAME, NAME_LIMIT, Name};
pub use names::Names;
pub use payload::Payload;
pub use reading::{
    COUNT_LEN, read_bytes, read_flag, read_i8, read_i64, read_part, read_str, read_text, read_u8,
    read_u32, read_u64, read_value,
};
pub use text::Text;
pub use value::Value;
pub use writing::{
    write_bytes, write_flag, write_i8, write_text, write_u32, write_u64, write_value,
};
