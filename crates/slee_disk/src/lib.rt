//! The outside as traits: a source of bytes, a sink of bytes, to which numbers and words are written without memory, and a disk of
//! two sides.
#![tactic(auto)]

mod again;
mod call;
mod disk;
mod fail_list;
mod fault;
mod host;
mod host_disk;
mod host_files;
mod laws;
mod memory_disk;
mod memory_sink;
mod memory_source;
mod number;
mod pair;
mod piece_file;
mod reading;
mod side;
mod sink;
mod source;
mod stop;
mod word;
mod writing;

pub use call::{Act, Call};
pub use disk::Disk;
pub use fault::Failed;
pub use host::{HostSink, HostSource, LateFile};
pub use host_disk::HostDisk;
pub use laws::a_stop_that_tears_nothing_leaves_what_is_read;
pub use memory_disk::MemoryDisk;
pub use memory_sink::MemorySink;
pub use memory_source::MemorySource;
pub use number::write_number;
pub use piece_file::{PieceFile, read_pieces, write_pieces};
pub use reading::{ReadFault, read_whole};
pub use side::Side;
pub use sink::Sink;
pub use source::Source;
pub use word::write_word;
pub use writing::write_whole;
