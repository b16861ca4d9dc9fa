//! Numbers in decimal digits.
ghost use Rattle.std.specs.Prelude.{decimal};
ghost use Rattle.slee_disk.specs.Writes.{Writes};

use crate::{Failed, Sink, write_whole};
use itoa::Buffer;

/// Writes a number in decimal digits.
pub fn write_number<K: Sink>(out: &mut K, number: u64) -> Result<(), Failed>
    ensures { Writes K.contents K.faults out.old out.new (decimal number) result }
{
    let mut buffer = Buffer::new();
    write_whole(out, buffer.format(number).as_bytes())
}
