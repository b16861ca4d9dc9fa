//! A source read whole, up to a limit.
ghost use Rattle.std.specs.Prelude.{◌≡◌, ◌<◌, ◌≤◌, ◌+◌, IfOk, IfSome, IsErrOf, OnOk, OnErr, length};
ghost use Rattle.std.specs.Io.KnownBytes.{Consumes, IsAtEnd};
ghost use Rattle.slee_disk.specs.Causes.{Rose};
ghost use Rattle.slee_disk.specs.Taken.{ConsumesUpTo, ConsumesSome, ConsumesWithin};

use crate::Source;
use slee_value::Blob;
use std::alloc::Global;
use std::fmt;

/// Why a source wasn't read whole.
#[derive(Clone, Copy, Debug, PartialEq, Eq)]
pub enum ReadFault {
    /// The source failed.
    Failed,
    /// It gave more than the limit.
    TooLarge,
    /// Memory ran out.
    NoMemory,
}

impl fmt::Display for ReadFault {
    fn fmt<W: fmt::Write>(&self, f: &mut fmt::Formatter<W>) -> fmt::Result {
        let words = match self {
            ReadFault::Failed => "input failed",
            ReadFault::TooLarge => "input too large",
            ReadFault::NoMemory => "out of memory",
        };
        write!(f, "{words}")
    }
}

impl std::error::Error for ReadFault {}

const CHUNK: usize = 4096;

/// Reads all that is left, up to a limit. It reads no byte behind the first one past the limit, and takes memory only for
/// bytes within it.
pub fn read_whole<S: Source>(alloc: Global, source: &mut S, limit: usize) -> Result<Blob, ReadFault>
    ensures whole { IfOk result (λ blob. Consumes (S.left source.old) (S.left source.new) blob) }
    ensures end { OnOk result (IsAtEnd (S.left source.new)) }
    ensures within { IfOk result (λ blob. length blob ≤ limit) }
    ensures all { IfOk result (λ blob. IfSome (S.left source.old) (λ bytes. blob ≡ bytes)) }
    ensures too_large { IsErrOf result ReadFault.TooLarge → IfSome (S.left source.old) (λ bytes. limit < length bytes) }
    ensures stopped { IsErrOf result ReadFault.TooLarge → ConsumesSome (S.left source.old) (S.left source.new) (limit + 1) }
    ensures failed { IsErrOf result ReadFault.Failed → Rose (S.faults source.old) (S.faults source.new) }
    ensures memory { IsErrOf result ReadFault.NoMemory → ConsumesWithin (S.left source.old) (S.left source.new) limit }
    ensures taken { OnErr result (ConsumesUpTo (S.left source.old) (S.left source.new) (limit + 1)) }
    ensures later { S.faults source.old ≤ S.faults source.new }
{
    let mut bytes = Vec::new(alloc);
    let mut chunk = [0u8; CHUNK];
    'pieces: loop {
        let room = (limit - bytes.len()).min(CHUNK - 1) + 1;
        let Ok(count) = source.read(&mut chunk[..room]) else {
            return Err(ReadFault::Failed);
        };
        if count == 0 {
            return Ok(Blob::from(bytes));
        }
        if count > limit - bytes.len() {
            return Err(ReadFault::TooLarge);
        }
        let Ok(()) = bytes.extend_from_slice(&chunk[..count]) else {
            return Err(ReadFault::NoMemory);
        };
    }
}
