//! Calls that a signal may interrupt are tried again: an interruption is no fault.
ghost use Rattle.std.specs.Prelude.{◌≢◌, IfErr};
ghost use Rattle.std.specs.IoError.{error_kind};
ghost use Rattle.std.specs.Io.{ReadsAtMost, WritesAtMost};
ghost use Rattle.std.specs.Io.KnownBytes.{ReadConsumes, WriteAppends};

use std::fs::File;
use std::io::{self, ErrorKind, Read, Write};

/// How often a call is tried.
pub(crate) const TRIES: u64 = u64::MAX;

/// One read of a reader.
pub(crate) fn read_again<R: Read>(reader: &mut R, into: &mut [u8]) -> io::Result<usize>
    ensures bound { ReadsAtMost result into.new }
    ensures bytes { ReadConsumes (R.remaining reader.old) (R.remaining reader.new) result into.new }
    ensures retried { IfErr result (λ e. error_kind e ≢ ErrorKind.Interrupted) }
{
    'tries: for _ in 0..TRIES {
        match reader.read(into) {
            Err(error) if error.kind() == ErrorKind::Interrupted => {}
            done => return done,
        }
    }
    Err(ErrorKind::TimedOut.into())
}

/// One write of a writer.
pub(crate) fn write_again<W: Write>(writer: &mut W, bytes: &[u8]) -> io::Result<usize>
    ensures bound { WritesAtMost result bytes.now }
    ensures bytes { WriteAppends (W.contents writer.old) (W.contents writer.new) result bytes.now }
    ensures retried { IfErr result (λ e. error_kind e ≢ ErrorKind.Interrupted) }
{
    'tries: for _ in 0..TRIES {
        match writer.write(bytes) {
            Err(error) if error.kind() == ErrorKind::Interrupted => {}
            done => return done,
        }
    }
    Err(ErrorKind::TimedOut.into())
}

/// The length of a file.
pub(crate) fn length_of(file: &File) -> io::Result<u64>
    ensures retried { IfErr result (λ e. error_kind e ≢ ErrorKind.Interrupted) }
{
    'tries: for _ in 0..TRIES {
        match file.metadata() {
            Err(error) if error.kind() == ErrorKind::Interrupted => {}
            Err(error) => return Err(error),
            Ok(metadata) => return Ok(metadata.len()),
        }
    }
    Err(ErrorKind::TimedOut.into())
}
