//! Reading and writing at places of a file, whose calls may do a piece of what they are asked or be interrupted.
ghost use Rattle.std.specs.Prelude.{◌≡◌, ◌≢◌, ◌≤◌, List, ℕ, Option, length, take, IfOk, IfErr, IfSome, OnOk};
ghost use Rattle.std.specs.IoError.{error_kind};
ghost use Rattle.slee_disk.specs.Pieces.{ReadsFront, ReadsWhole, IsLaid};

use crate::Failed;
use crate::again::TRIES;
use std::io::{self, ErrorKind};

/// A file whose calls may read or write less than they are asked, or be interrupted by a signal.
pub trait PieceFile {
    /// Its bytes, where it tells them.
    ghost content: { Self → Option (List ℕ) };

    /// Reads some of what stands from a place on, and answers how many bytes. None for a buffer with room is the end. Where it
    /// is interrupted, it has read nothing.
    fn read_piece(&mut self, at: u64, into: &mut [u8]) -> io::Result<usize>
        ensures count { IfOk result (λ n. n ≤ length into.old) }
        ensures read { IfOk result (λ n. ReadsFront (content self.old) at n into.old into.new) }
        ensures still { content self.new ≡ content self.old }
        ensures interrupted { IfErr result (λ e. error_kind e ≡ ErrorKind.Interrupted → IfSome (content self.old) (λ _. into.new ≡ into.old)) };

    /// Writes a front of the bytes at a place, and answers how many. Where it is interrupted, it has written nothing.
    fn write_piece(&mut self, at: u64, bytes: &[u8]) -> io::Result<usize>
        ensures count { IfOk result (λ n. n ≤ length bytes.now) }
        ensures written { IfOk result (λ n. IsLaid at (take n bytes.now) (content self.old) (content self.new)) }
        ensures interrupted { IfErr result (λ e. error_kind e ≡ ErrorKind.Interrupted → content self.new ≡ content self.old) };
}

// Reads some of what stands from a place on. Where it is interrupted, it is tried again.
fn read_piece_again<F: PieceFile>(file: &mut F, at: u64, into: &mut [u8]) -> io::Result<usize>
    ensures count { IfOk result (λ n. n ≤ length into.old) }
    ensures read { IfOk result (λ n. ReadsFront (F.content file.old) at n into.old into.new) }
    ensures still { F.content file.new ≡ F.content file.old }
    ensures retried { IfErr result (λ e. error_kind e ≢ ErrorKind.Interrupted) }
{
    'tries: for _ in 0..TRIES {
        match file.read_piece(at, into) {
            Err(error) if error.kind() == ErrorKind::Interrupted => {}
            done => return done,
        }
    }
    Err(ErrorKind::TimedOut.into())
}

// Writes a front of the bytes at a place. Where it is interrupted, it is tried again.
fn write_piece_again<F: PieceFile>(file: &mut F, at: u64, bytes: &[u8]) -> io::Result<usize>
    ensures count { IfOk result (λ n. n ≤ length bytes.now) }
    ensures written { IfOk result (λ n. IsLaid at (take n bytes.now) (F.content file.old) (F.content file.new)) }
    ensures retried { IfErr result (λ e. error_kind e ≢ ErrorKind.Interrupted) }
{
    'tries: for _ in 0..TRIES {
        match file.write_piece(at, bytes) {
            Err(error) if error.kind() == ErrorKind::Interrupted => {}
            done => return done,
        }
    }
    Err(ErrorKind::TimedOut.into())
}

/// Reads until the buffer is full or the file ends.
pub fn read_pieces<F: PieceFile>(file: &mut F, at: u64, into: &mut [u8]) -> Result<usize, Failed>
    ensures count { IfOk result (λ n. n ≤ length into.old) }
    ensures read { IfOk result (λ n. ReadsWhole (F.content file.old) at n into.old into.new) }
    ensures still { F.content file.new ≡ F.content file.old }
{
    let mut count = 0;
    while count < into.len() {
        let Some(place) = at.checked_add(count as u64) else {
            return Err(Failed);
        };
        let more = read_piece_again(file, place, &mut into[count..])?;
        if more == 0 {
            return Ok(count);
        }
        count += more;
    }
    Ok(count)
}

/// Writes all the bytes. A call that takes none of some is a failure.
pub fn write_pieces<F: PieceFile>(file: &mut F, at: u64, bytes: &[u8]) -> Result<(), Failed>
    ensures { OnOk result (IsLaid at bytes.now (F.content file.old) (F.content file.new)) }
{
    let mut count = 0;
    while count < bytes.len() {
        let Some(place) = at.checked_add(count as u64) else {
            return Err(Failed);
        };
        let more = write_piece_again(file, place, &bytes[count..])?;
        if more == 0 {
            return Err(Failed);
        }
        count += more;
    }
    Ok(())
}
