//! The bytes of two sides.
ghost use Rattle.std.specs.Prelude.{◌≡◌, ◌≤◌, ◌+◌, ◌++◌, take, drop, length, IfOk, OnOk, OnErr};
ghost use Rattle.slee_disk.specs.Sides.{on, other, given, sides_of, filled, overwritten};
ghost use Rattle.slee_disk.specs.Calls.{with_side};

use crate::Side;
use slee_value::NoMemory;
use std::alloc::Global;
use std::marker::Model;

/// The bytes of two sides.
#[derive(Debug, Drop)]
pub(crate) struct Pair {
    a: Vec<u8>,
    b: Vec<u8>,
}

impl Model for Pair {
    ghost use Rattle.slee_disk.specs.Sides.{Sides};

    ghost Value = { Sides };

    ghost view = { λ p. record { a = p.a.items; b = p.b.items } };
}

impl Pair {
    /// Copies of these bytes.
    pub(crate) fn from_slices(alloc: Global, a: &[u8], b: &[u8]) -> Result<Self, NoMemory>
        ensures { IfOk result (λ p. p ≡ record { a = a.now; b = b.now }) }
    {
        Ok(Pair {
            a: Vec::from_slice(alloc, a)?,
            b: Vec::from_slice(alloc, b)?,
        })
    }

    pub(crate) fn copy(&self, alloc: Global) -> Result<Self, NoMemory>
        ensures { IfOk result (λ p. p ≡ self.now) }
    {
        Pair::from_slices(alloc, &self.a, &self.b)
    }

    /// The bytes of a side.
    pub(crate) fn side(&self, side: Side) -> &[u8]
        ensures { result.now ≡ on side self.now }
    {
        match side {
            Side::A => &self.a,
            Side::B => &self.b,
        }
    }

    /// Writes over a side's bytes and past their end, with zeros in a gap.
    pub(crate) fn overwrite(&mut self, side: Side, at: u64, bytes: &[u8]) -> Result<(), NoMemory>
        ensures ok { OnOk result (self.new ≡ with_side side (overwritten at bytes.now) self.old) }
        ensures err { OnErr result (self.new ≡ self.old) }
    {
        match side {
            Side::A => overwrite(&mut self.a, at, bytes),
            Side::B => overwrite(&mut self.b, at, bytes),
        }
    }

    /// Cuts a side to a length.
    pub(crate) fn cut(&mut self, side: Side, length: u64)
        ensures { self.new ≡ with_side side (take length) self.old }
    {
        match side {
            Side::A => self.a.truncate(length as usize),
            Side::B => self.b.truncate(length as usize),
        }
    }

    /// Puts a copy of these bytes in the place of a side's.
    pub(crate) fn set(&mut self, alloc: Global, side: Side, bytes: &[u8]) -> Result<(), NoMemory>
        ensures ok { OnOk result (self.new ≡ sides_of side bytes.now (on (other side) self.old)) }
    {
        let copy = Vec::from_slice(alloc, bytes)?;
        match side {
            Side::A => self.a = copy,
            Side::B => self.b = copy,
        }
        Ok(())
    }
}

// Writes over bytes and past their end, with zeros in a gap.
#[tactic(auto, using(crate::proofs::Overwrites::filled_overwritten, crate::proofs::Overwrites::length_filled))]
fn overwrite(old: &mut Vec<u8>, at: u64, bytes: &[u8]) -> Result<(), NoMemory>
    ensures ok { OnOk result (old.new.items ≡ overwritten at bytes.now old.old.items) }
    ensures err { OnErr result (old.new.items ≡ old.old.items) }
{
    let start = at as usize;
    let Some(end) = start.checked_add(bytes.len()) else {
        return Err(NoMemory);
    };
    extend_to(old, end)?;
    put(old, start, bytes);
    Ok(())
}

// Adds zeros up to a length.
fn extend_to(bytes: &mut Vec<u8>, length: usize) -> Result<(), NoMemory>
    ensures ok { OnOk result (bytes.new.items ≡ filled length bytes.old.items) }
    ensures err { OnErr result (bytes.new.items ≡ bytes.old.items) }
{
    if bytes.len() < length {
        bytes.resize(length, 0)?;
    }
    Ok(())
}

// Writes over bytes within their length.
fn put(bytes: &mut Vec<u8>, at: usize, piece: &[u8])
    requires { at + length piece.now ≤ length bytes.old.items }
    ensures { bytes.new.items ≡ take at bytes.old.items ++ piece.now ++ drop (at + length piece.now) bytes.old.items }
{
    put_in(bytes, at, piece);
}

fn put_in(bytes: &mut [u8], at: usize, piece: &[u8])
    requires { at + length piece.now ≤ length bytes.old }
    ensures length { length bytes.new ≡ length bytes.old }
    ensures bytes { bytes.new ≡ take at bytes.old ++ piece.now ++ drop (at + length piece.now) bytes.old }
{
    bytes[at..at + piece.len()].copy_from_slice(piece);
}

/// Gives as many bytes as there are from a place on, up to `into`.
pub(crate) fn give(bytes: &[u8], at: u64, into: &mut [u8]) -> usize
    ensures room { length into.new ≡ length into.old }
    ensures given { let piece = given at (length into.old) bytes.now in (result ≡ length piece) × (into.new ≡ piece ++ drop result into.old) }
{
    let at = (at as usize).min(bytes.len());
    let rest = &bytes[at..];
    let count = rest.len().min(into.len());
    into[..count].copy_from_slice(&rest[..count]);
    count
}
