//! What the bytes of a side stand for.
ghost use Rattle.std.specs.Prelude.{◌≡◌, ◌≤◌, ◌<◌, ◌+◌, ◌-◌, ◌^◌, length, map, Some, Ok, IfSome, IfOk, IfErr, IsErrOf};
ghost use Rattle.slee_disk.specs.Sides.{other};
ghost use Rattle.commit_journal.specs.Reading.{magic_at, header_at, payload_at, payloads_of, front, next, by_generations, first_difference};
ghost use Rattle.commit_journal.specs.Views.{Reads, head_view, front_view, GivesRecords, AtGate, Chooses, Picks};

use crate::fault::JournalBad;
use crate::format::{Format, MAGIC_ONE, MAGIC_TWO};
use crate::gate::OPEN_GATE;
use crate::limits::RECORD_FRAME;
use crate::record::{Record, RecordsFault};
use slee_disk::Side;
use slee_value::{Blob, COUNT_LEN, read_bytes, read_u64};
use std::alloc::Global;

/// How a side begins.
#[derive(Drop)]
pub(crate) enum Begins<'a> {
    Blank,
    NoHeader,
    /// A header, and the bytes from the first record's gate on.
    Header(Heading<'a>, &'a [u8]),
}

/// What stands before the records of a side.
#[derive(Clone, Copy)]
pub(crate) struct Heading<'a> {
    pub format: Format,
    pub generation: u64,
    pub deployment: &'a [u8],
    pub snapshot: &'a [u8],
}

#[tactic(auto, unfolding(crate::specs::Reading::magic_at))]
fn named(bytes: &[u8]) -> Option<(Format, &[u8])>
    ensures { Reads (λ x. (x.0, x.1.now)) result (magic_at bytes.now) }
{
    match bytes.strip_prefix(&MAGIC_ONE) {
        Some(rest) => Some((Format::One, rest)),
        None => match bytes.strip_prefix(&MAGIC_TWO) {
            Some(rest) => Some((Format::Two, rest)),
            None => None,
        },
    }
}

#[tactic(auto, unfolding(crate::specs::Reading::payload_at))]
fn payload_of(bytes: &[u8]) -> Option<(&[u8], &[u8])>
    ensures found { Reads (λ x. (x.0.now, x.1.now)) result (payload_at bytes.now) }
    ensures size { IfSome result (λ x. length x.0.now + length x.1.now + COUNT_LEN ≡ length bytes.now) }
{
    let (payload, rest) = read_bytes(bytes).ok()?;
    match rest {
        [] => None,
        [_, ..] => Some((payload, rest)),
    }
}

#[tactic(auto, unfolding(crate::specs::Reading::header_at))]
fn header_of(bytes: &[u8]) -> Option<(Heading<'_>, &[u8])>
    ensures { Reads (λ x. (head_view x.0, x.1.now)) result (header_at bytes.now) }
{
    let (format, rest) = named(bytes)?;
    let (generation, rest) = read_u64(rest).ok()?;
    let (deployment, rest) = read_bytes(rest).ok()?;
    let (snapshot, rest) = read_bytes(rest).ok()?;
    let heading = Heading {
        format,
        generation,
        deployment,
        snapshot,
    };
    match rest {
        [] => None,
        [_, ..] => Some((heading, rest)),
    }
}

#[tactic(auto, unfolding(crate::specs::Reading::front))]
fn front_of(bytes: &[u8]) -> Begins<'_>
    ensures { front_view result ≡ front bytes.now }
{
    match bytes {
        [OPEN_GATE, rest @ ..] if !rest.is_empty() => match header_of(rest) {
            Some((heading, rest)) => Begins::Header(heading, rest),
            None => Begins::NoHeader,
        },
        _ => Begins::Blank,
    }
}

/// What a gate begins.
#[derive(Clone, Copy)]
enum Behind<'a> {
    Nothing,
    Short,
    One(&'a [u8], &'a [u8]),
}

fn behind_gate(bytes: &[u8]) -> Behind<'_>
    ensures { AtGate result bytes.now }
{
    let Some((gate, behind)) = bytes.split_first() else {
        return Behind::Nothing;
    };
    if *gate != OPEN_GATE {
        return Behind::Nothing;
    }
    match payload_of(behind) {
        None => Behind::Short,
        Some((payload, after)) => Behind::One(payload, after),
    }
}

/// The records up to the first closed gate, and its place, `first` being the place of the first gate.
pub(crate) fn records_of(
    alloc: Global,
    bytes: &[u8],
    first: u64,
) -> Result<(Vec<Record>, u64), RecordsFault>
    requires { first + length bytes.now < 2 ^ 64 }
    ensures found { GivesRecords first result (payloads_of bytes.now) }
    ensures within { IfOk result (λ x. x.1 ≤ first + length bytes.now) }
{
    let mut records = Vec::new(alloc);
    let mut rest = bytes;
    let mut at = first;
    loop {
        match behind_gate(rest) {
            Behind::Nothing => return Ok((records, at)),
            Behind::Short => return Err(RecordsFault::Short(at)),
            Behind::One(bytes, after) => {
                let Ok(payload) = Blob::from_slice(alloc, bytes) else {
                    return Err(RecordsFault::NoMemory);
                };
                let Ok(()) = records.push(Record { at, payload }) else {
                    return Err(RecordsFault::NoMemory);
                };
                at += RECORD_FRAME + bytes.len() as u64;
                rest = after;
            }
        }
    }
}

/// The generation after this one.
pub(crate) fn next_of(generation: u64) -> u64
    ensures { result ≡ next generation }
{
    if generation == u64::MAX {
        0
    } else {
        generation + 1
    }
}

/// The side beside this one.
pub(crate) fn other_of(side: Side) -> Side
    ensures { result ≡ other side }
{
    match side {
        Side::A => Side::B,
        Side::B => Side::A,
    }
}

/// Which of two generations counts: the one of side A, that of side B, or neither.
#[tactic(auto, unfolding(crate::specs::Reading::by_generations))]
fn pick(a: u64, b: u64) -> Option<Side>
    ensures { Picks result (by_generations a b) }
{
    if a == b {
        return None;
    }
    if next_of(b) == a {
        return Some(Side::A);
    }
    if next_of(a) == b {
        return Some(Side::B);
    }
    Some(if b < a { Side::A } else { Side::B })
}

/// Which side counts, with its header and the bytes from its first record's gate on.
pub(crate) fn choose<'a>(
    a: &'a [u8],
    b: &'a [u8],
) -> Result<Option<(Side, Heading<'a>, &'a [u8])>, (Side, JournalBad)>
    ensures { Chooses result (front a.now) (front b.now) }
{
    match (front_of(a), front_of(b)) {
        (Begins::NoHeader, _) => Err((Side::A, JournalBad::Header)),
        (_, Begins::NoHeader) => Err((Side::B, JournalBad::Header)),
        (Begins::Blank, Begins::Blank) => Ok(None),
        (Begins::Header(heading, gates), Begins::Blank) => Ok(Some((Side::A, heading, gates))),
        (Begins::Blank, Begins::Header(heading, gates)) => Ok(Some((Side::B, heading, gates))),
        (Begins::Header(one, gates), Begins::Header(two, others)) => {
            match pick(one.generation, two.generation) {
                None => Err((Side::B, JournalBad::Sides)),
                Some(Side::A) => Ok(Some((Side::A, one, gates))),
                Some(Side::B) => Ok(Some((Side::B, two, others))),
            }
        }
    }
}

/// The first place at which two texts differ, or the shorter length.
#[tactic(auto, using(crate::proofs::Differs::same_here, crate::proofs::Differs::other_here, crate::proofs::Differs::past_a, crate::proofs::Differs::past_b))]
pub(crate) fn differ(a: &[u8], b: &[u8]) -> usize
    ensures value { result ≡ first_difference a.now b.now }
    ensures within { result ≤ length a.now }
{
    let mut place = 0;
    while place < a.len() && place < b.len() && a[place] == b[place] {
        place += 1;
    }
    place
}
