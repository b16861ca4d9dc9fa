//! What a stop leaves of two sides.
ghost use Rattle.std.specs.Prelude.{◌≡◌, IsTrue, IsOk, IfOk, OnOk, OnErr};
ghost use Rattle.slee_disk.specs.Sides.{on};
ghost use Rattle.slee_disk.specs.Calls.{seen_after, left_after, stopped, stopped_by, torn_piece, Stopped};

use crate::Side;
use crate::call::{Act, Call};
use crate::pair::Pair;
use slee_value::NoMemory;
use std::alloc::Global;
use std::marker::Model;

/// How the writes that a stop cuts short are left: their first bytes are as written, and the others are a fill.
#[derive(Clone, Copy, Debug)]
pub(crate) struct Tear {
    pub(crate) part: u64,
    pub(crate) fill: u8,
}

/// What reads give after some calls, and what a stop then leaves.
#[derive(Debug, Drop)]
pub(crate) struct Stop {
    seen: Pair,
    left: Pair,
}

impl Model for Stop {
    ghost use Rattle.slee_disk.specs.Calls.{Stopped};

    ghost Value = { Stopped };

    ghost view = { λ s. record { seen = s.seen; left = s.left } };
}

impl Stop {
    /// Before the first call.
    pub(crate) fn new(alloc: Global, a: &[u8], b: &[u8]) -> Result<Self, NoMemory>
        ensures { IfOk result (λ s. s ≡ record { seen = record { a = a.now; b = b.now }; left = record { a = a.now; b = b.now } }) }
    {
        Ok(Stop {
            seen: Pair::from_slices(alloc, a, b)?,
            left: Pair::from_slices(alloc, a, b)?,
        })
    }

    /// What a stop leaves of a side.
    pub(crate) fn side(&self, side: Side) -> &[u8]
        ensures { result.now ≡ on side self.now.left }
    {
        self.left.side(side)
    }

    /// Some calls more.
    pub(crate) fn after(
        mut self,
        alloc: Global,
        calls: &[Call],
        tear: Tear,
    ) -> Result<Self, NoMemory>
        ensures { IfOk result (λ s. s ≡ stopped tear.part tear.fill calls.now self) }
    {
        for call in calls {
            self.add(alloc, call, tear)?;
        }
        Ok(self)
    }

    // One call more.
    fn add(&mut self, alloc: Global, call: &Call, tear: Tear) -> Result<(), NoMemory>
        ensures { OnOk result (self.new ≡ stopped_by tear.part tear.fill call.now self.old) }
    {
        leave(alloc, &mut self.left, &self.seen, call, tear)?;
        apply(&mut self.seen, call.side, &call.act, call.failed)
    }
}

/// Does to what is read what a call does.
pub(crate) fn apply(pair: &mut Pair, side: Side, act: &Act, failed: bool) -> Result<(), NoMemory>
    ensures ok { OnOk result (pair.new ≡ seen_after side failed act.now pair.old) }
    ensures err { OnErr result (pair.new ≡ pair.old) }
    ensures certain { IsTrue failed → IsOk result }
{
    match act {
        Act::Write(at, bytes) if !failed => pair.overwrite(side, *at, bytes.as_slice()),
        Act::Cut(length) if !failed => {
            pair.cut(side, *length);
            Ok(())
        }
        _ => Ok(()),
    }
}

// Does to what a stop leaves what a call does.
fn leave(
    alloc: Global,
    left: &mut Pair,
    seen: &Pair,
    call: &Call,
    tear: Tear,
) -> Result<(), NoMemory>
    ensures { OnOk result (left.new ≡ left_after tear.part tear.fill call.now.side call.now.failed call.now.act (record { seen = seen.now; left = left.old })) }
{
    match &call.act {
        Act::Write(at, bytes) => {
            let piece = torn(alloc, bytes.as_slice(), tear)?;
            left.overwrite(call.side, *at, &piece)
        }
        Act::Cut(length) => {
            left.cut(call.side, *length);
            Ok(())
        }
        Act::Sync if !call.failed => left.set(alloc, call.side, seen.side(call.side)),
        Act::Look | Act::Sync => Ok(()),
    }
}

// The bytes as a stop leaves them.
fn torn(alloc: Global, bytes: &[u8], tear: Tear) -> Result<Vec<u8>, NoMemory>
    ensures { IfOk result (λ v. v.items ≡ torn_piece tear.part tear.fill bytes.now) }
{
    let kept = (tear.part as usize).min(bytes.len());
    let mut piece = Vec::from_slice(alloc, &bytes[..kept])?;
    piece.resize(bytes.len(), tear.fill)?;
    Ok(piece)
}
