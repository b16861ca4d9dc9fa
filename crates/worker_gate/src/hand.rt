//! Workers, and what they have in hand.

use crate::recall::Answers;
use script_meaning::Key;
use slee_container::Container;
use slee_turn::{Grows, Pass};
use tx_attempt::{Attempt, Ticket};

/// One who takes turns on a value, with a number of its own. (It is generic so that it is known to pass to a thread where the value does.)
pub struct Hand<G: Grows + Send> {
    pub number: u64,
    pub pass: Pass<G>,
}

/// A worker on a container.
pub type Worker<'d, D> = Hand<Container<'d, D>>;

/// How a worker's work ended.
#[derive(Clone, Copy, Debug, PartialEq, Eq)]
pub enum Worked {
    /// Nothing is to be done, or nothing may be.
    Left,
    /// It met want of memory, and has stopped the container.
    NoMemory,
}

/// What a worker has in hand when it leaves the turn.
#[derive(Drop)]
pub(crate) enum Held {
    /// Nothing.
    Nothing,
    /// A claim whose delivery wasn't tried yet, and what is seen where its handler may ask.
    Fresh(Ticket, Answers),
    /// An attempt that has learned what it asked for.
    Begun(Ticket, Attempt, Answers),
}

/// What it has in hand when it asks for the turn.
#[derive(Drop)]
pub(crate) enum Tried {
    /// Nothing.
    Nothing,
    /// An attempt that wants to know what is seen at a key.
    Asks(Ticket, Attempt, Key, Answers),
    /// An attempt that came to its end.
    Ended(Ticket, Attempt),
    /// A claim for whose attempt there was no memory.
    NoMemory(Ticket),
}

/// What a turn came to.
#[derive(Drop)]
pub(crate) enum Moved {
    /// The worker goes on with this.
    Goes(Held),
    /// It waits for the claims of others.
    Waits,
    /// It leaves.
    Leaves,
    /// It leaves for want of memory.
    NoMemory,
}
