//! What handlers asked the last time: a worker asks the same for the next delivery of theirs as it claims it.
use crate::keys::{Subject, is_same_key, told_anew};
use script_meaning::{Key, Seen};
use slee_container::Container;
use slee_disk::Disk;
use slee_value::{NoMemory, Text};
use std::alloc::Global;
use tx_attempt::Ticket;

/// How many handlers a worker remembers.
const HANDLERS: usize = 8;

/// How many keys it remembers of each.
const KEYS: usize = 16;

/// What was seen at keys before an attempt asked for them.
pub(crate) type Answers = Vec<(Key, Seen)>;

/// What a handler asked for when it was run last.
#[derive(Drop)]
struct Asked {
    /// The number of its block.
    block: u32,
    /// The name of the event that it handles.
    event: Text,
    /// Whom it was run for.
    subject: Subject,
    keys: Vec<Key>,
}

impl Asked {
    /// Whether the delivery of a ticket is to the same handler.
    fn is_of(&self, ticket: &Ticket) -> bool {
        self.block == ticket.block && self.event.as_bytes() == ticket.event.name.as_bytes()
    }

    /// Remembers a key.
    fn add(&mut self, alloc: Global, key: &Key) -> Result<(), NoMemory> {
        if self.keys.len() < KEYS {
            if let Some(key) = told_anew(alloc, key, self.subject, self.subject)? {
                self.keys.push(key)?;
            }
        }
        Ok(())
    }
}

/// What the handlers that a worker ran last asked for. Where memory runs out, less is remembered.
#[derive(Drop)]
pub(crate) struct Recall {
    alloc: Global,
    handlers: Vec<Asked>,
}

impl Recall {
    /// No handlers.
    pub(crate) fn new(alloc: Global) -> Recall {
        Recall {
            alloc,
            handlers: Vec::new(alloc),
        }
    }

    /// The handler of a ticket is run anew: what it asked for before is forgotten.
    pub(crate) fn begin(&mut self, ticket: &Ticket) {
        self.handlers.retain(|asked| !asked.is_of(ticket));
        if self.handlers.len() >= HANDLERS {
            self.handlers.remove(0);
        }
        let _ = self.add(ticket);
    }

    fn add(&mut self, ticket: &Ticket) -> Result<(), NoMemory> {
        let asked = Asked {
            block: ticket.block,
            event: ticket.event.name.copy(self.alloc)?,
            subject: Subject::of(ticket),
            keys: Vec::new(self.alloc),
        };
        self.handlers.push(asked)?;
        Ok(())
    }

    /// The handler of a ticket asks for a key.
    pub(crate) fn note(&mut self, ticket: &Ticket, key: &Key) {
        let alloc = self.alloc;
        for asked in self.handlers.iter_mut() {
            if asked.is_of(ticket) {
                let _ = asked.add(alloc, key);
            }
        }
    }

    /// What is seen at the keys for which the handler of a ticket asked, told anew for this ticket.
    pub(crate) fn answers<'d, D: Disk>(
        &self,
        container: &Container<'d, D>,
        ticket: &Ticket,
    ) -> Answers {
        let mut answers = Vec::new(self.alloc);
        for asked in &self.handlers {
            if asked.is_of(ticket) {
                let _ = look_ahead(self.alloc, container, asked, ticket, &mut answers);
            }
        }
        answers
    }
}

/// Looks at the keys for which a handler asked, told anew for a ticket, as far as there is memory.
fn look_ahead<'d, D: Disk>(
    alloc: Global,
    container: &Container<'d, D>,
    asked: &Asked,
    ticket: &Ticket,
    answers: &mut Answers,
) -> Result<(), NoMemory> {
    for key in &asked.keys {
        if let Some(key) = told_anew(alloc, key, asked.subject, Subject::of(ticket))? {
            let seen = container.look(&key)?;
            answers.push((key, seen))?;
        }
    }
    Ok(())
}

/// Takes the answer to a key out of these.
pub(crate) fn take_answer(answers: &mut Answers, key: &Key) -> Option<Seen> {
    let place = answers
        .iter()
        .position(|answer| is_same_key(&answer.0, key))?;
    let (_, seen) = answers.swap_remove(place);
    Some(seen)
}
