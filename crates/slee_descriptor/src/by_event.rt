//! Numbers by event: of the blocks that handle it, or of the services that it may begin.
ghost use Rattle.std.specs.Prelude.{◌≡◌, ◌++◌, ◌∷◌, [], ◌&&◌, bytes_eq, if◌then◌else◌, IfOk, OnOk};
ghost use Rattle.script_tree.specs.Tree.{Bytes};
ghost use Rattle.slee_descriptor.specs.ByEvents.{numbers_at};
ghost use Rattle.slee_descriptor.specs.Counting.{counts, noted, noted_from};

use crate::keys::item_number;
use deploy_model::{Block, BlockEvent};
use indexmap::IndexMap;
use slee_value::NoMemory;
use std::alloc::Global;

/// Which events of a block count.
#[derive(Clone, Copy)]
pub(crate) enum Counted {
    /// All that it handles.
    Handled,
    /// Those that it declares initial.
    Initial,
}

impl Counted {
    fn counts(self, handler: &BlockEvent) -> bool
        ensures { result ≡ counts self handler.now }
    {
        match self {
            Counted::Handled => true,
            Counted::Initial => handler.initial.is_some(),
        }
    }
}

/// From events to numbers, in the order in which they were noted.
#[derive(Drop)]
pub(crate) struct ByEvent {
    numbers: IndexMap<String, Vec<u32>>,
}

impl ByEvent {
    pub(crate) fn new(alloc: Global) -> Self
        ensures { (q : Bytes) → numbers_at result q ≡ [] }
    {
        ByEvent {
            numbers: IndexMap::new(alloc),
        }
    }

    /// Notes the number for the event.
    fn note(&mut self, alloc: Global, event: &str, number: u32) -> Result<(), NoMemory>
        ensures { OnOk result ((q : Bytes) → numbers_at self.new q ≡ numbers_at self.old q ++ (if bytes_eq q event.now then number ∷ [] else [])) }
    {
        let event = String::from_str(alloc, event)?;
        self.numbers.entry(event)?.or_default().push(number)?;
        Ok(())
    }

    /// Notes the number for the handler's event, if it counts.
    fn note_counted(
        &mut self,
        alloc: Global,
        counted: Counted,
        number: u32,
        handler: &BlockEvent,
    ) -> Result<(), NoMemory>
        ensures { OnOk result ((q : Bytes) → numbers_at self.new q ≡ numbers_at self.old q ++ (if bytes_eq q handler.now.event && counts counted handler.now then number ∷ [] else [])) }
    {
        if counted.counts(handler) {
            return self.note(alloc, handler.event.as_str(), number);
        }
        Ok(())
    }

    /// Notes the number for each of a block's events that counts.
    pub(crate) fn note_events(
        &mut self,
        alloc: Global,
        counted: Counted,
        number: u32,
        events: &[BlockEvent],
    ) -> Result<(), NoMemory>
        ensures { OnOk result ((q : Bytes) → numbers_at self.new q ≡ numbers_at self.old q ++ noted counted number events.now q) }
    {
        for handler in events {
            self.note_counted(alloc, counted, number, handler)?;
        }
        Ok(())
    }

    /// The numbers that were noted for the event.
    pub(crate) fn get(&self, event: &str) -> &[u32]
        ensures { result.now ≡ numbers_at self.now event.now }
    {
        match self.numbers.get(event) {
            Some(numbers) => numbers.as_slice(),
            None => &[],
        }
    }
}

/// Which of the blocks handle each event.
pub(crate) fn handlers_of(alloc: Global, blocks: &[Block]) -> Result<ByEvent, NoMemory>
    ensures { IfOk result (λ handlers. (q : Bytes) → numbers_at handlers q ≡ noted_from 0 blocks.now q) }
{
    let mut handlers = ByEvent::new(alloc);
    for (i, block) in blocks.iter().enumerate() {
        handlers.note_events(
            alloc,
            Counted::Handled,
            item_number(i)?,
            block.events.as_slice(),
        )?;
    }
    Ok(handlers)
}
