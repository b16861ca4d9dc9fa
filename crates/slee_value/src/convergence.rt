//! Convergence names (JSR 240, chapter 8).
ghost use Rattle.std.specs.Prelude.{◌≡◌, ◌↔◌, IsTrue, IfOk};

use crate::{ActivityId, Blob, EventId, NoMemory, Text};
use std::alloc::Global;

/// A convergence name: of each variable that the root selects its value, and none of the others.
#[derive(Debug, Drop)]
pub struct ConvName {
    pub activity: Option<ActivityId>,
    pub address: Option<Text>,
    pub event_type: Option<Text>,
    pub event: Option<EventId>,
    pub custom: Option<Blob>,
}

impl ConvName {
    /// A copy.
    pub fn copy(&self, alloc: Global) -> Result<Self, NoMemory>
        ensures { IfOk result (λ name. name ≡ self.now) }
    {
        Ok(ConvName {
            activity: self.activity,
            address: copied_text(alloc, &self.address)?,
            event_type: copied_text(alloc, &self.event_type)?,
            event: self.event,
            custom: copied_blob(alloc, &self.custom)?,
        })
    }

    /// Whether the two are the same name.
    pub fn same(&self, other: &ConvName) -> bool
        ensures { IsTrue result ↔ (self.now ≡ other.now) }
    {
        self.activity == other.activity
            && same_text(&self.address, &other.address)
            && same_text(&self.event_type, &other.event_type)
            && self.event == other.event
            && same_blob(&self.custom, &other.custom)
    }
}

fn copied_text(alloc: Global, text: &Option<Text>) -> Result<Option<Text>, NoMemory>
    ensures { IfOk result (λ t. t ≡ text.now) }
{
    match text {
        None => Ok(None),
        Some(text) => Ok(Some(text.copy(alloc)?)),
    }
}

fn copied_blob(alloc: Global, blob: &Option<Blob>) -> Result<Option<Blob>, NoMemory>
    ensures { IfOk result (λ b. b ≡ blob.now) }
{
    match blob {
        None => Ok(None),
        Some(blob) => Ok(Some(blob.copy(alloc)?)),
    }
}

fn same_text(one: &Option<Text>, other: &Option<Text>) -> bool
    ensures { IsTrue result ↔ (one.now ≡ other.now) }
{
    match (one, other) {
        (None, None) => true,
        (Some(one), Some(other)) => one.same(other),
        _ => false,
    }
}

fn same_blob(one: &Option<Blob>, other: &Option<Blob>) -> bool
    ensures { IsTrue result ↔ (one.now ≡ other.now) }
{
    match (one, other) {
        (None, None) => true,
        (Some(one), Some(other)) => one.same(other),
        _ => false,
    }
}
