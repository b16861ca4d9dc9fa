//! What identifies a component (JSR 240, chapter 3).
ghost use Rattle.std.specs.Prelude.{◌≡◌, ◌↔◌, IsTrue, IfOk};

use crate::{NoMemory, Text};
use std::alloc::Global;

/// What identifies an event type, a block, a service or a profile specification (JSR 240, chapter 3).
#[derive(Debug, Drop)]
pub struct ComponentId {
    pub name: Text,
    pub vendor: Text,
    pub version: Text,
}

impl ComponentId {
    /// A copy.
    pub fn copy(&self, alloc: Global) -> Result<Self, NoMemory>
        ensures { IfOk result (λ id. id ≡ self.now) }
    {
        Ok(ComponentId {
            name: self.name.copy(alloc)?,
            vendor: self.vendor.copy(alloc)?,
            version: self.version.copy(alloc)?,
        })
    }

    /// Whether the two are the same triple.
    pub fn same(&self, other: &ComponentId) -> bool
        ensures { IsTrue result ↔ (self.now ≡ other.now) }
    {
        self.name.same(&other.name)
            && self.vendor.same(&other.vendor)
            && self.version.same(&other.version)
    }
}
