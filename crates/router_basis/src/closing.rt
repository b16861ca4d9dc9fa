//! What closing asks, and the keys of services.
use crate::Basis;
use crate::listing::attached;
use router_actions::Keys;
use router_closing::Closing;
use router_state::{Service, Timer};
use slee_value::{ActivityId, NoMemory, Text, TimerId};
use std::alloc::Global;

impl<'a> Keys for Basis<'a> {
    fn service_key(&self, service: u32) -> &str {
        self.key_of(service)
    }
}

impl<'a> Closing for Basis<'a> {
    fn service_count(&self) -> u32 {
        self.stores.services().len() as u32
    }

    fn service(&self, service: u32) -> Option<Service> {
        self.stores.services().get(service as usize).copied()
    }

    fn service_key(&self, service: u32) -> &str {
        self.key_of(service)
    }

    fn has_root(&self, service: u32, gone: &[u64]) -> bool {
        self.roots.has_root(service, gone)
    }

    fn attached(&self, alloc: Global, activity: ActivityId) -> Result<Vec<u64>, NoMemory> {
        attached(alloc, self.stores.contexts(), activity)
    }

    fn names(&self, alloc: Global, activity: ActivityId) -> Result<Vec<Text>, NoMemory> {
        self.stores.contexts().names_of(alloc, activity)
    }

    fn timers(&self, alloc: Global, activity: ActivityId) -> Result<Vec<Timer>, NoMemory> {
        self.stores.timers().on_activity(alloc, activity)
    }

    fn timer(&self, timer: TimerId) -> Option<ActivityId> {
        match self.stores.timers().find(timer) {
            Some(row) => Some(row.activity),
            None => None,
        }
    }

    fn due(&self, alloc: Global, to: u64) -> Result<Vec<u64>, NoMemory> {
        self.stores.timers().activities_due(alloc, to)
    }

    fn behind(&self, timer: &Timer, to: u64) -> Option<Timer> {
        timer_facility::left_of(timer, to)
    }
}
