//! The keys of rows that are found by a pair of numbers.

use crate::rows::{EntityMark, Link, Queued, ServiceMark};
use rows_sorted::Keyed;

impl Keyed for Link {
    ghost use Rattle.router_state.specs.Keys.{link_key};

    ghost key = { link_key };

    fn first(&self) -> u64 {
        self.activity.0
    }

    fn second(&self) -> u64 {
        self.entity.0
    }

    fn text(&self) -> &[u8] {
        &[]
    }
}

impl Keyed for Queued {
    ghost use Rattle.router_state.specs.Keys.{queued_key};

    ghost key = { queued_key };

    fn first(&self) -> u64 {
        self.activity.0
    }

    fn second(&self) -> u64 {
        self.event.id.0
    }

    fn text(&self) -> &[u8] {
        &[]
    }
}

impl Keyed for ServiceMark {
    ghost use Rattle.router_state.specs.Keys.{service_mark_key};

    ghost key = { service_mark_key };

    fn first(&self) -> u64 {
        self.activity.0
    }

    fn second(&self) -> u64 {
        self.service as u64
    }

    fn text(&self) -> &[u8] {
        &[]
    }
}

impl Keyed for EntityMark {
    ghost use Rattle.router_state.specs.Keys.{entity_mark_key};

    ghost key = { entity_mark_key };

    fn first(&self) -> u64 {
        self.activity.0
    }

    fn second(&self) -> u64 {
        self.entity.0
    }

    fn text(&self) -> &[u8] {
        &[]
    }
}
