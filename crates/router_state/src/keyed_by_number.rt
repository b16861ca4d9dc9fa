//! The keys of rows that are found by one number.

use crate::rows::{Activity, Entity, RootName, Suspension, Timer};
use rows_sorted::Keyed;

impl Keyed for Entity {
    ghost use Rattle.router_state.specs.Keys.{entity_key};

    ghost key = { entity_key };

    fn first(&self) -> u64 {
        self.number.0
    }

    fn second(&self) -> u64 {
        0
    }

    fn text(&self) -> &[u8] {
        &[]
    }
}

impl Keyed for RootName {
    ghost use Rattle.router_state.specs.Keys.{root_name_key};

    ghost key = { root_name_key };

    fn first(&self) -> u64 {
        self.entity.0
    }

    fn second(&self) -> u64 {
        0
    }

    fn text(&self) -> &[u8] {
        &[]
    }
}

impl Keyed for Activity {
    ghost use Rattle.router_state.specs.Keys.{activity_key};

    ghost key = { activity_key };

    fn first(&self) -> u64 {
        self.number.0
    }

    fn second(&self) -> u64 {
        0
    }

    fn text(&self) -> &[u8] {
        &[]
    }
}

impl Keyed for Suspension {
    ghost use Rattle.router_state.specs.Keys.{suspension_key};

    ghost key = { suspension_key };

    fn first(&self) -> u64 {
        self.activity.0
    }

    fn second(&self) -> u64 {
        0
    }

    fn text(&self) -> &[u8] {
        &[]
    }
}

impl Keyed for Timer {
    ghost use Rattle.router_state.specs.Keys.{timer_key};

    ghost key = { timer_key };

    fn first(&self) -> u64 {
        self.number.0
    }

    fn second(&self) -> u64 {
        0
    }

    fn text(&self) -> &[u8] {
        &[]
    }
}
