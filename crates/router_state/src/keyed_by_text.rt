//! The keys of rows that are found by a text, alone or after one or two numbers.

use crate::rows::{Attribute, Field, Mask, Named, ProfileRow};
use rows_sorted::Keyed;

impl Keyed for Field {
    ghost use Rattle.router_state.specs.Keys.{field_key};

    ghost key = { field_key };

    fn first(&self) -> u64 {
        self.entity.0
    }

    fn second(&self) -> u64 {
        0
    }

    fn text(&self) -> &[u8] {
        self.name.as_bytes()
    }
}

impl Keyed for Mask {
    ghost use Rattle.router_state.specs.Keys.{mask_key};

    ghost key = { mask_key };

    fn first(&self) -> u64 {
        self.activity.0
    }

    fn second(&self) -> u64 {
        self.entity.0
    }

    fn text(&self) -> &[u8] {
        self.event.as_bytes()
    }
}

impl Keyed for Attribute {
    ghost use Rattle.router_state.specs.Keys.{attribute_key};

    ghost key = { attribute_key };

    fn first(&self) -> u64 {
        self.activity.0
    }

    fn second(&self) -> u64 {
        0
    }

    fn text(&self) -> &[u8] {
        self.key.as_bytes()
    }
}

impl Keyed for Named {
    ghost use Rattle.router_state.specs.Keys.{named_key};

    ghost key = { named_key };

    fn first(&self) -> u64 {
        0
    }

    fn second(&self) -> u64 {
        0
    }

    fn text(&self) -> &[u8] {
        self.name.as_bytes()
    }
}

impl Keyed for ProfileRow {
    ghost use Rattle.router_state.specs.Keys.{profile_row_key};

    ghost key = { profile_row_key };

    fn first(&self) -> u64 {
        self.table as u64
    }

    fn second(&self) -> u64 {
        0
    }

    fn text(&self) -> &[u8] {
        self.row.as_bytes()
    }
}
