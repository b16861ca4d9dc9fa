//! The store of fields. Contracts see it as the list of all fields in order, and the number of fields that can be added without memory.
ghost use Rattle.std.specs.Prelude.{◌≡◌, ◌==◌, ◌+◌, ◌≤◌, ◌<◌, ◌||◌, [], Some, nat_lt, length, slice_get, filter, IsTrue, OnOk, option_copied};
ghost use Rattle.router_state.specs.Fields.{field_at, field_before, with_field, without_fields};
ghost use Rattle.rows_sorted.specs.Orders.{rises_by};
ghost use Rattle.cmp_store.specs.Views.{has_field};

use router_state::Field;
use rows_leaves::{Leaves, Run};
use slee_value::{EntityId, Name, NoMemory, Value};
use std::alloc::Global;
use std::marker::Model;

/// The fields of all entities.
pub struct Fields {
    rows: Leaves<Field>,
}

impl Drop for Fields {
    fn drop(self) {
        let Self { rows: _ } = self;
    }
}

impl Model for Fields {
    ghost use Rattle.cmp_store.specs.Views.{FieldsView};

    ghost Value = { FieldsView };

    ghost view = { λ t. record { rows = t.rows.rows; room = t.rows.room } };
}

impl Fields {
    /// No fields.
    pub fn new(alloc: Global) -> Self
        ensures { result.rows ≡ [] }
    {
        Fields {
            rows: Leaves::new(alloc),
        }
    }

    /// Makes room for this many new fields.
    pub fn reserve(&mut self, fields: u64) -> Result<(), NoMemory>
        ensures kept { self.new.rows ≡ self.old.rows }
        ensures room { OnOk result (fields ≤ self.new.room) }
        ensures grown { self.old.room ≤ self.new.room }
    {
        self.rows.reserve(fields as usize)?;
        Ok(())
    }

    /// The value of the entity's field.
    pub fn get(&self, entity: EntityId, field: &Name) -> Option<&Value>
        ensures { option_copied result ≡ field_at self.now.rows entity.0 field.now }
    {
        match self.rows.row_of(entity.0, 0, field.as_bytes()) {
            Some(row) => Some(&row.value),
            None => None,
        }
    }

    /// The entity's fields, rising by name.
    pub fn of(&self, entity: EntityId) -> Run<'_, Field>
        ensures { result ≡ filter (λ row. row.entity.0 == entity.0) self.now.rows }
    {
        self.rows.rows_of(entity.0)
    }

    /// The entity's field has this value. A new field stands in the room that was made.
    pub fn set(&mut self, entity: EntityId, field: Name, value: Value)
        requires room { IsTrue (has_field self.old.rows entity.0 field || nat_lt 0 self.old.room) }
        ensures rows { self.new.rows ≡ with_field self.old.rows entity.0 field value }
        ensures room { self.old.room ≤ self.new.room + 1 }
        ensures changed { IsTrue (has_field self.old.rows entity.0 field) → self.old.room ≤ self.new.room }
    {
        self.rows.put_row(Field {
            entity,
            name: field,
            value,
        });
    }

    /// Puts a field of a snapshot back.
    pub fn restore(&mut self, item: Field)
        requires { 0 < self.old.room }
        ensures rows { self.new.rows ≡ with_field self.old.rows item.entity.0 item.name item.value }
        ensures room { self.old.room ≤ self.new.room + 1 }
    {
        self.rows.put_row(item);
    }

    /// The entity has no fields.
    pub fn forget(&mut self, entity: EntityId)
        ensures rows { self.new.rows ≡ without_fields self.old.rows entity.0 }
        ensures room { self.old.room ≤ self.new.room }
    {
        self.rows.cut_rows_of(entity.0);
    }

    /// How many fields there are.
    pub fn len(&self) -> u64
        ensures length { result ≡ length self.now.rows }
        ensures order { IsTrue (rises_by field_before self.now.rows) }
    {
        self.rows.rises();
        self.rows.len() as u64
    }

    /// The field at this place, counted from 0.
    pub fn at(&self, place: u64) -> &Field
        requires { place < length self.now.rows }
        ensures field { slice_get self.now.rows place ≡ Some result.now }
        ensures order { IsTrue (rises_by field_before self.now.rows) }
    {
        self.rows.rises();
        self.rows.at(place as usize)
    }
}
