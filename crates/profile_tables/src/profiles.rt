//! The rows of profile tables; clauses see them as a list in byte order, and as they are kept, with what is declared for each table and the room.
ghost use Rattle.std.specs.Prelude.{◌≡◌, ◌+◌, ◌<◌, ◌≤◌, ◌||◌, [], Some, nat_lt, length, find, IsTrue, IfOk, OnOk, OnErr, slice_get, option_copied};
ghost use Rattle.rows_sorted.specs.Orders.{rises_by};
ghost use Rattle.router_state.specs.Fitting.{has_row};
ghost use Rattle.router_state.specs.Profiles.{is_row, row_at, row_before, with_row, without_row};
ghost use Rattle.std.specs.List.Sorted.{IsPermutation};
ghost use Rattle.profile_tables.specs.Faults.{fault_of, fault_of_add, fault_of_asking, fault_of_update, fault_of_values, place_of_rival};

use crate::counted::{count_row, reserve_counts, uncount_old};
use crate::fitting::are_declared;
use crate::numbered::NumberedRow;
use crate::rivals::{least_rival, place_of_row};
use crate::table_spec::{most_of, unique_of};
use crate::{RowFault, TableSpec};
use router_state::ProfileRow;
use rows_index::{Tally, number_of};
use rows_leaves::Leaves;
use slee_value::{NoMemory, Payload, Text};
use std::alloc::Global;
use std::marker::Model;

/// The rows of all profile tables under the numbers of their names, and these numbers under those of their unique values. There
/// are places for so many rows among the values.
pub struct Profiles {
    tables: Vec<TableSpec>,
    rows: Leaves<NumberedRow>,
    by_value: Leaves<Tally>,
    most: u64,
    places: u64,
}

impl Drop for Profiles {
    fn drop(self) {
        let Self {
            tables: _,
            rows: _,
            by_value: _,
            most: _,
            places: _,
        } = self;
    }
}

impl Model for Profiles {
    ghost use Rattle.profile_tables.specs.Views.{ProfilesView};

    ghost Value = { ProfilesView };

    ghost use Rattle.profile_tables.specs.Kept.{seen, IsKept};

    ghost view = { seen };

    ghost invariant = { IsKept };
}

/// A fault as an answer.
fn answer(fault: Option<RowFault>) -> Result<(), RowFault>
    ensures { fault_of result ≡ fault }
{
    match fault {
        Some(fault) => Err(fault),
        None => Ok(()),
    }
}

impl Profiles {
    /// No rows, in tables of which these are declared.
    pub fn new(alloc: Global, tables: Vec<TableSpec>) -> Self
        ensures tables { result.tables ≡ tables.items }
        ensures rows { result.rows ≡ [] }
        ensures kept { result.kept ≡ [] }
    {
        let most = most_of(&tables);
        Profiles {
            tables,
            rows: Leaves::new(alloc),
            by_value: Leaves::new(alloc),
            most,
            places: 0,
        }
    }

    /// Makes room for this many new rows.
    pub fn reserve(&mut self, rows: u64) -> Result<(), NoMemory>
        ensures tables { self.new.tables ≡ self.old.tables }
        ensures rows { self.new.rows ≡ self.old.rows }
        ensures kept { self.new.kept ≡ self.old.kept }
        ensures room { OnOk result (rows ≤ self.new.room) }
        ensures grown { self.old.room ≤ self.new.room }
    {
        let places = match (self.rows.len() as u64).checked_add(rows) {
            Some(places) => places,
            None => return Err(NoMemory),
        };
        reserve_counts(&mut self.by_value, self.most, places)?;
        self.rows.reserve(rows as usize)?;
        self.places = self.places.max(places);
        Ok(())
    }

    fn spec_of(&self, table: u32) -> Option<&TableSpec>
        ensures { option_copied result ≡ slice_get self.now.tables table }
    {
        self.tables.get(table as usize)
    }

    /// The row of this name in the table.
    fn find(&self, table: u32, row: &Text) -> Option<&ProfileRow>
        ensures { option_copied result ≡ find (is_row table row.now) self.now.rows }
    {
        let name = row.as_bytes();
        match self.rows.row_of(number_of(name), table as u64, name) {
            Some(row) => Some(&row.item),
            None => None,
        }
    }

    fn has_row(&self, table: u32, row: &Text) -> bool
        ensures { result ≡ has_row self.now.rows table row.now }
    {
        match self.find(table, row) {
            Some(_) => true,
            None => false,
        }
    }

    /// Where the least other row in byte order stands that has one of the unique values.
    fn place_of_rival(
        &self,
        spec: &TableSpec,
        table: u32,
        row: &Text,
        fields: &Payload,
    ) -> Option<u64>
        requires { slice_get self.now.tables table ≡ Some spec.now }
        ensures { result ≡ place_of_rival spec.now.unique self.now.rows self.now.kept (record { table = table; row = row.now; attributes = fields.now }) }
    {
        let rival = least_rival(
            &self.rows,
            &self.by_value,
            spec.unique.as_slice(),
            table,
            row,
            fields.as_slice(),
        );
        match rival {
            Some(rival) => place_of_row(&self.rows, rival),
            None => None,
        }
    }

    /// Why the values aren't those of a row of the table, if they aren't.
    fn fault_of_values(
        &self,
        spec: &TableSpec,
        table: u32,
        row: &Text,
        fields: &Payload,
    ) -> Option<RowFault>
        requires { slice_get self.now.tables table ≡ Some spec.now }
        ensures { result ≡ fault_of_values spec.now self.now.rows self.now.kept (record { table = table; row = row.now; attributes = fields.now }) }
    {
        if !are_declared(spec.attributes.as_slice(), fields.as_slice()) {
            return Some(RowFault::BadAttribute);
        }
        match self.place_of_rival(spec, table, row, fields) {
            Some(place) => Some(RowFault::Duplicate { place }),
            None => None,
        }
    }

    fn fault_of_asking(&self, table: u32, row: &Text) -> Option<RowFault>
        ensures { result ≡ fault_of_asking self.now.tables self.now.rows table row.now }
    {
        match self.spec_of(table) {
            None => Some(RowFault::NoTable),
            Some(_) => if self.has_row(table, row) {
                None
            } else {
                Some(RowFault::NoRow)
            },
        }
    }

    fn fault_of_add(&self, table: u32, row: &Text, fields: &Payload) -> Option<RowFault>
        ensures { result ≡ fault_of_add self.now.tables self.now.rows self.now.kept (record { table = table; row = row.now; attributes = fields.now }) }
    {
        match self.spec_of(table) {
            None => Some(RowFault::NoTable),
            Some(spec) => if self.has_row(table, row) {
                Some(RowFault::RowExists)
            } else {
                self.fault_of_values(spec, table, row, fields)
            },
        }
    }

    fn fault_of_update(&self, table: u32, row: &Text, fields: &Payload) -> Option<RowFault>
        ensures { result ≡ fault_of_update self.now.tables self.now.rows self.now.kept (record { table = table; row = row.now; attributes = fields.now }) }
    {
        match self.spec_of(table) {
            None => Some(RowFault::NoTable),
            Some(spec) => if self.has_row(table, row) {
                self.fault_of_values(spec, table, row, fields)
            } else {
                Some(RowFault::NoRow)
            },
        }
    }

    /// Whether a new row may be added.
    pub fn test_add(&self, table: u32, row: &Text, fields: &Payload) -> Result<(), RowFault>
        ensures { fault_of result ≡ fault_of_add self.now.tables self.now.rows self.now.kept (record { table = table; row = row.now; attributes = fields.now }) }
    {
        answer(self.fault_of_add(table, row, fields))
    }

    /// Whether a row may have other values.
    pub fn test_update(&self, table: u32, row: &Text, fields: &Payload) -> Result<(), RowFault>
        ensures { fault_of result ≡ fault_of_update self.now.tables self.now.rows self.now.kept (record { table = table; row = row.now; attributes = fields.now }) }
    {
        answer(self.fault_of_update(table, row, fields))
    }

    /// The row stands in its place. Another one of its name gives way.
    fn put(&mut self, item: ProfileRow)
        requires { IsTrue (has_row self.old.rows item.table item.row || nat_lt 0 self.old.room) }
        ensures tables { self.new.tables ≡ self.old.tables }
        ensures rows { self.new.rows ≡ with_row self.old.rows item.table item.row item.attributes }
        ensures room { self.old.room ≤ self.new.room + 1 }
        ensures replaced { IsTrue (has_row self.old.rows item.table item.row) → self.old.room ≤ self.new.room }
    {
        let number = number_of(item.row.as_bytes());
        uncount_old(
            &mut self.by_value,
            &self.tables,
            &self.rows,
            number,
            item.table,
            &item.row,
        );
        let unique = unique_of(&self.tables, item.table);
        count_row(
            &mut self.by_value,
            unique,
            item.table,
            item.attributes.as_slice(),
            number,
        );
        self.rows.put_row(NumberedRow { number, item });
    }

    /// A new row stands in the room that was made.
    pub fn add(&mut self, table: u32, row: Text, fields: Payload) -> Result<(), RowFault>
        requires { 0 < self.old.room }
        ensures fault { fault_of result ≡ fault_of_add self.old.tables self.old.rows self.old.kept (record { table = table; row = row; attributes = fields }) }
        ensures tables { self.new.tables ≡ self.old.tables }
        ensures rows { OnOk result (self.new.rows ≡ with_row self.old.rows table row fields) }
        ensures room { self.old.room ≤ self.new.room + 1 }
        ensures kept { OnErr result (self.new ≡ self.old) }
    {
        match self.fault_of_add(table, &row, &fields) {
            Some(fault) => Err(fault),
            None => {
                self.put(ProfileRow {
                    table,
                    row,
                    attributes: fields,
                });
                Ok(())
            }
        }
    }

    /// The row has other values.
    #[tactic(auto, using(crate::proofs::RowLemmas::there_to_update))]
    pub fn update(&mut self, table: u32, row: Text, fields: Payload) -> Result<(), RowFault>
        ensures fault { fault_of result ≡ fault_of_update self.old.tables self.old.rows self.old.kept (record { table = table; row = row; attributes = fields }) }
        ensures tables { self.new.tables ≡ self.old.tables }
        ensures rows { OnOk result (self.new.rows ≡ with_row self.old.rows table row fields) }
        ensures room { self.old.room ≤ self.new.room }
        ensures kept { OnErr result (self.new ≡ self.old) }
    {
        match self.fault_of_update(table, &row, &fields) {
            Some(fault) => Err(fault),
            None => {
                self.put(ProfileRow {
                    table,
                    row,
                    attributes: fields,
                });
                Ok(())
            }
        }
    }

    fn cut(&mut self, table: u32, row: &Text)
        ensures tables { self.new.tables ≡ self.old.tables }
        ensures rows { self.new.rows ≡ without_row self.old.rows table row.now }
        ensures room { self.old.room ≤ self.new.room }
    {
        let number = number_of(row.as_bytes());
        uncount_old(
            &mut self.by_value,
            &self.tables,
            &self.rows,
            number,
            table,
            row,
        );
        self.rows.cut_row(number, table as u64, row.as_bytes());
    }

    /// The row is gone.
    pub fn remove(&mut self, table: u32, row: &Text) -> Result<(), RowFault>
        ensures fault { fault_of result ≡ fault_of_asking self.old.tables self.old.rows table row.now }
        ensures tables { self.new.tables ≡ self.old.tables }
        ensures rows { OnOk result (self.new.rows ≡ without_row self.old.rows table row.now) }
        ensures room { self.old.room ≤ self.new.room }
        ensures kept { OnErr result (self.new ≡ self.old) }
    {
        match self.fault_of_asking(table, row) {
            Some(fault) => Err(fault),
            None => {
                self.cut(table, row);
                Ok(())
            }
        }
    }

    /// The attributes of a row.
    pub fn get(&self, table: u32, row: &Text) -> Result<&Payload, RowFault>
        ensures fault { fault_of result ≡ fault_of_asking self.now.tables self.now.rows table row.now }
        ensures row { IfOk result (λ fields. row_at self.now.rows table row.now ≡ Some fields.now) }
    {
        match self.spec_of(table) {
            None => Err(RowFault::NoTable),
            Some(_) => match self.find(table, row) {
                Some(row) => Ok(&row.attributes),
                None => Err(RowFault::NoRow),
            },
        }
    }

    /// Puts a row of a snapshot back. Another one of its name gives way.
    pub fn restore(&mut self, item: ProfileRow)
        requires { 0 < self.old.room }
        ensures tables { self.new.tables ≡ self.old.tables }
        ensures rows { self.new.rows ≡ with_row self.old.rows item.table item.row item.attributes }
        ensures room { self.old.room ≤ self.new.room + 1 }
    {
        self.put(item);
    }

    /// How many rows there are.
    pub fn len(&self) -> u64
        ensures length { result ≡ length self.now.rows }
        ensures order { IsTrue (rises_by row_before self.now.rows) }
        ensures kept { IsPermutation self.now.rows self.now.kept }
    {
        self.rows.len() as u64
    }

    /// The row that is kept at this place, counted from 0. Each row is kept at one place, in an order of their own.
    pub fn at(&self, place: u64) -> &ProfileRow
        requires { place < length self.now.rows }
        ensures row { slice_get self.now.kept place ≡ Some result.now }
        ensures order { IsTrue (rises_by row_before self.now.rows) }
        ensures kept { IsPermutation self.now.rows self.now.kept }
    {
        &self.rows.at(place as usize).item
    }
}
