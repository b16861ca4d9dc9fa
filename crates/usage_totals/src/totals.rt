//! Usage counts in byte order, and how they are added up.
ghost use Rattle.std.specs.Prelude.{◌≡◌, ◌≤◌, ◌<◌, ◌+◌, ◌-◌, ◌^◌, ◌+ℤ◌, ℕ, [], length, take, set, slice_get, vec_len, IfOk, IfSome, OnOk};
ghost use Rattle.rows_sorted.specs.Keys.{Rises};
ghost use Rattle.rows_sorted.specs.Orders.{put};
ghost use Rattle.usage_totals.specs.Bounds.{AreWithin};
ghost use Rattle.usage_totals.specs.Totals.{total_before, total_key, usage_totals, with_amount, with_line};

use crate::lines::first_line;
use crate::total::{Total, raise};
use crate::usage::usage_in;
use rows_sorted::{place_of, put_row};
use slee_value::{Blob, NoMemory};
use std::alloc::Global;
use std::marker::Model;
use trace_history::History;

/// Usage counts in byte order of their names.
#[derive(Debug, Drop)]
pub struct Totals {
    rows: Vec<Total>,
}

impl Model for Totals {
    ghost use Rattle.std.specs.Prelude.{List};
    ghost use Rattle.rows_sorted.specs.Keys.{Rises};
    ghost use Rattle.usage_totals.specs.Totals.{total_key};
    ghost use Rattle.usage_totals.specs.declared.total.Total.{Total};

    ghost Value = { List Total };

    ghost view = { λ t. t.rows.items };

    ghost invariant = { λ t. Rises total_key t.rows.items };
}

impl Totals {
    /// No counts.
    fn new(alloc: Global) -> Self
        ensures { result ≡ [] }
    {
        Totals {
            rows: Vec::new(alloc),
        }
    }

    /// The counts, in byte order of their names.
    pub fn as_slice(&self) -> &[Total]
        ensures { result.now ≡ self.now }
    {
        &self.rows
    }

    /// Adds what a line adds.
    #[tactic(auto, using(crate::proofs::TotalLemmas::line_adds, crate::proofs::TotalLemmas::nothing_added, crate::proofs::TotalLemmas::within_wider))]
    fn add_line(&mut self, alloc: Global, line: &[u8]) -> Result<(), NoMemory>
        requires { AreWithin (2 ^ 63 - 1) self.old }
        ensures added { OnOk result (self.new ≡ with_line self.old line.now) }
        ensures within { OnOk result ((n : ℕ) → AreWithin n self.old → AreWithin (n + 1) self.new) }
    {
        match usage_in(line) {
            Some(usage) => {
                self.add_amount(alloc, usage.name, usage.amount)?;
                Ok(())
            }
            None => Ok(()),
        }
    }

    /// Adds an amount to the count of this name.
    fn add_amount(&mut self, alloc: Global, name: &[u8], amount: i64) -> Result<(), NoMemory>
        requires { AreWithin (2 ^ 63 - 1) self.old }
        ensures added { OnOk result (self.new ≡ with_amount name.now amount self.old) }
        ensures within { OnOk result ((n : ℕ) → AreWithin n self.old → AreWithin (n + 1) self.new) }
    {
        match place_of(&self.rows, 0, 0, name) {
            Some(place) => {
                raise_row(&mut self.rows, place, amount);
                Ok(())
            }
            None => {
                add_row(&mut self.rows, alloc, name, amount)?;
                Ok(())
            }
        }
    }
}

/// Adds an amount to the count that stands here.
#[tactic(auto, using(crate::proofs::TotalLemmas::within_at, crate::proofs::TotalLemmas::set_rises))]
fn raise_row(rows: &mut Vec<Total>, place: usize, amount: i64)
    requires there { place < vec_len rows.old }
    requires within { AreWithin (2 ^ 63 - 1) rows.old.items }
    requires rises { Rises total_key rows.old.items }
    ensures raised { IfSome (slice_get rows.old.items place) (λ row. rows.new.items ≡ set rows.old.items place (record row { count = row.count + 1; sum = row.sum +ℤ amount })) }
    ensures rises { Rises total_key rows.new.items }
{
    raise(&mut rows[place], amount);
}

/// A count that wasn't there yet.
fn add_row(rows: &mut Vec<Total>, alloc: Global, name: &[u8], amount: i64) -> Result<(), NoMemory>
    requires { Rises total_key rows.old.items }
    ensures rises { Rises total_key rows.new.items }
    ensures put { OnOk result (rows.new.items ≡ put total_before (record { name = name.now; count = 1; sum = amount }) rows.old.items) }
{
    let name = Blob::from_slice(alloc, name)?;
    rows.reserve(1)?;
    put_row(
        rows,
        Total {
            name,
            count: 1,
            sum: i128::from(amount),
        },
    );
    Ok(())
}

/// What the usage lines of the first so many entries add up to.
#[tactic(auto, using(crate::proofs::TotalLemmas::line_folded, crate::proofs::TotalLemmas::within_wider))]
pub fn usage_totals(alloc: Global, history: &History, upto: u64) -> Result<Totals, NoMemory>
    requires { upto ≤ length history.now.entries }
    ensures { IfOk result (λ totals. totals ≡ usage_totals (take upto history.now.entries)) }
{
    let mut totals = Totals::new(alloc);
    let mut rest = history.text(upto);
    'lines: while !rest.is_empty() {
        let (line, after) = first_line(rest);
        totals.add_line(alloc, line)?;
        rest = after;
    }
    Ok(totals)
}
