//! Rows of profile tables change, which is told on their table's activity (JSR 240, chapter 10).
ghost use Rattle.std.specs.Prelude.{◌≡◌, ◌++◌, ◌∷◌, [], None, codes, IfOk, OnOk};
ghost use Rattle.built_in_events.specs.BuiltIn.{name_of};
ghost use Rattle.slee_value.specs.declared.value.Value.TheVariants as values;
ghost use Rattle.router_state.specs.Changes.{after_change};
ghost use Rattle.router_state.specs.Initial.{table_activity};
ghost use Rattle.router_steps.specs.Actions.{change_of_row, event_of_row};
ghost use Rattle.router_steps.specs.Moves.{queued, lines_of_queued};
ghost use Rattle.router_steps.specs.Taking.{row_changed};
ghost use Rattle.router_stores.specs.Making.{CanMake};
ghost use Rattle.router_inputs.specs.Acting.{row_change_in};
ghost use Rattle.router_draft.specs.Drafts.{CanBeMade, IsLow, laid};

use built_in_events::BuiltInEvent;
use router_draft::{Base, Draft, change};
use router_inputs::RowChange;
use router_moves::queue;
use router_state::Change;
use slee_value::{ActivityId, Name, NoMemory, Payload, Text, Value};
use std::alloc::Global;

fn activity_of(table: u32) -> ActivityId
    ensures { result.0 ≡ table_activity table }
{
    ActivityId(u64::from(table) + 1)
}

/// The field that names the row.
fn fields_of(alloc: Global, row: Text) -> Result<Payload, NoMemory>
    ensures { IfOk result (λ fields. fields ≡ (codes "row", values.Text row) ∷ []) }
{
    let mut fields = Payload::new(alloc);
    fields.push(Name::from_slice(alloc, b"row")?, Value::Text(row))?;
    Ok(fields)
}

/// The event that tells how a row changes.
fn event_of(change: &RowChange) -> BuiltInEvent
    ensures { name_of result ≡ event_of_row (row_change_in change.now) }
{
    match change {
        RowChange::RowAdded(_) => BuiltInEvent::ProfileAdded,
        RowChange::RowUpdated(_) => BuiltInEvent::ProfileUpdated,
        RowChange::RowRemoved => BuiltInEvent::ProfileRemoved,
    }
}

/// The change of the state by which the row changes so.
fn change_of(table: u32, row: Text, change: RowChange) -> Change
    ensures { result ≡ change_of_row table row (row_change_in change) }
{
    match change {
        RowChange::RowAdded(fields) => Change::AddRow { table, row, fields },
        RowChange::RowUpdated(fields) => Change::UpdateRow { table, row, fields },
        RowChange::RowRemoved => Change::RemoveRow { table, row },
    }
}

/// An event on the table's activity tells that the row has changed.
fn tell<B: Base>(
    alloc: Global,
    base: &B,
    draft: &mut Draft,
    table: u32,
    row: Text,
    event: BuiltInEvent,
) -> Result<(), NoMemory>
    requires low { IsLow (B.state base.now) }
    requires made { CanBeMade (B.state base.now) draft.old }
    ensures state { OnOk result (laid (B.state base.now) draft.new ≡ queued (laid (B.state base.now) draft.old) (table_activity table) (name_of event) ((codes "row", values.Text row) ∷ []) None) }
    ensures lines { OnOk result (draft.new.lines ≡ draft.old.lines ++ lines_of_queued (laid (B.state base.now) draft.old) (table_activity table) (name_of event)) }
    ensures made { OnOk result (CanBeMade (B.state base.now) draft.new) }
{
    let name = Text::from_str(alloc, event.name())?;
    let fields = fields_of(alloc, row)?;
    queue(alloc, base, draft, activity_of(table), name, fields, None)
}

/// The row changes, and this is told.
#[tactic(auto, using(crate::proofs::RowLemmas::same_next))]
pub fn change_row<B: Base>(
    alloc: Global,
    base: &B,
    draft: &mut Draft,
    table: u32,
    row: Text,
    row_change: RowChange,
) -> Result<(), NoMemory>
    requires low { IsLow (B.state base.now) }
    requires can { CanMake (change_of_row table row (row_change_in row_change)) (laid (B.state base.now) draft.old) }
    requires made { CanBeMade (B.state base.now) draft.old }
    ensures state { OnOk result (laid (B.state base.now) draft.new ≡ row_changed table row (row_change_in row_change) (laid (B.state base.now) draft.old)) }
    ensures lines { OnOk result (draft.new.lines ≡ draft.old.lines ++ lines_of_queued (laid (B.state base.now) draft.old) (table_activity table) (event_of_row (row_change_in row_change))) }
    ensures made { OnOk result (CanBeMade (B.state base.now) draft.new) }
{
    let told = row.copy(alloc)?;
    let event = event_of(&row_change);
    change(base, draft, change_of(table, row, row_change))?;
    tell(alloc, base, draft, table, told, event)
}
