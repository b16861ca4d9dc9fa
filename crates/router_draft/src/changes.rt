//! The changes of a step so far, and beside them what is asked of them often: what they touch, and how many events they number. Contracts see the list of changes.
ghost use Rattle.std.specs.Prelude.{ℕ, ◌≡◌, ◌++◌, ◌∷◌, [], ◌==◌, ◌||◌, ◌<◌, ◌^◌, OnOk, count_by, length};
ghost use Rattle.std.specs.List.{list_any};
ghost use Rattle.router_draft.specs.After.{draws};
ghost use Rattle.router_draft.specs.Touched.{dropped_of, drops, ended_of, ends, entity_of, is_it, is_listed, touches};
ghost use Rattle.router_draft.specs.declared.after.Drawn.TheVariants as kinds;

use crate::after::{Drawn, is_drawing};
use router_state::Change;
use rows_leaves::Leaves;
use rows_sorted::Keyed;
use slee_value::{ActivityId, EntityId, NoMemory};
use std::alloc::Global;
use std::marker::Model;

/// The number of an entity or of an activity that was touched.
#[derive(Debug, Clone, Copy)]
pub(crate) struct Touched {
    pub number: u64,
}

impl Keyed for Touched {
    ghost use Rattle.router_draft.specs.Touched.{touched_key};

    ghost key = { touched_key };

    fn first(&self) -> u64 {
        self.number
    }

    fn second(&self) -> u64 {
        0
    }

    fn text(&self) -> &[u8] {
        &[]
    }
}

/// Changes, the first of them first.
#[derive(Drop)]
pub(crate) struct Changes {
    list: Vec<Change>,
    touched: Leaves<Touched>,
    ended: Leaves<Touched>,
    dropped: Leaves<Touched>,
    events: usize,
}

impl Model for Changes {
    ghost use Rattle.std.specs.Prelude.{List};
    ghost use Rattle.router_state.specs.declared.change.Change.{Change};
    ghost use Rattle.router_draft.specs.Held.{IsHeld};

    ghost Value = { List Change };

    ghost view = { λ c. c.list.items };

    ghost invariant = { IsHeld };
}

/// The entity that the change touches; 0 where there is a root more.
fn entity_of(change: &Change) -> Option<u64>
    ensures { result ≡ entity_of change.now }
{
    match change {
        Change::SetField { entity, .. } => Some(entity.0),
        Change::ForgetFields { entity } => Some(entity.0),
        Change::CreateRoot { .. } => Some(0),
        Change::CreateChild { parent, .. } => Some(parent.0),
        Change::Remove { entity } => Some(entity.0),
        Change::Attach { entity, .. } => Some(entity.0),
        Change::Detach { entity, .. } => Some(entity.0),
        _ => None,
    }
}

/// The activity that ends or goes by the change.
fn ended_of(change: &Change) -> Option<u64>
    ensures { result ≡ ended_of change.now }
{
    match change {
        Change::End { activity } => Some(activity.0),
        Change::DropContext { activity } => Some(activity.0),
        _ => None,
    }
}

/// The activity that goes by the change.
fn dropped_of(change: &Change) -> Option<u64>
    ensures { result ≡ dropped_of change.now }
{
    match change {
        Change::DropContext { activity } => Some(activity.0),
        _ => None,
    }
}

/// One more number is listed, where there is one.
#[tactic(auto, using(crate::proofs::TouchLemmas::listed_more))]
fn list_number(rows: &mut Leaves<Touched>, number: Option<u64>)
    requires { 0 < rows.old.room }
    ensures { (n : ℕ) → is_listed rows.new.rows n ≡ (is_it n number || is_listed rows.old.rows n) }
{
    if let Some(number) = number {
        rows.put_row(Touched { number });
    }
}

impl Changes {
    /// No changes.
    pub fn new(alloc: Global) -> Self
        ensures { result ≡ [] }
    {
        Changes {
            list: Vec::new(alloc),
            touched: Leaves::new(alloc),
            ended: Leaves::new(alloc),
            dropped: Leaves::new(alloc),
            events: 0,
        }
    }

    /// A change more.
    #[tactic(auto, using(crate::proofs::TouchLemmas::one_touched, crate::proofs::TouchLemmas::one_counted))]
    pub fn push(&mut self, change: Change) -> Result<(), NoMemory>
        ensures { OnOk result (self.new ≡ self.old ++ change ∷ []) }
    {
        let entity = entity_of(&change);
        let ended = ended_of(&change);
        let dropped = dropped_of(&change);
        let numbers = is_drawing(Drawn::Event, &change);
        self.touched.reserve(1)?;
        self.ended.reserve(1)?;
        self.dropped.reserve(1)?;
        self.list.push(change)?;
        list_number(&mut self.touched, entity);
        list_number(&mut self.ended, ended);
        list_number(&mut self.dropped, dropped);
        self.events += usize::from(numbers);
        Ok(())
    }

    /// The changes.
    pub fn as_slice(&self) -> &[Change]
        ensures changes { result.now ≡ self.now }
        ensures few { length self.now < 2 ^ 63 }
    {
        &self.list
    }

    /// Whether one of them touches the entity.
    pub fn touches(&self, entity: EntityId) -> bool
        ensures { result ≡ list_any (touches entity.0) self.now }
    {
        self.touched.has_row_of(entity.0)
    }

    /// Whether the activity ends or goes by one of them.
    pub fn ends(&self, activity: ActivityId) -> bool
        ensures { result ≡ list_any (ends activity.0) self.now }
    {
        self.ended.has_row_of(activity.0)
    }

    /// Whether the activity goes by one of them.
    pub fn drops(&self, activity: ActivityId) -> bool
        ensures { result ≡ list_any (drops activity.0) self.now }
    {
        self.dropped.has_row_of(activity.0)
    }

    /// How many events they number.
    #[tactic(auto, using(crate::proofs::TouchLemmas::few_counted))]
    pub fn events(&self) -> usize
        ensures number { result ≡ count_by (draws kinds.Event) self.now }
        ensures few { result < 2 ^ 63 }
    {
        let _list = self.as_slice();
        self.events
    }

    /// The changes, as a list.
    pub fn into_vec(self) -> Vec<Change>
        ensures { result.items ≡ self }
    {
        self.list
    }
}
