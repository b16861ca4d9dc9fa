//! The rows of the state's lists.

use slee_value::{
    ActivityId, ConvName, EntityId, EventId, Keep, Name, Payload, Text, TimerId, Value,
};

/// What an activity context stands for (JSR 240, chapter 7).
#[derive(Debug, Drop)]
pub enum AcKind {
    /// An activity outside, by the name that the signal lines give it.
    External(Name),
    /// A null activity.
    Null,
    /// The activity of the service of this number.
    Service(u32),
    /// The activity of the profile table of this number.
    Table(u32),
}

/// Whether a service takes new events (JSR 240, chapter 9).
#[derive(Debug, Clone, Copy, PartialEq, Eq)]
pub enum ServiceState {
    Inactive,
    Active,
    Stopping,
}

/// A service; its number is its place in the list, from 0. Activity 0 is none.
#[derive(Debug, Clone, Copy)]
pub struct Service {
    pub state: ServiceState,
    pub activity: ActivityId,
}

/// Where an entity stands in its tree.
#[derive(Debug, Drop)]
pub enum Stem {
    /// The root of a tree of the service of this number.
    Root(u32),
    /// A child of this parent, under this relation of the parent's block.
    Child(EntityId, Name),
}

/// An SBB entity (JSR 240, chapter 6).
#[derive(Debug, Drop)]
pub struct Entity {
    pub number: EntityId,
    /// The number of its block, its place in the deployment, from 0.
    pub block: u32,
    pub stem: Stem,
    pub priority: i8,
}

/// The convergence name of a root (JSR 240, 8.5).
#[derive(Debug, Drop)]
pub struct RootName {
    pub entity: EntityId,
    pub name: ConvName,
}

/// A field of an entity.
#[derive(Debug, Drop)]
pub struct Field {
    pub entity: EntityId,
    pub name: Name,
    pub value: Value,
}

/// An activity context.
#[derive(Debug, Drop)]
pub struct Activity {
    pub number: ActivityId,
    pub kind: AcKind,
    pub ending: bool,
}

/// An attribute that was set on an activity, by the key under which blocks share it.
#[derive(Debug, Drop)]
pub struct Attribute {
    pub activity: ActivityId,
    pub key: Text,
    pub value: Value,
}

/// An attachment.
#[derive(Debug, Clone, Copy)]
pub struct Link {
    pub entity: EntityId,
    pub activity: ActivityId,
}

/// An event that the entity doesn't receive on the activity (JSR 240, 8.4).
#[derive(Debug, Drop)]
pub struct Mask {
    pub entity: EntityId,
    pub activity: ActivityId,
    pub event: Text,
}

/// A name of the naming facility, and the activity for which it stands (JSR 240, chapter 13).
#[derive(Debug, Drop)]
pub struct Named {
    pub name: Text,
    pub activity: ActivityId,
}

/// An event that was fired. The target is the service that alone receives it, if it has one.
#[derive(Debug, Drop)]
pub struct Event {
    pub id: EventId,
    pub name: Text,
    pub fields: Payload,
    pub target: Option<u32>,
}

/// An event that waits on an activity.
#[derive(Debug, Drop)]
pub struct Queued {
    pub activity: ActivityId,
    pub event: Event,
}

/// A service whose initial selection was done for the front event of an activity.
#[derive(Debug, Clone, Copy)]
pub struct ServiceMark {
    pub activity: ActivityId,
    pub service: u32,
}

/// An entity that has received the front event of an activity.
#[derive(Debug, Clone, Copy)]
pub struct EntityMark {
    pub activity: ActivityId,
    pub entity: EntityId,
}

/// An activity whose front event is suspended, and the moment at which this ends.
#[derive(Debug, Clone, Copy)]
pub struct Suspension {
    pub activity: ActivityId,
    pub until: u64,
}

/// A timer (JSR 240, chapter 13). Of occurrences without end, 0 are left; one of period 0 has one left.
#[derive(Debug, Clone, Copy)]
pub struct Timer {
    pub number: TimerId,
    pub activity: ActivityId,
    pub next: u64,
    pub period: u64,
    pub left: u64,
    pub keep: Keep,
}

/// What a timer is set with.
#[derive(Debug, Clone, Copy)]
pub struct TimerSpec {
    pub activity: ActivityId,
    pub start: u64,
    pub period: u64,
    pub times: u64,
    pub keep: Keep,
}

/// A row of the profile table of this number, its place in byte order, from 0 (JSR 240, chapter 10).
#[derive(Debug, Drop)]
pub struct ProfileRow {
    pub table: u32,
    pub row: Text,
    pub attributes: Payload,
}
