//! The changes of the state, each a call of one store or of the few things that no store keeps.

use crate::{AcKind, Event, ServiceState, TimerSpec};
use slee_value::{ActivityId, ConvName, EntityId, Name, Names, Payload, Text, TimerId, Value};

/// One change of the state: a call of one store, or one of the five last, which no store keeps.
#[derive(Debug, Drop)]
pub enum Change {
    /// The entity's field has this value.
    SetField {
        entity: EntityId,
        field: Name,
        value: Value,
    },
    /// The entity has no fields.
    ForgetFields {
        entity: EntityId,
    },
    /// A new root of a service, with the next number.
    CreateRoot {
        block: u32,
        service: u32,
        priority: i8,
    },
    /// A new child, with the next number.
    CreateChild {
        parent: EntityId,
        relation: Name,
        block: u32,
        priority: i8,
    },
    /// The entity is gone, with its convergence name. Its fields and attachments went before.
    Remove {
        entity: EntityId,
    },
    /// The entity has this priority.
    SetPriority {
        entity: EntityId,
        priority: i8,
    },
    /// A new activity of this kind, with the next number.
    Start {
        kind: AcKind,
    },
    /// The activity is Ending from now on.
    End {
        activity: ActivityId,
    },
    /// The activity is gone, with its attachments, attributes and names.
    DropContext {
        activity: ActivityId,
    },
    /// An attachment, unless it is there.
    Attach {
        entity: EntityId,
        activity: ActivityId,
    },
    /// No attachment of these two.
    Detach {
        entity: EntityId,
        activity: ActivityId,
    },
    /// The activity's attribute has this value.
    SetAttr {
        activity: ActivityId,
        key: Text,
        value: Value,
    },
    /// The name stands for the activity.
    Bind {
        name: Text,
        activity: ActivityId,
    },
    /// The name stands for nothing.
    Unbind {
        name: Text,
    },
    /// The entity has these masks on the activity, and no others.
    MaskOnAttach {
        entity: EntityId,
        activity: ActivityId,
        names: Names,
    },
    /// The entity has this mask on the activity, or hasn't it.
    SetMask {
        entity: EntityId,
        activity: ActivityId,
        event: Text,
        on: bool,
    },
    /// The entity has no masks on the activity.
    ForgetMasks {
        entity: EntityId,
        activity: ActivityId,
    },
    /// The event waits last on the activity.
    Push {
        activity: ActivityId,
        event: Event,
    },
    /// The front event of the activity is gone, with its marks.
    Pop {
        activity: ActivityId,
    },
    /// The service's selection was done for the front event.
    MarkService {
        activity: ActivityId,
        service: u32,
    },
    /// The entity has received the front event.
    MarkEntity {
        activity: ActivityId,
        entity: EntityId,
    },
    /// The front event is suspended until this moment.
    Hold {
        activity: ActivityId,
        until: u64,
    },
    /// The front event isn't suspended.
    Release {
        activity: ActivityId,
    },
    /// A new timer, with the next number.
    SetTimer {
        spec: TimerSpec,
    },
    /// The timer is gone.
    Cancel {
        timer: TimerId,
    },
    /// The timers of the activity are gone.
    CancelAll {
        activity: ActivityId,
    },
    /// All occurrences due at or before this moment are used up.
    Advance {
        to: u64,
    },
    /// A new row of the table.
    AddRow {
        table: u32,
        row: Text,
        fields: Payload,
    },
    /// The row has these attributes.
    UpdateRow {
        table: u32,
        row: Text,
        fields: Payload,
    },
    /// The row is gone.
    RemoveRow {
        table: u32,
        row: Text,
    },
    /// The clock stands at this moment.
    Clock {
        to: u64,
    },
    /// One more line was taken.
    Taken,
    /// The service has this state and this activity, 0 for none.
    Service {
        service: u32,
        state: ServiceState,
        activity: ActivityId,
    },
    /// The root has this convergence name.
    Root {
        entity: EntityId,
        name: ConvName,
    },
    /// The next event has the next number.
    NextEvent,
}
