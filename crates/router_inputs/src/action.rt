//! What a line does.

use router_state::Suspension;
use slee_value::{ActivityId, Name, Payload, Text};
use timer_facility::Due;

/// How a row of a profile table changes.
#[derive(Drop)]
pub enum RowChange {
    /// It is new, with these attributes.
    RowAdded(Payload),
    /// It has these attributes from now on.
    RowUpdated(Payload),
    /// It is gone.
    RowRemoved,
}

/// What a line does, all that it names being looked up.
#[derive(Drop)]
pub enum Action {
    /// An external activity of this name starts.
    StartActivity {
        name: Name,
    },
    /// The activity ends.
    EndActivity {
        activity: ActivityId,
    },
    /// An event is fired on the activity, for the service alone where there is one.
    FireEvent {
        activity: ActivityId,
        event: Text,
        fields: Payload,
        target: Option<u32>,
    },
    /// The clock comes to the moment; these suspensions end, and these occurrences are due.
    SetClock {
        to: u64,
        suspensions: Vec<Suspension>,
        occurrences: Vec<Due>,
    },
    /// The service becomes Active.
    ActivateService {
        service: u32,
    },
    /// The service stops, and its activity ends where it is Active.
    StopService {
        service: u32,
        activity: ActivityId,
    },
    /// The row of this name of the table changes.
    ChangeRow {
        table: u32,
        row: Text,
        change: RowChange,
    },
}
