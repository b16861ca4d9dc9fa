//! The activities that are ready: an event waits there, and the head event isn't suspended.
ghost use Rattle.std.specs.Prelude.{ℕ, ◌≡◌, ◌==◌, ◌+◌, ◌<◌, ◌≤◌, false};
ghost use Rattle.router_stores.specs.Ready.{is_listed, is_ready};

use event_queue::Queues;
use rows_leaves::Leaves;
use rows_sorted::Keyed;
use slee_value::ActivityId;

/// An activity that is ready.
#[derive(Debug, Clone, Copy)]
pub struct Ready {
    pub activity: ActivityId,
}

impl Keyed for Ready {
    ghost use Rattle.router_stores.specs.Ready.{ready_key};

    ghost key = { ready_key };

    fn first(&self) -> u64 {
        self.activity.0
    }

    fn second(&self) -> u64 {
        0
    }

    fn text(&self) -> &[u8] {
        &[]
    }
}

fn is_ready(queues: &Queues, activity: ActivityId) -> bool
    ensures { result ≡ is_ready queues.now.events queues.now.suspensions activity.0 }
{
    if queues.suspended_until(activity).is_some() {
        return false;
    }
    queues.is_waiting(activity)
}

/// Lists the activity where it is ready, and takes it off the list where it isn't.
pub fn list_ready(ready: &mut Leaves<Ready>, queues: &Queues, activity: ActivityId)
    requires { 0 < ready.old.room }
    ensures own { is_listed ready.new.rows activity.0 ≡ is_ready queues.now.events queues.now.suspensions activity.0 }
    ensures others { (b : ℕ) → (activity.0 == b) ≡ false → is_listed ready.new.rows b ≡ is_listed ready.old.rows b }
    ensures room { ready.old.room ≤ ready.new.room + 1 }
{
    if is_ready(queues, activity) {
        ready.put_row(Ready { activity });
    } else {
        ready.cut_row(activity.0, 0, &[]);
    }
}
