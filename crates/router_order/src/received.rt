//! Which entities have received the head event of an activity, by whoever knows it: a list of them, or the queues by their marks.
ghost use Rattle.std.specs.Prelude.{◌≡◌};
ghost use Rattle.router_order.specs.Asked.{is_among};

use crate::wants::Wants;
use event_queue::Queues;
use slee_value::{ActivityId, EntityId};

/// One who knows which entities have received the head event of an activity.
pub trait Received {
    ghost use Rattle.std.specs.Prelude.{◌≡◌, ℕ, Bool};

    ghost received: { Self → ℕ → ℕ → Bool };

    /// Whether the entity has received the head event of the activity.
    fn has(&self, activity: ActivityId, entity: EntityId) -> bool
        ensures { result ≡ received self.now activity.0 entity.0 };
}

impl Received for Queues {
    ghost use Rattle.router_state.specs.Queues.{is_delivered};

    ghost received = { λ queues. is_delivered queues.delivered };

    fn has(&self, activity: ActivityId, entity: EntityId) -> bool {
        self.is_delivered(activity, entity)
    }
}

fn is_among(entities: &[EntityId], entity: EntityId) -> bool
    ensures { result ≡ is_among entities.now entity.0 }
{
    entities.iter().any(|other| other.0 == entity.0)
}

impl<'a> Received for Wants<'a> {
    ghost use Rattle.router_order.specs.Asked.{is_among};

    ghost received = { λ wants activity. is_among wants.delivered.now };

    fn has(&self, _activity: ActivityId, entity: EntityId) -> bool {
        is_among(self.delivered, entity)
    }
}
