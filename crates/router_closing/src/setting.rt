//! What closing asks of the state with which the step began.
ghost use Rattle.std.specs.Prelude.{◌≡◌, ◌==◌, ◌&&◌, not, filter, length, map, slice_get, IfOk, option_map};
ghost use Rattle.std.specs.List.{list_any};
ghost use Rattle.deploy_model.specs.Deployed.{service_key};
ghost use Rattle.router_state.specs.Contexts.{links_on};
ghost use Rattle.router_state.specs.Timers.{timer_at};
ghost use Rattle.router_state.specs.Trees.{is_root_of};
ghost use Rattle.router_laws_closing.specs.Loose.{is_member};
ghost use Rattle.router_laws_closing.specs.TouchedActivities.{due_on};
ghost use Rattle.router_closing.specs.Timers.{left_of};

use router_moves::Setting;
use router_state::{Service, Timer};
use slee_value::{ActivityId, NoMemory, Text, TimerId};
use std::alloc::Global;

/// A state of which closing reads what stands on an activity, and what is left of a service.
pub trait Closing: Setting {
    /// How many services there are.
    fn service_count(&self) -> u32
        ensures { result ≡ length (Self.state self.now).services };

    /// The state and the activity of the service.
    fn service(&self, service: u32) -> Option<Service>
        ensures { result ≡ slice_get (Self.state self.now).services service };

    /// The key of the service, empty where there is none.
    fn service_key(&self, service: u32) -> &str
        ensures { result.now ≡ service_key (Self.state self.now).deployment service };

    /// Whether a root of the service is there that isn't one of these.
    fn has_root(&self, service: u32, gone: &[u64]) -> bool
        ensures { result ≡ list_any (λ row. is_root_of service row.stem && not (is_member gone.now row.number.0)) (Self.state self.now).entities };

    /// The entities that are attached to the activity, rising.
    fn attached(&self, alloc: Global, activity: ActivityId) -> Result<Vec<u64>, NoMemory>
        ensures { IfOk result (λ all. all.items ≡ map (λ l. l.entity.0) (links_on (Self.state self.now).links activity.0)) };

    /// The names that stand for the activity, rising.
    fn names(&self, alloc: Global, activity: ActivityId) -> Result<Vec<Text>, NoMemory>
        ensures { IfOk result (λ all. all.items ≡ map (λ row. row.name) (filter (λ row. row.activity.0 == activity.0) (Self.state self.now).names)) };

    /// The timers on the activity, rising by number.
    fn timers(&self, alloc: Global, activity: ActivityId) -> Result<Vec<Timer>, NoMemory>
        ensures { IfOk result (λ all. all.items ≡ filter (λ row. row.activity.0 == activity.0) (Self.state self.now).timers) };

    /// The activity on which the timer is set.
    fn timer(&self, timer: TimerId) -> Option<ActivityId>
        ensures { result ≡ option_map (λ row. row.activity) (timer_at (Self.state self.now).timers timer.0) };

    /// The activities of the timers that are due at the moment, rising by timer.
    fn due(&self, alloc: Global, to: u64) -> Result<Vec<u64>, NoMemory>
        ensures { IfOk result (λ all. all.items ≡ due_on (Self.state self.now).timers to) };

    /// The timer behind the occurrences that are due at the moment, where it goes on.
    fn behind(&self, timer: &Timer, to: u64) -> Option<Timer>
        ensures { result ≡ left_of timer.now to };
}
