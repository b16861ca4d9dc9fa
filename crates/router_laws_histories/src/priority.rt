//! To whom an event is delivered first.
ghost use Rattle.std.specs.Prelude.{◌≡◌, ℕ, true, [], List, Some, None};
ghost use Rattle.slee_value.specs.declared.ids.ActivityId.{ActivityId};
ghost use Rattle.router_laws.specs.Forest.{IsIn};
ghost use Rattle.router_laws_histories.specs.Words.{IsFirstOf};
ghost use Rattle.router_state.specs.State.{State};
ghost use Rattle.router_state.specs.Next.{eligible};
ghost use Rattle.router_state.specs.Paths.{least_path};
ghost use Rattle.router_state.specs.Queues.{head_event};
ghost use Rattle.router_state.specs.declared.rows.Entity.{Entity};
ghost use Rattle.router_state.specs.declared.rows.Event.{Event};
ghost use Rattle.router_steps.specs.Steps.{Receipt, delivery_at, is_next};
ghost use Rattle.trace_history.specs.declared.choice.Choice.TheVariants as choices;

/// A delivery is of the head event, to an entity that may receive it, and none of those that may comes before it; where the
/// event may be finished, no entity may receive it any longer (JSR 240, 8.4).
#[tactic(auto, using(crate::proofs::ByPriority::first_is, crate::proofs::DeliveryOrder::delivered_first, crate::proofs::DeliveryOrder::finished_last))]
pub fn deliveries_go_by_priority()
    ensures least { (rows ys : List Entity) (r : Entity) → least_path rows None ys ≡ Some r → IsFirstOf rows r ys }
    ensures delivered { (s : State) (a : ℕ) (x : Receipt) → delivery_at s a ≡ Some x → (head_event s.events x.activity ≡ Some x.event) × IsIn x.entity (eligible s x.activity x.event) × IsFirstOf s.entities x.entity (eligible s x.activity x.event) }
    ensures finished { (s : State) (a : ActivityId) (v : Event) → is_next s (choices.Finish a) ≡ true → head_event s.events a.0 ≡ Some v → eligible s a.0 v ≡ [] }
{}
