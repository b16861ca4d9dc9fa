//! The headings of a run.
ghost use Rattle.std.specs.Prelude.{◌≡◌, ◌<◌, ◌^◌, ◌∷◌, ◌++◌, ℕ, true, List};
ghost use Rattle.router_laws_histories.specs.Suspended.{names_activity};
ghost use Rattle.router_laws_runs.specs.AsRead.{IsAsRead};
ghost use Rattle.router_laws_runs.specs.Headings.{NamesFirst, NamesNext, delivers_on, heading_words};
ghost use Rattle.router_state.specs.State.{State};
ghost use Rattle.router_state.specs.Well.{IsWell};
ghost use Rattle.router_steps.specs.Histories.{Legal, replay};
ghost use Rattle.trace_history.specs.declared.entry.Entry.{Entry};

/// Each heading of an initial selection, a delivery or a finish on an activity names the event that comes behind those that were
/// finished before it there.
#[tactic(auto, using(crate::proofs::EndLemmas::heading_next))]
pub fn headings_name_the_next_event()
    ensures { (s : State) (k : List Entry) (e : Entry) (rest : List Entry) (a : ℕ) → IsWell s → IsAsRead s.deployment s.program → Legal s (k ++ e ∷ rest) → a < 2 ^ 64 → names_activity a (heading_words e) ≡ true → NamesNext s k a (heading_words e) }
{}

/// Each heading of a delivery names the head event and an entity that may receive it, and none of those that may comes before that
/// entity in the state where the heading stands (JSR 240, 8.4).
#[tactic(auto, using(crate::proofs::EndLemmas::heading_first))]
pub fn deliveries_name_the_first()
    ensures { (s : State) (k : List Entry) (e : Entry) (rest : List Entry) (a : ℕ) → IsWell s → IsAsRead s.deployment s.program → Legal s (k ++ e ∷ rest) → a < 2 ^ 64 → delivers_on a (heading_words e) ≡ true → NamesFirst (replay s k) a (heading_words e) }
{}
