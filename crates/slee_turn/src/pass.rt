//! The right to take turns.
use crate::grows::Grows;
use crate::steps::Place;
use std::marker::Model;

/// The right to take turns, for one thread at a time. Contracts see it as what it knows of the value's history.
#[derive(Drop)]
pub struct Pass<G: Grows + Send> {
    pub(crate) seat: Place<G>,
    pub(crate) number: u64,
    pub(crate) spare: u64,
    pub(crate) stopped: bool,
}

impl<G: Grows + Send> Model for Pass<G> {
    ghost use Rattle.std.specs.Prelude.{◌≡◌, None};
    ghost use Rattle.slee_turn.specs.Passes.{PassView, slots_of};
    ghost use Rattle.slee_turn.specs.Rule.{IsLive};

    ghost Value = { PassView };

    ghost view = { λ p. record { table = p.seat.table_id; known = p.seat.me.0; stopped = p.stopped } };

    ghost invariant = { λ p. (p.number ≡ p.seat.me.0.number) × (p.spare ≡ p.seat.me.0.spare) × (p.seat.me.1 ≡ slots_of None p.seat.me.0.phase) × IsLive p.seat.me.0.phase };
}
