//! The table under a turn, and the steps on it.
use crate::grows::Grows;
use atomic_table::{Join, Play, Seat, Split, Table, TableRule};
use std::alloc::Global;
use std::marker::Model;
use std::snapshot::Snapshot;

/// The table: two words and the slot of the value.
pub type Board<G> = Table<Option<G>, Known, Snapshot<G>, TurnRule, Global>;

/// A seat at the table.
pub type Place<G> = Seat<Option<G>, Known>;

/// The word with the number of the pass that has the turn.
pub const HOLDER: usize = 0;

/// The word with the length of the value that was last given back.
pub const LENGTH: usize = 1;

/// The slot with the value.
pub const VALUE: usize = 0;

/// It stands in the first word while no pass has the turn.
pub const NOBODY: u64 = 0;

/// The number of the first pass.
pub const FIRST: u64 = 1;

/// What a seat knows. It is plain data of the definitions, and no value of this type is made.
pub struct Known {
    nothing: (),
}

impl Model for Known {
    ghost use Rattle.slee_turn.specs.Knowledge.{Knowledge, spent_known};

    ghost Value = { Knowledge };

    ghost view = { λ _. spent_known };
}

/// The rule of the table.
pub struct TurnRule;

impl<G: Grows> TableRule<Option<G>, Known, Snapshot<G>> for TurnRule {
    ghost use Rattle.slee_turn.specs.Knowledge.{first_known};
    ghost use Rattle.slee_turn.specs.Rule.{IsKept};

    ghost holds = { λ _. IsKept G.setup G.history };

    ghost first = { λ key. first_known (G.setup key.value) (G.history key.value) };
}

/// A pass tries to take the turn.
pub struct Takes;

impl<G: Grows> Play<Option<G>, Known> for Takes {
    ghost use Rattle.slee_turn.specs.Rule.{Takes};

    ghost then = { Takes G.setup G.history };
}

/// The pass that has the turn stores the length of the value that it gives back.
pub struct Tells;

impl<G: Grows> Play<Option<G>, Known> for Tells {
    ghost use Rattle.slee_turn.specs.Rule.{Tells};

    ghost then = { Tells G.setup G.history };
}

/// The pass that has the turn gives it back.
pub struct Frees;

impl<G: Grows> Play<Option<G>, Known> for Frees {
    ghost use Rattle.slee_turn.specs.Rule.{Frees};

    ghost then = { Frees G.setup G.history };
}

/// A pass reads the length.
pub struct Hears;

impl<G: Grows> Play<Option<G>, Known> for Hears {
    ghost use Rattle.slee_turn.specs.Rule.{Hears};

    ghost then = { Hears G.setup G.history };
}

/// A pass reads who has the turn, and nothing changes.
pub struct Looks;

impl<G: Grows> Play<Option<G>, Known> for Looks {
    ghost use Rattle.slee_turn.specs.Rule.{Looks};

    ghost then = { Looks G.setup G.history };
}

/// A pass is split off another, or joined to it.
pub struct Parts;

impl Split<Known> for Parts {
    ghost use Rattle.slee_turn.specs.Knowledge.{parted_known, part_known};

    ghost left = { parted_known };

    ghost right = { part_known };
}

impl Join<Known> for Parts {
    ghost use Rattle.slee_turn.specs.Knowledge.{joined_known, spent_known};

    ghost both = { joined_known };

    ghost spent = { spent_known };
}
