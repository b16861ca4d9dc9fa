//! The effects of the deliveries of histories.
ghost use Rattle.std.specs.Prelude.{◌≡◌, true, List};
ghost use Rattle.router_laws_sound.specs.Rooms.{HasRoom, IsDeployed};
ghost use Rattle.router_laws_steps.specs.Applied.{AllApply};
ghost use Rattle.router_laws_steps.specs.Reads.{AreRead};
ghost use Rattle.router_laws_suiting.specs.Declared.{AreSpelled, IsProgrammed};
ghost use Rattle.router_state.specs.Fits.{is_u64};
ghost use Rattle.router_state.specs.State.{State};
ghost use Rattle.router_state.specs.Well.{IsWell};
ghost use Rattle.router_steps.specs.Histories.{Legal, replay};
ghost use Rattle.trace_history.specs.declared.entry.Entry.{Entry};

/// In every legal history from a well-formed state each effect of each delivery applies at its turn, so none is left out: of a
/// deployment whose program is that of its checked scripts, whose constants have spellings, where at the delivery the next
/// numbers of entities and activities are at most 2^62, and the numbers that come next behind it have 64 bits.
pub fn effects_of_histories_apply()
    ensures { (s : State) (h : List Entry) → IsWell s → IsDeployed s.deployment → IsProgrammed s.deployment s.program → AreSpelled s.program → Legal s h → AreRead h → HasRoom (replay s h) → is_u64 (replay s h).inputs ≡ true → AllApply s h }
{}
