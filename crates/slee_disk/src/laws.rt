//! A law of the definitions that the contracts cite, on a function that does nothing.
ghost use Rattle.std.specs.Prelude.{◌≡◌, ℕ, List};
ghost use Rattle.slee_disk.specs.declared.call.Call.{Call};
ghost use Rattle.slee_disk.specs.Sides.{Sides};
ghost use Rattle.slee_disk.specs.Calls.{after, fresh, image_of};
ghost use Rattle.slee_disk.specs.Laws.{AreWhole};

/// Where no call failed and no write is cut short, a stop leaves what reads give.
#[tactic(auto, using(crate::proofs::Whole::whole_image))]
pub fn a_stop_that_tears_nothing_leaves_what_is_read()
    ensures { (part fill : ℕ) (calls : List Call) (first : Sides) → AreWhole part calls → image_of part fill calls first ≡ (after calls (fresh first)).seen }
{}
