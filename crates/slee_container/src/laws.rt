//! Which attempts are of a ticket.
ghost use Rattle.std.specs.Prelude.{◌≡◌, ◌∷◌, ◌++◌, [], List};
ghost use Rattle.script_meaning.specs.declared.key.Key.{Key};
ghost use Rattle.script_meaning.specs.declared.seen.Seen.{Seen};
ghost use Rattle.tx_attempt.specs.Attempts.{IsNew, IsSameTask};
ghost use Rattle.tx_attempt.specs.declared.attempt.Attempt.{Attempt};
ghost use Rattle.tx_attempt.specs.declared.ticket.Ticket.{Ticket};
ghost use Rattle.slee_container.specs.Claims.{IsAttemptOf};

/// A new attempt at the delivery of a ticket is one of that ticket.
#[tactic(auto, using(crate::proofs::Commits::new_attempt))]
pub fn attempts_begin_with_their_ticket()
    ensures { (t : Ticket) (a : Attempt) → IsNew t a → IsAttemptOf t a }
{}

/// So it stays when it is run, and when it learns more.
#[tactic(auto, using(crate::proofs::Commits::run_attempt, crate::proofs::Commits::learned_attempt))]
pub fn attempts_stay_of_their_ticket()
    ensures run { (t : Ticket) (a b : Attempt) → IsSameTask a b → IsAttemptOf t a → IsAttemptOf t b }
    ensures learned { (t : Ticket) (a b : Attempt) (key : Key) (seen : Seen) → b.delivery ≡ a.delivery → b.known ≡ a.known ++ (key, seen) ∷ [] → IsAttemptOf t a → IsAttemptOf t b }
{}
