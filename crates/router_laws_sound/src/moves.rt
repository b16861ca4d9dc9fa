//! Moves.
ghost use Rattle.std.specs.Prelude.{◌≡◌, ◌+◌, ℕ, true, false, [], List, None, Option};
ghost use Rattle.slee_value.specs.declared.value.Value.{Value};
ghost use Rattle.router_laws_sound.specs.Moves.{CanEnd, CanFire};
ghost use Rattle.router_state.specs.State.{State};
ghost use Rattle.router_state.specs.Contexts.{is_active};
ghost use Rattle.router_state.specs.Fits.{is_u64};
ghost use Rattle.router_state.specs.Queues.{activity_end};
ghost use Rattle.router_state.specs.Well.{IsSound};
ghost use Rattle.router_state.specs.WellQueues.{is_end};
ghost use Rattle.router_steps.specs.Moves.{ended, queued};

/// An event that fits keeps every part sound where it is fired on an Active activity, and so does the end of an activity.
pub fn moves_keep_states_sound()
    ensures queued { (s : State) (a : ℕ) (name : List ℕ) (fields : List (List ℕ × Value)) (target : Option ℕ) → IsSound s → CanFire s.deployment s.activities s.next_activity s.next_timer s.next_event a (record { id = record { 0 = s.next_event }; name = name; fields = fields; target = target }) → is_active s.activities a ≡ true → is_end (record { id = record { 0 = s.next_event }; name = name; fields = fields; target = target }) ≡ false → is_u64 (s.next_event + 1) ≡ true → IsSound (queued s a name fields target) }
    ensures ended { (s : State) (a : ℕ) → IsSound s → CanEnd s a → CanFire s.deployment s.activities s.next_activity s.next_timer s.next_event a (record { id = record { 0 = s.next_event }; name = activity_end; fields = []; target = None }) → is_u64 (s.next_event + 1) ≡ true → IsSound (ended s a) }
{}
