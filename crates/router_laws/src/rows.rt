//! Worked examples, by computation.
ghost use Rattle.std.specs.Prelude.{◌≡◌, ℕ, pos, negsuc, true, false, [], ◌∷◌, map, codes, Some, None, option_map, Err};
ghost use Rattle.signal_script.specs.declared.signal.Signal.TheVariants as signals;
ghost use Rattle.deploy_model.specs.Selecting.{service_order};
ghost use Rattle.deploy_model.specs.declared.choice.SelectRule.TheVariants as rules;
ghost use Rattle.router_laws.specs.Samples.{low_and_high, at_first, started, fired_ping, selected, periodic, three_timers};
ghost use Rattle.router_state.specs.Next.{next, receives_at, least};
ghost use Rattle.router_state.specs.Paths.{path_before};
ghost use Rattle.router_state.specs.Timers.{advanced};
ghost use Rattle.router_state.specs.declared.kindred.Kindred.TheVariants as kindreds;
ghost use Rattle.router_steps.specs.Actions.{action_of};
ghost use Rattle.router_steps.specs.Selection.{custom_name};
ghost use Rattle.router_state.specs.Timing.{fired, fired_in_all};
ghost use Rattle.router_steps.specs.declared.refusal.Refusal.TheVariants as refusals;
ghost use Rattle.slee_value.specs.declared.keep.Keep.TheVariants as keeps;

/// The four rules of custom selection on a number and on one that is screened.
pub fn rules_give_names()
    ensures whole { custom_name rules.Whole (codes "tel:5551") ≡ Some (codes "tel:5551") }
    ensures digits { custom_name rules.Digits3 (codes "tel:5551") ≡ Some (codes "555") }
    ensures scheme { custom_name rules.Scheme (codes "tel:5551") ≡ Some (codes "tel") }
    ensures screened { custom_name rules.Screened (codes "anon:1") ≡ None }
{}

/// A parent comes before its child whatever its priority, a higher priority before a lower one, and on a tie the lower number.
pub fn paths_go_by_priority()
    ensures parent { path_before ((negsuc 127, 1) ∷ []) ((negsuc 127, 1) ∷ (pos 127, 2) ∷ []) ≡ true }
    ensures child { path_before ((negsuc 127, 1) ∷ (pos 127, 2) ∷ []) ((negsuc 127, 1) ∷ []) ≡ false }
    ensures higher { path_before ((pos 0, 1) ∷ (pos 127, 3) ∷ []) ((pos 0, 1) ∷ (pos 0, 2) ∷ []) ≡ true }
    ensures tie { path_before ((pos 0, 1) ∷ (pos 0, 2) ∷ []) ((pos 0, 1) ∷ (pos 0, 3) ∷ []) ≡ true }
{}

/// The service of higher priority selects before one that was deployed first.
pub fn services_select_by_priority()
    ensures order { map (λ x. x.0) (service_order low_and_high.services) ≡ 1 ∷ 0 ∷ [] }
    ensures next { next fired_ping 1 ≡ Some kindreds.Initial }
    ensures least { least fired_ping [] ≡ Some (1, kindreds.Initial) }
    ensures claimed { least fired_ping (1 ∷ []) ≡ None }
    ensures second { next (selected fired_ping) 1 ≡ Some kindreds.Initial }
    ensures delivery { next (selected (selected fired_ping)) 1 ≡ Some kindreds.Deliver }
    ensures attached { map (λ l. l.entity.0) (selected (selected fired_ping)).links ≡ 1 ∷ 2 ∷ [] }
    ensures first { option_map (λ x. x.1.number.0) (receives_at (selected (selected fired_ping)) 1) ≡ Some 1 }
{}

/// Lines that are refused: a name in use, one that nothing has, an event that nobody declared, a service, a field too many.
pub fn lines_are_refused()
    ensures exists { action_of started (signals.Start (codes "c1")) ≡ Err refusals.Exists }
    ensures unknown { action_of at_first (signals.End (codes "c1")) ≡ Err refusals.UnknownActivity }
    ensures event { action_of started (signals.Fire (codes "c1") (codes "pong") None []) ≡ Err refusals.UnknownEvent }
    ensures built_in { action_of started (signals.Fire (codes "c1") (codes "timer") None []) ≡ Err refusals.UnknownEvent }
    ensures service { action_of started (signals.Fire (codes "c1") (codes "ping") (Some (codes "mid")) []) ≡ Err refusals.UnknownService }
    ensures fields { action_of started (signals.Fire (codes "c1") (codes "ping") None ((codes "n", codes "1") ∷ [])) ≡ Err refusals.BadFields }
    ensures active { action_of at_first (signals.Activate (codes "low")) ≡ Err refusals.NotInactive }
    ensures table { action_of at_first (signals.ProfileRemove (codes "accounts") (codes "x")) ≡ Err refusals.UnknownTable }
{}

/// Of missed occurrences of three timers all are fired, the last, and none but one that is due at the very moment.
pub fn timers_fire_by_their_keeping()
    ensures first { map (λ x. x.timer) (fired 3000 three_timers) ≡ 1 ∷ 1 ∷ 1 ∷ 2 ∷ 3 ∷ [] }
    ensures later { map (λ x. x.timer) (fired 6500 (advanced three_timers 3000)) ≡ 1 ∷ 1 ∷ 1 ∷ 2 ∷ [] }
    ensures many { fired_in_all 10001 (periodic 1 1 1 keeps.All ∷ []) ≡ 10001 }
    ensures none { fired 999 three_timers ≡ [] }
{}
