//! Histories over restarts.
ghost use Rattle.std.specs.Prelude.{◌≡◌, ◌+◌, ◌++◌, List, drop, length};
ghost use Rattle.signal_script.specs.declared.signal.Signal.{Signal};
ghost use Rattle.router_laws_histories.specs.Restarts.{IsPrefix};
ghost use Rattle.router_state.specs.State.{State};
ghost use Rattle.router_steps.specs.Histories.{replay};
ghost use Rattle.trace_history.specs.Histories.{inputs_of};
ghost use Rattle.trace_history.specs.declared.entry.Entry.{Entry};

/// A state counts the lines that its history took. So where a run goes on with the lines that an earlier one left, both together
/// took the first lines, each once.
pub fn restarts_take_each_line_once()
    ensures counted { (s : State) (h : List Entry) → (replay s h).inputs ≡ s.inputs + length (inputs_of h) }
    ensures once { (base : State) (h k : List Entry) (lines : List Signal) → base.inputs ≡ 0 → IsPrefix (inputs_of h) lines → IsPrefix (inputs_of k) (drop (replay base h).inputs lines) → IsPrefix (inputs_of (h ++ k)) lines }
{}
