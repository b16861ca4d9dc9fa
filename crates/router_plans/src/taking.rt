//! Plans in which a line is taken.
ghost use Rattle.std.specs.Prelude.{◌≡◌, ◌++◌, ◌∷◌, ◌≤◌, drop, length, IfOk, IsTrue};
ghost use Rattle.slee_value.specs.Bytes.{spelled_text, spelled_u64};
ghost use Rattle.signal_script.specs.Signals.{is_signal, spelled};
ghost use Rattle.router_steps.specs.Actions.{action_of};
ghost use Rattle.router_steps.specs.Lines.{input_heading};
ghost use Rattle.trace_history.specs.declared.choice.Choice.TheVariants as choices;
ghost use Rattle.router_draft.specs.Drafts.{IsLow};
ghost use Rattle.router_inputs.specs.Acting.{CanTake, answer_in};
ghost use Rattle.router_plans.specs.Plans.{IsBegun};

use router_actions::{Keys, take};
use router_draft::Draft;
use router_inputs::Action;
use router_payloads::{write_clock, write_taking};
use router_steps::Refusal;
use signal_script::Signal;
use slee_value::{NoMemory, Text};
use std::alloc::Global;

/// The spelling of a line, in its heading.
#[tactic(auto, using(crate::proofs::LineLemmas::behind_word))]
fn line_in(heading: &Text) -> &[u8]
    requires { 6 ≤ length heading.now }
    ensures { result.now ≡ drop 6 heading.now }
{
    &heading.as_bytes()["input ".len()..]
}

/// What the journal keeps of a line of this heading.
#[tactic(auto, using(crate::proofs::LineLemmas::line_fits, crate::proofs::LineLemmas::line_behind, crate::proofs::LineLemmas::word_there))]
fn payload(alloc: Global, clock: u64, heading: &Text, signal: &Signal) -> Result<Vec<u8>, NoMemory>
    requires heading { heading.now ≡ input_heading (spelled signal.now) }
    requires valid { IsTrue (is_signal signal.now) }
    ensures { IfOk result (λ bytes. bytes.items ≡ spelled_u64 clock ++ 1 ∷ spelled_text (spelled signal.now)) }
{
    let mut bytes = Vec::new(alloc);
    write_clock(2, clock, &mut bytes)?;
    write_taking(line_in(heading), &mut bytes)?;
    Ok(bytes)
}

/// Plans that the line is taken: it does what was found for it, or is refused.
pub fn begin_taking<K: Keys>(
    alloc: Global,
    keys: &K,
    signal: &Signal,
    answer: Result<Action, Refusal>,
) -> Result<(Draft, Vec<u8>), NoMemory>
    requires valid { IsTrue (is_signal signal.now) }
    requires low { IsLow (K.state keys.now) }
    requires answer { answer_in answer ≡ action_of (K.state keys.now) signal.now }
    requires can { CanTake (answer_in answer) (K.state keys.now) }
    ensures { IfOk result (λ x. IsBegun (K.state keys.now) (choices.Input signal.now) x.0 x.1.items) }
{
    let heading = router_text::input(alloc, signal)?;
    let mut draft = Draft::new(alloc);
    draft.tell(&heading)?;
    take(alloc, keys, &mut draft, answer)?;
    let bytes = payload(alloc, keys.clock(), &heading, signal)?;
    Ok((draft, bytes))
}
