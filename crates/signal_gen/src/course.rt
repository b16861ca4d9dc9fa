//! What the lines so far leave, and the line after them.
ghost use Rattle.std.specs.Prelude.{◌≡◌, ◌+◌, ◌<◌, ◌≤◌, ◌^◌, map, IfOk, IsTrue};
ghost use Rattle.deploy_model.specs.Resolving.{event_of};
ghost use Rattle.slee_value.specs.Name.{is_name};
ghost use Rattle.signal_script.specs.Signals.{clock_limit, is_signal};
ghost use Rattle.signal_script.specs.declared.signal.Signal.TheVariants as signals;
ghost use Rattle.signal_gen.specs.Generator.{activity_name};

use crate::draw::{Draw, drawn, next_number};
use crate::firing::fire_by;
use deploy_model::EventType;
use signal_script::Signal;
use slee_value::{Name, NoMemory};
use std::alloc::Global;

/// By how much a line of the clock takes it on, in milliseconds.
const SECOND: u64 = 1000;

/// What the lines so far leave: the last number, the activity that each slot holds, how many were started, and the clock.
#[derive(Debug, Clone, Copy)]
pub struct Course {
    pub number: u32,
    pub held: [Option<u32>; 4],
    pub started: u32,
    pub clock: u64,
}

impl Course {
    ghost use Rattle.signal_gen.specs.Generator.{first_course, held_at, line_at, next_line, with_clock, with_end, with_start};

    /// Before the first line all slots are closed.
    pub fn new(seed: u32) -> Self
        ensures { result ≡ first_course seed }
    {
        Course {
            number: seed,
            held: [None, None, None, None],
            started: 0,
            clock: 0,
        }
    }

    /// The next line.
    #[tactic(auto, using(crate::proofs::LineLemmas::holds, crate::proofs::LineLemmas::starts))]
    pub fn next_line(&mut self, alloc: Global, events: &[EventType]) -> Result<Signal, NoMemory>
        requires started { self.old.started + 1 < 2 ^ 32 }
        requires clock { self.old.clock + 1000 ≤ clock_limit }
        ensures line { IfOk result (λ line. (line, self.new) ≡ next_line (map event_of events.now) self.old) }
        ensures valid { IfOk result (λ line. IsTrue (is_signal line)) }
        ensures started { self.new.started ≤ self.old.started + 1 }
        ensures clock { self.new.clock ≤ self.old.clock + 1000 }
    {
        self.number = next_number(self.number);
        let draw = drawn(self.number);
        match self.held_at(draw.slot) {
            Some(activity) => {
                let line = self.line_at(alloc, events, draw, activity)?;
                Ok(line)
            }
            None => {
                let line = self.start(alloc, draw.slot)?;
                Ok(line)
            }
        }
    }

    /// The activity that a slot holds, where the slot isn't closed.
    fn held_at(&self, slot: u32) -> Option<u32>
        ensures { result ≡ held_at self.now slot }
    {
        match self.held.get(slot as usize) {
            Some(held) => *held,
            None => None,
        }
    }

    /// An activity is started, and the slot holds it.
    #[tactic(auto, using(crate::proofs::PlainLemmas::start_valid))]
    fn start(&mut self, alloc: Global, slot: u32) -> Result<Signal, NoMemory>
        requires slot { slot < 4 }
        requires started { self.old.started + 1 < 2 ^ 32 }
        ensures course { self.new ≡ with_start self.old slot }
        ensures line { IfOk result (λ line. line ≡ signals.Start (activity_name (self.old.started + 1))) }
        ensures valid { IfOk result (λ line. IsTrue (is_signal line)) }
    {
        self.started += 1;
        self.held[slot as usize] = Some(self.started);
        let name = activity_name(alloc, self.started)?;
        Ok(Signal::Start { name })
    }

    /// The line of a draw whose slot holds this activity.
    #[tactic(auto, using(crate::proofs::LineLemmas::ends, crate::proofs::LineLemmas::ticks, crate::proofs::LineLemmas::fires, crate::proofs::LineLemmas::ticks_instead))]
    fn line_at(
        &mut self,
        alloc: Global,
        events: &[EventType],
        draw: Draw,
        activity: u32,
    ) -> Result<Signal, NoMemory>
        requires slot { draw.slot < 4 }
        requires clock { self.old.clock + 1000 ≤ clock_limit }
        ensures line { IfOk result (λ line. (line, self.new) ≡ line_at (map event_of events.now) self.old draw activity) }
        ensures valid { IfOk result (λ line. IsTrue (is_signal line)) }
        ensures started { self.new.started ≡ self.old.started }
        ensures clock { self.new.clock ≤ self.old.clock + 1000 }
    {
        let name = activity_name(alloc, activity)?;
        if draw.turn == 0 {
            return Ok(self.end(draw.slot, name));
        }
        if draw.turn == 1 {
            return Ok(self.tick());
        }
        match fire_by(alloc, events, &name, draw.rest)? {
            Some(signal) => Ok(signal),
            None => Ok(self.tick()),
        }
    }

    /// The activity ends, and the slot is closed.
    #[tactic(auto, using(crate::proofs::PlainLemmas::end_valid))]
    fn end(&mut self, slot: u32, name: Name) -> Signal
        requires slot { slot < 4 }
        requires name { IsTrue (is_name name) }
        ensures course { self.new ≡ with_end self.old slot }
        ensures line { result ≡ signals.End name }
        ensures valid { IsTrue (is_signal result) }
    {
        self.held[slot as usize] = None;
        Signal::End { name }
    }

    /// The clock goes on by a second.
    #[tactic(auto, using(crate::proofs::PlainLemmas::clock_valid))]
    fn tick(&mut self) -> Signal
        requires { self.old.clock + 1000 ≤ clock_limit }
        ensures course { self.new ≡ with_clock self.old }
        ensures line { result ≡ signals.Clock (self.old.clock + 1000) }
        ensures valid { IsTrue (is_signal result) }
    {
        self.clock += SECOND;
        Signal::Clock { to: self.clock }
    }
}

/// The activity that was started as this one is called so.
#[tactic(auto, using(crate::proofs::PlainLemmas::name_of_activity))]
fn activity_name(alloc: Global, number: u32) -> Result<Name, NoMemory>
    ensures same { IfOk result (λ name. name ≡ activity_name number) }
    ensures name { IsTrue (is_name (activity_name number)) }
{
    let name = format!(in alloc; "g{number}")?;
    Name::from_slice(alloc, name.as_bytes())
}
