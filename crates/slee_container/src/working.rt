//! What is to be done next, and what is seen of the state.
ghost use Rattle.std.specs.Prelude.{◌≡◌, ◌≢◌, Err, None};
ghost use Rattle.router_state.specs.Show.{show_text};
ghost use Rattle.slee_disk.specs.Writes.{Writes};
ghost use Rattle.slee_container.specs.Container.{state_of};
ghost use Rattle.slee_container.specs.Work.{Offers, has_line, is_left, line_or, next_work, work_left};

use crate::showing::show;
use crate::{Container, OutFault, Work};
use slee_disk::{Disk, Sink};

impl<'d, D: Disk> Container<'d, D> {
    /// Whether a line is left.
    fn has_line(&self) -> bool
        ensures { result ≡ has_line self.now }
    {
        self.taken < self.lines.as_slice().len()
    }

    /// Whether a line is left, or a choice may be made.
    fn is_left(&self) -> bool
        ensures { result ≡ is_left self.now }
    {
        self.has_line()
            || self
                .core
                .state()
                .least(self.core.deployment(), &[])
                .is_some()
    }

    /// A line, where one is left; else waiting for the claims, or nothing.
    fn line_or(&self) -> Work
        ensures { result ≡ line_or self.now }
    {
        if self.taken < self.lines.as_slice().len() {
            return Work::Line;
        }
        if self.claims.is_empty() {
            return Work::Done;
        }
        Work::Idle {
            claims: self.claims.len() as u64,
        }
    }

    /// The choice of the least activity that isn't claimed and has one, else that.
    fn work_left(&self) -> Work
        ensures { result ≡ work_left self.now }
    {
        match self
            .core
            .state()
            .least(self.core.deployment(), &self.claimed)
        {
            Some((activity, kindred)) => Work::Step(activity, kindred),
            None => self.line_or(),
        }
    }

    /// What is to be done next.
    #[tactic(auto, using(crate::proofs::Works::offered))]
    pub fn next_work(&self) -> Work
        ensures work { result ≡ next_work self.now }
        ensures offers { Offers self.now result }
    {
        match self.core.stop() {
            Some(stop) => return Work::Stopped(stop),
            None => {}
        }
        if self.core.state().used_up() {
            return Work::Spent;
        }
        if self.steps <= self.core.len() && self.is_left() {
            return Work::Spent;
        }
        self.work_left()
    }

    /// Writes what the show command prints of the state.
    pub fn show<K: Sink>(&self, out: &mut K) -> Result<(), OutFault>
        ensures written { result ≢ Err OutFault.NoMemory → Writes K.contents K.faults out.old out.new (show_text (state_of self.now)) result }
        ensures nothing { result ≡ Err OutFault.NoMemory → out.new ≡ out.old }
    {
        show(self.alloc, self.core.state(), self.core.deployment(), out)
    }
}
