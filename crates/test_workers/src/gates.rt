//! Gates by which workers run attempts: some tell what was asked of them, others are slow, or find no memory.
use slee_descriptor::Deployment;
use slee_value::NoMemory;
use std::sync::atomic::{AtomicU64, Ordering};
use std::thread;
use tx_attempt::{Attempt, Progress, Ticket};
use worker_gate::Gate;

/// A gate that counts how often attempts were run, and those that came to their end.
#[derive(Drop)]
pub struct Counting {
    pub runs: AtomicU64,
    pub done: AtomicU64,
}

impl Counting {
    pub fn new() -> Counting {
        Counting {
            runs: AtomicU64::new(0),
            done: AtomicU64::new(0),
        }
    }
}

impl Gate for Counting {
    fn run(
        &self,
        _worker: u64,
        _ticket: &Ticket,
        attempt: &mut Attempt,
        deployment: &Deployment,
    ) -> Result<Progress, NoMemory> {
        self.runs.fetch_add(1, Ordering::SeqCst);
        let progress = attempt.run(deployment)?;
        if let Progress::Done = progress {
            self.done.fetch_add(1, Ordering::SeqCst);
        }
        Ok(progress)
    }
}

/// How often the first run is put off while no other has begun.
const PATIENCE: u64 = 1_000_000;

/// A gate whose first run waits until one for another activity has begun.
#[derive(Drop)]
pub struct Meeting {
    /// Whether a run has begun.
    pub begun: AtomicU64,
    /// The first two activities.
    pub one: AtomicU64,
    pub other: AtomicU64,
    /// Whether the first run saw another begin.
    pub met: AtomicU64,
    pub one_done: AtomicU64,
    pub other_done: AtomicU64,
}

impl Meeting {
    pub fn new() -> Meeting {
        Meeting {
            begun: AtomicU64::new(0),
            one: AtomicU64::new(0),
            other: AtomicU64::new(0),
            met: AtomicU64::new(0),
            one_done: AtomicU64::new(0),
            other_done: AtomicU64::new(0),
        }
    }

    /// Waits a while for a run of another activity.
    fn wait_for_other(&self) {
        for _ in 0..PATIENCE {
            if self.other.load(Ordering::SeqCst) != 0 {
                self.met.store(1, Ordering::SeqCst);
                return;
            }
            thread::yield_now();
        }
    }

    /// Takes down that a run of this activity begins; the first one waits.
    fn begin(&self, activity: u64) {
        if self.begun.swap(1, Ordering::SeqCst) == 0 {
            self.one.store(activity, Ordering::SeqCst);
            self.wait_for_other();
        } else if self.one.load(Ordering::SeqCst) != activity {
            self.other.store(activity, Ordering::SeqCst);
        }
    }

    /// Takes down that an attempt of this activity came to its end.
    fn end(&self, activity: u64) {
        if self.one.load(Ordering::SeqCst) == activity {
            self.one_done.store(1, Ordering::SeqCst);
        } else {
            self.other_done.store(1, Ordering::SeqCst);
        }
    }
}

impl Gate for Meeting {
    fn run(
        &self,
        _worker: u64,
        ticket: &Ticket,
        attempt: &mut Attempt,
        deployment: &Deployment,
    ) -> Result<Progress, NoMemory> {
        self.begin(ticket.activity.0);
        let progress = attempt.run(deployment)?;
        if let Progress::Done = progress {
            self.end(ticket.activity.0);
        }
        Ok(progress)
    }
}

/// How often a slow gate lets other threads go first.
const SLOWNESS: u64 = 300;

/// A gate at which each run takes long.
pub struct Slow;

impl Gate for Slow {
    fn run(
        &self,
        _worker: u64,
        _ticket: &Ticket,
        attempt: &mut Attempt,
        deployment: &Deployment,
    ) -> Result<Progress, NoMemory> {
        for _ in 0..SLOWNESS {
            thread::yield_now();
        }
        attempt.run(deployment)
    }
}

/// A gate that finds no memory for one run.
#[derive(Drop)]
pub struct Starving {
    /// How many runs were asked for.
    pub asked: AtomicU64,
    /// How many of them come before that one.
    pub fed: u64,
}

impl Starving {
    pub fn behind(fed: u64) -> Starving {
        Starving {
            asked: AtomicU64::new(0),
            fed,
        }
    }
}

impl Gate for Starving {
    fn run(
        &self,
        _worker: u64,
        _ticket: &Ticket,
        attempt: &mut Attempt,
        deployment: &Deployment,
    ) -> Result<Progress, NoMemory> {
        if self.asked.fetch_add(1, Ordering::SeqCst) == self.fed {
            return Err(NoMemory);
        }
        attempt.run(deployment)
    }
}
