//! Opening what a disk keeps.
ghost use Rattle.std.specs.Prelude.{◌≡◌, ◌≢◌, ◌≤◌, [], IfErr, IfOk, IsTrue, OnOk};
ghost use Rattle.commit_journal.specs.declared.limits.TheConstants.{SIDE_LIMIT};
ghost use Rattle.commit_journal.specs.declared.stage.Stage.TheVariants.{Stopped};
ghost use Rattle.commit_journal.specs.Kept.{Stands};
ghost use Rattle.deploy_model.specs.Resolving.{deployed_of};
ghost use Rattle.router_core.specs.States.{IsOwn};
ghost use Rattle.router_laws_kept.specs.Kept.{IsKeepable};
ghost use Rattle.router_durable.specs.Facts.{initial_of};
ghost use Rattle.router_durable.specs.Opening.{begin_fault_of, fault_of, IsRefused, Opens};
ghost use Rattle.router_durable.specs.Taking.{start_left, IsNotTaken, IsTaken, Takes};
ghost use Rattle.script_types.specs.ProgramOf.{kept_program};

use crate::planning::Planning;
use crate::replaying::{Restored, replayed};
use crate::{Core, OpenFault};
use commit_journal::{BeginFault, Journal, JournalFault};
use initial_select::Selectors;
use router_core::State;
use slee_descriptor::Deployment;
use slee_disk::Disk;
use std::alloc::Global;
use std::snapshot::Snapshot;
use trace_history::History;

impl<'d, D: Disk> Core<'d, D> {
    /// Opens what a disk keeps of this deployment, whose document has these bytes. It replays all records before it writes
    /// anything, and takes over a journal of the first format. `limit` is the most bytes that a side of the journal may come to have.
    pub fn open(
        alloc: Global,
        disk: D,
        deployment: &'d Deployment,
        bytes: &'d [u8],
        limit: u64,
        selectors: &Selectors,
    ) -> Result<Core<'d, D>, (OpenFault, D)>
        requires limit { limit ≤ SIDE_LIMIT }
        requires own { IsOwn deployment.now (initial_of deployment.now.parts deployment.now.codes) }
        requires keepable { IsKeepable (deployed_of deployment.now.parts) (kept_program deployment.now.codes) }
        ensures opened { IfOk result (λ c. Opens (D.disk disk) (D.disk c.disk) (initial_of deployment.now.parts deployment.now.codes) bytes.now limit c) }
        ensures refused { IfErr result (λ e. IsRefused (D.disk disk) (D.disk e.1) (initial_of deployment.now.parts deployment.now.codes) bytes.now limit e.0) }
    {
        let opened = Snapshot::of(&disk);
        let mut journal = match Journal::open(alloc, disk, bytes, limit) {
            Ok(found) => found,
            Err((fault, disk)) => return Err((open_fault(fault), disk)),
        };
        let planning = Planning {
            alloc,
            deployment,
            selectors,
        };
        let Restored { start, state } = match replayed(planning, &journal) {
            Ok(replayed) => replayed,
            Err(fault) => return Err((fault, journal.into_disk())),
        };
        let read = Snapshot::of(&journal);
        let start = match taken_over(planning, &mut journal, &state, start) {
            Ok(start) => start,
            Err(fault) => return Err((fault, journal.into_disk())),
        };
        let begun = Snapshot::of(&journal);
        Ok(Core {
            alloc,
            journal,
            deployment,
            bytes,
            state,
            history: History::new(alloc),
            acked: 0,
            stop: None,
            opened,
            read,
            begun,
            start,
            torn: false,
        })
    }
}

/// Makes a journal ready for records, which was replayed to this state from that start. One of the first format is renewed with a
/// snapshot of the state. The answer is the state on which its records follow then.
fn taken_over<D: Disk>(
    planning: Planning<'_>,
    journal: &mut Journal<D>,
    state: &State,
    start: Snapshot<State>,
) -> Result<Snapshot<State>, OpenFault>
    requires running { journal.old.stage ≢ Stopped }
    requires idle { journal.old.batch ≡ [] }
    requires stands { IsTrue (D.disk journal.old.disk).told → Stands journal.old.stage journal.old.kept (D.disk journal.old.disk).seen }
    requires deployed { deployed_of planning.deployment.now.parts ≡ state.now.state.deployment }
    ensures start { IfOk result (λ s. s.value.state ≡ start_left state.now.state start.value.state journal.old.kept.head.format) }
    ensures taken { OnOk result (IsTaken D.disk state.now.state journal.old journal.new) }
    ensures refused { IfErr result (λ e. IsNotTaken D.disk state.now.state journal.old e journal.new) }
    ensures takes { Takes D.disk state.now.state journal.old journal.new }
{
    if journal.format() == 2 {
        return match journal.begin() {
            Ok(()) => Ok(start),
            Err(fault) => Err(begin_fault(fault)),
        };
    }
    let Ok(text) = state.snapshot_text(planning.alloc, planning.deployment) else {
        return Err(OpenFault::NoMemory);
    };
    match journal.renew(&text) {
        Ok(_) => Ok(Snapshot::of(state)),
        Err(fault) => Err(begin_fault(fault)),
    }
}

/// A fault of the journal, as one of opening.
fn open_fault(fault: JournalFault) -> OpenFault
    ensures { result ≡ fault_of fault }
{
    match fault {
        JournalFault::DiskFault => OpenFault::DiskFault,
        JournalFault::BadJournal { side, at, kind } => OpenFault::BadJournal { side, at, kind },
        JournalFault::OtherDeployment {
            kept_len,
            first_difference,
        } => OpenFault::OtherDeployment {
            kept_len,
            first_difference,
        },
        JournalFault::NoMemory => OpenFault::NoMemory,
    }
}

/// A fault of its beginning.
fn begin_fault(fault: BeginFault) -> OpenFault
    ensures { result ≡ begin_fault_of fault }
{
    match fault {
        BeginFault::DiskFault => OpenFault::DiskFault,
        BeginFault::Full { length, adding } => OpenFault::Full { length, adding },
        BeginFault::NoMemory => OpenFault::NoMemory,
    }
}
