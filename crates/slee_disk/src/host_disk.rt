//! A disk over two files of a folder.
ghost use Rattle.std.specs.Prelude.{◌≡◌, ◌≤◌, None, false};
ghost use Rattle.slee_disk.specs.Causes.{Rose};
ghost use Rattle.slee_disk.specs.Untold.{untold};

use crate::host_files::HostFiles;
use crate::{Disk, Failed, Side};
use std::fs::{File, Files};

/// A disk over two files of a folder. Each is opened at its first use, and made if it isn't there; before it is first
/// written, cut or synced, its folder is synced. Nothing is told of what they hold.
///
/// It holds the system's lock on the file of side A from its first call until it is let go of. Where another disk holds
/// that lock, each call fails, and neither file is read or written. A call that a signal interrupts is tried again, and is no
/// fault.
#[derive(Drop)]
pub struct HostDisk<'a, F: Files<File = File>> {
    files: HostFiles<'a, F>,
    faults: u64,
}

impl<'a, F: Files<File = File>> HostDisk<'a, F> {
    /// The files at the two paths, both in this folder.
    pub fn new(files: F, folder: &'a str, a: &'a str, b: &'a str) -> Self
        ensures folder { result.files.folder.now ≡ folder.now }
        ensures a { result.files.a.path.now ≡ a.now }
        ensures b { result.files.b.path.now ≡ b.now }
        ensures unopened { (result.files.a.file ≡ None) × (result.files.b.file ≡ None) }
        ensures unlocked { result.files.is_locked ≡ false }
        ensures faults { result.faults ≡ 0 }
    {
        HostDisk {
            files: HostFiles::new(files, folder, a, b),
            faults: 0,
        }
    }

    // Counts a fault.
    fn fault(&mut self) -> Failed
        ensures later { self.old.faults ≤ self.new.faults }
        ensures rose { Rose self.old.faults self.new.faults }
    {
        self.faults = self.faults.saturating_add(1);
        Failed
    }
}

impl<F: Files<File = File>> Disk for HostDisk<'_, F> {
    ghost disk = { λ d. untold d.faults };

    fn len(&mut self, side: Side) -> Result<u64, Failed> {
        match self.files.len(side) {
            Ok(length) => Ok(length),
            Err(_) => Err(self.fault()),
        }
    }

    fn read(&mut self, side: Side, at: u64, into: &mut [u8]) -> Result<usize, Failed> {
        match self.files.read(side, at, into) {
            Ok(count) => Ok(count),
            Err(_) => Err(self.fault()),
        }
    }

    fn write_at(&mut self, side: Side, at: u64, bytes: &[u8]) -> Result<(), Failed> {
        match self.files.write_at(side, at, bytes) {
            Ok(()) => Ok(()),
            Err(_) => Err(self.fault()),
        }
    }

    fn cut(&mut self, side: Side, length: u64) -> Result<(), Failed> {
        match self.files.cut(side, length) {
            Ok(()) => Ok(()),
            Err(_) => Err(self.fault()),
        }
    }

    fn sync(&mut self, side: Side) -> Result<(), Failed> {
        match self.files.sync(side) {
            Ok(()) => Ok(()),
            Err(_) => Err(self.fault()),
        }
    }
}
