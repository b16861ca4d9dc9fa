//! The two files of a disk of the host.
ghost use Rattle.std.specs.Prelude.{◌≡◌, ◌≤◌, length, IsTrue, IfOk, OnOk, OnErr, None, true, false};

use crate::again::length_of;
use crate::piece_file::{PieceFile, read_pieces, write_pieces};
use crate::{Failed, Side};
use std::fs::{File, Files, OpenOptions};
use std::io;
use std::os::unix::fs::FileExt;

/// Two files of a folder, under one lock.
#[derive(Drop)]
pub(crate) struct HostFiles<'a, F: Files<File = File>> {
    files: F,
    folder: &'a str,
    a: HostFile<'a>,
    b: HostFile<'a>,
    is_locked: bool,
}

/// A file that is opened at its first use, and made if it isn't there.
#[derive(Drop)]
struct HostFile<'a> {
    path: &'a str,
    file: Option<File>,
    // its folder was synced since it was opened
    is_entered: bool,
}

impl<'a> HostFile<'a> {
    fn new(path: &'a str) -> Self
        ensures path { result.path.now ≡ path.now }
        ensures unopened { result.file ≡ None }
        ensures unentered { result.is_entered ≡ false }
    {
        HostFile {
            path,
            file: None,
            is_entered: false,
        }
    }

    fn open<F: Files<File = File>>(&mut self, files: &F) -> Result<(), Failed> {
        if self.file.is_none() {
            self.file = Some(open_or_make(files, self.path)?);
        }
        Ok(())
    }

    // The file, where it was opened.
    fn file(&self) -> Result<&File, Failed> {
        match &self.file {
            Some(file) => Ok(file),
            None => Err(Failed),
        }
    }

    // Makes sure once that the folder has the file, also where it was found: an earlier run may have made it and stopped
    // before it could. One that fails is tried again.
    fn sync_folder<F: Files<File = File>>(&mut self, files: &F, folder: &str) -> Result<(), Failed>
        ensures ok { OnOk result (self.new ≡ record self.old { is_entered = true }) }
        ensures err { OnErr result (self.new ≡ self.old) }
    {
        if !self.is_entered {
            File::open(files, folder)?.sync_all()?;
            self.is_entered = true;
        }
        Ok(())
    }
}

fn open_or_make<F: Files<File = File>>(files: &F, path: &str) -> io::Result<File> {
    let opened = OpenOptions::new().read(true).write(true).open(files, path);
    match opened {
        Err(error) if error.kind() == io::ErrorKind::NotFound => File::create_new(files, path),
        opened => opened,
    }
}

impl<'a, F: Files<File = File>> HostFiles<'a, F> {
    pub(crate) fn new(files: F, folder: &'a str, a: &'a str, b: &'a str) -> Self
        ensures folder { result.folder.now ≡ folder.now }
        ensures a { result.a.path.now ≡ a.now }
        ensures b { result.b.path.now ≡ b.now }
        ensures unopened { (result.a.file ≡ None) × (result.b.file ≡ None) }
        ensures unlocked { result.is_locked ≡ false }
    {
        HostFiles {
            files,
            folder,
            a: HostFile::new(a),
            b: HostFile::new(b),
            is_locked: false,
        }
    }

    pub(crate) fn len(&mut self, side: Side) -> Result<u64, Failed>
        ensures { OnOk result (IsTrue self.new.is_locked) }
    {
        self.open(side)?;
        Ok(length_of(self.file(side)?)?)
    }

    /// Reads until the buffer is full or the file ends.
    pub(crate) fn read(&mut self, side: Side, at: u64, into: &mut [u8]) -> Result<usize, Failed>
        ensures count { IfOk result (λ n. n ≤ length into.old) }
        ensures locked { OnOk result (IsTrue self.new.is_locked) }
    {
        self.open(side)?;
        let mut file = self.file(side)?;
        read_pieces(&mut file, at, into)
    }

    pub(crate) fn write_at(&mut self, side: Side, at: u64, bytes: &[u8]) -> Result<(), Failed>
        ensures { OnOk result (IsTrue self.new.is_locked) }
    {
        self.open_to_write(side)?;
        let mut file = self.file(side)?;
        write_pieces(&mut file, at, bytes)
    }

    /// Cuts a file to a length; one that is no longer stays as it is.
    pub(crate) fn cut(&mut self, side: Side, to: u64) -> Result<(), Failed>
        ensures { OnOk result (IsTrue self.new.is_locked) }
    {
        self.open_to_write(side)?;
        let file = self.file(side)?;
        if to < length_of(file)? {
            file.set_len(to)?;
        }
        Ok(())
    }

    pub(crate) fn sync(&mut self, side: Side) -> Result<(), Failed>
        ensures { OnOk result (IsTrue self.new.is_locked) }
    {
        self.open_to_write(side)?;
        self.file(side)?.sync_all()?;
        Ok(())
    }

    // Opens a file, under the lock.
    fn open(&mut self, side: Side) -> Result<(), Failed>
        ensures { OnOk result (IsTrue self.new.is_locked) }
    {
        self.lock()?;
        match side {
            Side::A => self.a.open(&self.files),
            Side::B => self.b.open(&self.files),
        }
    }

    // The same, and makes sure that it is found after a crash.
    fn open_to_write(&mut self, side: Side) -> Result<(), Failed>
        ensures { OnOk result (IsTrue self.new.is_locked) }
    {
        self.open(side)?;
        match side {
            Side::A => self.a.sync_folder(&self.files, self.folder),
            Side::B => self.b.sync_folder(&self.files, self.folder),
        }
    }

    // Takes the lock once: the system's, on the file of side A. Where another holds it, this fails, and is tried again at
    // the next call. The system gives it back where that file is closed, also where the program is killed.
    fn lock(&mut self) -> Result<(), Failed>
        ensures { OnOk result (IsTrue self.new.is_locked) }
    {
        if !self.is_locked {
            self.a.open(&self.files)?;
            self.a.file()?.try_lock()?;
            self.is_locked = true;
        }
        Ok(())
    }

    fn file(&self, side: Side) -> Result<&File, Failed> {
        match side {
            Side::A => self.a.file(),
            Side::B => self.b.file(),
        }
    }
}

impl PieceFile for &File {
    ghost content = { λ _. None };

    fn read_piece(&mut self, at: u64, into: &mut [u8]) -> io::Result<usize> {
        self.read_at(into, at)
    }

    fn write_piece(&mut self, at: u64, bytes: &[u8]) -> io::Result<usize> {
        FileExt::write_at(*self, bytes, at)
    }
}
