//! Readers and writers of std as a source and a sink, with their faults counted.
ghost use Rattle.std.specs.Prelude.{◌≡◌, None};

use crate::again::{read_again, write_again};
use crate::{Failed, Sink, Source};
use std::fs::{File, Files};
use std::io::{self, Read, Write};

/// A source over a reader. It tells what the reader tells. A read that a signal interrupts is no fault.
#[derive(Drop)]
pub struct HostSource<R: Read> {
    reader: R,
    faults: u64,
}

impl<R: Read> HostSource<R> {
    pub fn new(reader: R) -> Self
        ensures { result ≡ record { reader = reader; faults = 0 } }
    {
        HostSource { reader, faults: 0 }
    }
}

impl<R: Read> Source for HostSource<R> {
    ghost left = { λ s. R.remaining s.reader };

    ghost faults = { λ s. s.faults };

    fn read(&mut self, into: &mut [u8]) -> Result<usize, Failed> {
        match read_again(&mut self.reader, into) {
            Ok(count) => Ok(count),
            Err(_) => {
                self.faults = self.faults.saturating_add(1);
                Err(Failed)
            }
        }
    }
}

/// A sink over a writer. It tells what the writer tells. A write that a signal interrupts is no fault.
#[derive(Drop)]
pub struct HostSink<W: Write> {
    writer: W,
    faults: u64,
}

impl<W: Write> HostSink<W> {
    pub fn new(writer: W) -> Self
        ensures { result ≡ record { writer = writer; faults = 0 } }
    {
        HostSink { writer, faults: 0 }
    }
}

impl<W: Write> Sink for HostSink<W> {
    ghost contents = { λ s. W.contents s.writer };

    ghost faults = { λ s. s.faults };

    fn write(&mut self, bytes: &[u8]) -> Result<usize, Failed> {
        match write_again(&mut self.writer, bytes) {
            Ok(0) => {
                self.faults = self.faults.saturating_add(1);
                Ok(0)
            }
            Ok(count) => Ok(count),
            Err(_) => {
                self.faults = self.faults.saturating_add(1);
                Err(Failed)
            }
        }
    }
}

/// A file that is opened at its first read. It tells nothing of its bytes.
#[derive(Drop)]
pub struct LateFile<'a, F: Files> {
    files: F,
    path: &'a str,
    file: Option<F::File>,
}

impl<'a, F: Files> LateFile<'a, F> {
    pub fn new(files: F, path: &'a str) -> Self
        ensures path { result.path.now ≡ path.now }
        ensures unopened { result.file ≡ None }
    {
        LateFile {
            files,
            path,
            file: None,
        }
    }
}

impl<F: Files> Read for LateFile<'_, F> {
    fn read(&mut self, buf: &mut [u8]) -> io::Result<usize> {
        if self.file.is_none() {
            self.file = Some(File::open(&self.files, self.path)?);
        }
        match &mut self.file {
            Some(file) => file.read(buf),
            None => Err(io::ErrorKind::NotFound.into()),
        }
    }
}
