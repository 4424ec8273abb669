// Real files and streams: the edge that no proof looks behind. They raise a count at each error, and but for what a
// reader of std tells they tell nothing of their content.
ghost use Rattle.std.specs.Prelude.{◌≡◌, None};

use crate::{Failed, FetchFault, Library, Sink, Source};
use std::alloc::Global;
use std::fs;
use std::io::{ErrorKind, Read, Write};
use std::rt::Files;

// One byte more than the longest deck has, so that a longer file is seen to be too long.
const MOST: u64 = 134_217_729;

/// The files of the system, under their paths. A file that is not there is None, and so is one whose name can name no
/// file: a part is too long, or one before the last is no folder. Of a longer file only the first 134,217,729 bytes are
/// read.
#[derive(Drop)]
pub struct FileLibrary<'a, R: Files> {
    rt: &'a R,
    faults: u64,
}

impl<'a, R: Files> FileLibrary<'a, R> {
    /// Takes no memory.
    pub fn new(rt: &'a R) -> Self
        ensures { result.faults ≡ 0 }
    {
        FileLibrary { rt, faults: 0 }
    }
}

impl<'a, R: Files> Library for FileLibrary<'a, R> {
    ghost files = { λ _. None };

    ghost faults = { λ l. l.faults };

    ghost becomes = { λ _ _. Unit {0} };

    ghost fetches = { λ _ _ _. Unit {0} };

    ghost stays = { λ _. tt };

    ghost goes_on = { λ _ _ _ _ _. tt };

    ghost nothing = { λ _. tt };

    ghost in_a_row = { λ _ _ _ _ _ _ _. tt };

    fn faults(&self) -> u64 {
        self.faults
    }

    fn fetch(&mut self, alloc: Global, name: &str) -> Result<Option<Vec<u8>>, FetchFault> {
        let mut bytes = Vec::new(alloc);
        let kind = match fs::open(self.rt, name) {
            Ok(file) => match file.take(MOST).read_to_end(&mut bytes) {
                Ok(_) => return Ok(Some(bytes)),
                Err(error) => error.kind(),
            },
            Err(error) => error.kind(),
        };
        match kind {
            ErrorKind::NotFound | ErrorKind::NotADirectory | ErrorKind::InvalidFilename => Ok(None),
            ErrorKind::OutOfMemory => Err(FetchFault::Memory),
            _ => {
                self.faults = self.faults.saturating_add(1);
                Err(FetchFault::Failed)
            }
        }
    }
}

/// The bytes of a reader, as standard input.
#[derive(Drop)]
pub struct StreamSource<R: Read> {
    reader: R,
    faults: u64,
}

impl<R: Read> StreamSource<R> {
    /// Takes no memory.
    pub fn new(reader: R) -> Self
        ensures { result.faults ≡ 0 }
    {
        StreamSource { reader, faults: 0 }
    }
}

impl<R: Read> Source for StreamSource<R> {
    ghost left = { λ s. R.remaining s.reader };

    ghost faults = { λ s. s.faults };

    fn faults(&self) -> u64 {
        self.faults
    }

    fn read(&mut self, into: &mut [u8]) -> Result<usize, Failed> {
        match self.reader.read(into) {
            Ok(count) => Ok(count),
            Err(_) => {
                self.faults = self.faults.saturating_add(1);
                Err(Failed)
            }
        }
    }
}

/// A writer, as standard output. One that takes nothing of a piece that is not empty has failed.
#[derive(Drop)]
pub struct StreamSink<W: Write> {
    writer: W,
    faults: u64,
}

impl<W: Write> StreamSink<W> {
    /// Takes no memory.
    pub fn new(writer: W) -> Self
        ensures { result.faults ≡ 0 }
    {
        StreamSink { writer, faults: 0 }
    }
}

impl<W: Write> Sink for StreamSink<W> {
    ghost puts = { λ _ _ _. Unit {0} };

    ghost faults = { λ s. s.faults };

    ghost nothing = { λ _. tt };

    ghost in_a_row = { λ _ _ _ _ _ _ _. tt };

    fn faults(&self) -> u64 {
        self.faults
    }

    fn put(&mut self, bytes: &[u8]) -> Result<(), Failed> {
        match self.writer.write_all(bytes) {
            Ok(()) => Ok(()),
            Err(_) => {
                self.faults = self.faults.saturating_add(1);
                Err(Failed)
            }
        }
    }
}
