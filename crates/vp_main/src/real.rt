//! Files, a reader and a writer as store, source and sink. They tell nothing of their content, and
//! each counts its faults from 0. The count stays at its last value.
ghost use Rattle.std.specs.Prelude.{◌<◌, ◌≤◌, None, IfSome, length, string_bytes};
ghost use Rattle.vp_outside.specs.Counts.{held_count, held_count-bounded};

use std::alloc::Global;
use std::io::{Read, Write};
use std::rt::Files;
use std::{fs, io};
use vp_outside::{Failed, LoadErr, Loaded, Sink, Source, Store};

/// The files of the system.
#[derive(Drop)]
pub struct FileStore<'a, R: Files> {
    rt: &'a R,
    faults: u64,
    failed: String,
}

impl<'a, R: Files> FileStore<'a, R> {
    /// A store that has not failed yet.
    pub fn new(alloc: Global, rt: &'a R) -> FileStore<'a, R> {
        FileStore {
            rt,
            faults: 0,
            failed: String::new(alloc),
        }
    }
}

/// Reads a file, at most one byte more than `max`.
fn read_file<R: Files>(rt: &R, name: &str, max: u32, into: &mut Vec<u8>) -> io::Result<()> {
    fs::open(rt, name)?
        .take(u64::from(max) + 1)
        .read_to_end(into)?;
    Ok(())
}

impl<'a, R: Files> Store for FileStore<'a, R> {
    ghost files = { λ _. None };

    ghost faults = { λ s. held_count s.faults };

    ghost failed = { λ s. string_bytes s.failed };

    /// Copies the name before it opens the file, and keeps the one that failed last.
    fn load(
        &mut self,
        alloc: Global,
        name: &str,
        max: u32,
        into: &mut Vec<u8>,
    ) -> Result<Loaded, LoadErr> {
        into.clear();
        let copy = String::from_str(alloc, name)?;
        match read_file(self.rt, name, max, into) {
            Ok(()) if into.len() <= max as usize => Ok(Loaded::Whole),
            Ok(()) => {
                into.clear();
                Ok(Loaded::TooLong)
            }
            Err(error) if error.kind() == io::ErrorKind::OutOfMemory => Err(LoadErr::Memory),
            Err(_) => {
                self.faults = self.faults.saturating_add(1);
                self.failed = copy;
                Err(LoadErr::Failed)
            }
        }
    }

    ghost bounded = { λ s. held_count-bounded s.faults };
}

/// What a reader gives.
#[derive(Drop)]
pub struct ReaderSource<R: Read> {
    inner: R,
    faults: u64,
}

impl<R: Read> ReaderSource<R> {
    /// A source that has not failed yet.
    pub fn new(inner: R) -> ReaderSource<R> {
        ReaderSource { inner, faults: 0 }
    }
}

impl<R: Read> Source for ReaderSource<R> {
    ghost left = { λ _. None };

    ghost faults = { λ s. held_count s.faults };

    fn read(&mut self, buf: &mut [u8]) -> Result<usize, Failed> {
        match self.inner.read(buf) {
            Ok(count) => Ok(count),
            Err(_) => {
                self.faults = self.faults.saturating_add(1);
                Err(Failed)
            }
        }
    }

    ghost bounded = { λ s. held_count-bounded s.faults };
}

/// What a writer takes. Each piece is flushed.
#[derive(Drop)]
pub struct WriterSink<W: Write> {
    inner: W,
    faults: u64,
}

impl<W: Write> WriterSink<W> {
    /// A sink that has not failed yet.
    pub fn new(inner: W) -> WriterSink<W> {
        WriterSink { inner, faults: 0 }
    }
}

/// Writes a front of the piece and flushes it. None where either fails or nothing is taken.
fn write_through<W: Write>(inner: &mut W, piece: &[u8]) -> Option<usize>
    requires { 0 < length piece.now }
    ensures { IfSome result (λ n. (0 < n) × (n ≤ length piece.now)) }
{
    let count = inner.write(piece).ok()?;
    if count == 0 {
        return None;
    }
    inner.flush().ok()?;
    Some(count)
}

impl<W: Write> Sink for WriterSink<W> {
    ghost written = { λ _. None };

    ghost faults = { λ s. held_count s.faults };

    fn write(&mut self, piece: &[u8]) -> Result<usize, Failed> {
        match write_through(&mut self.inner, piece) {
            Some(count) => Ok(count),
            None => {
                self.faults = self.faults.saturating_add(1);
                Err(Failed)
            }
        }
    }

    ghost bounded = { λ s. held_count-bounded s.faults };
}
