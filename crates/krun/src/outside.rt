// The files and the output of the machine that the program runs on.
ghost use Rattle.std.specs.Prelude.{◌≡◌, ◌<◌, ◌≤◌, None, length, IfOk, OnErr};
ghost use Rattle.std.specs.Io.KnownBytes.{WriteAppends};
ghost use Rattle.k_edge.specs.Faults.{Rose};

use k_edge::{Failed, Shelf, Sink};
use std::fs::Files;
use std::io::{ErrorKind, Print, Read, Seek, SeekFrom, Write};
use std::marker::Model;
use std::{fs, io};

/// The files of the machine by their paths, and how many reads failed. Each read opens its file anew.
#[derive(Drop)]
pub struct FileShelf<'a, R> {
    files: &'a R,
    faults: u64,
}

impl<'a, R> Model for FileShelf<'a, R> {
    ghost use Rattle.std.specs.Prelude.{ℕ};

    ghost Value = { ℕ };

    ghost view = { λ it. it.faults };
}

impl<'a, R: Files> FileShelf<'a, R> {
    /// The files of the machine.
    pub fn new(files: &'a R) -> FileShelf<'a, R> {
        FileShelf { files, faults: 0 }
    }
}

/// Reads once, from this byte of the file on.
fn read_once<R: Files>(files: &R, name: &str, at: u64, buf: &mut [u8]) -> io::Result<usize>
    ensures bound { IfOk result (λ n. n ≤ length buf.old) }
{
    let mut file = fs::open(files, name)?;
    file.seek(SeekFrom::Start(at))?;
    file.read(buf)
}

/// Reads, and again where the read was interrupted.
fn read_uninterrupted<R: Files>(
    files: &R,
    name: &str,
    at: u64,
    buf: &mut [u8],
) -> Result<usize, Failed>
    ensures bound { IfOk result (λ n. n ≤ length buf.old) }
{
    for _ in 0..u64::MAX {
        match read_once(files, name, at, buf) {
            Ok(count) => return Ok(count),
            Err(error) if error.kind() == ErrorKind::Interrupted => {}
            Err(_) => return Err(Failed),
        }
    }
    Err(Failed)
}

/// Nothing is told of the files.
impl<R: Files> Shelf for FileShelf<'_, R> {
    ghost told = { λ _ _. None };

    ghost faults = { λ shelf _. shelf };

    fn read(&mut self, name: &str, at: u64, buf: &mut [u8]) -> Result<usize, Failed>
        requires { 0 < length buf.old }
        ensures bound { IfOk result (λ n. n ≤ length buf.old) }
        ensures later { self.old ≤ self.new }
        ensures failed { OnErr result (Rose self.old self.new) }
    {
        let read = read_uninterrupted(self.files, name, at, buf);
        if read.is_err() {
            self.faults = self.faults.saturating_add(1);
        }
        read
    }
}

/// The output of the machine, and how many writes failed.
#[derive(Drop)]
pub struct StdSink<'a, P> {
    out: &'a P,
    faults: u64,
}

impl<'a, P> Model for StdSink<'a, P> {
    ghost use Rattle.std.specs.Prelude.{ℕ};

    ghost Value = { ℕ };

    ghost view = { λ it. it.faults };
}

impl<'a, P: Print> StdSink<'a, P> {
    /// The output of the machine.
    pub fn new(out: &'a P) -> StdSink<'a, P> {
        StdSink { out, faults: 0 }
    }
}

/// Writes some bytes, and again where the write was interrupted. To write none is a fault.
fn write_uninterrupted<P: Print>(out: &P, buf: &[u8]) -> Result<usize, Failed>
    ensures bound { IfOk result (λ n. (1 ≤ n) × (n ≤ length buf.now)) }
    ensures bytes { WriteAppends None None result buf.now }
{
    for _ in 0..u64::MAX {
        match io::writer(out).write(buf) {
            Ok(0) => return Err(Failed),
            Ok(count) => return Ok(count),
            Err(error) if error.kind() == ErrorKind::Interrupted => {}
            Err(_) => return Err(Failed),
        }
    }
    Err(Failed)
}

/// Nothing is told of the bytes that were taken.
impl<P: Print> Sink for StdSink<'_, P> {
    ghost taken = { λ _. None };

    ghost faults = { λ sink. sink };

    fn write(&mut self, buf: &[u8]) -> Result<usize, Failed>
        requires { 0 < length buf.now }
        ensures bound { IfOk result (λ n. (1 ≤ n) × (n ≤ length buf.now)) }
        ensures bytes { WriteAppends None None result buf.now }
        ensures later { self.old ≤ self.new }
        ensures cause { OnErr result (Rose self.old self.new) }
    {
        let written = write_uninterrupted(self.out, buf);
        if written.is_err() {
            self.faults = self.faults.saturating_add(1);
        }
        written
    }
}
