//! The files of the system as a shelf, and its output as a sink.
ghost use Rattle.std.specs.Prelude.{◌≡◌, ◌≢◌, ◌↔◌, ◌+◌, ◌≤◌, [], length};
ghost use Rattle.std.specs.Prelude.{None, IfOk, IfErr, OnOk, OnErr, option_map, string_bytes};
ghost use Rattle.std.specs.Io.{ReadsAtMost, WritesAtMost};
ghost use Rattle.std.specs.Io.KnownBytes.{ReadConsumes, WriteAppends, Consumes, IsAtEnd};
ghost use Rattle.std.specs.IoError.{error_kind};
ghost use Rattle.cap_io.specs.declared.shelf.FetchError.TheVariants.{Failed, OutOfMemory};
ghost use Rattle.cap_io.specs.Outside.{longest, Blames, Gains, GainsPrefix, Gives};
ghost use Rattle.cap_io.specs.Reading.{IsReadError};

use crate::given::Given;
use crate::shelf::LONGEST_FILE;
use crate::{FetchError, PutFailed, Shelf, Sink};
use std::alloc::Global;
use std::fs::File;
use std::io;
use std::io::{ErrorKind, Read, Write};
use std::rt::Files;

/// How many bytes are read at once.
const CHUNK: usize = 4096;

/// The files of the system, by their paths. It does not tell them, so a file that is not there is a
/// fault. A file is read until its end or until 67,108,865 bytes were seen; one with so many is refused
/// as too long, also where memory is short.
#[derive(Drop)]
pub struct FileShelf<'a, R: Files> {
    rt: &'a R,
    alloc: Global,
    faults: u64,
    blamed: Option<String>,
    given: Given,
}

impl<'a, R: Files> FileShelf<'a, R> {
    /// The shelf of the files that the runtime reaches.
    pub fn new(alloc: Global, rt: &'a R) -> FileShelf<'a, R>
        ensures holds { (⟦<FileShelf<'a, R> as Shelf>⟧.seen result).holds ≡ None }
        ensures given { (⟦<FileShelf<'a, R> as Shelf>⟧.seen result).given ≡ [] }
        ensures faults { (⟦<FileShelf<'a, R> as Shelf>⟧.seen result).faults ≡ 0 }
        ensures blamed { (⟦<FileShelf<'a, R> as Shelf>⟧.seen result).blamed ≡ None }
    {
        FileShelf {
            rt,
            alloc,
            faults: 0,
            blamed: None,
            given: Given::nothing(),
        }
    }

    /// Notes what a fetch of this name answers.
    fn note(&mut self, name: String, answer: &Result<Vec<u8>, FetchError>)
        ensures given { Gives (string_bytes name) (⟦<FileShelf<'a, R> as Shelf>⟧.seen self.old)
            (⟦<FileShelf<'a, R> as Shelf>⟧.seen self.new) answer.now }
        ensures later { self.old.faults ≤ self.new.faults }
        ensures blame { Blames (string_bytes name) (⟦<FileShelf<'a, R> as Shelf>⟧.seen self.old)
            (⟦<FileShelf<'a, R> as Shelf>⟧.seen self.new) answer.now }
    {
        match answer {
            Ok(bytes) => self.given = self.given.and(&name, bytes),
            Err(FetchError::Failed) => {
                self.faults = self.faults.saturating_add(1);
                self.blamed = Some(name);
            }
            Err(_) => {}
        }
    }
}

/// What a fetch answers where the system reports this error.
fn read_error(error: io::Error) -> FetchError
    ensures memory { (result ≡ OutOfMemory) ↔ (error_kind error ≡ ErrorKind.OutOfMemory) }
    ensures other { error_kind error ≢ ErrorKind.OutOfMemory → result ≡ Failed }
{
    if error.kind() == ErrorKind::OutOfMemory {
        FetchError::OutOfMemory
    } else {
        FetchError::Failed
    }
}

/// Reads once, and again where the call is interrupted.
#[tactic(auto, using(crate::proofs::Known::keeps_same, crate::proofs::Known::keeps_twice, crate::proofs::Known::reads_kept))]
fn read_some<F: Read>(file: &mut F, buffer: &mut [u8]) -> io::Result<usize>
    ensures bound { ReadsAtMost result buffer.new }
    ensures bytes { ReadConsumes (F.remaining file.old) (F.remaining file.new) result buffer.new }
{
    for _ in 0..u64::MAX {
        match file.read(buffer) {
            Err(error) if error.kind() == ErrorKind::Interrupted => {}
            answer => return answer,
        }
    }
    Err(io::Error::from(ErrorKind::Interrupted))
}

/// Why the bytes of a file are not held, of which the first `seen` were read: they are too many, or
/// memory is short, or the rest cannot be read.
fn count_on<F: Read>(file: &mut F, mut seen: usize) -> FetchError
    requires { seen ≤ longest + 1 }
    ensures { IsReadError seen (F.remaining file.old) result }
{
    let mut chunk = [0u8; CHUNK];
    while seen <= LONGEST_FILE {
        let room = CHUNK.min(LONGEST_FILE + 1 - seen);
        match read_some(file, &mut chunk[..room]) {
            Ok(0) => return FetchError::OutOfMemory,
            Ok(count) => seen += count,
            Err(error) => return read_error(error),
        }
    }
    FetchError::TooLong(seen as u64)
}

/// The bytes up to the end of the file.
#[tactic(auto, using(crate::proofs::Known::consumes_none, crate::proofs::Known::consumes_twice))]
fn read_to_end<F: Read>(alloc: Global, file: &mut F) -> Result<Vec<u8>, FetchError>
    ensures within { IfOk result (λ v. length v.items ≤ longest) }
    ensures whole { IfOk result (λ v. Consumes (F.remaining file.old) (F.remaining file.new) v.items) }
    ensures end { OnOk result (IsAtEnd (F.remaining file.new)) }
    ensures error { IfErr result (IsReadError 0 (F.remaining file.old)) }
{
    let mut bytes = Vec::new(alloc);
    let mut chunk = [0u8; CHUNK];
    while bytes.len() <= LONGEST_FILE {
        let room = CHUNK.min(LONGEST_FILE + 1 - bytes.len());
        match read_some(file, &mut chunk[..room]) {
            Ok(0) => return Ok(bytes),
            Ok(count) => {
                if bytes.extend_from_slice(&chunk[..count]).is_err() {
                    return Err(count_on(file, bytes.len() + count));
                }
            }
            Err(error) => return Err(read_error(error)),
        }
    }
    Err(FetchError::TooLong(bytes.len() as u64))
}

/// The bytes of the file at this path.
fn read_file<R: Files>(alloc: Global, rt: &R, path: &str) -> Result<Vec<u8>, FetchError>
    ensures within { IfOk result (λ v. length v.items ≤ longest) }
    ensures error { IfErr result (IsReadError 0 None) }
{
    match File::open(rt, path) {
        Ok(mut file) => read_to_end(alloc, &mut file),
        Err(error) => Err(read_error(error)),
    }
}

impl<'a, R: Files> Shelf for FileShelf<'a, R> {
    ghost seen = { λ s. record {
      holds = None;
      given = s.given.files;
      faults = s.faults;
      blamed = option_map string_bytes s.blamed;
      fetches = None;
    } };

    fn fetch(&mut self, name: &str) -> Result<Vec<u8>, FetchError> {
        let own_name = String::from_str(self.alloc, name)?;
        let answer = read_file(self.alloc, self.rt, name);
        self.note(own_name, &answer);
        answer
    }
}

/// Standard output, or another writer. It tells what its writer tells; standard output tells nothing.
#[derive(Drop)]
pub struct StdSink<W: Write> {
    out: W,
    failures: u64,
}

impl<W: Write> StdSink<W> {
    /// The sink of this writer. What it holds already counts as written.
    pub fn new(out: W) -> StdSink<W>
        ensures written { (⟦<StdSink<W> as Sink>⟧.seen result).written ≡ W.contents out }
        ensures faults { (⟦<StdSink<W> as Sink>⟧.seen result).faults ≡ 0 }
    {
        StdSink { out, failures: 0 }
    }
}

/// Writes once, and again where the call is interrupted.
#[tactic(auto, using(crate::proofs::Known::keeps_same, crate::proofs::Known::keeps_twice, crate::proofs::Known::writes_kept))]
fn write_some<W: Write>(out: &mut W, bytes: &[u8]) -> io::Result<usize>
    ensures bound { WritesAtMost result bytes.now }
    ensures bytes { WriteAppends (W.contents out.old) (W.contents out.new) result bytes.now }
{
    for _ in 0..u64::MAX {
        match out.write(bytes) {
            Err(error) if error.kind() == ErrorKind::Interrupted => {}
            answer => return answer,
        }
    }
    Err(io::Error::from(ErrorKind::Interrupted))
}

/// Writes all bytes, and flushes. A write that takes nothing is a fault.
#[tactic(auto, using(crate::proofs::Known::appends_none, crate::proofs::Known::appends_more, crate::proofs::Known::appends_then_kept, crate::proofs::Known::gains_prefix, crate::proofs::Known::gains_all))]
fn write_bytes<W: Write>(out: &mut W, bytes: &[u8]) -> io::Result<()>
    ensures all { OnOk result (Gains (W.contents out.old) (W.contents out.new) bytes.now) }
    ensures prefix { OnErr result (GainsPrefix (W.contents out.old) (W.contents out.new) bytes.now) }
{
    let mut taken = 0;
    while taken < bytes.len() {
        match write_some(out, &bytes[taken..])? {
            0 => return Err(io::Error::from(ErrorKind::WriteZero)),
            count => taken += count,
        }
    }
    out.flush()
}

impl<W: Write> Sink for StdSink<W> {
    ghost seen = { λ s. record { written = W.contents s.out; faults = s.failures } };

    fn put(&mut self, bytes: &[u8]) -> Result<(), PutFailed> {
        match write_bytes(&mut self.out, bytes) {
            Ok(()) => Ok(()),
            Err(_) => {
                self.failures = self.failures.saturating_add(1);
                Err(PutFailed)
            }
        }
    }
}
