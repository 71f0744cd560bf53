//! A shelf and a sink in memory, which meet faults where they are listed.
ghost use Rattle.std.specs.Map.{lookup};
ghost use Rattle.std.specs.Prelude.{◌≡◌, ◌≢◌, ◌≤◌, ◌==◌, ◌↔◌, ◌++◌, [], take};
ghost use Rattle.std.specs.Prelude.{Err, Some, None, IsOk, IfOk, OnOk, OnErr, option_map};
ghost use Rattle.cap_io.specs.declared.shelf.FetchError.TheVariants.{Failed, OutOfMemory};
ghost use Rattle.cap_io.specs.Files.{content};
ghost use Rattle.cap_io.specs.Outside.{counted, found, plain_answer, Gives, Blames, Counts};
ghost use Rattle.cap_io.specs.Outside.{Measures};
ghost use Rattle.cap_io.specs.Memory.{files_of, failed_fetches, fails_next, fetched, seen_memory};
ghost use Rattle.cap_io.specs.Memory.{after_fetch, TakesWhole, taken, fails_after};

use crate::given::Given;
use crate::shelf::LONGEST_FILE;
use crate::{FetchError, PutFailed, Shelf, Sink};
use std::alloc::{AllocError, Global};
use std::marker::Model;

/// Files in memory, with fetches that fail by number. It tells its files. Contracts see it as its
/// files, the numbers of the fetches that fail, how many fetches were counted, the blamed name, and
/// what fetches gave.
#[derive(Drop)]
pub struct MemoryShelf {
    files: Vec<(String, Vec<u8>)>,
    failing: Vec<u64>,
    fetches: u64,
    blamed: Option<String>,
    given: Given,
}

impl Model for MemoryShelf {
    ghost use Rattle.std.specs.Prelude.{option_map, string_bytes};
    ghost use Rattle.cap_io.specs.Memory.{ShelfState, files_of};

    ghost Value = { ShelfState };

    ghost view = { λ s. record {
      files = files_of s.files.items;
      failing = s.failing.items;
      fetches = s.fetches;
      blamed = option_map string_bytes s.blamed;
      given = s.given.files;
    } };
}

impl MemoryShelf {
    /// A shelf of these files, of which the first of a name counts. The fetches of the listed numbers
    /// fail. Fetches are numbered from 1 to 2^64 - 1; those that answer `OutOfMemory`, and those after
    /// the last number, are not counted.
    #[tactic(auto, using(crate::proofs::Listed::listed_zero))]
    pub fn new(files: Vec<(String, Vec<u8>)>, failing: Vec<u64>) -> MemoryShelf
        ensures files { (⟦<MemoryShelf as Shelf>⟧.seen result).holds ≡ Some (files_of files.items) }
        ensures given { (⟦<MemoryShelf as Shelf>⟧.seen result).given ≡ [] }
        ensures faults { (⟦<MemoryShelf as Shelf>⟧.seen result).faults ≡ 0 }
        ensures blamed { (⟦<MemoryShelf as Shelf>⟧.seen result).blamed ≡ None }
        ensures failing { result.failing ≡ failing.items }
        ensures fetches { result.fetches ≡ 0 }
    {
        MemoryShelf {
            files,
            failing,
            fetches: 0,
            blamed: None,
            given: Given::nothing(),
        }
    }

    /// Whether the next fetch fails.
    fn fails_next(&self) -> bool
        ensures { result ≡ fails_next self.now }
    {
        match self.fetches.checked_add(1) {
            Some(number) => self.failing.contains(&number),
            None => false,
        }
    }

    /// The next fetch.
    fn next_fetch(&mut self, name: &str) -> Result<Vec<u8>, FetchError>
        ensures answer { result ≢ Err OutOfMemory → plain_answer result ≡ fetched self.old name.now }
        ensures after { result ≢ Err OutOfMemory → self.new ≡ after_fetch self.old name.now }
        ensures out_of_memory { result ≡ Err OutOfMemory → self.new ≡ self.old }
    {
        let alloc = *self.files.allocator();
        let own_name = String::from_str(alloc, name)?;
        let fails = self.fails_next();
        let number = self.fetches.saturating_add(1);
        if fails {
            self.fetches = number;
            self.blamed = Some(own_name);
            return Err(FetchError::Failed);
        }
        let answer = copied(alloc, find(&self.files, name));
        if let Ok(bytes) = &answer {
            self.given = self.given.and(&own_name, bytes);
        }
        if !matches!(&answer, Err(FetchError::OutOfMemory)) {
            self.fetches = number;
        }
        answer
    }
}

/// The content of the first file of this name.
fn find<'a>(files: &'a [(String, Vec<u8>)], name: &str) -> Option<&'a Vec<u8>>
    ensures { option_map (λ v. v.now.items) result ≡ content (files_of files.now) name.now }
{
    let mut rest = files;
    while let Some((file, after)) = rest.split_first() {
        if file.0.as_str() == name {
            return Some(&file.1);
        }
        rest = after;
    }
    None
}

/// A copy of the content of a file, which is there and not too long.
fn copied(alloc: Global, file: Option<&Vec<u8>>) -> Result<Vec<u8>, FetchError>
    ensures { result ≢ Err OutOfMemory → plain_answer result ≡ found (option_map (λ v. v.now.items) file.entry) }
{
    match file {
        None => Err(FetchError::Absent),
        Some(bytes) if bytes.len() > LONGEST_FILE => Err(FetchError::TooLong(bytes.len() as u64)),
        Some(bytes) => Ok(Vec::from_slice(alloc, bytes.as_slice())?),
    }
}

impl Shelf for MemoryShelf {
    ghost use Rattle.std.specs.Prelude.{◌≡◌, []};
    ghost use Rattle.cap_io.specs.Memory.{seen_memory};

    ghost seen = { λ s. seen_memory s };

    ghost never_fails = { λ s. s.failing ≡ [] };

    fn fetch(&mut self, name: &str) -> Result<Vec<u8>, FetchError>
        ensures answer { result ≢ Err OutOfMemory → plain_answer result ≡ fetched self.old name.now }
        ensures after { result ≢ Err OutOfMemory → self.new ≡ after_fetch self.old name.now }
        ensures out_of_memory { result ≡ Err OutOfMemory → self.new ≡ self.old }

        // What every shelf ensures, at this one.
        ensures given { Gives name.now (seen_memory self.old) (seen_memory self.new) result }
        ensures later { failed_fetches self.old ≤ failed_fetches self.new }
        ensures blame { Blames name.now (seen_memory self.old) (seen_memory self.new) result }
        ensures counts { Counts (seen_memory self.old) (seen_memory self.new) result }
        ensures measure { Measures (seen_memory self.old) (seen_memory self.new) result }
        ensures sure { self.old.failing ≡ [] → (self.new.failing ≡ [])
            × (failed_fetches self.new ≡ failed_fetches self.old) × (result ≢ Err Failed) }
    {
        self.next_fetch(name)
    }
}

/// Bytes in memory, with puts that fail by number. It tells its bytes. Contracts see it as its bytes,
/// its room, the puts that fail, and how many puts were counted and how many failed.
#[derive(Drop)]
pub struct MemorySink {
    bytes: Vec<u8>,
    room: usize,
    failing: Vec<(u64, u64)>,
    puts: u64,
    failures: u64,
}

impl Model for MemorySink {
    ghost use Rattle.std.specs.Prelude.{◌≤◌, vec_len, vec_capacity};
    ghost use Rattle.cap_io.specs.Memory.{SinkState};

    ghost Value = { SinkState };

    ghost view = { λ s. record { written = s.bytes.items; room = s.room; failing = s.failing.items; puts = s.puts; failures = s.failures } };

    ghost invariant = { λ s. (vec_len s.bytes ≤ s.room) × (s.room ≤ vec_capacity s.bytes) };
}

impl MemorySink {
    /// An empty sink. Each pair is the number of a put that fails, from 1 to 2^64 - 1, and how many
    /// bytes it takes before; of two pairs of one number the first counts. A put past the room, a
    /// number of bytes, fails after filling it. The room is reserved here, so no put takes memory.
    pub fn new(alloc: Global, failing: Vec<(u64, u64)>, room: u64) -> Result<MemorySink, AllocError>
        ensures written { IfOk result (λ s. (⟦<MemorySink as Sink>⟧.seen s).written ≡ Some []) }
        ensures faults { IfOk result (λ s. (⟦<MemorySink as Sink>⟧.seen s).faults ≡ 0) }
        ensures failing { IfOk result (λ s. s.failing ≡ failing.items) }
        ensures room { IfOk result (λ s. s.room ≡ room) }
        ensures puts { IfOk result (λ s. s.puts ≡ 0) }
    {
        let room = room as usize;
        let bytes = Vec::with_capacity(alloc, room)?;
        Ok(MemorySink {
            bytes,
            room,
            failing,
            puts: 0,
            failures: 0,
        })
    }

    /// All bytes that were written.
    pub fn bytes(&self) -> &[u8]
        ensures { (⟦<MemorySink as Sink>⟧.seen self.now).written ≡ Some result.now }
    {
        &self.bytes
    }

    /// After how many bytes the next put fails, if it is counted and listed.
    fn fails_after(&self) -> Option<u64>
        ensures { result ≡ fails_after self.now }
    {
        second_of(&self.failing, self.puts.checked_add(1)?)
    }
}

/// The second number of the first pair with this number.
fn second_of(pairs: &[(u64, u64)], number: u64) -> Option<u64>
    ensures { result ≡ lookup (λ k. k == number) pairs.now }
{
    let mut rest = pairs;
    while let Some((pair, after)) = rest.split_first() {
        if pair.0 == number {
            return Some(pair.1);
        }
        rest = after;
    }
    None
}

impl Sink for MemorySink {
    ghost use Rattle.std.specs.Prelude.{Some};
    ghost use Rattle.cap_io.specs.Memory.{TakesWhole};

    ghost seen = { λ s. record { written = Some s.written; faults = s.failures } };

    ghost takes = { λ s bytes. TakesWhole s bytes };

    fn put(&mut self, bytes: &[u8]) -> Result<(), PutFailed>
        ensures succeeds { IsOk result ↔ TakesWhole self.old bytes.now }
        ensures all { OnOk result (self.new.written ≡ self.old.written ++ bytes.now) }
        ensures part { OnErr result (self.new.written ≡ self.old.written ++ take (taken self.old bytes.now) bytes.now) }
        ensures counted { self.new.puts ≡ counted self.old.puts }
        ensures none_failed { OnOk result (self.new.failures ≡ self.old.failures) }
        ensures one_failed { OnErr result (self.new.failures ≡ counted self.old.failures) }
        ensures kept { (self.new.room ≡ self.old.room) × (self.new.failing ≡ self.old.failing) }
    {
        let fails_after = self.fails_after();
        let left = self.room - self.bytes.len();
        let fits = fails_after.is_none() && bytes.len() <= left;
        let limit = fails_after.map_or(left, |count| left.min(count as usize));
        let count = bytes.len().min(limit);
        self.bytes.extend_from_slice(&bytes[..count]).unwrap();
        self.puts = self.puts.saturating_add(1);
        if !fits {
            self.failures = self.failures.saturating_add(1);
            return Err(PutFailed);
        }
        Ok(())
    }
}
