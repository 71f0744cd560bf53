//! Schedules are read line by line.
ghost use Rattle.std.specs.Prelude.{◌≡◌, ◌≤◌, length, pos, IfOk, option_map};
ghost use Rattle.cap_machine.specs.Cells.{AscendsFrom};
ghost use Rattle.cap_replay_schedules.specs.declared.reading.ScheduleError.TheVariants.{OutOfMemory};
ghost use Rattle.cap_replay_schedules.specs.Pieces.{pieces, pieces_behind};
ghost use Rattle.cap_replay_schedules.specs.Reading.{numbers_of, last_number as the_last_number, address_of};
ghost use Rattle.cap_replay_schedules.specs.Reading.{cell_of, base_of, entry_of, begins, bad_unless};
ghost use Rattle.cap_replay_schedules.specs.Reading.{takes_args, takes_cell, takes_entry, takes_end};
ghost use Rattle.cap_replay_schedules.specs.Reading.{step_or_end as the_step_or_end};
ghost use Rattle.cap_replay_schedules.specs.Reading.{take_line as the_take_line};
ghost use Rattle.cap_replay_schedules.specs.Reading.{ended, or_empty as the_or_empty, read, reader_view};
ghost use Rattle.cap_replay_schedules.specs.Reading.{GivesProgress, IsReadAs};

use crate::entries::Schedule;
use crate::numbers::{cut, natural, number};
use cap_machine::Entry;
use std::alloc::{AllocError, AllocFailed, Global};
use thiserror::Error;

/// Why bytes are no schedule: the number of the first line, counted from 1, that is not as it has
/// to be, which is behind the last one where the text stops before its end; or more than 100,000
/// entries.
#[derive(Clone, Copy, Debug, PartialEq, Eq, Error)]
pub enum ScheduleError {
    #[error("line {0}")]
    BadLine(u64),
    #[error("more than 100000 entries")]
    TooMany,
    #[error("out of memory")]
    OutOfMemory,
}

impl From<AllocError> for ScheduleError {
    ghost from_gives = { λ _ s. s ≡ OutOfMemory };

    fn from(_e: AllocError) -> ScheduleError {
        ScheduleError::OutOfMemory
    }
}

impl<T: Drop> From<AllocFailed<T>> for ScheduleError {
    ghost from_gives = { λ _ s. s ≡ OutOfMemory };

    fn from(_e: AllocFailed<T>) -> ScheduleError {
        ScheduleError::OutOfMemory
    }
}

// Which lines may come next: the first one, cells, steps, or none.
#[derive(Clone, Copy)]
enum Stage {
    Start,
    Cells,
    Steps,
    End,
}

// What was read so far, and the last address of the heap.
#[derive(Drop)]
struct Reader {
    schedule: Schedule,
    stage: Stage,
    last: i128,
}

const MOST_ENTRIES: usize = 100_000;

fn numbers(alloc: Global, rest: Option<&[u8]>) -> Result<Option<Vec<i128>>, AllocError>
    ensures { IfOk result (λ o. option_map (λ vs. vs.items) o
        ≡ numbers_of (pieces_behind 32 (option_map (λ r. r.now) rest.entry))) }
{
    let mut numbers = Vec::new(alloc);
    let mut rest = rest;
    while let Some(text) = rest {
        let (word, behind) = cut(text, b' ');
        let Some(value) = number(word) else {
            return Ok(None);
        };
        numbers.push(value)?;
        rest = behind;
    }
    Ok(Some(numbers))
}

// A number that is the last word.
fn last_number(rest: Option<&[u8]>) -> Option<i128>
    ensures { result ≡ the_last_number (pieces_behind 32 (option_map (λ r. r.now) rest.entry)) }
{
    let (word, behind) = cut(rest?, b' ');
    match behind {
        None => number(word),
        Some(_) => None,
    }
}

fn address(word: &[u8]) -> Option<i128>
    ensures { result ≡ address_of word.now }
{
    let address = natural((1 << 127) - 1, word)?;
    Some(address as i128)
}

fn cell(rest: Option<&[u8]>) -> Option<(i128, i128)>
    ensures { result ≡ cell_of (pieces_behind 32 (option_map (λ r. r.now) rest.entry)) }
{
    let (word, behind) = cut(rest?, b' ');
    let address = address(word)?;
    let value = last_number(behind)?;
    Some((address, value))
}

// The base of an entry, which may have none.
fn base(rest: Option<&[u8]>) -> Option<Option<i128>>
    ensures { result ≡ base_of (pieces_behind 32 (option_map (λ r. r.now) rest.entry)) }
{
    match rest {
        None => Some(None),
        Some(_) => {
            let base = last_number(rest)?;
            Some(Some(base))
        }
    }
}

fn entry(rest: Option<&[u8]>) -> Option<Entry>
    ensures { result ≡ entry_of (pieces_behind 32 (option_map (λ r. r.now) rest.entry)) }
{
    let (word, behind) = cut(rest?, b' ');
    let thread = natural((1 << 32) - 1, word)?;
    let base = base(behind)?;
    Some(Entry {
        thread: thread as u32,
        base,
    })
}

impl Reader {
    fn take_args(
        &mut self,
        alloc: Global,
        number: u64,
        rest: Option<&[u8]>,
    ) -> Result<(), ScheduleError>
        ensures { let words = pieces_behind 32 (option_map (λ r. r.now) rest.entry) in
            GivesProgress result (λ _. reader_view self.new)
            (bad_unless number (takes_args (reader_view self.old) (numbers_of words))) }
    {
        match numbers(alloc, rest)? {
            None => Err(ScheduleError::BadLine(number)),
            Some(args) => {
                self.schedule.args = args;
                self.stage = Stage::Cells;
                Ok(())
            }
        }
    }

    fn take_cell(&mut self, number: u64, rest: Option<&[u8]>) -> Result<(), ScheduleError>
        ensures { let words = pieces_behind 32 (option_map (λ r. r.now) rest.entry) in
            GivesProgress result (λ _. reader_view self.new)
            (bad_unless number (takes_cell (reader_view self.old) (cell_of words))) }
    {
        let Some((address, value)) = cell(rest) else {
            return Err(ScheduleError::BadLine(number));
        };
        if address <= self.last {
            return Err(ScheduleError::BadLine(number));
        }
        self.schedule.heap.push((address, value))?;
        self.last = address;
        Ok(())
    }

    fn take_step(&mut self, number: u64, rest: Option<&[u8]>) -> Result<(), ScheduleError>
        ensures { let words = pieces_behind 32 (option_map (λ r. r.now) rest.entry) in
            GivesProgress result (λ _. reader_view self.new)
            (takes_entry number (reader_view self.old) (entry_of words)) }
    {
        let Some(entry) = entry(rest) else {
            return Err(ScheduleError::BadLine(number));
        };
        if self.schedule.entries.len() >= MOST_ENTRIES {
            return Err(ScheduleError::TooMany);
        }
        self.schedule.entries.push(entry)?;
        self.stage = Stage::Steps;
        Ok(())
    }

    fn take_end(&mut self, number: u64, rest: Option<&[u8]>) -> Result<(), ScheduleError>
        ensures { let words = pieces_behind 32 (option_map (λ r. r.now) rest.entry) in
            GivesProgress result (λ _. reader_view self.new)
            (bad_unless number (takes_end (reader_view self.old) words)) }
    {
        match rest {
            None => {
                self.stage = Stage::End;
                Ok(())
            }
            Some(_) => Err(ScheduleError::BadLine(number)),
        }
    }

    // A step or the end.
    fn step_or_end(
        &mut self,
        number: u64,
        word: &[u8],
        rest: Option<&[u8]>,
    ) -> Result<(), ScheduleError>
        ensures { let words = pieces_behind 32 (option_map (λ r. r.now) rest.entry) in
            GivesProgress result (λ _. reader_view self.new)
            (the_step_or_end number (reader_view self.old) word.now words) }
    {
        if word == b"step".as_slice() {
            return self.take_step(number, rest);
        }
        if word == b"end".as_slice() {
            return self.take_end(number, rest);
        }
        Err(ScheduleError::BadLine(number))
    }

    fn take_line(&mut self, alloc: Global, number: u64, line: &[u8]) -> Result<(), ScheduleError>
        ensures { GivesProgress result (λ _. reader_view self.new)
            (the_take_line number (reader_view self.old) line.now) }
    {
        let (word, rest) = cut(line, b' ');
        match self.stage {
            Stage::Start => {
                if word == b"start".as_slice() {
                    self.take_args(alloc, number, rest)
                } else {
                    Err(ScheduleError::BadLine(number))
                }
            }
            Stage::Cells => {
                if word == b"cell".as_slice() {
                    self.take_cell(number, rest)
                } else {
                    self.step_or_end(number, word, rest)
                }
            }
            Stage::Steps => self.step_or_end(number, word, rest),
            Stage::End => Err(ScheduleError::BadLine(number)),
        }
    }

    fn finish(self, number: u64) -> Result<Schedule, ScheduleError>
        ensures { IsReadAs result (ended number self.stage (reader_view self)) }
    {
        match self.stage {
            Stage::End => Ok(self.schedule),
            Stage::Start | Stage::Cells | Stage::Steps => Err(ScheduleError::BadLine(number)),
        }
    }
}

fn or_empty(text: Option<&[u8]>) -> &[u8]
    ensures { result.now ≡ the_or_empty (option_map (λ r. r.now) text.entry) }
{
    match text {
        None => &[],
        Some(text) => text,
    }
}

fn begin(alloc: Global) -> Reader
    ensures { reader_view result ≡ begins }
{
    let args = Vec::new(alloc);
    let heap = Vec::new(alloc);
    let entries = Vec::new(alloc);
    Reader {
        schedule: Schedule {
            args,
            heap,
            entries,
        },
        stage: Stage::Start,
        last: 0,
    }
}

fn scan(alloc: Global, bytes: &[u8]) -> Result<Schedule, ScheduleError>
    ensures { IsReadAs result (read bytes.now) }
{
    let mut reader = begin(alloc);
    let mut number = 1;
    let mut rest = bytes;
    while !rest.is_empty() {
        let (line, behind) = cut(rest, b'\n');
        reader.take_line(alloc, number, line)?;
        number += 1;
        rest = or_empty(behind);
    }
    reader.finish(number)
}

/// The schedule that the bytes are. Its lines are `start` with the arguments of `main`, then lines
/// `cell A V` with an address and its value, where the addresses are at least 1 and ascend, then
/// lines `step T` or `step T B` with a thread, counted from 0, and a base, then `end`. Words are
/// separated by one space. Numbers are decimal, without leading zeros and within 128 bits, threads
/// within 32; an argument, a value and a base may be negative. The last line needs no line feed.
/// `BadLine` has the number of the first line that is not so, and where the text stops before `end`
/// that of the line behind its last one. `TooMany` comes at the line of the 100,001st entry.
pub fn read_schedule(alloc: Global, bytes: &[u8]) -> Result<Schedule, ScheduleError>
    ensures reads { IsReadAs result (read bytes.now) }
    ensures addresses { IfOk result (λ s. AscendsFrom (pos 0) s.heap.items) }
    ensures entries { IfOk result (λ s. length s.entries.items ≤ 100000) }
{
    scan(alloc, bytes)
}
