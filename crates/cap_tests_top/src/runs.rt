//! Whole runs over files in memory: what each command writes, and how a run ends where fetches and puts
//! fail by their numbers. All other runs are rows of `tools/runs`.

use cap_io::{MemoryShelf, MemorySink};
use cap_top::Status::{Good, ReadFault, Refused, Usage, WriteFault};
use cap_top::{Status, run};
use std::alloc::{AllocError, Global};
use std::process::Abort;
use std::test::Fail;

// The files of each run: a program, its derivation, a schedule of it, and no byte.
const FILES: &[(&str, &str)] = &[
    ("f", "function main() { }\n"),
    ("d", "[\"caper\",1,3]\n[\"return\"]\n[\"end\",1]\n"),
    ("s", "start\nend\n"),
    ("e", ""),
];

const USAGE: &str =
    "usage: caper verify FILE [--budget N] | derive FILE [--budget N] | check FILE DERIVATION | \
    replay FILE SCHEDULE | show FILE | trial N | outline FILE DERIVATION | \
    owners FILE DERIVATION SCHEDULE | stray FILE N M | core FILE\n";

const PROVED: &str = "function main: proved\nproved 1 of 1\n";

const NO_F: &str = "cannot read f\n";

const NO_S: &str = "cannot read s\n";

const NO_MAIN: &str = "refused 1:1: no main\n";

const NO_LINES: &str = "refused derivation line 1\n";

// The fetches that fail, the puts that fail behind so many bytes, and the sink's room.
type Faults = (&'static [u64], &'static [(u64, u64)], u64);

// The words, with a blank between two, what fails, and how the run ends.
type Row = (&'static str, Faults, Status, &'static str);

const NONE: Faults = (&[], &[], 1000);

const COMMANDS: &[Row] = &[
    ("verify f", NONE, Good, PROVED),
    (
        "derive f",
        NONE,
        Good,
        "[\"caper\",1,3]\n[\"return\"]\n[\"end\",1]\n",
    ),
    ("check f d", NONE, Good, "accepted 1\n"),
    ("replay f s", NONE, Good, "ended 0\n"),
    ("show f", NONE, Good, "function main ( ) {\n}\n"),
    ("trial 1", NONE, Good, "trial 1: 7 units, 7 proved\n"),
    (
        "outline f d",
        NONE,
        Good,
        "function main\nat 1:19\nstate rows [] store [] cells [] facts [] guards []\n",
    ),
    (
        "owners f d s",
        NONE,
        Good,
        "start\nthread 0 frame 0: nothing\nended 0\n",
    ),
    ("stray f 5 3", NONE, Good, "stray: none in 3\n"),
    ("core f", NONE, Good, PROVED),
];

const FIRST: Faults = (&[1], &[], 1000);

const SECOND: Faults = (&[2], &[], 1000);

const THIRD: Faults = (&[3], &[], 1000);

// Fetches that fail, though the file is there.
const FETCHES: &[Row] = &[
    ("verify f", FIRST, ReadFault, NO_F),
    ("derive f", FIRST, ReadFault, NO_F),
    ("show f", FIRST, ReadFault, NO_F),
    ("check f s", FIRST, ReadFault, NO_F),
    ("outline f s", FIRST, ReadFault, NO_F),
    ("owners f s s", FIRST, ReadFault, NO_F),
    ("replay f s", FIRST, ReadFault, NO_F),
    ("stray f 5 3", FIRST, ReadFault, NO_F),
    ("core f", FIRST, ReadFault, NO_F),
    ("verify g", FIRST, ReadFault, "cannot read g\n"),
    ("check f s", (&[2, 1], &[], 1000), ReadFault, NO_F),
    ("check f s", SECOND, ReadFault, NO_S),
    ("outline f s", SECOND, ReadFault, NO_S),
    ("owners f s s", SECOND, ReadFault, NO_S),
    ("replay f s", SECOND, ReadFault, NO_S),
    ("owners f d f", THIRD, ReadFault, NO_F),
    // These fetches are never made.
    ("verify f s", FIRST, Usage, USAGE),
    ("trial 1", FIRST, Good, "trial 1: 7 units, 7 proved\n"),
    ("verify f", SECOND, Good, PROVED),
    ("check e s", SECOND, Refused, NO_MAIN),
    ("outline e s", SECOND, Refused, NO_MAIN),
    ("owners e s s", SECOND, Refused, NO_MAIN),
    ("replay f s", THIRD, Good, "ended 0\n"),
    ("check f s", THIRD, Refused, NO_LINES),
    ("outline f s", THIRD, Refused, NO_LINES),
    ("owners f s s", THIRD, Refused, NO_LINES),
    (
        "owners f d f",
        (&[4], &[], 1000),
        Refused,
        "refused schedule line 1\n",
    ),
];

// A put that fails is what the run ends with, whatever else would be said.
const PUTS: &[Row] = &[
    ("verify", (&[], &[(1, 5)], 1000), WriteFault, "usage"),
    ("verify e", (&[], &[(1, 5)], 1000), WriteFault, "refus"),
    ("show e", (&[], &[(1, 5)], 1000), WriteFault, ""),
    ("verify f", (&[], &[(1, 1000)], 1000), WriteFault, PROVED),
    ("verify f", (&[], &[(2, 5)], 1000), Good, PROVED),
    ("verify f", (&[], &[], 36), Good, PROVED),
    (
        "verify f",
        (&[], &[], 35),
        WriteFault,
        "function main: proved\nproved 1 of 1",
    ),
    ("show e", (&[], &[], 0), Good, ""),
];

// A shelf of all files, whose fetches of these numbers fail.
fn shelf(alloc: Global, failing: &[u64]) -> Result<MemoryShelf, AllocError> {
    let mut files = Vec::new(alloc);
    for file in FILES {
        let (name, text) = *file;
        let bytes = Vec::from_slice(alloc, text.as_bytes())?;
        files.push((String::from_str(alloc, name)?, bytes))?;
    }
    Ok(MemoryShelf::new(files, Vec::from_slice(alloc, failing)?))
}

// The words of a line, cut at its blanks.
fn words_of(alloc: Global, line: &str) -> Result<Vec<String>, AllocError> {
    let mut words = Vec::new(alloc);
    for word in line.split(' ') {
        words.push(String::from_str(alloc, word)?)?;
    }
    Ok(words)
}

// Compares the status and all that is written. Want of memory is handed on, and then nothing may be
// written.
fn ends_so(rt: &impl Abort, alloc: Global, row: &Row) -> Result<(), Fail> {
    let (line, (fetches, puts, room), status, written) = *row;
    let mut shelf = shelf(alloc, fetches)?;
    let mut sink = MemorySink::new(alloc, Vec::from_slice(alloc, puts)?, room)?;
    let words = words_of(alloc, line)?;
    let found = run(alloc, words.as_slice(), &mut shelf, &mut sink);
    if found == Status::NoMemory {
        assert!(rt; sink.bytes().is_empty(), "{line}");
        return Err(Fail::from(AllocError));
    }
    let same = found == status && sink.bytes() == written.as_bytes();
    assert!(rt; same, "{line}, {fetches:?}, {puts:?}, {room}: {found:?}");
    Ok(())
}

#[test]
fn whole_runs(rt: HostRuntime) -> Result<(), Fail> {
    for rows in [COMMANDS, FETCHES, PUTS] {
        for row in rows {
            ends_so(&rt, rt.alloc(), row)?;
        }
    }
    Ok(())
}

#[test]
fn exit_codes(rt: HostRuntime) {
    for (status, code) in [
        (Status::Good, 0),
        (Status::Bad, 1),
        (Status::Refused, 2),
        (Status::Usage, 3),
        (Status::ReadFault, 4),
        (Status::WriteFault, 5),
        (Status::NoMemory, 6),
        (Status::NotEnabled, 7),
        (Status::Wide, 8),
    ] {
        assert_eq!(rt; status.code(), code, "of {status:?}");
    }
}
