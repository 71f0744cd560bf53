//! Cores of infeasible rows.

use crate::fm::{Line, push_rows};
use cap_core::core;
use cap_fm::{Answer, solve};
use cap_lin::{Kind, Row, Sort};
use std::alloc::Global;
use std::process::Abort;
use std::test::Fail;

// The numbers of the core of rows. Rows that some valuation solves are an error.
fn core_of(alloc: Global, rows: &[Row]) -> Result<Vec<u32>, Fail> {
    if rows.len() >= 10_000 {
        Err("many rows")?;
    }
    match solve(alloc, rows)? {
        Answer::Empty(_) => Ok(core(alloc, rows)?),
        Answer::Solvable => Err("solvable")?,
    }
}

fn has_core(alloc: Global, lines: &[Line], wanted: &[u32]) -> Result<bool, Fail> {
    let mut rows = Vec::new(alloc);
    push_rows(alloc, &mut rows, lines, Sort::Int)?;
    let found = core_of(alloc, &rows)?;
    Ok(found.as_slice() == wanted)
}

// At least 1.
const SOME: Line = (1, -1, 0, Kind::Le);

// At most 0, and at most 3.
const NONE: Line = (0, 1, 0, Kind::Le);

const FEW: Line = (-3, 1, 0, Kind::Le);

// At most the variable 1, which is at most 3; and at least 4.
const BELOW: Line = (0, 1, -1, Kind::Le);

const LOW: Line = (-3, 0, 1, Kind::Le);

const HIGH: Line = (4, -1, 0, Kind::Le);

fn have_cores(rt: &impl Abort, alloc: Global, given: &[(&[Line], &[u32])]) -> Result<(), Fail> {
    for (lines, wanted) in given {
        let holds = has_core(alloc, lines, wanted)?;
        assert!(rt; holds, "{wanted:?}");
    }
    Ok(())
}

// The first of two rows that each contradict a third one goes; rows that are needed stay.
#[test]
fn rows_that_others_make_needless_go(rt: HostRuntime) -> Result<(), Fail> {
    let given: [(&[Line], &[u32]); 5] = [
        (&[SOME, NONE], &[0, 1]),
        (&[SOME, FEW, NONE], &[0, 2]),
        (&[NONE, NONE, SOME], &[1, 2]),
        (&[BELOW, LOW, HIGH], &[0, 1, 2]),
        (&[BELOW, LOW, HIGH, SOME, NONE], &[3, 4]),
    ];
    have_cores(&rt, rt.alloc(), &given)
}
