//! What happens at the limits: 128 bits of a number, and 4,096 rows of an elimination.

use crate::fm::{Line, answer, answer_to, push_rows, row};
use cap_lin::{Kind, LinError, Row, Sort};
use std::alloc::Global;
use std::test::Fail;

// 2 to the 62nd, the 100th and the 126th
const K: i128 = 4611686018427387904;

const L: i128 = 1267650600228229401496703205376;

const M: i128 = 85070591730234615865843651857942052864;

// the square of the greatest number of 64 signed bits
const SQUARE: i128 = 85070591730234615847396907784232501249;

#[test]
fn wide_numbers(rt: HostRuntime) -> Result<(), Fail> {
    let given: [(&[Line], &str); 8] = [
        // SQUARE v0 - v1 <= 0 and -SQUARE v0 + 1 <= 0: SQUARE times the first has its square
        (
            &[(0, SQUARE, -1, Kind::Le), (1, -SQUARE, 0, Kind::Le)],
            "wide 85070591730234615847396907784232501249 85070591730234615847396907784232501249",
        ),
        // v0 + M <= 0 and -v0 + M + 1 <= 0
        (
            &[(M, 1, 0, Kind::Le), (M + 1, -1, 0, Kind::Le)],
            "wide 85070591730234615865843651857942052864 85070591730234615865843651857942052865",
        ),
        // v0 <= 0 and, with the least number, MIN v0 <= 0
        (
            &[(0, 1, 0, Kind::Le), (0, i128::MIN, 0, Kind::Le)],
            "wide -1 -170141183460469231731687303715884105728",
        ),
        // v0 + L v1 = 0 and L v0 + v1 <= 0: the second less L times the first
        (
            &[(0, 1, L, Kind::Eq), (0, L, 1, Kind::Le)],
            "wide -1267650600228229401496703205376 1267650600228229401496703205376",
        ),
        // v0 + MAX != 0, with the greatest number, on the side below 0
        (
            &[(i128::MAX, 1, 0, Kind::Ne)],
            "wide 170141183460469231731687303715884105727 1",
        ),
        // K v0 + v1 <= 0 and -(K + 1) v0 - v1 <= 0 make v1 <= 0, with the multipliers K + 1 and K.
        // With -L v1 + 1 <= 0 it makes 1 <= 0, with L times these
        (
            &[
                (0, K, 1, Kind::Le),
                (0, -K - 1, -1, Kind::Le),
                (1, 0, -L, Kind::Le),
            ],
            "wide 1267650600228229401496703205376 4611686018427387905",
        ),
        // v0 + M <= 0, -v1 + M + 1 <= 0, -v0 + v1 - M <= 0: the first and the last make v1 <= 0, and
        // all make M + 1 <= 0. The check adds the first and the second first
        (
            &[
                (M, 1, 0, Kind::Le),
                (M + 1, 0, -1, Kind::Le),
                (-M, -1, 1, Kind::Le),
            ],
            "wide 85070591730234615865843651857942052864 85070591730234615865843651857942052865",
        ),
        // v0 + MIN != 0: the row of the side above 0 would be wide, but the side below 0 has
        // solutions, and the second side is made only where the first has a leaf
        (&[(i128::MIN, 1, 0, Kind::Ne)], "solvable"),
    ];
    for (lines, want) in given {
        let found = answer(rt.alloc(), &[], lines)?;
        assert_eq!(rt; found.as_str(), want);
    }
    Ok(())
}

// So many rows v0 - k <= 0, for k from 1 on, at the end.
fn push_bounds(alloc: Global, rows: &mut Vec<Row>, count: u32) -> Result<(), LinError> {
    for k in 0..count {
        rows.push(row(alloc, (-1 - k as i128, 1, 0, Kind::Le), Sort::Int)?)?;
    }
    Ok(())
}

// What is answered to so many of these rows, and then to so many of them once more and the lines.
fn answer_behind(alloc: Global, count: u32, again: u32, lines: &[Line]) -> Result<String, Fail> {
    let mut rows = Vec::new(alloc);
    push_bounds(alloc, &mut rows, count)?;
    push_bounds(alloc, &mut rows, again)?;
    push_rows(alloc, &mut rows, lines, Sort::Int)?;
    answer_to(alloc, &rows)
}

#[test]
fn many_input_rows(rt: HostRuntime) -> Result<(), Fail> {
    let given: [(u32, u32, &[Line], &str); 9] = [
        (4096, 0, &[], "solvable"),
        (4097, 0, &[], "rows"),
        // equal rows count once
        (4096, 1000, &[], "solvable"),
        // a row without variables counts too, before it is looked at
        (4096, 0, &[(0, 0, 0, Kind::Le)], "rows"),
        (4095, 0, &[(1, 0, 0, Kind::Le)], "leaf 4095:1"),
        (4096, 0, &[(1, 0, 0, Kind::Le)], "rows"),
        // v0 - 2 != 0 counts by its side v0 - 1 <= 0, which is there, and v0 != 0 by v0 + 1 <= 0
        (4096, 0, &[(-2, 1, 0, Kind::Ne)], "solvable"),
        (4096, 0, &[(0, 1, 0, Kind::Ne)], "rows"),
        // combinations without variables don't count: v0 - k <= 0 with -v0 + 1 <= 0
        (4095, 0, &[(1, -1, 0, Kind::Le)], "solvable"),
    ];
    for (count, again, lines, want) in given {
        let found = answer_behind(rt.alloc(), count, again, lines)?;
        assert!(rt; found.as_str() == want, "{count}, {again}, {lines:?}");
    }
    Ok(())
}

fn push_uppers(alloc: Global, rows: &mut Vec<Row>, count: u32) -> Result<(), LinError> {
    for i in 0..count {
        rows.push(row(alloc, (0, 1, i as i128 + 1, Kind::Le), Sort::Int)?)?;
    }
    Ok(())
}

fn push_lowers(alloc: Global, rows: &mut Vec<Row>, count: u32, step: u32) -> Result<(), LinError> {
    for j in 0..count {
        let second = (j as i128 + 1) * step as i128;
        rows.push(row(alloc, (0, -1, second, Kind::Le), Sort::Int)?)?;
    }
    Ok(())
}

// What is answered to so many rows v0 + i v1 <= 0 for i from 1 on, so many -v0 + j v1 <= 0 for j by
// steps from one on, and the lines.
fn answer_crossed(
    alloc: Global,
    uppers: u32,
    lowers: u32,
    step: u32,
    lines: &[Line],
) -> Result<String, Fail> {
    let mut rows = Vec::new(alloc);
    push_uppers(alloc, &mut rows, uppers)?;
    push_lowers(alloc, &mut rows, lowers, step)?;
    push_rows(alloc, &mut rows, lines, Sort::Int)?;
    answer_to(alloc, &rows)
}

#[test]
fn many_combinations(rt: HostRuntime) -> Result<(), Fail> {
    let given: [(u32, u32, u32, &[Line], &str); 3] = [
        // 16 and 240 rows make 3,840 that differ, 4,096 in all
        (16, 240, 16, &[], "solvable"),
        (16, 240, 16, &[(-1, 0, 1, Kind::Le)], "rows"),
        // 64 and 64 rows have 4,096 combinations, of which 127 differ
        (64, 64, 1, &[], "solvable"),
    ];
    for (uppers, lowers, step, lines, want) in given {
        let found = answer_crossed(rt.alloc(), uppers, lowers, step, lines)?;
        assert!(rt; found.as_str() == want, "{uppers}, {lowers}, {step}");
    }
    Ok(())
}
