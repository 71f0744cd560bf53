//! What elimination answers at small systems of rows.

mod limits;

use crate::texts::{put, sum};
use cap_farkas::{Cert, Multipliers, refutes};
use cap_fm::{Answer, SolveError, solve};
use cap_lin::{Kind, LinError, Row, Sort};
use std::alloc::{AllocError, Global};
use std::test::Fail;

// A constant, multiples of the variables 0 and 1, and what the sum is to 0.
pub(crate) type Line = (i128, i128, i128, Kind);

fn row(alloc: Global, line: Line, sort: Sort) -> Result<Row, LinError> {
    let term = sum(alloc, line.0, &[(0, line.1), (1, line.2)])?;
    let kind = line.3;
    Ok(Row { term, kind, sort })
}

pub(crate) fn push_rows(
    alloc: Global,
    rows: &mut Vec<Row>,
    lines: &[Line],
    sort: Sort,
) -> Result<(), LinError> {
    for line in lines {
        rows.push(row(alloc, *line, sort)?)?;
    }
    Ok(())
}

// What elimination answers. A certificate that doesn't refute the rows is an error.
fn solved(alloc: Global, rows: &[Row]) -> Result<Result<Answer, SolveError>, Fail> {
    if rows.len() >= 10_000 {
        Err("many rows")?;
    }
    let answer = solve(alloc, rows);
    if let Ok(Answer::Empty(cert)) = &answer {
        if !refutes(rows, cert) {
            Err("a wrong certificate")?;
        }
    }
    Ok(answer)
}

fn put_multipliers(
    alloc: Global,
    text: &mut String,
    multipliers: &Multipliers,
) -> Result<(), AllocError> {
    for pair in multipliers.as_slice() {
        put(alloc, text, " ", pair.0 as i128)?;
        put(alloc, text, ":", pair.1)?;
    }
    Ok(())
}

// The multipliers as the numbers of rows, each with its multiplier; of a split the row, and what
// stands below and above 0.
fn put_cert(alloc: Global, text: &mut String, cert: &Cert) -> Result<(), AllocError> {
    match cert {
        Cert::Leaf(leaf) => {
            text.push_str("leaf")?;
            put_multipliers(alloc, text, leaf)
        }
        Cert::Split(place, below, above) => {
            put(alloc, text, "split ", *place as i128)?;
            text.push_str(" below")?;
            put_multipliers(alloc, text, below)?;
            text.push_str(" above")?;
            put_multipliers(alloc, text, above)
        }
    }
}

// A certificate, that there is a solution, or the limit that is passed.
fn shown(alloc: Global, answer: Result<Answer, SolveError>) -> Result<String, AllocError> {
    let mut text = String::new(alloc);
    match answer {
        Ok(Answer::Solvable) => text.push_str("solvable")?,
        Ok(Answer::Empty(cert)) => put_cert(alloc, &mut text, &cert)?,
        Err(SolveError::Wide(first, second)) => {
            put(alloc, &mut text, "wide ", first)?;
            put(alloc, &mut text, " ", second)?;
        }
        Err(SolveError::Rows) => text.push_str("rows")?,
        Err(SolveError::OutOfMemory) => return Err(AllocError),
    }
    Ok(text)
}

fn answer_to(alloc: Global, rows: &[Row]) -> Result<String, Fail> {
    Ok(shown(alloc, solved(alloc, rows)?)?)
}

// What is answered to rows of fractions and then of whole numbers.
fn answer(alloc: Global, fractions: &[Line], wholes: &[Line]) -> Result<String, Fail> {
    let mut rows = Vec::new(alloc);
    push_rows(alloc, &mut rows, fractions, Sort::Perm)?;
    push_rows(alloc, &mut rows, wholes, Sort::Int)?;
    answer_to(alloc, &rows)
}

#[test]
fn answers_to_whole_numbers(rt: HostRuntime) -> Result<(), Fail> {
    let given: [(&[Line], &str); 9] = [
        // v0 <= 0 and -v0 + 1 <= 0
        (&[(0, 1, 0, Kind::Le), (1, -1, 0, Kind::Le)], "leaf 0:1 1:1"),
        // 2 v0 - 1 = 0 has the solution 1/2
        (&[(-1, 2, 0, Kind::Eq)], "solvable"),
        // v0 - v1 = 0 and v0 - v1 + 1 = 0: 1 times the second minus 1 times the first is 1 = 0
        (
            &[(0, 1, -1, Kind::Eq), (1, 1, -1, Kind::Eq)],
            "leaf 0:-1 1:1",
        ),
        // v0 - v1 + 1 = 0 and v0 - v1 = 0: the combination is -1 = 0, so its multipliers are negated
        (
            &[(1, 1, -1, Kind::Eq), (0, 1, -1, Kind::Eq)],
            "leaf 0:1 1:-1",
        ),
        // v0 <= 0, -v0 <= 0, v0 != 0
        (
            &[
                (0, 1, 0, Kind::Le),
                (0, -1, 0, Kind::Le),
                (0, 1, 0, Kind::Ne),
            ],
            "split 2 below 1:1 3:1 above 0:1 3:1",
        ),
        // without v0 >= 0 the second side has solutions
        (&[(0, 1, 0, Kind::Le), (0, 1, 0, Kind::Ne)], "solvable"),
        // -v0 <= 0, v0 - 1 <= 0, v0 != 0, v0 - 1 != 0: no whole number solves them, but each row Ne
        // alone leaves one, and 1/2 solves them all
        (
            &[
                (0, -1, 0, Kind::Le),
                (-1, 1, 0, Kind::Le),
                (0, 1, 0, Kind::Ne),
                (-1, 1, 0, Kind::Ne),
            ],
            "solvable",
        ),
        // v0 <= 0, -v0 <= 0, v1 != 0, v0 != 0, 2 v0 != 0: the first that leaves no side is split
        (
            &[
                (0, 1, 0, Kind::Le),
                (0, -1, 0, Kind::Le),
                (0, 0, 1, Kind::Ne),
                (0, 1, 0, Kind::Ne),
                (0, 2, 0, Kind::Ne),
            ],
            "split 3 below 1:1 5:1 above 0:1 5:1",
        ),
        // v0 = 0, v0 + v1 + 1 <= 0, v1 + 1 <= 0, -v1 <= 0: the second row without v0 is the third
        (
            &[
                (0, 1, 0, Kind::Eq),
                (1, 1, 1, Kind::Le),
                (1, 0, 1, Kind::Le),
                (0, 0, -1, Kind::Le),
            ],
            "leaf 2:1 3:1",
        ),
    ];
    for (lines, want) in given {
        let found = answer(rt.alloc(), &[], lines)?;
        assert_eq!(rt; found.as_str(), want);
    }
    Ok(())
}

// -v0 <= 0, 2 v0 - 1 <= 0, v0 != 0: no whole number solves them, and 1/4 does
const BETWEEN: &[Line] = &[
    (0, -1, 0, Kind::Le),
    (-1, 2, 0, Kind::Le),
    (0, 1, 0, Kind::Ne),
];

#[test]
fn answers_to_fractions(rt: HostRuntime) -> Result<(), Fail> {
    let given: [(&[Line], &[Line], &str); 6] = [
        // -p < 0 and p <= 0
        (
            &[(0, -1, 0, Kind::Lt), (0, 1, 0, Kind::Le)],
            &[],
            "leaf 0:1 1:1",
        ),
        // p <= 0, p < 0, -p <= 0: the second row is not equal to the first
        (
            &[
                (0, 1, 0, Kind::Le),
                (0, 1, 0, Kind::Lt),
                (0, -1, 0, Kind::Le),
            ],
            &[],
            "leaf 1:1 2:1",
        ),
        (&[], BETWEEN, "split 2 below 0:1 3:1 above 1:1 3:2"),
        (BETWEEN, &[], "solvable"),
        // the same of the fraction v1 and then of the whole number v0: the row Ne of v1 leaves a side
        (
            &[
                (0, 0, -1, Kind::Le),
                (-1, 0, 2, Kind::Le),
                (0, 0, 1, Kind::Ne),
            ],
            BETWEEN,
            "split 5 below 3:1 6:1 above 4:1 6:2",
        ),
        // v0 <= 0 and -v0 + 1 <= 0, each once more, the first of whatever sort: the first of each is
        // named
        (
            &[(0, 1, 0, Kind::Le)],
            &[
                (1, -1, 0, Kind::Le),
                (1, -1, 0, Kind::Le),
                (0, 1, 0, Kind::Le),
            ],
            "leaf 0:1 1:1",
        ),
    ];
    for (fractions, wholes, want) in given {
        let found = answer(rt.alloc(), fractions, wholes)?;
        assert_eq!(rt; found.as_str(), want);
    }
    Ok(())
}
