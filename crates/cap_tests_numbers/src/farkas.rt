//! Certificates, and the rows that they refute.

use cap_farkas::{Cert, Multipliers, refutes};
use cap_lin::{Kind, LinError, Row, Sort, Term};
use std::alloc::{AllocError, Global};
use std::test::Fail;

// The row of a constant and a multiple of the variable 0.
fn row(
    alloc: Global,
    constant: i128,
    coefficient: i128,
    kind: Kind,
    sort: Sort,
) -> Result<Row, LinError> {
    let multiple = Term::var(alloc, 0)?.scale(alloc, coefficient)?;
    let term = Term::constant(alloc, constant).add(alloc, &multiple)?;
    Ok(Row { term, kind, sort })
}

// The rows of constants and multiples of the variable 0.
fn rows(alloc: Global, parts: &[(i128, i128, Kind)], sort: Sort) -> Result<Vec<Row>, LinError> {
    let mut rows = Vec::new(alloc);
    for part in parts {
        let (constant, coefficient, kind) = *part;
        rows.push(row(alloc, constant, coefficient, kind, sort)?)?;
    }
    Ok(rows)
}

type Pairs = &'static [(u32, i128)];

fn multipliers(alloc: Global, pairs: Pairs) -> Result<Multipliers, AllocError> {
    Ok(Multipliers::new(Vec::from_slice(alloc, pairs)?))
}

// A certificate by its pairs of a row's number and its multiplier.
#[derive(Clone, Copy)]
enum PlainCert {
    Leaf(Pairs),
    Split(u32, Pairs, Pairs),
}

fn cert(alloc: Global, given: PlainCert) -> Result<Cert, AllocError> {
    match given {
        PlainCert::Leaf(pairs) => Ok(Cert::Leaf(multipliers(alloc, pairs)?)),
        PlainCert::Split(place, below, above) => {
            let below = multipliers(alloc, below)?;
            let above = multipliers(alloc, above)?;
            Ok(Cert::Split(place, below, above))
        }
    }
}

type Parts = &'static [(i128, i128, Kind)];

fn is_refuted(alloc: Global, parts: Parts, sort: Sort, given: PlainCert) -> Result<bool, LinError> {
    let rows = rows(alloc, parts, sort)?;
    let cert = cert(alloc, given)?;
    Ok(refutes(&rows, &cert))
}

// v0 <= 0, -v0 + 1 <= 0, v0 - 1 = 0, v0 != 0
const FOUR: Parts = &[
    (0, 1, Kind::Le),
    (1, -1, Kind::Le),
    (-1, 1, Kind::Eq),
    (0, 1, Kind::Ne),
];

// -p < 0, p <= 0, -p <= 0
const STRICT: Parts = &[(0, -1, Kind::Lt), (0, 1, Kind::Le), (0, -1, Kind::Le)];

const WIDE: Parts = &[(i128::MAX, 0, Kind::Le), (i128::MAX, 0, Kind::Le)];

// v <= 0, -v <= 0, v != 0. Behind them stands, for whole numbers, v + 1 <= 0 or -v + 1 <= 0, and
// for fractions v < 0 or -v < 0.
const UNEQUAL: Parts = &[(0, 1, Kind::Le), (0, -1, Kind::Le), (0, 1, Kind::Ne)];

const ABOVE: Pairs = &[(0, 1), (3, 1)];

const BELOW: Pairs = &[(1, 1), (3, 1)];

// 1 <= 0, and a number other than 0 whose negative leaves 128 bits
const LEAST: Parts = &[(1, 0, Kind::Le), (i128::MIN, 0, Kind::Ne)];

const ONCE: Pairs = &[(0, 1)];

const SPLIT: PlainCert = PlainCert::Split(2, BELOW, ABOVE);

const EXCHANGED: PlainCert = PlainCert::Split(2, ABOVE, BELOW);

const SPLIT_OF_LE: PlainCert = PlainCert::Split(0, BELOW, ABOVE);

const EXAMPLES: &[(Parts, Sort, PlainCert, bool, &str)] = &[
    (
        FOUR,
        Sort::Int,
        PlainCert::Leaf(&[(0, 1), (1, 1)]),
        true,
        "1 <= 0",
    ),
    (
        FOUR,
        Sort::Int,
        PlainCert::Leaf(&[(0, 3), (2, -3)]),
        true,
        "a negative multiplier of Eq",
    ),
    (
        FOUR,
        Sort::Int,
        PlainCert::Leaf(&[(0, 2), (1, 1)]),
        false,
        "a variable is left",
    ),
    (
        FOUR,
        Sort::Int,
        PlainCert::Leaf(&[(1, 1), (0, 1)]),
        false,
        "out of order",
    ),
    (
        FOUR,
        Sort::Int,
        PlainCert::Leaf(&[(0, 1), (1, 1), (2, 0)]),
        false,
        "a multiplier 0",
    ),
    (
        FOUR,
        Sort::Int,
        PlainCert::Leaf(&[(0, -1), (1, -1)]),
        false,
        "a negative multiplier of Le",
    ),
    (
        FOUR,
        Sort::Int,
        PlainCert::Leaf(&[(1, 1), (3, 1)]),
        false,
        "a row Ne",
    ),
    (
        FOUR,
        Sort::Int,
        PlainCert::Leaf(&[(0, 1), (1, 1), (4, 1)]),
        false,
        "no such row",
    ),
    (
        FOUR,
        Sort::Int,
        PlainCert::Leaf(&[]),
        false,
        "an empty leaf",
    ),
    (
        STRICT,
        Sort::Perm,
        PlainCert::Leaf(&[(0, 1), (1, 1)]),
        true,
        "0 < 0",
    ),
    (
        STRICT,
        Sort::Perm,
        PlainCert::Leaf(&[(1, 1), (2, 1)]),
        false,
        "0 <= 0",
    ),
    (
        WIDE,
        Sort::Int,
        PlainCert::Leaf(&[(0, 1)]),
        true,
        "the greatest number",
    ),
    (
        WIDE,
        Sort::Int,
        PlainCert::Leaf(&[(0, 1), (1, 1)]),
        false,
        "a wide sum",
    ),
    (UNEQUAL, Sort::Int, SPLIT, true, "a split"),
    (UNEQUAL, Sort::Int, EXCHANGED, false, "exchanged leaves"),
    (
        UNEQUAL,
        Sort::Int,
        SPLIT_OF_LE,
        false,
        "a split of a row Le",
    ),
    (UNEQUAL, Sort::Perm, SPLIT, true, "a split of fractions"),
    (
        UNEQUAL,
        Sort::Perm,
        EXCHANGED,
        false,
        "exchanged leaves of fractions",
    ),
    (
        UNEQUAL,
        Sort::Perm,
        SPLIT_OF_LE,
        false,
        "a split of a row Le of fractions",
    ),
    (
        LEAST,
        Sort::Perm,
        PlainCert::Split(1, ONCE, ONCE),
        false,
        "a wide row behind the others",
    ),
];

#[test]
fn certificates(rt: HostRuntime) -> Result<(), Fail> {
    for (parts, sort, given, want, what) in EXAMPLES {
        let found = is_refuted(rt.alloc(), parts, *sort, *given)?;
        assert!(rt; found == *want, "{what}");
    }
    Ok(())
}

#[test]
fn multipliers_give_their_list_back(rt: HostRuntime) -> Result<(), Fail> {
    let pairs = multipliers(rt.alloc(), &[(3, -7)])?;
    assert_eq!(rt; pairs.as_slice(), [(3, -7)].as_slice());
    assert_eq!(rt; pairs.into_vec().len(), 1);
    Ok(())
}
