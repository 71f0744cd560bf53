//! Linear terms, and the rows of comparisons.

use crate::texts::{put_error, put_row, put_rows, put_term, sum};
use cap_lin::{Kind, LinError, Op, Row, Sort, Term};
use std::alloc::{AllocError, Global};
use std::collections::HashSet;
use std::test::Fail;

// A constant and the parts that are added to it, in this order.
type Sum = (i128, &'static [(u32, i128)]);

fn term(alloc: Global, given: Sum) -> Result<Term, LinError> {
    sum(alloc, given.0, given.1)
}

// A term, by how it is made of sums.
#[derive(Clone, Copy)]
enum Making {
    Sum(Sum),
    Plus(Sum, Sum),
    Minus(Sum, Sum),
    Negative(Sum),
    Times(i128, Sum),
    // So many times the first and so many times the second one.
    Combined(i128, Sum, i128, Sum),
    // The first, where a variable is the second.
    Replaced(Sum, u32, Sum),
}

fn made(alloc: Global, given: Making) -> Result<Term, LinError> {
    match given {
        Making::Sum(one) => term(alloc, one),
        Making::Plus(left, right) => term(alloc, left)?.add(alloc, &term(alloc, right)?),
        Making::Minus(left, right) => term(alloc, left)?.minus(alloc, &term(alloc, right)?),
        Making::Negative(one) => term(alloc, one)?.negative(alloc),
        Making::Times(k, one) => term(alloc, one)?.scale(alloc, k),
        Making::Combined(a, left, b, right) => {
            term(alloc, left)?.combination(alloc, a, &term(alloc, right)?, b)
        }
        Making::Replaced(one, variable, by) => {
            term(alloc, one)?.subst(alloc, variable, &term(alloc, by)?)
        }
    }
}

// The term, or the operands of what is wide.
fn shown(alloc: Global, given: Making) -> Result<String, AllocError> {
    let mut text = String::new(alloc);
    match made(alloc, given) {
        Ok(term) => put_term(alloc, &mut text, &term)?,
        Err(error) => put_error(alloc, &mut text, error)?,
    }
    Ok(text)
}

const MOST: i128 = 170141183460469231731687303715884105727;

const LEAST: i128 = i128::MIN;

// 1 + 2 v3 - v0 - 2 v3 + 5 v7: the variable 3 disappears, and the others ascend.
const FOUR: Sum = (1, &[(3, 2), (0, -1), (3, -2), (7, 5)]);

// v0 + 2 v1 + 3 v3, and 5 v1 + v2 + 7 v4 + v5
const FIRST: Sum = (0, &[(0, 1), (1, 2), (3, 3)]);

const SECOND: Sum = (0, &[(1, 5), (2, 1), (4, 7), (5, 1)]);

const TERMS: &[(Making, &str)] = &[
    (Making::Sum(FOUR), "-1*v0 + 5*v7 + 1"),
    (
        Making::Minus((1, &[(0, -1), (7, 5)]), (4, &[(0, -1)])),
        "5*v7 + -3",
    ),
    (Making::Negative((-3, &[(7, 5)])), "-5*v7 + 3"),
    // 2 (1 + 3 v0 - 2 v2) - 3 (4 + 2 v0 + v1): the variable 0 disappears.
    (
        Making::Combined(2, (1, &[(0, 3), (2, -2)]), -3, (4, &[(0, 2), (1, 1)])),
        "-3*v1 + -4*v2 + -10",
    ),
    // The sum for the variable 0 comes before the product for the variable 1.
    (
        Making::Combined(1, (0, &[(0, MOST)]), 2, (0, &[(0, 1), (1, MOST)])),
        "wide 170141183460469231731687303715884105727 2",
    ),
    // Twice the first less the second, and the same terms added the other way round.
    (
        Making::Combined(2, FIRST, -1, SECOND),
        "2*v0 + -1*v1 + -1*v2 + 6*v3 + -7*v4 + -1*v5",
    ),
    (
        Making::Combined(1, SECOND, 1, FIRST),
        "v0 + 7*v1 + v2 + 3*v3 + 7*v4 + v5",
    ),
    // The product with the first number, that with the second one, and the sum of both.
    (
        Making::Combined(2, (MOST, &[]), 3, (MOST, &[])),
        "wide 2 170141183460469231731687303715884105727",
    ),
    (
        Making::Combined(1, (MOST, &[]), 3, (LEAST, &[])),
        "wide 3 -170141183460469231731687303715884105728",
    ),
    (
        Making::Combined(-1, (MOST, &[]), 2, (-1, &[])),
        "wide -170141183460469231731687303715884105727 -2",
    ),
    // 2 v0 + 1, where v0 is v0 + 3, and where v1, which it lacks, is v0 + 3.
    (
        Making::Replaced((1, &[(0, 2)]), 0, (3, &[(0, 1)])),
        "2*v0 + 7",
    ),
    (
        Making::Replaced((1, &[(0, 2)]), 1, (3, &[(0, 1)])),
        "2*v0 + 1",
    ),
    (
        Making::Times(2, (MOST, &[])),
        "wide 2 170141183460469231731687303715884105727",
    ),
    (
        Making::Times(-1, (LEAST, &[])),
        "wide -1 -170141183460469231731687303715884105728",
    ),
    (
        Making::Times(MOST, (3, &[])),
        "wide 170141183460469231731687303715884105727 3",
    ),
    // The constant comes before the coefficients, and those in the order of variables.
    (
        Making::Times(MOST, (1, &[(4, MOST), (2, 3)])),
        "wide 170141183460469231731687303715884105727 3",
    ),
    (
        Making::Plus((MOST, &[]), (1, &[])),
        "wide 170141183460469231731687303715884105727 1",
    ),
    (
        Making::Plus((1, &[]), (MOST, &[])),
        "wide 1 170141183460469231731687303715884105727",
    ),
    (
        Making::Plus((LEAST, &[]), (-1, &[])),
        "wide -170141183460469231731687303715884105728 -1",
    ),
    // The negative is made first, though the difference of the second pair would fit.
    (
        Making::Minus((LEAST, &[]), (1, &[])),
        "wide -170141183460469231731687303715884105728 -1",
    ),
    (
        Making::Minus((-1, &[]), (LEAST, &[])),
        "wide -1 -170141183460469231731687303715884105728",
    ),
];

#[test]
fn terms_that_are_made(rt: HostRuntime) -> Result<(), Fail> {
    for (given, want) in TERMS {
        let found = shown(rt.alloc(), *given)?;
        assert_eq!(rt; found.as_str(), *want);
    }
    Ok(())
}

#[test]
fn coefficients_and_variables(rt: HostRuntime) -> Result<(), Fail> {
    let sum = term(rt.alloc(), FOUR)?;
    for (variable, coefficient) in [(0, -1), (3, 0), (7, 5), (8, 0)] {
        assert!(rt; sum.coefficient(variable) == coefficient, "of {variable}");
    }
    for (variable, next) in [(0, Some(0)), (1, Some(7)), (7, Some(7)), (8, None)] {
        assert!(rt; sum.variable_from(variable) == next, "from {variable}");
    }
    Ok(())
}

// Whether the terms of both sums are the same, and a copy of the first is the second too.
fn are_same(alloc: Global, first: Sum, second: Sum) -> Result<bool, LinError> {
    let first = term(alloc, first)?;
    let second = term(alloc, second)?;
    Ok(first.same(&second) && first.copy(alloc)?.same(&second))
}

#[test]
fn same_terms(rt: HostRuntime) -> Result<(), Fail> {
    let given: [(Sum, Sum, bool); 4] = [
        ((1, &[(0, 2), (3, -1)]), (1, &[(3, -1), (0, 2)]), true),
        ((1, &[(0, 2), (3, -1)]), (1, &[(0, 2), (3, 1)]), false),
        ((1, &[(7, 5)]), (1, &[(0, -1), (7, 5)]), false),
        ((1, &[(7, 5)]), (2, &[(7, 5)]), false),
    ];
    for (first, second, want) in given {
        let found = are_same(rt.alloc(), first, second)?;
        assert!(rt; found == want, "{first:?} and {second:?}");
    }
    Ok(())
}

#[test]
fn terms_as_keys(rt: HostRuntime) -> Result<(), Fail> {
    let mut terms = HashSet::new(rt.alloc());
    let given: [(Sum, bool); 3] = [
        ((1, &[(0, 2), (3, -1)]), true),
        ((1, &[(3, -1), (0, 2)]), false),
        ((1, &[(0, 2), (3, 1)]), true),
    ];
    for (key, is_new) in given {
        let key = term(rt.alloc(), key)?;
        assert!(rt; terms.insert(key)? == is_new);
    }
    Ok(())
}

#[test]
fn values(rt: HostRuntime) -> Result<(), Fail> {
    // 2 v0 - v1 + 5 at 3 and 4
    let plane = term(rt.alloc(), (5, &[(0, 2), (1, -1)]))?;
    let values = [3, 4];
    assert!(rt; !plane.is_below(1));
    assert!(rt; plane.is_below(values.len()));
    assert_eq!(rt; plane.value(&values), Ok(7));
    Ok(())
}

// A comparison of two sums.
fn compared(alloc: Global, left: Sum, op: Op, right: Sum, sort: Sort) -> Result<Row, LinError> {
    let left = term(alloc, left)?;
    let right = term(alloc, right)?;
    Row::of(alloc, &left, op, &right, sort)
}

fn shown_row(alloc: Global, row: Result<Row, LinError>) -> Result<String, AllocError> {
    let mut text = String::new(alloc);
    match row {
        Ok(row) => put_row(alloc, &mut text, &row)?,
        Err(error) => put_error(alloc, &mut text, error)?,
    }
    Ok(text)
}

// v0, v1 + 2, and a number and 0 whose comparison is wide
const FIRST_ONE: Sum = (0, &[(0, 1)]);

const SECOND_AND_2: Sum = (2, &[(1, 1)]);

const WIDE: Sum = (MOST, &[]);

const NOTHING: Sum = (0, &[]);

#[test]
fn rows_of_comparisons(rt: HostRuntime) -> Result<(), Fail> {
    for (left, op, right, sort, want) in [
        (
            FIRST_ONE,
            Op::Eq,
            SECOND_AND_2,
            Sort::Int,
            "v0 + -1*v1 + -2 = 0",
        ),
        (
            FIRST_ONE,
            Op::Ne,
            SECOND_AND_2,
            Sort::Int,
            "v0 + -1*v1 + -2 != 0",
        ),
        (
            FIRST_ONE,
            Op::Lt,
            SECOND_AND_2,
            Sort::Int,
            "v0 + -1*v1 + -1 <= 0",
        ),
        (
            FIRST_ONE,
            Op::Le,
            SECOND_AND_2,
            Sort::Int,
            "v0 + -1*v1 + -2 <= 0",
        ),
        (
            FIRST_ONE,
            Op::Gt,
            SECOND_AND_2,
            Sort::Int,
            "-1*v0 + v1 + 3 <= 0",
        ),
        (
            FIRST_ONE,
            Op::Ge,
            SECOND_AND_2,
            Sort::Int,
            "-1*v0 + v1 + 2 <= 0",
        ),
        (
            FIRST_ONE,
            Op::Gt,
            SECOND_AND_2,
            Sort::Perm,
            "-1*v0 + v1 + 2 < 0 (Perm)",
        ),
        (
            WIDE,
            Op::Lt,
            NOTHING,
            Sort::Int,
            "wide 170141183460469231731687303715884105727 1",
        ),
    ] {
        let row = compared(rt.alloc(), left, op, right, sort);
        let found = shown_row(rt.alloc(), row)?;
        assert_eq!(rt; found.as_str(), want);
    }
    Ok(())
}

// The negations of a row of v0 + 5.
fn negations(alloc: Global, kind: Kind, sort: Sort) -> Result<String, LinError> {
    let term = term(alloc, (5, &[(0, 1)]))?;
    let rows = Row { term, kind, sort }.copy(alloc)?.negations(alloc)?;
    let mut text = String::new(alloc);
    put_rows(alloc, &mut text, &rows)?;
    Ok(text)
}

#[test]
fn negations_of_rows(rt: HostRuntime) -> Result<(), Fail> {
    for (kind, sort, want) in [
        (Kind::Le, Sort::Int, "-1*v0 + -4 <= 0"),
        (Kind::Le, Sort::Perm, "-1*v0 + -5 < 0 (Perm)"),
        (Kind::Lt, Sort::Int, "-1*v0 + -5 <= 0"),
        (Kind::Lt, Sort::Perm, "-1*v0 + -5 <= 0 (Perm)"),
        (Kind::Eq, Sort::Int, "v0 + 6 <= 0, -1*v0 + -4 <= 0"),
        (
            Kind::Eq,
            Sort::Perm,
            "v0 + 5 < 0 (Perm), -1*v0 + -5 < 0 (Perm)",
        ),
        (Kind::Ne, Sort::Int, "v0 + 5 = 0"),
    ] {
        let found = negations(rt.alloc(), kind, sort)?;
        assert_eq!(rt; found.as_str(), want);
    }
    Ok(())
}
