//! Rows: a term that is compared with 0, and the rows of comparisons and their opposites.
ghost use Rattle.std.specs.Prelude.{◌≡◌, ◌∷◌, [], ◌↔◌, IfOk, MatchResult};
ghost use Rattle.cap_lin.specs.Linear.{minus};
ghost use Rattle.cap_lin.specs.Steps.{minus_steps};
ghost use Rattle.cap_lin.specs.Exact.{IsExact, IsExactBy};
ghost use Rattle.cap_lin.specs.Values.{Valuation};
ghost use Rattle.cap_lin.specs.Rows.{row, below_zero, below_zero_steps, above_zero};
ghost use Rattle.cap_lin.specs.Rows.{above_zero_steps, less_steps, row_of, row_of_steps, negations};
ghost use Rattle.cap_lin.specs.Rows.{negations_steps};
ghost use Rattle.cap_lin.specs.Solves.{Holds, HoldsSome, Compares};

use crate::error::LinError;
use crate::term::Term;
use std::alloc::{AllocError, Global};

/// The sort of a variable or a term: whole numbers, or fractions that stand for permissions.
#[derive(Clone, Copy, Debug, PartialEq, Eq)]
pub enum Sort {
    Int,
    Perm,
}

/// What a row says of its term: at most 0, below 0, equal to 0, or other than 0.
#[derive(Clone, Copy, Debug, PartialEq, Eq, Hash)]
pub enum Kind {
    Le,
    Lt,
    Eq,
    Ne,
}

/// How a comparison compares its two sides.
#[derive(Clone, Copy, Debug, PartialEq, Eq)]
pub enum Op {
    Eq,
    Ne,
    Lt,
    Le,
    Gt,
    Ge,
}

/// What is known of a term.
#[derive(Drop)]
pub struct Row {
    pub term: Term,
    pub kind: Kind,
    pub sort: Sort,
}

impl Row {
    /// The row of a comparison. Between whole numbers, `<` is a row Le of the difference plus 1.
    /// Wide has the first result that leaves 128 bits: of the negative of the side that is taken
    /// away, then of the sum, then of the 1 that is added last.
    pub fn of(alloc: Global, left: &Term, op: Op, right: &Term, sort: Sort) -> Result<Row, LinError>
        ensures exact { IsExact result (row_of_steps left.now op right.now sort)
            (row_of left.now op right.now sort) }
        ensures means { IfOk result
            (λ r. (v : Valuation) → Holds v r ↔ Compares v left.now op right.now sort) }
    {
        comparison(alloc, left, op, right, sort)
    }

    /// The rows of which one holds exactly where this row doesn't: two for a row Eq, below 0 and
    /// above 0, and else one. Wide has the first result that leaves 128 bits, the rows in order.
    pub fn negations(&self, alloc: Global) -> Result<Vec<Row>, LinError>
        ensures exact { IsExactBy result (λ rows. rows.items)
            (negations_steps self.now) (negations self.now) }
        ensures covers { IfOk result
            (λ rows. (v : Valuation) → (¬ Holds v self.now) ↔ HoldsSome v rows.items) }
    {
        self.opposites(alloc)
    }

    fn opposites(&self, alloc: Global) -> Result<Vec<Row>, LinError>
        ensures { IsExactBy result (λ rows. rows.items)
            (negations_steps self.now) (negations self.now) }
    {
        match self.kind {
            Kind::Le => one(alloc, self.above_zero(alloc)?),
            Kind::Lt => one(
                alloc,
                Row {
                    term: self.term.negative(alloc)?,
                    kind: Kind::Le,
                    sort: self.sort,
                },
            ),
            Kind::Eq => {
                let below = self.below_zero(alloc)?;
                let above = self.above_zero(alloc)?;
                two(alloc, below, above)
            }
            Kind::Ne => one(
                alloc,
                Row {
                    term: self.term.copy(alloc)?,
                    kind: Kind::Eq,
                    sort: self.sort,
                },
            ),
        }
    }

    /// The row that this row's term is below 0, of this row's sort.
    pub fn below_zero(&self, alloc: Global) -> Result<Row, LinError>
        ensures { IsExact result (below_zero_steps self.now.sort self.now.term)
            (below_zero self.now.sort self.now.term) }
    {
        below_zero(self.term.copy(alloc)?, self.sort)
    }

    /// The row that this row's term is above 0, of this row's sort. Wide is as in `Term::scale` by
    /// -1, and then, between whole numbers, as in the sum of the constant and 1.
    pub fn above_zero(&self, alloc: Global) -> Result<Row, LinError>
        ensures { IsExact result (above_zero_steps self.now.sort self.now.term)
            (above_zero self.now.sort self.now.term) }
    {
        below_zero(self.term.negative(alloc)?, self.sort)
    }

    /// The same row once more.
    pub fn copy(&self, alloc: Global) -> Result<Row, AllocError>
        ensures { IfOk result (λ r. r ≡ self.now) }
    {
        Ok(Row {
            term: self.term.copy(alloc)?,
            kind: self.kind,
            sort: self.sort,
        })
    }
}

// The row that a term is below 0.
fn below_zero(term: Term, sort: Sort) -> Result<Row, LinError>
    ensures { IsExact result (below_zero_steps sort term) (below_zero sort term) }
{
    match sort {
        Sort::Int => Ok(Row {
            term: term.plus_one()?,
            kind: Kind::Le,
            sort,
        }),
        Sort::Perm => Ok(Row {
            term,
            kind: Kind::Lt,
            sort,
        }),
    }
}

fn comparison(alloc: Global, left: &Term, op: Op, right: &Term, sort: Sort) -> Result<Row, LinError>
    ensures { IsExact result (row_of_steps left.now op right.now sort)
        (row_of left.now op right.now sort) }
{
    match op {
        Op::Eq => difference(alloc, left, right, Kind::Eq, sort),
        Op::Ne => difference(alloc, left, right, Kind::Ne, sort),
        Op::Lt => less(alloc, left, right, sort),
        Op::Le => difference(alloc, left, right, Kind::Le, sort),
        Op::Gt => less(alloc, right, left, sort),
        Op::Ge => difference(alloc, right, left, Kind::Le, sort),
    }
}

// The row of a difference.
fn difference(
    alloc: Global,
    left: &Term,
    right: &Term,
    kind: Kind,
    sort: Sort,
) -> Result<Row, LinError>
    ensures { IsExact result (minus_steps left.now right.now)
        (row kind sort (minus left.now right.now)) }
{
    let term = left.minus(alloc, right)?;
    Ok(Row { term, kind, sort })
}

// The row that a difference is below 0.
fn less(alloc: Global, left: &Term, right: &Term, sort: Sort) -> Result<Row, LinError>
    ensures { IsExact result (less_steps left.now right.now sort)
        (below_zero sort (minus left.now right.now)) }
{
    let term = left.minus(alloc, right)?;
    below_zero(term, sort)
}

fn one(alloc: Global, row: Row) -> Result<Vec<Row>, LinError>
    ensures { MatchResult result (λ rows. rows.items ≡ row ∷ []) (λ e. e ≡ LinError.OutOfMemory) }
{
    let mut rows = Vec::new(alloc);
    rows.push(row)?;
    Ok(rows)
}

fn two(alloc: Global, first: Row, second: Row) -> Result<Vec<Row>, LinError>
    ensures { MatchResult result (λ rows. rows.items ≡ first ∷ second ∷ [])
        (λ e. e ≡ LinError.OutOfMemory) }
{
    let mut rows = Vec::new(alloc);
    rows.push(first)?;
    rows.push(second)?;
    Ok(rows)
}
