//! What a rule claims: lists of rows, which certificates have to refute.
ghost use Rattle.std.specs.Prelude.{◌≡◌, ◌<◌, ◌++◌, [], ◌∷◌, map};
ghost use Rattle.std.specs.Prelude.{length, slice_get, Some, IfOk, OnOk};
ghost use Rattle.cap_rules.specs.Attempts.{prove, prove_that};
ghost use Rattle.cap_rules.specs.Making.{prove_equal, prove_differ};
ghost use Rattle.cap_rules_steps.specs.Places.{ended_by};
ghost use Rattle.cap_rules_steps.specs.Walks.{Claims, giving};

use crate::error::RuleError;
use cap_goal::State;
use cap_lin::{Op, Row, Sort, Term};
use std::alloc::{AllocError, Global};
use std::marker::Model;

/// The lists of rows that certificates have to refute, in order: to prove a row is to refute the
/// rows with each of its negations as the last.
#[derive(Drop)]
pub struct Ledger {
    lists: Vec<Vec<Row>>,
}

impl Model for Ledger {
    ghost use Rattle.std.specs.Prelude.{List, map};
    ghost use Rattle.cap_lin.specs.declared.row.Row.{Row};

    ghost Value = { List (List Row) };

    ghost view = { λ l. map (λ rows. rows.items) l.lists.items };
}

impl Ledger {
    /// The empty ledger.
    pub fn new(alloc: Global) -> Ledger
        ensures { result ≡ [] }
    {
        Ledger {
            lists: Vec::new(alloc),
        }
    }

    /// How many lists there are.
    pub fn len(&self) -> usize
        ensures { result ≡ length self.now }
    {
        self.lists.len()
    }

    /// The list of a number, from 0.
    pub fn list(&self, number: usize) -> &[Row]
        requires { number < length self.now }
        ensures { slice_get self.now number ≡ Some result.now }
    {
        &self.lists[number]
    }

    /// The lists themselves.
    pub fn into_lists(self) -> Vec<Vec<Row>>
        ensures { map (λ rows. rows.items) result.items ≡ self }
    {
        self.lists
    }

    // Owes the refutation of a list.
    fn add(&mut self, list: Vec<Row>) -> Result<(), AllocError>
        ensures { OnOk result (self.new ≡ self.old ++ list.items ∷ []) }
    {
        self.lists.push(list)?;
        Ok(())
    }

    // Owes the refutation of the rows with another one as the last.
    fn owe(&mut self, alloc: Global, rows: &[Row], last: Row) -> Result<(), AllocError>
        ensures { OnOk result (self.new ≡ self.old ++ (rows.now ++ last ∷ []) ∷ []) }
    {
        let mut list = copies(alloc, rows)?;
        list.push(last)?;
        self.add(list)
    }
}

fn copies(alloc: Global, rows: &[Row]) -> Result<Vec<Row>, AllocError>
    ensures { IfOk result (λ all. all.items ≡ rows.now) }
{
    let mut all = Vec::with_capacity(alloc, rows.len())?;
    for row in rows {
        all.push(row.copy(alloc)?)?;
    }
    Ok(all)
}

// Owes the refutations of the rows with each of these as the last.
fn owe_each(
    alloc: Global,
    ledger: &mut Ledger,
    rows: &[Row],
    lasts: &[Row],
) -> Result<(), AllocError>
    ensures { OnOk result (ledger.new ≡ ledger.old ++ map (ended_by rows.now) lasts.now) }
{
    for last in lasts {
        ledger.owe(alloc, rows, last.copy(alloc)?)?;
    }
    Ok(())
}

/// Claims that the rows prove a row, whose negations are made first.
pub fn prove(alloc: Global, ledger: &mut Ledger, rows: &[Row], row: &Row) -> Result<(), RuleError>
    ensures { Claims (giving result tt) ledger.old ledger.new (prove rows.now row.now) }
{
    let negations = row.negations(alloc)?;
    owe_each(alloc, ledger, rows, &negations)?;
    Ok(())
}

/// Claims that the rows prove a comparison.
pub fn prove_that(
    alloc: Global,
    ledger: &mut Ledger,
    rows: &[Row],
    left: &Term,
    op: Op,
    right: &Term,
    sort: Sort,
) -> Result<(), RuleError>
    ensures { Claims (giving result tt) ledger.old ledger.new
        (prove_that rows.now left.now op right.now sort) }
{
    let row = Row::of(alloc, left, op, right, sort)?;
    prove(alloc, ledger, rows, &row)
}

/// Claims that two terms are equal.
pub fn prove_equal(
    alloc: Global,
    ledger: &mut Ledger,
    state: &State,
    left: &Term,
    right: &Term,
) -> Result<(), RuleError>
    ensures { Claims (giving result tt) ledger.old ledger.new
        (prove_equal state.now left.now right.now) }
{
    prove_that(alloc, ledger, state.rows(), left, Op::Eq, right, Sort::Int)
}

/// Claims that two terms differ.
pub fn prove_differ(
    alloc: Global,
    ledger: &mut Ledger,
    state: &State,
    left: &Term,
    right: &Term,
) -> Result<(), RuleError>
    ensures { Claims (giving result tt) ledger.old ledger.new
        (prove_differ state.now left.now right.now) }
{
    prove_that(alloc, ledger, state.rows(), left, Op::Ne, right, Sort::Int)
}

/// Claims that no valuation solves the rows.
pub fn refute(alloc: Global, ledger: &mut Ledger, rows: &[Row]) -> Result<(), AllocError>
    ensures { OnOk result (ledger.new ≡ ledger.old ++ rows.now ∷ []) }
{
    let list = copies(alloc, rows)?;
    ledger.add(list)?;
    Ok(())
}
