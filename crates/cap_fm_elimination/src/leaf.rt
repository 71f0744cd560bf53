//! The multipliers of a false row, from the history of the rows that led to it.
ghost use Rattle.std.specs.Prelude.{◌≡◌, ◌<◌, ◌+◌, ◌++◌, map, length, IfOk, pos};
ghost use Rattle.cap_lin.specs.Linear.{number, IsBelow};
ghost use Rattle.cap_fm_spec.specs.Leaf.{leaf as leaf_of, leaf_steps};
ghost use Rattle.cap_fm_spec.specs.Leaf.{multipliers as multipliers_at, multipliers_of, own_steps};
ghost use Rattle.cap_fm_spec.specs.Leaf.{is_turned, turned as turned_of, turned_steps, check_steps};
ghost use Rattle.cap_fm_elimination.specs.Views.{origin_view, history_view, false_view, IsHistory};
ghost use Rattle.cap_fm_elimination.specs.Answers.{IsMadeBy};
ghost use Rattle.cap_fm_elimination.specs.Way.{IsWay, AreEarlier, RowsBelow, steps_of, with_rows};
ghost use Rattle.cap_fm_elimination.specs.Way.{term_at};

use crate::entry::{FalseRow, Origin};
use crate::error::SolveError;
use crate::numbered::numbered_row;
use bumpalo::Bump;
use cap_farkas::Multipliers;
use cap_lin::{Kind, Row, Term};
use std::alloc::{AllocError, Global};
use std::marker::Model;

// The multipliers of a row are made where it is on the way. Most rows aren't.
#[derive(Drop)]
enum TermSlot<'b> {
    Made(Box<Term, &'b Bump>),
    Unmade,
}

// What there is of the multipliers of a row of a history: 0 where they aren't made.
#[derive(Drop)]
struct RowTerm<'b> {
    slot: TermSlot<'b>,
}

impl<'b> Model for RowTerm<'b> {
    ghost use Rattle.cap_lin.specs.Linear.{Linear};
    ghost use Rattle.cap_fm_elimination.specs.Terms.{slot_term};

    ghost Value = { Linear };

    ghost view = { λ t. slot_term t.slot };
}

impl<'b> RowTerm<'b> {
    fn unmade() -> RowTerm<'b>
        ensures { result ≡ number (pos 0) }
    {
        RowTerm {
            slot: TermSlot::Unmade,
        }
    }

    fn made(bump: &'b Bump, term: Term) -> Result<RowTerm<'b>, AllocError>
        ensures { IfOk result (λ t. t ≡ term) }
    {
        Ok(RowTerm {
            slot: TermSlot::Made(Box::new(bump, term)?),
        })
    }

    // The term, for which a 0 is lent.
    fn term<'t>(&'t self, zero: &'t Term) -> &'t Term
        requires { zero.now ≡ number (pos 0) }
        ensures { result.now ≡ self.now }
    {
        match &self.slot {
            TermSlot::Made(term) => term,
            TermSlot::Unmade => zero,
        }
    }

    fn into_term(self, alloc: Global) -> Term
        ensures { result ≡ self.entry }
    {
        match self.slot {
            TermSlot::Made(term) => Box::into_inner(term),
            TermSlot::Unmade => Term::constant(alloc, 0),
        }
    }
}

/// The leaf of a false row: its multiples of the input rows, which are rows and more behind them.
/// The arena has what is made on the way. Wide has the first result that leaves 128 bits: of the
/// multipliers of the rows on the way, in the order in which these arose, of their negatives, and
/// then of the sum by which the leaf is checked.
pub fn leaf(
    alloc: Global,
    bump: &Bump,
    rows: &[Row],
    more: &[Row],
    history: &[Origin],
    row: FalseRow,
) -> Result<Multipliers, SolveError>
    requires history { IsHistory (length (rows.now ++ more.now)) history.now }
    requires last { row.origin + 1 ≡ length history.now }
    ensures { IsMadeBy
        (leaf_steps (rows.now ++ more.now) (history_view history.now) (false_view row))
        (leaf_of (history_view history.now) (false_view row)).parts
        result }
{
    let multipliers = multipliers(alloc, bump, history, row.origin)?;
    let multipliers = turned(alloc, row.kind, row.constant, multipliers)?;
    checked(alloc, rows, more, &multipliers)
}

// Marks the rows of the history that are on the way to the one at a place. An input row's mark has
// no effect, since its multipliers take no results.
fn way<'b>(
    bump: &'b Bump,
    history: &[Origin],
    last: usize,
) -> Result<Vec<bool, &'b Bump>, AllocError>
    requires history { AreEarlier 0 (map origin_view history.now) }
    requires last { last + 1 ≡ length history.now }
    ensures { IfOk result (λ way. IsWay (map origin_view history.now) last way.items) }
{
    let mut way = Vec::with_capacity(bump, history.len())?;
    way.resize(history.len(), false)?;
    way[last] = true;
    for place in (0..history.len()).rev() {
        if way[place] {
            mark(&mut way, history[place]);
        }
    }
    Ok(way)
}

// The rows that a row is a combination of are on the way to it.
fn mark(way: &mut [bool], origin: Origin)
    requires { RowsBelow (length way.now) (origin_view origin) }
    ensures { way.new ≡ with_rows (origin_view origin) way.old }
{
    match origin {
        Origin::Given(_) => {}
        Origin::Combined(_, first, _, second) => {
            way[first] = true;
            way[second] = true;
        }
    }
}

// The multipliers of the row at a place, as a term whose variables are the numbers of the input
// rows.
fn multipliers(
    alloc: Global,
    bump: &Bump,
    history: &[Origin],
    last: usize,
) -> Result<Term, SolveError>
    requires history { AreEarlier 0 (map origin_view history.now) }
    requires last { last + 1 ≡ length history.now }
    ensures { IsMadeBy
        (steps_of (history_view history.now) last)
        (multipliers_at (history_view history.now) last)
        result }
{
    let way = way(bump, history, last)?;
    multipliers_on(alloc, bump, history, last, &way)
}

// The same, where the way to the row is marked.
fn multipliers_on(
    alloc: Global,
    bump: &Bump,
    history: &[Origin],
    last: usize,
    way: &[bool],
) -> Result<Term, SolveError>
    requires history { AreEarlier 0 (map origin_view history.now) }
    requires last { last + 1 ≡ length history.now }
    requires way { IsWay (map origin_view history.now) last way.now }
    ensures { IsMadeBy
        (steps_of (history_view history.now) last)
        (multipliers_at (history_view history.now) last)
        result }
{
    let mut terms = Vec::with_capacity(bump, history.len())?;
    for place in 0..history.len() {
        let term = if way[place] {
            own_slot(alloc, bump, history[place], &terms)?
        } else {
            RowTerm::unmade()
        };
        terms.push(term)?;
    }
    Ok(terms.swap_remove(last).into_term(alloc))
}

// It stands apart, so that the loop that calls it, which passes by most rows, is short.
#[inline(never)]
fn own_slot<'b>(
    alloc: Global,
    bump: &'b Bump,
    origin: Origin,
    terms: &[RowTerm<'b>],
) -> Result<RowTerm<'b>, SolveError>
    requires { RowsBelow (length terms.now) (origin_view origin) }
    ensures { IsMadeBy
        (own_steps (origin_view origin) (term_at terms.now))
        (multipliers_of (origin_view origin) (term_at terms.now))
        result }
{
    let term = own(alloc, origin, terms)?;
    Ok(RowTerm::made(bump, term)?)
}

// The multipliers of a row, by those of the rows that it is a combination of.
fn own(alloc: Global, origin: Origin, terms: &[RowTerm]) -> Result<Term, SolveError>
    requires { RowsBelow (length terms.now) (origin_view origin) }
    ensures { IsMadeBy
        (own_steps (origin_view origin) (term_at terms.now))
        (multipliers_of (origin_view origin) (term_at terms.now))
        result }
{
    match origin {
        Origin::Given(number) => Ok(Term::var(alloc, number)?),
        Origin::Combined(a, first, b, second) => {
            let zero = Term::constant(alloc, 0);
            let left = terms[first].term(&zero);
            let right = terms[second].term(&zero);
            Ok(left.combination(alloc, a, right, b)?)
        }
    }
}

// The multipliers, or for an equation with a negative constant their negatives.
fn turned(alloc: Global, kind: Kind, constant: i128, multipliers: Term) -> Result<Term, SolveError>
    ensures { IsMadeBy
        (turned_steps (is_turned kind constant) multipliers)
        (turned_of (is_turned kind constant) multipliers)
        result }
{
    match kind {
        Kind::Eq => {
            if constant < 0 {
                Ok(multipliers.negative(alloc)?)
            } else {
                Ok(multipliers)
            }
        }
        _ => Ok(multipliers),
    }
}

// The multipliers, where they can be checked by adding up the rows, row by row and part by part.
fn checked(
    alloc: Global,
    rows: &[Row],
    more: &[Row],
    multipliers: &Term,
) -> Result<Multipliers, SolveError>
    requires { IsBelow (length (rows.now ++ more.now)) multipliers.now }
    ensures { IsMadeBy
        (check_steps (rows.now ++ more.now) (number (pos 0)) multipliers.now.parts)
        multipliers.now.parts
        result }
{
    let parts = multipliers.parts();
    let mut sum = Term::constant(alloc, 0);
    for entry in parts {
        let (number, multiplier) = *entry;
        let row = numbered_row(rows, more, number as usize);
        sum = sum.combination(alloc, 1, &row.term, multiplier)?;
    }
    Ok(Multipliers::new(Vec::from_slice(alloc, parts)?))
}
