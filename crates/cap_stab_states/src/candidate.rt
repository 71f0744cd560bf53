//! Candidates: what may be said of a fact's state, as rows.
ghost use Rattle.std.specs.Prelude.{◌≡◌, [], fold, map, OnOk, IfOk};
ghost use Rattle.std.specs.List.{list_any};
ghost use Rattle.cap_fm_spec.specs.Rows.{same_kind as is_same_kind};
ghost use Rattle.cap_goal_spec.specs.Candidates.{made_row, candidate_of, bounds};
ghost use Rattle.cap_stab_states.specs.Adding.{is_row, is_repeat, is_over, added};
ghost use Rattle.cap_stab_states.specs.Adding.{bounds_among, IsPast};
ghost use Rattle.cap_stab_states.specs.Views.{candidate_view, candidates_view};

use cap_lin::{Kind, LinError, Op, Row, Sort, Term};
use cap_rules_steps::value_over;
use std::alloc::{AllocError, Global};

/// What may be known of a fact's state after steps of others: a row over its later state.
#[derive(Drop)]
pub enum Candidate {
    /// The row, in which the state's next fresh variable stands for the later state.
    Known(Row),
    /// The row leaves 128 bits: the operands of the first result that does.
    Past(i128, i128),
}

fn same_kind(kind: Kind, other: Kind) -> bool
    ensures { result ≡ is_same_kind kind other }
{
    match kind {
        Kind::Le => matches!(other, Kind::Le),
        Kind::Lt => matches!(other, Kind::Lt),
        Kind::Eq => matches!(other, Kind::Eq),
        Kind::Ne => matches!(other, Kind::Ne),
    }
}

// Whether the candidate has this row.
fn has_row(row: &Row, candidate: &Candidate) -> bool
    ensures { result ≡ is_row row.now (candidate_view candidate.now) }
{
    match candidate {
        Candidate::Known(other) => same_kind(row.kind, other.kind) && row.term == other.term,
        Candidate::Past(_, _) => false,
    }
}

// Whether one of the candidates has this row.
fn is_there(row: &Row, all: &[Candidate]) -> bool
    ensures { result ≡ list_any (λ c. is_row row.now (candidate_view c)) all.now }
{
    all.iter().any(|candidate| has_row(row, candidate))
}

// Whether one of the candidates has the same row.
fn repeats(all: &[Candidate], candidate: &Candidate) -> bool
    ensures { result ≡ is_repeat (candidates_view all.now) (candidate_view candidate.now) }
{
    match candidate {
        Candidate::Known(row) => is_there(row, all),
        Candidate::Past(_, _) => false,
    }
}

// Adds a candidate, unless it repeats one.
fn add(all: &mut Vec<Candidate>, candidate: Candidate) -> Result<(), AllocError>
    ensures { OnOk result (candidates_view all.new.items
        ≡ added (candidates_view all.old.items) (candidate_view candidate)) }
{
    if !repeats(all, &candidate) {
        all.push(candidate)?;
    }
    Ok(())
}

// The candidate whose row leaves 128 bits so.
fn past(error: LinError) -> Result<Candidate, AllocError>
    ensures { IfOk result (λ c. IsPast error (candidate_view c)) }
{
    match error {
        LinError::Wide(a, b) => Ok(Candidate::Past(a, b)),
        LinError::OutOfMemory => Err(AllocError),
    }
}

// The candidate that a comparison of whole numbers is.
fn made(alloc: Global, left: &Term, op: Op, right: &Term) -> Result<Candidate, AllocError>
    ensures { IfOk result
        (λ c. candidate_view c ≡ candidate_of (made_row [] left.now op right.now)) }
{
    match Row::of(alloc, left, op, right, Sort::Int) {
        Ok(row) => Ok(Candidate::Known(row)),
        Err(LinError::Wide(a, b)) => Ok(Candidate::Past(a, b)),
        Err(LinError::OutOfMemory) => Err(AllocError),
    }
}

// Adds that the later state is this term.
pub(crate) fn add_equal(
    alloc: Global,
    all: &mut Vec<Candidate>,
    later: &Term,
    term: &Term,
) -> Result<(), AllocError>
    ensures { OnOk result (candidates_view all.new.items
        ≡ added (candidates_view all.old.items)
        (candidate_of (made_row [] later.now Op.Eq term.now))) }
{
    add(all, made(alloc, later, Op::Eq, term)?)
}

// Adds that the later state is at least this term, and then that it is at most this term.
pub(crate) fn add_bounds(
    alloc: Global,
    all: &mut Vec<Candidate>,
    later: &Term,
    term: &Term,
) -> Result<(), AllocError>
    ensures { OnOk result (candidates_view all.new.items
        ≡ fold added (candidates_view all.old.items)
        (map candidate_of (bounds later.now [] term.now))) }
{
    add(all, made(alloc, term, Op::Le, later)?)?;
    add(all, made(alloc, later, Op::Le, term)?)
}

// Whether each name of the term is one of the first so many.
fn is_over_first(count: u32, term: &Term) -> bool
    ensures { result ≡ is_over count term.now }
{
    term.parts().iter().all(|part| part.0 < count)
}

// Adds bounds by a term over the first so many of these names.
pub(crate) fn add_bounds_by(
    alloc: Global,
    all: &mut Vec<Candidate>,
    count: u32,
    names: &[Term],
    later: &Term,
    term: &Term,
) -> Result<(), AllocError>
    ensures { OnOk result (candidates_view all.new.items
        ≡ fold added (candidates_view all.old.items)
        (map candidate_of (bounds_among count names.now later.now term.now))) }
{
    if !is_over_first(count, term) {
        return Ok(());
    }
    match value_over(alloc, names, term) {
        Ok(value) => add_bounds(alloc, all, later, &value),
        Err(error) => {
            add(all, past(error)?)?;
            add(all, past(error)?)
        }
    }
}
