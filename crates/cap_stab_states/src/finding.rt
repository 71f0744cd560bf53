//! The candidates of a fact, in the order in which they are numbered.
ghost use Rattle.std.specs.Prelude.{◌≡◌, ◌<◌, ◌≤◌, ◌∷◌, length};
ghost use Rattle.std.specs.Prelude.{fold, map, flat_map, OnOk, IfOk};
ghost use Rattle.cap_lin.specs.Linear.{variable};
ghost use Rattle.cap_prog.specs.Views.{case_view, action_view, region_view, program_view};
ghost use Rattle.cap_goal_spec.specs.States.{longest_list};
ghost use Rattle.cap_goal_spec.specs.Candidates.{candidate_of, later_state as later_of};
ghost use Rattle.cap_goal_spec.specs.Candidates.{form_bounds, piece_bounds};
ghost use Rattle.cap_goal_spec.specs.Fits.{StateFits};
ghost use Rattle.cap_stab_states.specs.Adding.{added, bounds_among, action_bounds_among};
ghost use Rattle.cap_stab_states.specs.Finding.{candidates_seen, candidates_at};
ghost use Rattle.cap_stab_states.specs.Views.{candidates_view};

use crate::candidate::{Candidate, add_bounds, add_bounds_by, add_equal};
use cap_goal::{Fact, State, copy_terms};
use cap_gsolve::{Form, Piece};
use cap_lin::Term;
use cap_prog::{Action, Case, Program, RegionType};
use std::alloc::{AllocError, Global};

/// The state's next fresh variable, which stands for the fact's later state: its number is how many
/// variables the state has. It fails only for want of memory.
pub fn later_state(alloc: Global, state: &State) -> Result<Term, AllocError>
    requires { length state.now.sorts ≤ longest_list }
    ensures { IfOk result (λ t. t ≡ later_of state.now) }
{
    match Term::var(alloc, state.sorts().len() as u32) {
        Ok(term) => Ok(term),
        Err(_) => Err(AllocError),
    }
}

// The region and its arguments.
pub(crate) fn first_terms(alloc: Global, fact: &Fact) -> Result<Vec<Term>, AllocError>
    ensures { IfOk result (λ v. v.items ≡ fact.now.region ∷ fact.now.args) }
{
    let mut terms = Vec::new(alloc);
    terms.push(fact.region.copy(alloc)?)?;
    for term in &fact.args {
        terms.push(term.copy(alloc)?)?;
    }
    Ok(terms)
}

// Adds bounds by the states of cases.
fn add_case_bounds(
    alloc: Global,
    all: &mut Vec<Candidate>,
    count: u32,
    names: &[Term],
    later: &Term,
    cases: &[Case],
) -> Result<(), AllocError>
    ensures { OnOk result (candidates_view all.new.items
        ≡ fold added (candidates_view all.old.items) (map candidate_of
        (flat_map (λ c. bounds_among count names.now later.now c.state)
        (map case_view cases.now)))) }
{
    for case in cases {
        add_bounds_by(alloc, all, count, names, later, &case.state)?;
    }
    Ok(())
}

// Adds bounds by the sources and targets of actions.
fn add_action_bounds(
    alloc: Global,
    all: &mut Vec<Candidate>,
    count: u32,
    names: &[Term],
    later: &Term,
    actions: &[Action],
) -> Result<(), AllocError>
    ensures { OnOk result (candidates_view all.new.items
        ≡ fold added (candidates_view all.old.items) (map candidate_of
        (flat_map (action_bounds_among count names.now later.now)
        (map action_view actions.now)))) }
{
    for action in actions {
        add_bounds_by(alloc, all, count, names, later, &action.source)?;
        add_bounds_by(alloc, all, count, names, later, &action.target)?;
    }
    Ok(())
}

// Adds bounds by the first index of a span.
fn add_form_bounds(
    alloc: Global,
    all: &mut Vec<Candidate>,
    later: &Term,
    form: &Form,
) -> Result<(), AllocError>
    ensures { OnOk result (candidates_view all.new.items
        ≡ fold added (candidates_view all.old.items)
        (map candidate_of (form_bounds later.now form.now))) }
{
    match form {
        Form::Span(start, _) => add_bounds(alloc, all, later, start),
        Form::One => Ok(()),
        Form::Share(_) => Ok(()),
        Form::Src(_) => Ok(()),
        Form::Tok(_) => Ok(()),
    }
}

// Adds bounds by the first index of a span of the guards of the fact's region.
fn add_piece_bounds(
    alloc: Global,
    all: &mut Vec<Candidate>,
    later: &Term,
    fact: &Fact,
    piece: &Piece,
) -> Result<(), AllocError>
    ensures { OnOk result (candidates_view all.new.items
        ≡ fold added (candidates_view all.old.items)
        (map candidate_of (piece_bounds fact.now later.now piece.now))) }
{
    if piece.is_of(&fact.region, fact.kind) {
        add_form_bounds(alloc, all, later, &piece.form)
    } else {
        Ok(())
    }
}

// Adds bounds by the spans of the guards of the fact's region.
fn add_span_bounds(
    alloc: Global,
    all: &mut Vec<Candidate>,
    later: &Term,
    fact: &Fact,
    pieces: &[Piece],
) -> Result<(), AllocError>
    ensures { OnOk result (candidates_view all.new.items
        ≡ fold added (candidates_view all.old.items) (map candidate_of
        (flat_map (piece_bounds fact.now later.now) pieces.now))) }
{
    for piece in pieces {
        add_piece_bounds(alloc, all, later, fact, piece)?;
    }
    Ok(())
}

/// The candidates of a fact of a region type, by number from 0, as `candidates` gives them; the
/// state need not have the fact. It fails only for want of memory.
pub fn candidates_of(
    alloc: Global,
    region: &RegionType,
    state: &State,
    fact: &Fact,
) -> Result<Vec<Candidate>, AllocError>
    requires { length state.now.sorts ≤ longest_list }
    ensures { IfOk result (λ v. candidates_view v.items
        ≡ candidates_seen (region_view region.now) state.now fact.now) }
{
    let later = later_state(alloc, state)?;
    let names = first_terms(alloc, fact)?;
    let mut all = Vec::new(alloc);
    add_equal(alloc, &mut all, &later, &fact.state)?;
    add_bounds(alloc, &mut all, &later, &fact.state)?;
    add_case_bounds(
        alloc,
        &mut all,
        region.params,
        &names,
        &later,
        &region.cases,
    )?;
    add_action_bounds(
        alloc,
        &mut all,
        region.params,
        &names,
        &later,
        &region.actions,
    )?;
    add_span_bounds(alloc, &mut all, &later, fact, state.guards())?;
    Ok(all)
}

/// The candidates of a fact of the state, by number from 0: what may be known of the fact's later
/// state, for which the state's next fresh variable stands. First come the state as it is, and then
/// bounds, from below and from above: by the state as it is, by the states of cases, and by each
/// action's source and target, as far as they have no name but the region's parameters, and by the
/// first index of each span of the region's guards. A row that equals an earlier one in term and
/// kind is left out. `Past` comes exactly where the row leaves 128 bits. It fails only for want of
/// memory.
pub fn candidates(
    alloc: Global,
    program: &Program,
    state: &State,
    fact: u32,
) -> Result<Vec<Candidate>, AllocError>
    requires fits { StateFits (program_view program.now) state.now }
    requires exists { fact < length state.now.facts }
    ensures { IfOk result (λ v. candidates_view v.items
        ≡ candidates_at (program_view program.now) state.now fact) }
{
    let fact = &state.facts()[fact as usize];
    candidates_of(alloc, program.region(fact.kind), state, fact)
}
