//! A fact keeps its state, or is settled by candidates.
ghost use Rattle.std.specs.Prelude.{◌≡◌, ◌<◌, ◌≤◌, List, length, map};
ghost use Rattle.cap_prog.specs.Views.{region_view};
ghost use Rattle.cap_goal_spec.specs.States.{longest_list};
ghost use Rattle.cap_goal_spec.specs.Candidates.{MadeRow, candidate_of};
ghost use Rattle.cap_goal_spec.specs.Candidates.{candidates as candidates_of_fact};
ghost use Rattle.cap_rules.specs.Resting.{keep as kept, settle as settled};
ghost use Rattle.cap_rules.specs.Resting.{named_candidates as named_rows};
ghost use Rattle.cap_rules.specs.Resting.{with_settled as settled_state};
ghost use Rattle.cap_rules_steps.specs.Walks.{Makes, Claims, giving, seen};
ghost use Rattle.cap_stab.specs.Rows.{IsRowOf, named_row};
ghost use Rattle.cap_stab_states.specs.Views.{candidate_view, candidates_view};

use cap_goal::{Fact, State};
use cap_lin::{LinError, Op, Row, Sort, Term};
use cap_prog::RegionType;
use cap_rules_steps::{Ledger, RuleError, with_rows, with_sort};
use cap_stab_states::{Candidate, candidates_of, later_state, prove_at, prove_kept, prove_stable};
use std::alloc::Global;

/// Keeps the state of a fact, by its number: it is claimed to be the same after each action.
pub fn keep(
    alloc: Global,
    ledger: &mut Ledger,
    region: &RegionType,
    state: &mut State,
    number: u32,
    fact: &Fact,
) -> Result<(), RuleError>
    requires room { length state.old.sorts ≤ longest_list }
    requires exists { number < length state.old.facts }
    ensures { Claims (giving result state.new) ledger.old ledger.new
        (kept (region_view region.now) state.old number fact.now) }
{
    let later = later_state(alloc, state)?;
    let same = Row::of(alloc, &later, Op::Eq, &fact.state, Sort::Int)?;
    let mut known = Vec::new(alloc);
    known.push(same.copy(alloc)?)?;
    prove_kept(alloc, ledger, region, state, fact, &later, &same, &known)?;
    state.put_facts(number, fact.with_state(alloc, &fact.state)?)?;
    Ok(())
}

// The rows of the candidates of these numbers, which ascend from 1.
fn named_candidates(
    alloc: Global,
    region: &RegionType,
    state: &State,
    fact: &Fact,
    list: &[u32],
) -> Result<Vec<Row>, RuleError>
    requires { length state.now.sorts ≤ longest_list }
    ensures { Makes (seen (λ v. v.items) result) (named_rows 1
        (candidates_of_fact (region_view region.now) state.now fact.now) list.now) }
{
    let all = candidates_of(alloc, region, state, fact)?;
    let mut rows = Vec::new(alloc);
    let mut low = 1;
    for number in list {
        rows.push(named_candidate(alloc, &all, low, *number)?)?;
        low = *number as usize + 1;
    }
    Ok(rows)
}

// The row of a candidate.
fn candidate_row(alloc: Global, candidate: &Candidate) -> Result<Row, LinError>
    ensures { IsRowOf result (candidate_view candidate.now) }
{
    match candidate {
        Candidate::Known(row) => match row.copy(alloc) {
            Ok(copy) => Ok(copy),
            Err(_) => Err(LinError::OutOfMemory),
        },
        Candidate::Past(a, b) => Err(LinError::Wide(*a, *b)),
    }
}

// The row of a candidate by its number, which is at least `low`.
fn named_candidate(
    alloc: Global,
    all: &[Candidate],
    low: usize,
    number: u32,
) -> Result<Row, RuleError>
    ensures { (ms : List MadeRow) → candidates_view all.now ≡ map candidate_of ms →
        Makes result (named_row ms low number) }
{
    let place = number as usize;
    if place < low || place >= all.len() {
        return Err(RuleError::NotApplicable);
    }
    let row = candidate_row(alloc, &all[place])?;
    Ok(row)
}

// The fact's state is a new one, of which the candidates hold.
fn with_settled(
    alloc: Global,
    state: &mut State,
    number: u32,
    fact: &Fact,
    named: &[Row],
) -> Result<(), RuleError>
    requires { number < length state.old.facts }
    ensures { Makes (giving result state.new)
        (settled_state state.old number fact.now named.now) }
{
    let later = with_sort(alloc, state, Sort::Int)?;
    state.put_facts(number, fact.with_state(alloc, &later)?)?;
    with_rows(alloc, state, named)
}

/// Settles a fact, by its number, by the candidates of these numbers.
pub fn settle(
    alloc: Global,
    ledger: &mut Ledger,
    region: &RegionType,
    state: &mut State,
    number: u32,
    fact: &Fact,
    list: &[u32],
) -> Result<(), RuleError>
    requires room { length state.old.sorts ≤ longest_list }
    requires exists { number < length state.old.facts }
    ensures { Claims (giving result state.new) ledger.old ledger.new
        (settled (region_view region.now) state.old number fact.now list.now) }
{
    let later = later_state(alloc, state)?;
    let named = named_candidates(alloc, region, state, fact, list)?;
    prove_at(alloc, ledger, state, state.rows(), &fact.state, &named)?;
    prove_stable(alloc, ledger, region, state, fact, &later, &named)?;
    with_settled(alloc, state, number, fact, &named)
}
