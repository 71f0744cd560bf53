//! What is known of regions.
ghost use Rattle.std.specs.Prelude.{◌≡◌, ◌<◌, IfOk, IfSome, Some, length, position, find};
ghost use Rattle.std.specs.List.{list_any};
ghost use Rattle.cap_rules_steps.specs.cap_rules.Making.{fact_of as plain_fact};
ghost use Rattle.cap_rules_steps.specs.cap_rules.Making.{is_of_region as of_region};
ghost use Rattle.cap_rules_steps.specs.cap_rules.Making.{is_of_other_type};
ghost use Rattle.cap_rules_steps.specs.cap_rules.Making.{with_equalities as equated, with_same};
ghost use Rattle.cap_rules_steps.specs.cap_rules.Making.{with_false};
ghost use Rattle.cap_rules_steps.specs.cap_rules.Making.{with_fact as fact_added};
ghost use Rattle.cap_rules_steps.specs.Walks.{Makes, giving};
ghost use Rattle.cap_take_holdings.specs.Holdings.{with_last_fact, without_place};

use cap_goal::{Fact, LONGEST_LIST, State};
use cap_lin::{Op, Sort, Term};
use cap_rules_steps::{RuleError, with_comparison};
use std::alloc::{AllocError, Global};

/// The fact of a region, its type, its arguments and its state, which is not loose.
pub fn fact_of(region: Term, kind: u32, args: Vec<Term>, state: Term) -> Fact
    ensures { result ≡ plain_fact region kind args.items state }
{
    Fact {
        region,
        kind,
        args,
        state,
        loose: false,
    }
}

// Whether another fact is of the same region, by its term, and type.
fn is_of_region(fact: &Fact, other: &Fact) -> bool
    ensures { result ≡ of_region fact.now other.now }
{
    other.region.same(&fact.region) && other.kind == fact.kind
}

// Whether another fact is of the same region, by its term, and of another type.
fn is_of_another_type(fact: &Fact, other: &Fact) -> bool
    ensures { result ≡ is_of_other_type fact.now other.now }
{
    other.region.same(&fact.region) && other.kind != fact.kind
}

// The place of the first fact of the same region and type.
fn place_of(facts: &[Fact], fact: &Fact) -> Option<usize>
    ensures { result ≡ position (of_region fact.now) facts.now }
{
    facts.iter().position(|there| is_of_region(fact, there))
}

// Whether some fact is of the same region and of another type.
fn clashes(facts: &[Fact], fact: &Fact) -> bool
    ensures { result ≡ list_any (is_of_other_type fact.now) facts.now }
{
    facts.iter().any(|there| is_of_another_type(fact, there))
}

// Adds a row each that the terms on the left equal those on the right.
fn with_equalities(
    alloc: Global,
    state: &mut State,
    left: &[Term],
    right: &[Term],
) -> Result<(), RuleError>
    ensures { Makes (giving result state.new) (equated state.old left.now right.now) }
{
    for place in 0..left.len() {
        if place >= right.len() {
            return Ok(());
        }
        with_comparison(alloc, state, &left[place], Op::Eq, &right[place], Sort::Int)?;
    }
    Ok(())
}

// Adds rows that the arguments and the state of a fact equal those of another.
fn with_equal(alloc: Global, state: &mut State, there: &Fact, fact: &Fact) -> Result<(), RuleError>
    ensures { Makes (giving result state.new) (with_same state.old fact.now (Some there.now)) }
{
    with_equalities(alloc, state, &there.args, &fact.args)?;
    with_comparison(alloc, state, &there.state, Op::Eq, &fact.state, Sort::Int)
}

// Adds rows that the fact of this place, if there is one, equals another.
fn equate(
    alloc: Global,
    state: &mut State,
    place: Option<usize>,
    fact: &Fact,
) -> Result<(), RuleError>
    requires { place ≡ position (of_region fact.now) state.old.facts }
    ensures { Makes (giving result state.new)
        (with_same state.old fact.now (find (of_region fact.now) state.old.facts)) }
{
    match place {
        None => Ok(()),
        Some(place) => {
            let there = state.facts()[place].copy(alloc)?;
            with_equal(alloc, state, &there, fact)
        }
    }
}

// Adds the row that never holds, where two facts clash.
fn contradict(alloc: Global, state: &mut State, clash: bool) -> Result<(), RuleError>
    ensures { Makes (giving result state.new) (with_false state.old clash) }
{
    if clash {
        let zero = Term::constant(alloc, 0);
        let one = Term::constant(alloc, 1);
        with_comparison(alloc, state, &zero, Op::Eq, &one, Sort::Int)
    } else {
        Ok(())
    }
}

// Removes the fact of a place, if there is one. A place past 32 bits counts as want of memory.
fn remove_fact(state: &mut State, place: Option<usize>) -> Result<(), AllocError>
    requires { IfSome place (λ i. i < length state.old.facts) }
    ensures { IfOk result
        (λ _. state.new ≡ record state.old { facts = without_place place state.old.facts }) }
{
    match place {
        None => Ok(()),
        Some(place) => match u32::try_from(place) {
            Ok(number) => state.cut_facts(number),
            Err(_) => Err(AllocError),
        },
    }
}

// Appends a fact.
fn push_fact(state: &mut State, fact: Fact) -> Result<(), RuleError>
    ensures { Makes (giving result state.new) (with_last_fact state.old fact) }
{
    if state.facts().len() >= LONGEST_LIST {
        return Err(RuleError::NotApplicable);
    }
    state.add_facts(fact)?;
    Ok(())
}

/// Adds a fact to the state. It takes the place of the one of its region and type, which equals it;
/// a fact of its region and of another type contradicts it.
pub fn with_fact(alloc: Global, state: &mut State, fact: Fact) -> Result<(), RuleError>
    ensures { Makes (giving result state.new) (fact_added state.old fact) }
{
    let place = place_of(state.facts(), &fact);
    let clash = clashes(state.facts(), &fact);
    equate(alloc, state, place, &fact)?;
    contradict(alloc, state, clash)?;
    remove_fact(state, place)?;
    push_fact(state, fact)
}
