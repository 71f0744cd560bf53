//! Facts beside opened regions of their types: other regions, or loose from now on.
ghost use Rattle.std.specs.Prelude.{◌≡◌, ◌++◌, ◌≤◌, length, map, true, false, OnOk, IfOk};
ghost use Rattle.std.specs.Prelude.{slice_set, replicate, flat_map};
ghost use Rattle.cap_rules_steps.specs.cap_goal_spec.States.{longest_list};
ghost use Rattle.cap_rules_steps.specs.cap_goal_spec.Fits.{HasRoom};
ghost use Rattle.cap_rules_steps.specs.cap_rules.Closing.{rivals_from, rivals as rivals_of};
ghost use Rattle.cap_rules_steps.specs.cap_rules.Closing.{loosened as loosened_fact};
ghost use Rattle.cap_rules_steps.specs.cap_rules.Closing.{with_mark as marked_state};
ghost use Rattle.cap_rules_steps.specs.cap_rules.Closing.{with_marks as marked_states};
ghost use Rattle.cap_rules_steps.specs.Walks.{Makes, Claims, giving};
ghost use Rattle.cap_open_acts.specs.Steps.{rival_of};
ghost use Rattle.cap_open_acts.specs.Views.{rival_view, rivals_view};

use cap_goal::{Fact, State, copy_terms};
use cap_lin::{Op, Row, Sort, Term};
use cap_rules_steps::{Ledger, RuleError, prove_differ, with_sort};
use std::alloc::{AllocError, Global};

/// An opened region and a fact of its type, by the fact's number.
#[derive(Clone, Copy)]
pub(crate) struct Rival<'a> {
    pub(crate) opened: &'a Fact,
    pub(crate) number: u32,
    pub(crate) fact: &'a Fact,
}

// Adds the pair of an opened region and a fact, where they are of one type.
fn push_rival<'a>(
    all: &mut Vec<Rival<'a>>,
    opened: &'a Fact,
    number: u32,
    fact: &'a Fact,
) -> Result<(), AllocError>
    ensures { OnOk result (rivals_view all.new.items
        ≡ rivals_view all.old.items ++ rival_of opened.now number fact.now) }
{
    if fact.kind != opened.kind {
        return Ok(());
    }
    all.push(Rival {
        opened,
        number,
        fact,
    })?;
    Ok(())
}

// Adds the pairs of an opened region and the facts of its type.
fn push_rivals<'a>(
    all: &mut Vec<Rival<'a>>,
    opened: &'a Fact,
    facts: &'a [Fact],
) -> Result<(), AllocError>
    requires { length facts.now ≤ longest_list }
    ensures { OnOk result (rivals_view all.new.items
        ≡ rivals_view all.old.items ++ rivals_from opened.now 0 facts.now) }
{
    for number in 0..facts.len() {
        push_rival(all, opened, number as u32, &facts[number])?;
    }
    Ok(())
}

// Each of these opened regions with each of these facts of its type, in order.
fn pairs_of<'a>(
    alloc: Global,
    opened: &'a [Fact],
    facts: &'a [Fact],
) -> Result<Vec<Rival<'a>>, AllocError>
    requires { length facts.now ≤ longest_list }
    ensures { IfOk result
        (λ v. rivals_view v.items ≡ flat_map (λ o. rivals_from o 0 facts.now) opened.now) }
{
    let mut all = Vec::new(alloc);
    for region in opened {
        push_rivals(&mut all, region, facts)?;
    }
    Ok(all)
}

/// Each opened region with each fact of its type, in order.
pub(crate) fn rivals<'a>(alloc: Global, state: &'a State) -> Result<Vec<Rival<'a>>, AllocError>
    requires { HasRoom state.now }
    ensures { IfOk result (λ v. rivals_view v.items ≡ rivals_of state.now) }
{
    pairs_of(alloc, state.opened(), state.facts())
}

// So many marks, all set.
fn set_marks(alloc: Global, count: usize) -> Result<Vec<bool>, AllocError>
    ensures { IfOk result (λ v. v.items ≡ replicate count true) }
{
    let mut marks = Vec::new(alloc);
    for step in 0..count {
        let _step = step;
        marks.push(true)?;
    }
    Ok(marks)
}

/// As many marks as there are pairs of an opened region and a fact of its type, all set.
pub fn full_marks(alloc: Global, state: &State) -> Result<Vec<bool>, AllocError>
    requires { HasRoom state.now }
    ensures { IfOk result (λ v. v.items ≡ map (λ x. true) (rivals_of state.now)) }
{
    let pairs = rivals(alloc, state)?;
    let marks = set_marks(alloc, pairs.len())?;
    Ok(marks)
}

// The fact in another state, which may change from now on.
fn loosened(alloc: Global, fact: &Fact, state: Term) -> Result<Fact, AllocError>
    ensures { IfOk result (λ f. f ≡ loosened_fact fact.now state) }
{
    Ok(Fact {
        region: fact.region.copy(alloc)?,
        kind: fact.kind,
        args: copy_terms(alloc, &fact.args)?,
        state,
        loose: true,
    })
}

// Replaces a fact. Nothing changes where there is none of this number.
fn put_fact(state: &mut State, number: u32, fact: Fact) -> Result<(), AllocError>
    ensures { IfOk result (λ _. state.new
        ≡ record state.old { facts = slice_set state.old.facts number fact }) }
{
    if (number as usize) < state.facts().len() {
        state.put_facts(number, fact)?;
    }
    Ok(())
}

// Makes a fact loose. The row that it would have differed by is made all the same.
fn loosen(alloc: Global, state: &mut State, rival: &Rival<'_>) -> Result<(), RuleError>
    ensures { Makes (giving result state.new)
        (marked_state state.old (rival_view rival.now) false) }
{
    let opened = rival.opened;
    let fact = rival.fact;
    drop(Row::of(alloc, &opened.region, Op::Ne, &fact.region, Sort::Int)?);
    let later = with_sort(alloc, state, Sort::Int)?;
    put_fact(state, rival.number, loosened(alloc, fact, later)?)?;
    Ok(())
}

// By a mark the two regions are claimed to differ; without it the fact is loose.
fn with_mark(
    alloc: Global,
    ledger: &mut Ledger,
    state: &mut State,
    rival: &Rival<'_>,
    mark: bool,
) -> Result<(), RuleError>
    ensures { Claims (giving result state.new) ledger.old ledger.new
        (marked_state state.old (rival_view rival.now) mark) }
{
    let opened = rival.opened;
    let fact = rival.fact;
    if mark {
        prove_differ(alloc, ledger, state, &opened.region, &fact.region)?;
        return Ok(());
    }
    loosen(alloc, state, rival)
}

/// Takes the marks of pairs of regions; there have to be as many of either.
pub(crate) fn with_marks(
    alloc: Global,
    ledger: &mut Ledger,
    state: &mut State,
    pairs: &[Rival<'_>],
    marks: &[bool],
) -> Result<(), RuleError>
    ensures { Claims (giving result state.new) ledger.old ledger.new
        (marked_states state.old (rivals_view pairs.now) marks.now) }
{
    for place in 0..pairs.len() {
        if place >= marks.len() {
            return Err(RuleError::NotApplicable);
        }
        with_mark(alloc, ledger, state, &pairs[place], marks[place])?;
    }
    if pairs.len() < marks.len() {
        return Err(RuleError::NotApplicable);
    }
    Ok(())
}
