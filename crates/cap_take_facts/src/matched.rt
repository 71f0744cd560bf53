//! Region facts that are matched with facts that are held.
ghost use Rattle.std.specs.Prelude.{◌≡◌, ◌==◌, ◌&&◌, ◌++◌, ◌∷◌, [], not, IfOk, OnOk};
ghost use Rattle.cap_lin.specs.Linear.{variable};
ghost use Rattle.cap_prog.specs.declared.assertion.Slot.TheVariants.{Is};
ghost use Rattle.cap_rules.specs.Attempts.{need};
ghost use Rattle.cap_rules.specs.Making.{env_at, match_slots as slots_matched};
ghost use Rattle.cap_rules.specs.Making.{with_env_at as env_replaced};
ghost use Rattle.cap_rules.specs.Rules.{at_region};
ghost use Rattle.cap_rules_steps.specs.Goals.{goals_view};
ghost use Rattle.cap_rules_steps.specs.Walks.{Makes, Claims, giving, seen};
ghost use Rattle.cap_take_holdings.specs.Seen.{slots_view, lent_terms};
ghost use Rattle.cap_take_items.specs.Views.{remaining_view};

use crate::lookup::fact_at;
use cap_goal::{Env, Fact, Goal, State};
use cap_lin::Term;
use cap_prog::Slot;
use cap_rules_steps::{Ledger, RuleError, with_env_at};
use cap_take_holdings::{copy_env, match_slots};
use cap_take_items::{Remaining, goes};
use std::alloc::{AllocError, Global};

// Whether a fact is of this type and not loose.
fn is_held(fact: &Fact, kind: u32) -> bool
    ensures { result ≡ ((fact.now.kind == kind) && not fact.now.loose) }
{
    if fact.kind == kind {
        !fact.loose
    } else {
        false
    }
}

// Only such a fact.
fn check_fact(fact: &Fact, kind: u32) -> Result<(), RuleError>
    ensures { Makes (giving result tt) (need ((fact.now.kind == kind) && not fact.now.loose)) }
{
    if is_held(fact, kind) {
        Ok(())
    } else {
        Err(RuleError::NotApplicable)
    }
}

// Adds slots.
fn push_slots<'s>(slots: &mut Vec<&'s Slot>, more: &'s [Slot]) -> Result<(), AllocError>
    ensures { OnOk result (slots_view slots.new.items ≡ slots_view slots.old.items ++ more.now) }
{
    for slot in more {
        slots.push(slot)?;
    }
    Ok(())
}

// The slots of a region fact in their order: the region's name, the arguments and the state.
fn slots_of<'s>(
    alloc: Global,
    name: &'s Slot,
    args: &'s [Slot],
    slot: &'s Slot,
) -> Result<Vec<&'s Slot>, AllocError>
    ensures { IfOk result (λ v. slots_view v.items ≡ name.now ∷ (args.now ++ slot.now ∷ [])) }
{
    let mut slots = Vec::new(alloc);
    slots.push(name)?;
    push_slots(&mut slots, args)?;
    slots.push(slot)?;
    Ok(slots)
}

// Adds terms.
fn push_terms<'s>(terms: &mut Vec<&'s Term>, more: &'s [Term]) -> Result<(), AllocError>
    ensures { OnOk result (lent_terms terms.new.items ≡ lent_terms terms.old.items ++ more.now) }
{
    for term in more {
        terms.push(term)?;
    }
    Ok(())
}

// The terms of a fact in the same order.
fn terms_of(alloc: Global, fact: &Fact) -> Result<Vec<&Term>, AllocError>
    ensures { IfOk result (λ v. lent_terms v.items
        ≡ fact.now.region ∷ (fact.now.args ++ fact.now.state ∷ [])) }
{
    let mut terms = Vec::new(alloc);
    terms.push(&fact.region)?;
    push_terms(&mut terms, &fact.args)?;
    terms.push(&fact.state)?;
    Ok(terms)
}

// The environment of a number, its names matched by the slots of a region fact against a fact.
fn matched(
    alloc: Global,
    ledger: &mut Ledger,
    state: &State,
    env: u32,
    region: u32,
    args: &[Slot],
    slot: &Slot,
    fact: &Fact,
) -> Result<Env, RuleError>
    ensures { Claims result ledger.old ledger.new
        (slots_matched state.now.rows (env_at state.now env)
        (Is (variable region) ∷ (args.now ++ slot.now ∷ []))
        (fact.now.region ∷ (fact.now.args ++ fact.now.state ∷ []))) }
{
    let name = Slot::Is(Term::var(alloc, region)?);
    let slots = slots_of(alloc, &name, args, slot)?;
    let terms = terms_of(alloc, fact)?;
    let mut names = copy_env(alloc, state, env)?;
    match_slots(alloc, ledger, state.rows(), &mut names, &slots, &terms)?;
    Ok(names)
}

// The state with another environment.
fn with_names(state: &State, env: u32, names: Env) -> Result<State, AllocError>
    ensures { IfOk result (λ s. s ≡ env_replaced state.now env names) }
{
    let mut next = state.copy()?;
    with_env_at(&mut next, env, names)?;
    Ok(next)
}

/// A region fact goes, matched with the fact of this number, which stays and has to be of the same
/// type and not loose: its region, arguments and state are matched by the item's. `NotApplicable`
/// comes where there is no such fact, where it has another number of arguments, and where a term of
/// the item has an unbound name that doesn't stand alone; `Wide` where a result leaves 128 bits
/// before that.
pub fn region<'t, 'a>(
    alloc: Global,
    ledger: &mut Ledger,
    state: &State,
    number: u32,
    region: u32,
    kind: u32,
    args: &[Slot],
    slot: &Slot,
    rest: &Remaining<'t, 'a>,
) -> Result<Vec<Goal<'a>>, RuleError>
    ensures { Claims (seen goals_view result) ledger.old ledger.new
        (at_region state.now number region kind args.now slot.now (remaining_view rest.now)) }
{
    let fact = fact_at(state, number)?;
    check_fact(fact, kind)?;
    let names = matched(alloc, ledger, state, rest.env, region, args, slot, fact)?;
    let next = with_names(state, rest.env, names)?;
    Ok(goes(alloc, next, rest)?)
}
