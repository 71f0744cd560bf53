//! At facts that are to be settled.
ghost use Rattle.std.specs.Prelude.{◌≡◌, ◌<◌, IfOk, length, slice_get, option_map, option_to_list};
ghost use Rattle.cap_prog.specs.Views.{program_view};
ghost use Rattle.cap_goal_spec.specs.Fits.{HasRoom};
ghost use Rattle.cap_goal.specs.Views.{choice_view};
ghost use Rattle.cap_closure.specs.Views.{closure_view};
ghost use Rattle.cap_offer_spec.specs.Offering.{of_closure, at_fact as fact_at};
ghost use Rattle.cap_offer_spec.specs.Offering.{at_fact_of as fact_of_type};
ghost use Rattle.cap_offer_spec.specs.Closures.{settles};
ghost use Rattle.cap_closure_decide.specs.Noting.{Adds, certs_seen};
ghost use Rattle.cap_offer.specs.Views.{choices_view, region_in};

use crate::listing::type_at;
use crate::trying::only;
use cap_closure::{Closure, closure_of};
use cap_closure_decide::Notes;
use cap_farkas::Cert;
use cap_goal::{Choice, Fact, State};
use cap_prog::{Program, RegionType};
use std::alloc::{AllocError, Global};

// To settle the fact by these candidates, where there are certificates.
fn settled(list: Vec<u32>, certs: Option<Vec<Cert>>) -> Option<Choice>
    ensures { option_to_list (option_map choice_view result)
        ≡ of_closure (settles list.items (certs_seen certs)) }
{
    match certs {
        Some(certs) => Some(Choice::Settle(list, certs)),
        None => {
            drop(list);
            None
        }
    }
}

// The choice by what may be known of the fact when the others have moved.
fn by_closure(closure: Closure) -> Option<Choice>
    ensures { option_to_list (option_map choice_view result) ≡ of_closure (closure_view closure) }
{
    match closure {
        Closure::Keeps(certs) => Some(Choice::Keep(certs)),
        Closure::Settles(list, certs) => settled(list, certs),
    }
}

// At a fact of this type.
fn of_type(
    alloc: Global,
    region: Option<&RegionType>,
    state: &State,
    number: u32,
    fact: &Fact,
    notes: &mut Notes,
) -> Result<Vec<Choice>, AllocError>
    requires room { HasRoom state.now }
    requires exists { number < length state.now.facts }
    ensures { IfOk result (λ v. Adds notes.old notes.new (choices_view v.items)
        (fact_of_type state.now number fact.now (region_in region.entry))) }
{
    match region {
        None => Ok(Vec::new(alloc)),
        Some(region) => {
            let closure = closure_of(alloc, region, state, number, fact, notes)?;
            only(alloc, by_closure(closure))
        }
    }
}

/// What is offered where the fact of a number is to be settled.
pub(crate) fn at_fact(
    alloc: Global,
    program: &Program,
    state: &State,
    number: u32,
    notes: &mut Notes,
) -> Result<Vec<Choice>, AllocError>
    requires { HasRoom state.now }
    ensures { IfOk result (λ v. Adds notes.old notes.new (choices_view v.items)
        (fact_at (program_view program.now) state.now number
        (slice_get state.now.facts number))) }
{
    let facts = state.facts();
    if number as usize >= facts.len() {
        return Ok(Vec::new(alloc));
    }
    let fact = &facts[number as usize];
    of_type(
        alloc,
        type_at(program, fact.kind),
        state,
        number,
        fact,
        notes,
    )
}
