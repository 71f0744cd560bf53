//! The closure of a fact: its state is kept, or settled by the candidates that the rounds leave.
ghost use Rattle.std.specs.Prelude.{◌≡◌, ◌≤◌, ◌<◌, length, slice_get, Some, IfOk};
ghost use Rattle.cap_prog.specs.Program.{PlainRegionType};
ghost use Rattle.cap_prog.specs.Views.{region_view, program_view};
ghost use Rattle.cap_goal_spec.specs.States.{PlainFact, longest_list};
ghost use Rattle.cap_goal_spec.specs.Fits.{StateFits};
ghost use Rattle.cap_offer_spec.specs.Deciding.{clean};
ghost use Rattle.cap_offer_spec.specs.Closures.{numbers_of as numbers_in, closed_list as list_closed};
ghost use Rattle.cap_offer_spec.specs.Closures.{settled as settled_by_list, closure as plain_closure};
ghost use Rattle.cap_closure_decide.specs.Noting.{Adds};
ghost use Rattle.cap_closure.specs.Views.{list_view, closure_view};

use crate::settling::{keep_certs, settle_certs};
use crate::starting::{Listed, started};
use crate::surviving::rounds;
use cap_closure_decide::Notes;
use cap_farkas::Cert;
use cap_goal::{Fact, State};
use cap_prog::{Program, RegionType};
use cap_stab_states::{candidates_of, later_state};
use std::alloc::{AllocError, Global};

/// What may be known of a fact when the others have moved.
#[derive(Drop)]
pub enum Closure {
    /// Its state stays the same, by these certificates.
    Keeps(Vec<Cert>),
    /// Of its next state these candidates are known, by number, with the certificates by which they
    /// settle the fact, if there are any.
    Settles(Vec<u32>, Option<Vec<Cert>>),
}

/// The closure of a fact, and what passed a limit on the way to it.
#[derive(Drop)]
pub struct Closed {
    pub closure: Closure,
    pub notes: Notes,
}

fn numbers_of(alloc: Global, list: &[Listed]) -> Result<Vec<u32>, AllocError>
    ensures { IfOk result (λ numbers. numbers.items ≡ numbers_in (list_view list.now)) }
{
    let mut numbers = Vec::with_capacity(alloc, list.len())?;
    for listed in list {
        numbers.push(listed.number)?;
    }
    Ok(numbers)
}

// The candidates that the rounds leave of those that are proved with the present state.
fn closed_candidates(
    alloc: Global,
    region: &RegionType,
    state: &State,
    fact: &Fact,
    notes: &mut Notes,
) -> Result<Vec<Listed>, AllocError>
    requires { length state.now.sorts ≤ longest_list }
    ensures { IfOk result (λ list. Adds notes.old notes.new (numbers_in (list_view list.items))
        (list_closed (region_view region.now) state.now fact.now)) }
{
    let candidates = candidates_of(alloc, region, state, fact)?;
    let list = started(alloc, state, fact, &candidates, notes)?;
    let later = later_state(alloc, state)?;
    rounds(alloc, region, state, fact, &later, list, notes)
}

fn closed_list(
    alloc: Global,
    region: &RegionType,
    state: &State,
    fact: &Fact,
    notes: &mut Notes,
) -> Result<Vec<u32>, AllocError>
    requires { length state.now.sorts ≤ longest_list }
    ensures { IfOk result (λ numbers. Adds notes.old notes.new numbers.items
        (list_closed (region_view region.now) state.now fact.now)) }
{
    let list = closed_candidates(alloc, region, state, fact, notes)?;
    numbers_of(alloc, &list)
}

// What settles a fact whose state may change.
fn settled(
    alloc: Global,
    region: &RegionType,
    state: &State,
    number: u32,
    fact: &Fact,
    notes: &mut Notes,
) -> Result<Closure, AllocError>
    requires room { length state.now.sorts ≤ longest_list }
    requires exists { number < length state.now.facts }
    ensures { IfOk result (λ closure. Adds notes.old notes.new (closure_view closure)
        (settled_by_list (region_view region.now) state.now number fact.now)) }
{
    let list = closed_list(alloc, region, state, fact, notes)?;
    let certs = settle_certs(alloc, region, state, number, fact, &list, notes)?;
    Ok(Closure::Settles(list, certs))
}

/// The closure of a fact, by its number, of a region type: whether it keeps its state, by the
/// certificates of that, or else the candidates that are known of its next state.
///
/// The candidates, but for candidate 0, are tested with the present state, and then in rounds after
/// each action of the others, by what is known of the whole list; those that fail a round leave at
/// its end. A decision or a term that passes a limit is noted, the first of each kind, and counts
/// as not proved.
#[tactic(auto, unfolding(cap_offer_spec::specs::Closures::closure))]
pub fn closure_of(
    alloc: Global,
    region: &RegionType,
    state: &State,
    number: u32,
    fact: &Fact,
    notes: &mut Notes,
) -> Result<Closure, AllocError>
    requires room { length state.now.sorts ≤ longest_list }
    requires exists { number < length state.now.facts }
    ensures { IfOk result (λ closure. Adds notes.old notes.new (closure_view closure)
        (plain_closure (region_view region.now) state.now number fact.now)) }
{
    match keep_certs(alloc, region, state, number, fact, notes)? {
        Some(certs) => Ok(Closure::Keeps(certs)),
        None => settled(alloc, region, state, number, fact, notes),
    }
}

/// The closure of a fact of a state of a program, by its number, and what was noted on the way to
/// it.
pub(crate) fn closure_at(
    alloc: Global,
    program: &Program,
    state: &State,
    fact: u32,
) -> Result<Closed, AllocError>
    requires fits { StateFits (program_view program.now) state.now }
    requires exists { fact < length state.now.facts }
    ensures { (f : PlainFact) (k : PlainRegionType) → slice_get state.now.facts fact ≡ Some f →
        slice_get (program_view program.now).regions f.kind ≡ Some k →
        IfOk result (λ c. Adds clean c.notes (closure_view c.closure)
        (plain_closure k state.now fact f)) }
{
    let number = fact;
    let fact = &state.facts()[number as usize];
    let region = program.region(fact.kind);
    let mut notes = Notes::new();
    let closure = closure_of(alloc, region, state, number, fact, &mut notes)?;
    Ok(Closed { closure, notes })
}
