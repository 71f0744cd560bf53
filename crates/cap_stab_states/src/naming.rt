//! The names of an action, with the terms that stand for them.
ghost use Rattle.std.specs.Prelude.{◌≡◌, ◌+◌, ◌≤◌, ◌++◌, ◌∷◌};
ghost use Rattle.std.specs.Prelude.{[], length, OnOk, IfOk};
ghost use Rattle.cap_lin.specs.Linear.{variable as plain_variable};
ghost use Rattle.cap_prog.specs.Views.{action_view, region_view};
ghost use Rattle.cap_goal_spec.specs.States.{longest_list};
ghost use Rattle.cap_rules.specs.Resting.{names_below};
ghost use Rattle.cap_rules.specs.Resting.{end_of as end_of_parts, ask_slot as slot_asked};
ghost use Rattle.cap_rules.specs.Resting.{ask as asked_names, ask_all as all_asked, first_names};
ghost use Rattle.cap_rules.specs.Resting.{action_names as names_of_action};
ghost use Rattle.cap_stab_states.specs.Wanting.{names_view};
ghost use Rattle.cap_stab_states.specs.Asking.{starts_of};

use crate::finding::first_terms;
use cap_goal::{Fact, State};
use cap_lin::Term;
use cap_prog::{Action, Asked, RegionType, Slot};
use std::alloc::{AllocError, Global};

/// Terms for a region, its arguments and the names of an action that came up so far, and the next
/// variable that is still free.
#[derive(Drop)]
pub(crate) struct Names {
    pub terms: Vec<Term>,
    pub next: u32,
}

/// The terms that stand for the names of an action, by number from 0: the region's parameters and
/// then the action's own names. And for each guard of the action the next free variable when it
/// came up, which stands for the guard's `_` where it has one.
#[derive(Drop)]
pub struct NamedTerms {
    pub terms: Vec<Term>,
    pub starts: Vec<u32>,
}

impl Names {
    // Passes over a variable. One whose number passes 32 bits counts as want of memory.
    fn skip(&mut self) -> Result<(), AllocError>
        ensures { OnOk result (names_view self.new
            ≡ record (names_view self.old) { next = self.old.next + 1 }) }
    {
        match self.next.checked_add(1) {
            Some(next) => {
                self.next = next;
                Ok(())
            }
            None => Err(AllocError),
        }
    }

    // A variable for the next name.
    fn name(&mut self, alloc: Global) -> Result<(), AllocError>
        ensures { OnOk result (names_view self.new ≡ record {
          terms = self.old.terms.items ++ plain_variable self.old.next ∷ [];
          next = self.old.next + 1;
        }) }
    {
        match Term::var(alloc, self.next) {
            Ok(term) => self.terms.push(term)?,
            Err(_) => return Err(AllocError),
        }
        self.skip()
    }

    // Variables for the names below this number.
    fn name_below(&mut self, alloc: Global, count: usize) -> Result<(), AllocError>
        ensures { OnOk result (names_view self.new ≡ names_below (names_view self.old) count) }
    {
        while self.terms.len() < count {
            self.name(alloc)?;
        }
        Ok(())
    }

    // In the order of the text each name and each `_` gets a variable.
    fn ask_slot(&mut self, alloc: Global, slot: &Slot) -> Result<(), AllocError>
        ensures { OnOk result (names_view self.new ≡ slot_asked (names_view self.old) slot.now) }
    {
        match slot {
            Slot::Any => self.skip(),
            Slot::Is(term) => self.name_below(alloc, end_of(term)),
        }
    }

    fn ask(&mut self, alloc: Global, asked: &Asked) -> Result<(), AllocError>
        ensures { OnOk result (names_view self.new ≡ asked_names (names_view self.old) asked.now) }
    {
        match asked {
            Asked::One => Ok(()),
            Asked::Share(slot) => self.ask_slot(alloc, slot),
            Asked::Src(slot) => self.ask_slot(alloc, slot),
            Asked::Tok(slot) => self.ask_slot(alloc, slot),
            Asked::At(slot) => self.ask_slot(alloc, slot),
            Asked::From(slot) => self.ask_slot(alloc, slot),
        }
    }

    // For each guard the next free variable when it comes up.
    fn ask_all(&mut self, alloc: Global, guards: &[(u32, Asked)]) -> Result<Vec<u32>, AllocError>
        ensures names { OnOk result (names_view self.new
            ≡ all_asked (names_view self.old) guards.now) }
        ensures starts { IfOk result (λ v. v.items ≡ starts_of (names_view self.old) guards.now) }
    {
        let mut starts = Vec::with_capacity(alloc, guards.len())?;
        for guard in guards {
            starts.push(self.next)?;
            self.ask(alloc, &guard.1)?;
        }
        Ok(starts)
    }
}

// One more than the last name of a term.
fn end_of(term: &Term) -> usize
    ensures { result ≡ end_of_parts term.now.parts }
{
    let parts = term.parts();
    if parts.is_empty() {
        0
    } else {
        parts[parts.len() - 1].0 as usize + 1
    }
}

/// The terms of the names of an action of others, at unknown values: the fact's region and
/// arguments, and for each further name a variable behind the one that stands for the fact's later
/// state. A variable whose number passes 32 bits counts as want of memory, and no other failure
/// comes.
pub fn action_names(
    alloc: Global,
    region: &RegionType,
    state: &State,
    fact: &Fact,
    action: &Action,
) -> Result<NamedTerms, AllocError>
    requires { length state.now.sorts ≤ longest_list }
    ensures terms { IfOk result (λ n. n.terms.items
        ≡ names_of_action (region_view region.now) state.now fact.now (action_view action.now)) }
    ensures starts { IfOk result (λ n. n.starts.items
        ≡ starts_of (first_names state.now fact.now) (action_view action.now).guards) }
{
    let terms = first_terms(alloc, fact)?;
    let next = state.sorts().len() as u32 + 1;
    let mut names = Names { terms, next };
    let starts = names.ask_all(alloc, &action.guards)?;
    names.name_below(alloc, region.params as usize + action.names.len())?;
    Ok(NamedTerms {
        terms: names.terms,
        starts,
    })
}
