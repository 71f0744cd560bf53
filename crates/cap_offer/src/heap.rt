//! At statements: a heap statement acts on a cell, or a region is opened for it; any other has one
//! rule.
ghost use Rattle.std.specs.Prelude.{◌≡◌, ◌++◌, ◌&&◌, IfOk, is_some, option_map, option_to_list};
ghost use Rattle.cap_prog.specs.Views.{act_view, program_view};
ghost use Rattle.cap_goal_spec.specs.Fits.{HasRoom};
ghost use Rattle.cap_goal.specs.Views.{goal_view, choice_view};
ghost use Rattle.cap_rules.specs.Making.{is_empty};
ghost use Rattle.cap_offer_spec.specs.Offering.{openings_unless as openings_if, by_cells as cells_by};
ghost use Rattle.cap_offer_spec.specs.Offering.{at_heap as heap_at, at_statement as statement_at};
ghost use Rattle.cap_closure_decide.specs.Noting.{Adds};
ghost use Rattle.cap_offer.specs.Heads.{after_act, rule_of};
ghost use Rattle.cap_offer.specs.Views.{choices_view};

use crate::clashing::first_clash;
use crate::listing::openings;
use crate::scanning::{Sought, first_sought};
use crate::trying::{only, tried_all, tried_alone};
use cap_closure_decide::Notes;
use cap_goal::{Choice, Goal, State};
use cap_prog::{Act, Program};
use std::alloc::{AllocError, Global};

// To open a region, unless that isn't wanted.
fn openings_unless(
    alloc: Global,
    unwanted: bool,
    program: &Program,
    goal: &Goal<'_>,
    notes: &mut Notes,
) -> Result<Vec<Choice>, AllocError>
    requires { HasRoom goal.now.state }
    ensures { IfOk result (λ v. Adds notes.old notes.new (choices_view v.items)
        (openings_if unwanted (program_view program.now) (goal_view goal.now))) }
{
    if unwanted {
        return Ok(Vec::new(alloc));
    }
    let choices = openings(alloc, &goal.state)?;
    tried_all(alloc, program, goal, choices, notes)
}

// A choice, if there is one, and then others.
fn with_others(
    alloc: Global,
    choice: Option<Choice>,
    others: Vec<Choice>,
) -> Result<Vec<Choice>, AllocError>
    ensures { IfOk result (λ v. choices_view v.items
        ≡ option_to_list (option_map choice_view choice) ++ choices_view others.items) }
{
    let mut others = others;
    let mut all = only(alloc, choice)?;
    all.append(&mut others)?;
    Ok(all)
}

// Whether to act on a cell is all that is wanted: there is such a choice, and no region is open.
fn is_enough(choice: &Option<Choice>, state: &State) -> bool
    ensures { result ≡ (is_some (option_map choice_view choice.now) && is_empty state.now.opened) }
{
    match choice {
        None => false,
        Some(_) => state.opened().is_empty(),
    }
}

// To act on a cell by this choice, if there is one; and to open a region, unless that is enough.
fn with_openings(
    alloc: Global,
    program: &Program,
    goal: &Goal<'_>,
    choice: Option<Choice>,
    notes: &mut Notes,
) -> Result<Vec<Choice>, AllocError>
    requires { HasRoom goal.now.state }
    ensures { IfOk result (λ v. Adds notes.old notes.new (choices_view v.items)
        (after_act (program_view program.now) (goal_view goal.now)
        (option_map choice_view choice))) }
{
    let enough = is_enough(&choice, &goal.state);
    let others = openings_unless(alloc, enough, program, goal, notes)?;
    with_others(alloc, choice, others)
}

// To act on the cell that has the address; and to open a region, where there is no such cell or one
// is open already.
fn by_cells(
    alloc: Global,
    program: &Program,
    goal: &Goal<'_>,
    act: &Act,
    notes: &mut Notes,
) -> Result<Vec<Choice>, AllocError>
    requires { HasRoom goal.now.state }
    ensures { IfOk result (λ v. Adds notes.old notes.new (choices_view v.items)
        (cells_by (program_view program.now) (goal_view goal.now) (act_view act.now))) }
{
    let choice = first_sought(alloc, program, goal, Sought::Act(act), notes)?;
    with_openings(alloc, program, goal, choice, notes)
}

// At a heap statement a clash comes first, and then nothing else.
fn at_heap(
    alloc: Global,
    program: &Program,
    goal: &Goal<'_>,
    act: &Act,
    notes: &mut Notes,
) -> Result<Vec<Choice>, AllocError>
    requires { HasRoom goal.now.state }
    ensures { IfOk result (λ v. Adds notes.old notes.new (choices_view v.items)
        (heap_at (program_view program.now) (goal_view goal.now) (act_view act.now))) }
{
    match first_clash(alloc, program, goal, notes)? {
        Some(choice) => only(alloc, Some(choice)),
        None => by_cells(alloc, program, goal, act, notes),
    }
}

// The one rule of a statement that isn't a heap statement.
fn own_rule(alloc: Global, act: &Act) -> Option<Choice>
    ensures { option_map choice_view result ≡ rule_of (act_view act.now) }
{
    match act {
        Act::Read(_, _)
        | Act::Write(_, _)
        | Act::Cas(_, _, _, _)
        | Act::Faa(_, _, _)
        | Act::Dispose(_) => None,
        Act::Set(_, _) => Some(Choice::Set),
        Act::Alloc(_, _) => Some(Choice::Alloc),
        Act::Call(_, _, _) => Some(Choice::Call),
        Act::Fork(_, _) => Some(Choice::Fork),
        Act::If(_, _, _) => Some(Choice::If),
        Act::While(_, _, _) => Some(Choice::Loop),
        Act::Assert(_) => Some(Choice::Assert(Vec::new(alloc))),
        Act::Return(_) => Some(Choice::Return),
    }
}

/// What is offered at a statement.
pub(crate) fn at_statement(
    alloc: Global,
    program: &Program,
    goal: &Goal<'_>,
    act: &Act,
    notes: &mut Notes,
) -> Result<Vec<Choice>, AllocError>
    requires { HasRoom goal.now.state }
    ensures { IfOk result (λ v. Adds notes.old notes.new (choices_view v.items)
        (statement_at (program_view program.now) (goal_view goal.now) (act_view act.now))) }
{
    match own_rule(alloc, act) {
        None => at_heap(alloc, program, goal, act, notes),
        Some(rule) => tried_alone(alloc, program, goal, rule, notes),
    }
}
