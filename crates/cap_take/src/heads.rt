//! At which goals a rule on an assertion applies.
ghost use Rattle.std.specs.Prelude.{◌≡◌};
ghost use Rattle.cap_prog.specs.Program.{none};
ghost use Rattle.cap_prog.specs.Views.{item_view, items_view, program_view};
ghost use Rattle.cap_goal.specs.Views.{items_in, task_view, tasks_view, choice_view};
ghost use Rattle.cap_rules_steps.specs.Goals.{goals_view};
ghost use Rattle.cap_rules_steps.specs.Walks.{Makes, Claims, seen};
ghost use Rattle.cap_take_items.specs.Views.{remaining_view};
ghost use Rattle.cap_take.specs.Heads.{taking_of, comparison_taken, conditional_taken};
ghost use Rattle.cap_take.specs.Heads.{cell_taken, item_taken, items_taken, items_given};
ghost use Rattle.cap_take.specs.Heads.{fact_taken, atom_taken, region_stated};
ghost use Rattle.cap_take.specs.Heads.{head_taken, tasks_taken};

use crate::cells::cell;
use crate::comparing::{cases, fact};
use cap_goal::{Choice, Goal, Items, State, Task};
use cap_lin::Term;
use cap_prog::{Asked, Assertion, Comp, Item, Program, Slot};
use cap_rules_steps::{Ledger, RuleError};
use cap_take_create::create;
use cap_take_facts::{made, region as match_region};
use cap_take_give::give;
use cap_take_guards::{convert, guard};
use cap_take_items::{Remaining, next_item};
use std::alloc::Global;

/// A rule on an assertion, without its certificates.
#[derive(Clone, Copy)]
pub(crate) enum Taking {
    Give,
    Fact,
    Cases,
    Cell(u32),
    Region(u32),
    Guard(u32, u32),
    Convert(u32, u32),
    Create(u32),
    Made,
}

/// The rule on an assertion that a choice takes, if it is one.
pub(crate) fn rule_of(choice: &Choice) -> Option<Taking>
    ensures { result ≡ taking_of (choice_view choice.now) }
{
    match choice {
        Choice::Give => Some(Taking::Give),
        Choice::Fact(_) => Some(Taking::Fact),
        Choice::Cases => Some(Taking::Cases),
        Choice::Cell(number, _) => Some(Taking::Cell(*number)),
        Choice::Region(number, _) => Some(Taking::Region(*number)),
        Choice::Guard(number, way, _) => Some(Taking::Guard(*number, *way)),
        Choice::Convert(sum, side, _) => Some(Taking::Convert(*sum, *side)),
        Choice::Create(case) => Some(Taking::Create(*case)),
        Choice::Made(_) => Some(Taking::Made),
        Choice::Absurd(_)
        | Choice::Clash(_, _, _)
        | Choice::Set
        | Choice::Alloc
        | Choice::Assert(_)
        | Choice::If
        | Choice::Loop
        | Choice::Turn
        | Choice::Call
        | Choice::Fork
        | Choice::Return
        | Choice::Enter(_, _)
        | Choice::Act(_, _, _)
        | Choice::Pick(_, _, _)
        | Choice::Shift(_, _)
        | Choice::Settle(_, _)
        | Choice::Keep(_) => None,
    }
}

// ---- items that are given up

// A comparison.
fn take_comparison<'t, 'a>(
    alloc: Global,
    ledger: &mut Ledger,
    state: &State,
    taking: Taking,
    comparison: &Comp,
    rest: &Remaining<'t, 'a>,
) -> Result<Vec<Goal<'a>>, RuleError>
    ensures { Claims (seen goals_view result) ledger.old ledger.new
        (comparison_taken state.now taking comparison.now (remaining_view rest.now)) }
{
    match taking {
        Taking::Fact => fact(alloc, ledger, state, comparison, rest),
        _ => Err(RuleError::NotApplicable),
    }
}

// A conditional.
fn take_conditional<'t, 'a>(
    alloc: Global,
    state: &State,
    taking: Taking,
    comparison: &Comp,
    then_items: &'a Assertion,
    else_items: &'a Assertion,
    rest: &Remaining<'t, 'a>,
) -> Result<Vec<Goal<'a>>, RuleError>
    ensures { Makes (seen goals_view result) (conditional_taken state.now taking comparison.now
        (items_view then_items.now) (items_view else_items.now) (remaining_view rest.now)) }
{
    match taking {
        Taking::Cases => cases(alloc, state, comparison, then_items, else_items, rest),
        _ => Err(RuleError::NotApplicable),
    }
}

// A cell.
fn take_cell<'t, 'a>(
    alloc: Global,
    ledger: &mut Ledger,
    state: &State,
    taking: Taking,
    address: &Term,
    content: &Slot,
    rest: &Remaining<'t, 'a>,
) -> Result<Vec<Goal<'a>>, RuleError>
    ensures { Claims (seen goals_view result) ledger.old ledger.new
        (cell_taken state.now taking address.now content.now (remaining_view rest.now)) }
{
    match taking {
        Taking::Cell(number) => cell(alloc, ledger, state, number, address, content, rest),
        _ => Err(RuleError::NotApplicable),
    }
}

// A region fact.
fn take_fact<'t, 'a>(
    alloc: Global,
    ledger: &mut Ledger,
    program: &'a Program,
    state: &State,
    taking: Taking,
    item: &'a Item,
    region: u32,
    kind: u32,
    args: &[Slot],
    slot: &Slot,
    rest: &Remaining<'t, 'a>,
) -> Result<Vec<Goal<'a>>, RuleError>
    ensures { Claims (seen goals_view result) ledger.old ledger.new (fact_taken
        (program_view program.now) state.now taking (item_view item.now) region kind args.now
        slot.now (remaining_view rest.now)) }
{
    match taking {
        Taking::Region(number) => {
            match_region(alloc, ledger, state, number, region, kind, args, slot, rest)
        }
        Taking::Create(case) => create(
            alloc, program, state, case, region, kind, args, slot, item, rest,
        ),
        _ => Err(RuleError::NotApplicable),
    }
}

// A guard.
fn take_atom<'t, 'a>(
    alloc: Global,
    ledger: &mut Ledger,
    program: &'a Program,
    state: &State,
    taking: Taking,
    item: &'a Item,
    region: u32,
    kind: u32,
    atom: u32,
    asked: &Asked,
    rest: &Remaining<'t, 'a>,
) -> Result<Vec<Goal<'a>>, RuleError>
    ensures { Claims (seen goals_view result) ledger.old ledger.new (atom_taken
        (program_view program.now) state.now taking (item_view item.now) region kind atom asked.now
        (remaining_view rest.now)) }
{
    match taking {
        Taking::Guard(number, way) => guard(
            alloc, ledger, state, number, way, region, kind, atom, asked, rest,
        ),
        Taking::Convert(sum, side) => convert(
            alloc, ledger, program, state, sum, side, region, kind, item, rest,
        ),
        _ => Err(RuleError::NotApplicable),
    }
}

// An item that is given up.
fn take_item<'t, 'a>(
    alloc: Global,
    ledger: &mut Ledger,
    program: &'a Program,
    state: &State,
    taking: Taking,
    item: &'a Item,
    rest: &Remaining<'t, 'a>,
) -> Result<Vec<Goal<'a>>, RuleError>
    ensures { Claims (seen goals_view result) ledger.old ledger.new (item_taken
        (program_view program.now) state.now taking (item_view item.now)
        (remaining_view rest.now)) }
{
    match item {
        Item::Compare(comparison) => {
            take_comparison(alloc, ledger, state, taking, comparison, rest)
        }
        Item::Choose(comparison, first, second) => {
            take_conditional(alloc, state, taking, comparison, first, second, rest)
        }
        Item::Cell(_, address, content) => {
            take_cell(alloc, ledger, state, taking, address, content, rest)
        }
        Item::Fact(_, region, kind, args, slot) => take_fact(
            alloc, ledger, program, state, taking, item, *region, *kind, args, slot, rest,
        ),
        Item::Atom(_, region, kind, atom, asked) => take_atom(
            alloc, ledger, program, state, taking, item, *region, *kind, *atom, asked, rest,
        ),
    }
}

// ---- the head of a goal

// Where items are to be given up.
fn take_at<'a>(
    alloc: Global,
    ledger: &mut Ledger,
    program: &'a Program,
    state: &State,
    taking: Taking,
    items: &Items<'a>,
    env: u32,
    creations: u32,
    at: u32,
    behind: &[Task<'a>],
) -> Result<Vec<Goal<'a>>, RuleError>
    ensures { Claims (seen goals_view result) ledger.old ledger.new (items_taken
        (program_view program.now) state.now taking (items_in items.now.lists.items none) env
        creations at (tasks_view behind.now)) }
{
    match next_item(alloc, items)? {
        None => Err(RuleError::NotApplicable),
        Some((item, more)) => {
            let rest = Remaining {
                items: more,
                env,
                creations,
                at,
                tasks: behind,
            };
            take_item(alloc, ledger, program, state, taking, item, &rest)
        }
    }
}

// An assertion that is given.
fn take_given<'a>(
    alloc: Global,
    program: &'a Program,
    state: &State,
    taking: Taking,
    items: &Items<'a>,
    env: u32,
    at: u32,
    behind: &[Task<'a>],
) -> Result<Vec<Goal<'a>>, RuleError>
    ensures { Makes (seen goals_view result) (items_given (program_view program.now) state.now
        taking (items_in items.now.lists.items none) env at (tasks_view behind.now)) }
{
    match taking {
        Taking::Give => give(alloc, program, state, items, env, at, behind),
        _ => Err(RuleError::NotApplicable),
    }
}

// A created region is stated.
fn take_made<'a>(
    alloc: Global,
    ledger: &mut Ledger,
    program: &'a Program,
    state: &State,
    taking: Taking,
    kind: u32,
    case: u32,
    env: u32,
    created: &Term,
    behind: &[Task<'a>],
) -> Result<Vec<Goal<'a>>, RuleError>
    ensures { Claims (seen goals_view result) ledger.old ledger.new (region_stated
        (program_view program.now) state.now taking kind case env created.now
        (tasks_view behind.now)) }
{
    match taking {
        Taking::Made => made(
            alloc, ledger, program, state, kind, case, env, created, behind,
        ),
        _ => Err(RuleError::NotApplicable),
    }
}

// What is left of a task.
fn take_head<'a>(
    alloc: Global,
    ledger: &mut Ledger,
    program: &'a Program,
    state: &State,
    taking: Taking,
    head: &Task<'a>,
    behind: &[Task<'a>],
) -> Result<Vec<Goal<'a>>, RuleError>
    ensures { Claims (seen goals_view result) ledger.old ledger.new (head_taken
        (program_view program.now) state.now taking (task_view head.now) (tasks_view behind.now)) }
{
    match head {
        Task::Take(items, env, creations, at) => take_at(
            alloc, ledger, program, state, taking, items, *env, *creations, *at, behind,
        ),
        Task::Give(items, env, at) => {
            take_given(alloc, program, state, taking, items, *env, *at, behind)
        }
        Task::Made(kind, case, env, created, _) => take_made(
            alloc, ledger, program, state, taking, *kind, *case, *env, created, behind,
        ),
        _ => Err(RuleError::NotApplicable),
    }
}

/// What is left of these tasks, the last of which is the head.
pub(crate) fn take_first<'a>(
    alloc: Global,
    ledger: &mut Ledger,
    program: &'a Program,
    state: &State,
    taking: Taking,
    tasks: &[Task<'a>],
) -> Result<Vec<Goal<'a>>, RuleError>
    ensures { Claims (seen goals_view result) ledger.old ledger.new (tasks_taken
        (program_view program.now) state.now taking (tasks_view tasks.now)) }
{
    match tasks {
        [] => Err(RuleError::NotApplicable),
        [behind @ .., head] => take_head(alloc, ledger, program, state, taking, head, behind),
    }
}
