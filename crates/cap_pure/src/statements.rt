//! The rules at a statement that comes first, each at statements of its own kind alone.
ghost use Rattle.std.specs.Prelude.{List};
ghost use Rattle.cap_farkas.specs.declared.cert.Cert.{Cert};
ghost use Rattle.cap_prog.specs.Views.{program_view};
ghost use Rattle.cap_goal_spec.specs.Choices.{by_set, by_alloc, by_assert, by_if, by_loop, by_call};
ghost use Rattle.cap_goal_spec.specs.Choices.{by_fork, by_return};
ghost use Rattle.cap_goal.specs.Views.{choice_view};
ghost use Rattle.cap_rules.specs.Rules.{at_clash};
ghost use Rattle.cap_rules_steps.specs.Goals.{goals_view};
ghost use Rattle.cap_rules_steps.specs.Walks.{Makes, Claims, seen};
ghost use Rattle.cap_pure.specs.Heads.{IsAtStatement, upcoming_view, statement_rule};

use crate::allocation::allocate;
use crate::calls::{call, fork, give_back};
use crate::contradiction::clash;
use crate::loops::leave_loop;
use crate::straight::{check, set};
use crate::upcoming::{Upcoming, tasks_behind, tasks_within};
use cap_goal::{Choice, Goal, State, is_heap};
use cap_prog::{Act, Program};
use cap_pure_parts::branches;
use cap_rules_steps::{Ledger, RuleError};
use std::alloc::Global;

fn at_cells<'t, 'a>(
    alloc: Global,
    ledger: &mut Ledger,
    state: &State,
    first: u32,
    second: u32,
    next: &Upcoming<'t, 'a>,
) -> Result<Vec<Goal<'a>>, RuleError>
    ensures { Claims (seen goals_view result) ledger.old ledger.new
        (at_clash state.now first second (upcoming_view next.now).act) }
{
    if !is_heap(next.statement) {
        return Err(RuleError::NotApplicable);
    }
    clash(alloc, ledger, state, first, second)
}

fn at_assignment<'t, 'a>(
    alloc: Global,
    program: &Program,
    state: &State,
    next: &Upcoming<'t, 'a>,
) -> Result<Vec<Goal<'a>>, RuleError>
    ensures { Makes (seen goals_view result) (statement_rule (program_view program.now) state.now
        by_set (upcoming_view next.now)) }
{
    match &next.statement.act {
        Act::Set(local, term) => {
            let tasks = tasks_behind(alloc, next)?;
            set(alloc, state, *local, term, tasks)
        }
        _ => Err(RuleError::NotApplicable),
    }
}

fn at_allocation<'t, 'a>(
    alloc: Global,
    program: &Program,
    state: &State,
    next: &Upcoming<'t, 'a>,
) -> Result<Vec<Goal<'a>>, RuleError>
    ensures { Makes (seen goals_view result) (statement_rule (program_view program.now) state.now
        by_alloc (upcoming_view next.now)) }
{
    match &next.statement.act {
        Act::Alloc(local, count) => {
            let tasks = tasks_behind(alloc, next)?;
            allocate(alloc, state, *local, *count, tasks)
        }
        _ => Err(RuleError::NotApplicable),
    }
}

fn at_assertion<'t, 'a>(
    alloc: Global,
    ledger: &mut Ledger,
    program: &Program,
    state: &State,
    next: &Upcoming<'t, 'a>,
) -> Result<Vec<Goal<'a>>, RuleError>
    ensures { (certs : List Cert) → Claims (seen goals_view result) ledger.old ledger.new
        (statement_rule (program_view program.now) state.now (by_assert certs)
        (upcoming_view next.now)) }
{
    match &next.statement.act {
        Act::Assert(comparison) => {
            let tasks = tasks_behind(alloc, next)?;
            check(alloc, ledger, state, comparison, tasks)
        }
        _ => Err(RuleError::NotApplicable),
    }
}

fn at_branch<'t, 'a>(
    alloc: Global,
    program: &Program,
    state: &State,
    next: &Upcoming<'t, 'a>,
) -> Result<Vec<Goal<'a>>, RuleError>
    ensures { Makes (seen goals_view result) (statement_rule (program_view program.now) state.now
        by_if (upcoming_view next.now)) }
{
    match &next.statement.act {
        Act::If(comparison, yes, no) => {
            let then_tasks = tasks_within(alloc, next, yes)?;
            let else_tasks = tasks_within(alloc, next, no)?;
            branches(alloc, state, comparison, then_tasks, else_tasks)
        }
        _ => Err(RuleError::NotApplicable),
    }
}

fn at_loop<'t, 'a>(
    alloc: Global,
    program: &'a Program,
    state: &State,
    next: &Upcoming<'t, 'a>,
) -> Result<Vec<Goal<'a>>, RuleError>
    ensures { Makes (seen goals_view result) (statement_rule (program_view program.now) state.now
        by_loop (upcoming_view next.now)) }
{
    match &next.statement.act {
        Act::While(_, invariant, _) => {
            leave_loop(
                alloc,
                program,
                state,
                next.home,
                invariant,
                next.statement.number,
            )
        }
        _ => Err(RuleError::NotApplicable),
    }
}

fn at_call<'t, 'a>(
    alloc: Global,
    program: &'a Program,
    state: &State,
    next: &Upcoming<'t, 'a>,
) -> Result<Vec<Goal<'a>>, RuleError>
    ensures { Makes (seen goals_view result) (statement_rule (program_view program.now) state.now
        by_call (upcoming_view next.now)) }
{
    let at = next.statement.number;
    match &next.statement.act {
        Act::Call(destination, callee, args) => {
            let tasks = tasks_behind(alloc, next)?;
            call(
                alloc,
                program,
                state,
                *destination,
                *callee,
                args,
                at,
                tasks,
            )
        }
        _ => Err(RuleError::NotApplicable),
    }
}

fn at_fork<'t, 'a>(
    alloc: Global,
    program: &'a Program,
    state: &State,
    next: &Upcoming<'t, 'a>,
) -> Result<Vec<Goal<'a>>, RuleError>
    ensures { Makes (seen goals_view result) (statement_rule (program_view program.now) state.now
        by_fork (upcoming_view next.now)) }
{
    let at = next.statement.number;
    match &next.statement.act {
        Act::Fork(callee, args) => {
            let tasks = tasks_behind(alloc, next)?;
            fork(alloc, program, state, *callee, args, at, tasks)
        }
        _ => Err(RuleError::NotApplicable),
    }
}

fn at_return<'t, 'a>(
    alloc: Global,
    program: &'a Program,
    state: &State,
    next: &Upcoming<'t, 'a>,
) -> Result<Vec<Goal<'a>>, RuleError>
    ensures { Makes (seen goals_view result) (statement_rule (program_view program.now) state.now
        by_return (upcoming_view next.now)) }
{
    match &next.statement.act {
        Act::Return(term) => {
            give_back(
                alloc,
                program,
                state,
                next.home,
                term,
                next.statement.number,
            )
        }
        _ => Err(RuleError::NotApplicable),
    }
}

/// The rule that a choice takes at the statement that comes first.
pub(crate) fn at_statement<'t, 'a>(
    alloc: Global,
    ledger: &mut Ledger,
    program: &'a Program,
    state: &State,
    choice: &Choice,
    next: &Upcoming<'t, 'a>,
) -> Result<Vec<Goal<'a>>, RuleError>
    requires { IsAtStatement (choice_view choice.now) }
    ensures { Claims (seen goals_view result) ledger.old ledger.new (statement_rule
        (program_view program.now) state.now (choice_view choice.now) (upcoming_view next.now)) }
{
    match choice {
        Choice::Clash(first, second, _) => at_cells(alloc, ledger, state, *first, *second, next),
        Choice::Set => at_assignment(alloc, program, state, next),
        Choice::Alloc => at_allocation(alloc, program, state, next),
        Choice::Assert(_) => at_assertion(alloc, ledger, program, state, next),
        Choice::If => at_branch(alloc, program, state, next),
        Choice::Loop => at_loop(alloc, program, state, next),
        Choice::Call => at_call(alloc, program, state, next),
        Choice::Fork => at_fork(alloc, program, state, next),
        Choice::Return => at_return(alloc, program, state, next),
        Choice::Absurd(_)
        | Choice::Turn
        | Choice::Enter(_, _)
        | Choice::Act(_, _, _)
        | Choice::Pick(_, _, _)
        | Choice::Shift(_, _)
        | Choice::Settle(_, _)
        | Choice::Keep(_)
        | Choice::Give
        | Choice::Fact(_)
        | Choice::Cases
        | Choice::Cell(_, _)
        | Choice::Region(_, _)
        | Choice::Guard(_, _, _)
        | Choice::Convert(_, _, _)
        | Choice::Create(_)
        | Choice::Made(_) => Err(RuleError::NotApplicable),
    }
}
