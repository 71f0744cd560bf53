//! What is owed at the roots, and what a choice leaves of what is owed.
ghost use Rattle.std.specs.Prelude.{◌≡◌, ◌≤◌, ◌++◌, [], ◌∷◌, drop, map, option_map};
ghost use Rattle.std.specs.Prelude.{IfOk, MatchOption, OnErr, OnOk};
ghost use Rattle.cap_prog.specs.Views.{program_view};
ghost use Rattle.cap_goal_spec.specs.Fits.{HasRoom};
ghost use Rattle.cap_rules.specs.Valid.{deepest};
ghost use Rattle.cap_goal.specs.Views.{choice_view, goal_view};
ghost use Rattle.cap_rules_steps.specs.Goals.{goals_view};
ghost use Rattle.cap_rules_fits.specs.Kept.{IsKept};
ghost use Rattle.cap_kernel_check_steps.specs.Debts.{DebtIsKept, GoalHasRoom};
ghost use Rattle.cap_kernel_check_steps.specs.Debts.{LeavesOwed, LeftIsKept};
ghost use Rattle.cap_kernel_check_steps.specs.Debts.{debt_view, left_view};
ghost use Rattle.cap_kernel_check_steps.specs.Debts.{owed_view};
ghost use Rattle.cap_kernel_check_steps.specs.Owed.{debts_of, owes};
ghost use Rattle.cap_kernel_check_steps.specs.Views.{start_view, starts_view};

use crate::debt::Debt;
use crate::left::goals_left;
use crate::start::Start;
use cap_goal::{Choice, DEEPEST, Goal};
use cap_prog::Program;
use std::alloc::{AllocError, Global};

// Appends what is owed at a root, the goal there or none.
fn push_root<'a>(debts: &mut Vec<Debt<'a>>, goal: Option<Goal<'a>>) -> Result<(), AllocError>
    ensures { IfOk result (λ _. map debt_view debts.new.items
        ≡ map debt_view debts.old.items
        ++ record { above = 0; goal = option_map goal_view goal.entry } ∷ []) }
{
    debts.push(Debt { above: 0, goal })?;
    Ok(())
}

// Appends what is owed where this stands at a root.
fn push_start<'a>(debts: &mut Vec<Debt<'a>>, start: Start<'a>) -> Result<(), AllocError>
    ensures { IfOk result (λ _. map debt_view debts.new.items
        ≡ map debt_view debts.old.items ++ debts_of (start_view start.entry ∷ [])) }
{
    match start {
        Start::NoTasks => Ok(()),
        Start::At(goal) => push_root(debts, Some(goal)),
        Start::Barred => push_root(debts, None),
    }
}

/// What is owed where this stands at the roots, what is owed first last. The only error is want of
/// memory.
pub fn owed_at<'a>(alloc: Global, starts: Vec<Start<'a>>) -> Result<Vec<Debt<'a>>, AllocError>
    ensures { IfOk result (λ v. owed_view v.items ≡ debts_of (starts_view starts.entry.items)) }
{
    let mut debts = Vec::new(alloc);
    for start in starts {
        push_start(&mut debts, start)?;
    }
    debts.reverse();
    Ok(debts)
}

// Goals that are owed below so many nodes.
fn owed_below<'a>(
    alloc: Global,
    above: u32,
    goals: Vec<Goal<'a>>,
) -> Result<Vec<Debt<'a>>, AllocError>
    requires { above ≤ deepest }
    ensures { IfOk result
        (λ v. owed_view v.items ≡ map (owes above) (goals_view goals.entry)) }
{
    let mut debts = Vec::with_capacity(alloc, goals.len())?;
    for goal in goals {
        debts.push(Debt {
            above,
            goal: Some(goal),
        })?;
    }
    debts.reverse();
    Ok(debts)
}

// What a choice leaves of a goal that is owed below so many nodes.
fn left_below<'a>(
    alloc: Global,
    program: &'a Program,
    above: u32,
    goal: &Goal<'a>,
    choice: &Choice,
) -> Result<Option<Vec<Debt<'a>>>, AllocError>
    requires shallow { above ≤ deepest }
    requires room { HasRoom goal.now.state }
    ensures left { IfOk result (λ o. LeavesOwed (program_view program.now)
        (owes above (goal_view goal.now)) (choice_view choice.now) (left_view o)) }
    ensures kept { IsKept (program_view program.now) (goal_view goal.now)
        → IfOk result (λ o. LeftIsKept (program_view program.now) (left_view o)) }
{
    if above == DEEPEST {
        return Ok(None);
    }
    match goals_left(alloc, program, goal, choice)? {
        None => Ok(None),
        Some(goals) => Ok(Some(owed_below(alloc, above + 1, goals)?)),
    }
}

/// What a choice leaves of what is owed, which is owed then, one node deeper, and kept where the
/// goal is; none where it doesn't apply, where there is no goal, and where a thousand nodes are
/// above it. The goal's state has room. The only error is want of memory.
pub fn debts_left<'a>(
    alloc: Global,
    program: &'a Program,
    debt: &Debt<'a>,
    choice: &Choice,
) -> Result<Option<Vec<Debt<'a>>>, AllocError>
    requires { GoalHasRoom (debt_view debt.now).goal }
    ensures left { IfOk result (λ o. LeavesOwed (program_view program.now) (debt_view debt.now)
        (choice_view choice.now) (left_view o)) }
    ensures kept { DebtIsKept (program_view program.now) (debt_view debt.now)
        → IfOk result (λ o. LeftIsKept (program_view program.now) (left_view o)) }
{
    match &debt.goal {
        None => Ok(None),
        Some(goal) => left_below(alloc, program, debt.above, goal, choice),
    }
}

/// What is owed first, which stands last; none where nothing is owed.
pub fn first_owed<'b, 'a>(owed: &'b [Debt<'a>]) -> Option<&'b Debt<'a>>
    ensures { MatchOption result (owed_view owed.now ≡ [])
        (λ d. owed_view owed.now ≡ debt_view d.now ∷ drop 1 (owed_view owed.now)) }
{
    owed.last()
}

/// Replaces what is owed first by what a choice leaves of it. After want of memory, which is the
/// only error, what is owed is as it was.
pub fn replace_first<'a>(
    owed: &mut Vec<Debt<'a>>,
    mut left: Vec<Debt<'a>>,
) -> Result<(), AllocError>
    ensures replaced { OnOk result (owed_view owed.new.items
        ≡ owed_view left.entry.items ++ drop 1 (owed_view owed.old.items)) }
    ensures unchanged { OnErr result (owed.new.items ≡ owed.old.items) }
{
    owed.reserve(left.len())?;
    let _ = owed.pop();
    owed.append(&mut left)
}
