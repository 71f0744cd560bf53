//! The lines of a node.
ghost use Rattle.std.specs.Prelude.{◌≡◌, ◌++◌, ◌<◌, IfErr, IfOk, OnOk, Some, is_some, length, map};
ghost use Rattle.std.specs.Prelude.{option_map, slice_get};
ghost use Rattle.std.specs.List.{AllZip};
ghost use Rattle.cap_prog.specs.Views.{program_view};
ghost use Rattle.cap_goal.specs.Views.{choice_view};
ghost use Rattle.cap_rules_marks.specs.Proven.{RefutesIfGiven, given};
ghost use Rattle.cap_rules_steps.specs.Judging.{lists_view};
ghost use Rattle.cap_rules_steps.specs.declared.error.RuleError.TheVariants.{OutOfMemory};
ghost use Rattle.cap_kernel_nodes.specs.Laws.{NodeIsProven};
ghost use Rattle.cap_kernel_nodes.specs.Views.{goal_node_view};
ghost use Rattle.cap_core_text.specs.Lines.{owed_by as lists_owed, proof_lines};

use crate::proof::push_proof;
use cap_goal::Choice;
use cap_kernel::proofs;
use cap_kernel_nodes::GoalNode;
use cap_lin::Row;
use cap_prog::Program;
use cap_rules_steps::RuleError;
use std::alloc::{AllocError, Global};

// Whether there is a certificate to refute the list of this number, from 0; else there is a mark 0.
fn is_given(choice: &Choice, number: usize) -> bool
    requires { number < length (given (choice_view choice.now)) }
    ensures { option_map is_some (slice_get (given (choice_view choice.now)) number)
        ≡ Some result }
{
    match choice {
        Choice::Act(_, certs, marks) => {
            number < certs.len() || marks[number - certs.len()].is_some()
        }
        _ => true,
    }
}

// The lists of rows that the node's choice owes. It proves them, so there is no other error than
// want of memory.
fn owed_of<'a>(
    alloc: Global,
    program: &'a Program,
    node: &GoalNode<'a>,
) -> Result<Vec<Vec<Row>>, RuleError>
    requires { NodeIsProven (program_view program.now) (goal_node_view node.now) }
    ensures owed { IfOk result (λ lists. lists_view lists
        ≡ lists_owed (program_view program.now) (goal_node_view node.now)) }
    ensures refuted { IfOk result (λ lists.
        AllZip RefutesIfGiven (lists_view lists) (given (goal_node_view node.now).choice)) }
    ensures only { IfErr result (λ e. e ≡ OutOfMemory) }
{
    proofs(alloc, program, &node.goal, node.choice)
}

// The same; the only error is want of memory.
fn owed_by<'a>(
    alloc: Global,
    program: &'a Program,
    node: &GoalNode<'a>,
) -> Result<Vec<Vec<Row>>, AllocError>
    requires { NodeIsProven (program_view program.now) (goal_node_view node.now) }
    ensures owed { IfOk result (λ lists. lists_view lists
        ≡ lists_owed (program_view program.now) (goal_node_view node.now)) }
    ensures refuted { IfOk result (λ lists.
        AllZip RefutesIfGiven (lists_view lists) (given (goal_node_view node.now).choice)) }
{
    match owed_of(alloc, program, node) {
        Ok(lists) => Ok(lists),
        Err(RuleError::OutOfMemory) => Err(AllocError),
        Err(RuleError::NotApplicable | RuleError::Wide(_, _)) => unreachable!(),
    }
}

// Writes a line for each list of rows for which the choice has a certificate.
fn push_proofs(
    alloc: Global,
    text: &mut Vec<u8>,
    node: u64,
    lists: &[Vec<Row>],
    choice: &Choice,
) -> Result<(), AllocError>
    requires { AllZip RefutesIfGiven (map (λ rows. rows.items) lists.now)
        (given (choice_view choice.now)) }
    ensures { OnOk result (text.new.items ≡ text.old.items
        ++ proof_lines node 1 (map (λ rows. rows.items) lists.now)
        (given (choice_view choice.now))) }
{
    let mut proofs: u64 = 0;
    for (number, rows) in lists.iter().enumerate() {
        if is_given(choice, number) {
            proofs += 1;
            push_proof(alloc, text, node, proofs, rows)?;
        }
    }
    Ok(())
}

/// Writes a line for each proof of a node, which is proven, by the node's number from 1. The only
/// error is want of memory.
pub(crate) fn push_node<'a>(
    alloc: Global,
    text: &mut Vec<u8>,
    program: &'a Program,
    number: u64,
    node: &GoalNode<'a>,
) -> Result<(), AllocError>
    requires { NodeIsProven (program_view program.now) (goal_node_view node.now) }
    ensures { let n = goal_node_view node.now in OnOk result (text.new.items ≡ text.old.items
        ++ proof_lines number 1 (lists_owed (program_view program.now) n) (given n.choice)) }
{
    let lists = owed_by(alloc, program, node)?;
    push_proofs(alloc, text, number, &lists, node.choice)
}
