//! Trees by the first choice all of whose goals have trees.
ghost use Rattle.std.specs.Prelude.{◌≡◌, IfErr, IfOk, Some, map};
ghost use Rattle.cap_prog.specs.Views.{program_view};
ghost use Rattle.cap_goal.specs.Trees.{node_view};
ghost use Rattle.cap_goal.specs.Views.{choice_view, goal_view};
ghost use Rattle.cap_rules_steps.specs.declared.error.RuleError.TheVariants.{OutOfMemory};
ghost use Rattle.cap_search_spec.specs.Guided.{IsOffered};
ghost use Rattle.cap_search_spec.specs.Seeking.{left_by as goals_left, all_trees, first_tree, tree_within};
ghost use Rattle.cap_search_spec.specs.Walks.{choices_walked, goals_walked, walked_within};
ghost use Rattle.cap_search_trees.specs.Searchable.{AreOffered, AreSearchable, IsSearchable};
ghost use Rattle.cap_search_trees.specs.Searching.{Searched};
ghost use Rattle.cap_search_trees.specs.Views.{nodes_seen, walk_view};

use crate::walk::{Stop, Walk};
use cap_goal::{Choice, Goal, Node};
use cap_kernel::subgoals;
use cap_offer::offered;
use cap_offer_spec::offered_choices_apply;
use cap_prog::{Program, well_formed};
use cap_rules_ascending::{owed_rows_ascend, subgoals_ascend};
use cap_rules_fits::subgoals_are_kept;
use cap_rules_steps::RuleError;
use std::alloc::{AllocError, Global};

// What an offered choice leaves of a goal, from which the search goes on. It applies, so there is
// no other error than want of memory.
fn left_of<'a>(
    alloc: Global,
    program: &'a Program,
    goal: &Goal<'a>,
    choice: &Choice,
) -> Result<Vec<Goal<'a>>, RuleError>
    requires searchable { IsSearchable (program_view program.now) (goal_view goal.now) }
    requires offered { IsOffered (program_view program.now) (goal_view goal.now)
        (choice_view choice.now) }
    ensures left { IfOk result (λ v. goals_left (program_view program.now) (goal_view goal.now)
        (choice_view choice.now) ≡ Some (map goal_view v.items)) }
    ensures searchable { IfOk result
        (λ v. AreSearchable (program_view program.now) (map goal_view v.items)) }
    ensures only { IfErr result (λ e. e ≡ OutOfMemory) }
{
    well_formed(program);
    offered_choices_apply();
    owed_rows_ascend();
    subgoals_are_kept();
    subgoals_ascend();
    subgoals(alloc, program, goal, choice)
}

// The same; the only error is want of memory.
#[inline(never)]
fn left_by<'a>(
    alloc: Global,
    program: &'a Program,
    goal: &Goal<'a>,
    choice: &Choice,
) -> Result<Vec<Goal<'a>>, AllocError>
    requires searchable { IsSearchable (program_view program.now) (goal_view goal.now) }
    requires offered { IsOffered (program_view program.now) (goal_view goal.now)
        (choice_view choice.now) }
    ensures left { IfOk result (λ v. goals_left (program_view program.now) (goal_view goal.now)
        (choice_view choice.now) ≡ Some (map goal_view v.items)) }
    ensures searchable { IfOk result
        (λ v. AreSearchable (program_view program.now) (map goal_view v.items)) }
{
    match left_of(alloc, program, goal, choice) {
        Ok(goals) => Ok(goals),
        Err(RuleError::OutOfMemory) => Err(AllocError),
        Err(RuleError::NotApplicable | RuleError::Wide(_, _)) => unreachable!(),
    }
}

/// Searches for a tree of a goal, below which there is room for so many levels: the first choice
/// all of whose subgoals have trees is taken at each node. The record goes on over the goals that
/// are visited. Spent comes at the first visit for which nothing is left of the budget; the only
/// other error is want of memory.
#[cycle(walk)]
#[tactic(auto, unfolding(cap_search_spec::specs::Seeking::tree_within, cap_search_spec::specs::Walks::walked_within))]
pub(crate) fn prove<'a>(
    alloc: Global,
    program: &'a Program,
    goal: &Goal<'a>,
    room: usize,
    walk: &mut Walk,
) -> Result<Option<Node>, Stop>
    requires { IsSearchable (program_view program.now) (goal_view goal.now) }
    ensures { Searched node_view walk.new result
        (tree_within (program_view program.now) room (goal_view goal.now))
        (walked_within (program_view program.now) room (walk_view walk.old) (goal_view goal.now)) }
{
    walk.count()?;
    if room == 0 {
        walk.deep = true;
        return Ok(None);
    }
    let offers = offered(alloc, program, goal)?;
    walk.meet(program, goal, &offers.choices, offers.notes);
    by_choices(alloc, program, goal, offers.choices, room - 1, walk)
}

// By the first of these offered choices all of whose goals have trees.
#[cycle(walk)]
#[tactic(auto, unfolding(cap_search_spec::specs::Seeking::first_tree, cap_search_spec::specs::Walks::choices_walked))]
fn by_choices<'a>(
    alloc: Global,
    program: &'a Program,
    goal: &Goal<'a>,
    choices: Vec<Choice>,
    room: usize,
    walk: &mut Walk,
) -> Result<Option<Node>, Stop>
    requires searchable { IsSearchable (program_view program.now) (goal_view goal.now) }
    requires offered { AreOffered (program_view program.now) (goal_view goal.now)
        (map choice_view choices.items) }
    ensures { Searched node_view walk.new result
        (first_tree (program_view program.now) (tree_within (program_view program.now) room)
        (goal_view goal.now) (map choice_view choices.items))
        (choices_walked (program_view program.now) (tree_within (program_view program.now) room)
        (walked_within (program_view program.now) room) (goal_view goal.now) (walk_view walk.old)
        (map choice_view choices.items)) }
{
    for choice in choices {
        let goals = left_by(alloc, program, goal, &choice)?;
        match prove_all(alloc, program, &goals, room, walk)? {
            Some(children) => return Ok(Some(Node { choice, children })),
            None => drop(choice),
        }
    }
    Ok(None)
}

// Trees of all goals, up to the first that has none.
#[cycle(walk)]
#[tactic(auto, unfolding(cap_search_spec::specs::Seeking::all_trees, cap_search_spec::specs::Walks::goals_walked))]
fn prove_all<'a>(
    alloc: Global,
    program: &'a Program,
    goals: &[Goal<'a>],
    room: usize,
    walk: &mut Walk,
) -> Result<Option<Vec<Node>>, Stop>
    requires { AreSearchable (program_view program.now) (map goal_view goals.now) }
    ensures { Searched nodes_seen walk.new result
        (all_trees (tree_within (program_view program.now) room) (map goal_view goals.now))
        (goals_walked (tree_within (program_view program.now) room)
        (walked_within (program_view program.now) room) (walk_view walk.old)
        (map goal_view goals.now)) }
{
    let mut children = Vec::new(alloc);
    for goal in goals {
        match prove(alloc, program, goal, room, walk)? {
            Some(node) => children.push(node)?,
            None => return Ok(None),
        }
    }
    Ok(Some(children))
}
