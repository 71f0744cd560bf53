//! The verdict on a unit by its roots.
ghost use Rattle.std.specs.Prelude.{◌≡◌, IfOk};
ghost use Rattle.cap_prog.specs.Views.{program_view};
ghost use Rattle.cap_goal.specs.Views.{unit_view};
ghost use Rattle.cap_goal_roots.specs.Views.{root_view, roots_view};
ghost use Rattle.cap_search_spec.specs.Seeking.{root_tree, unit_trees};
ghost use Rattle.cap_search_spec.specs.Verdicts.{found, verdict_of, unproved as unproved_by};
ghost use Rattle.cap_search_spec.specs.Walks.{root_walked, unit_walked};
ghost use Rattle.cap_search_trees.specs.Searchable.{RootIsSearchable, RootsAreSearchable};
ghost use Rattle.cap_search_trees.specs.Searching.{Searched};
ghost use Rattle.cap_search_trees.specs.Views.{tree_seen, trees_seen, verdict_view, walk_view};

use crate::places::obligation_of;
use crate::seeking::prove;
use crate::verdict::Verdict;
use crate::walk::{Stop, Walk};
use cap_goal::{DEEPEST, Goal, Node, Unit};
use cap_prog::Program;
use cap_search_spec::walks_tell_verdicts;
use std::alloc::{AllocError, Global};

// The tree of a root; one without tasks has none, which is found at once.
fn prove_root<'a>(
    alloc: Global,
    program: &'a Program,
    root: &Option<Goal<'a>>,
    walk: &mut Walk,
) -> Result<Option<Option<Node>>, Stop>
    requires { RootIsSearchable (program_view program.now) (root_view root.now) }
    ensures { Searched tree_seen walk.new result
        (root_tree (program_view program.now) (root_view root.now))
        (root_walked (program_view program.now) (walk_view walk.old) (root_view root.now)) }
{
    match root {
        None => Ok(Some(None)),
        Some(goal) => match prove(alloc, program, goal, DEEPEST as usize, walk)? {
            Some(node) => Ok(Some(Some(node))),
            None => Ok(None),
        },
    }
}

// Trees of all roots, up to the first that has none.
#[tactic(auto, unfolding(cap_search_spec::specs::Seeking::unit_trees, cap_search_spec::specs::Walks::unit_walked))]
fn prove_roots<'a>(
    alloc: Global,
    program: &'a Program,
    roots: &[Option<Goal<'a>>],
    walk: &mut Walk,
) -> Result<Option<Vec<Option<Node>>>, Stop>
    requires { RootsAreSearchable (program_view program.now) (roots_view roots.now) }
    ensures { Searched trees_seen walk.new result
        (unit_trees (program_view program.now) (roots_view roots.now))
        (unit_walked (program_view program.now) 0 (walk_view walk.old) (roots_view roots.now)) }
{
    let mut trees = Vec::new(alloc);
    for (number, root) in roots.iter().enumerate() {
        walk.start(number);
        match prove_root(alloc, program, root, walk)? {
            Some(tree) => trees.push(tree)?,
            None => return Ok(None),
        }
    }
    Ok(Some(trees))
}

// Of a unit with a tree that isn't found within the budget.
fn unproved(
    alloc: Global,
    program: &Program,
    unit: Unit,
    walk: &Walk,
) -> Result<Verdict, AllocError>
    ensures { IfOk result (λ v. verdict_view v
        ≡ verdict_of (program_view program.now) (unit_view unit)
        (unproved_by (walk_view walk.now).deep (walk_view walk.now).notes (walk_view walk.now).root
        (walk_view walk.now).leaf)) }
{
    if walk.deep {
        return Ok(Verdict::Deep);
    }
    if let Some((a, b)) = walk.notes.wide() {
        return Ok(Verdict::Wide(a, b));
    }
    if walk.notes.rows() {
        return Ok(Verdict::Rows);
    }
    match walk.leaf {
        None => Ok(Verdict::Deep),
        Some(leaf) => {
            let open = obligation_of(alloc, program, unit, walk.root, leaf)?;
            Ok(Verdict::Stuck(open))
        }
    }
}

/// The verdict on a unit by its roots, with a budget of visits. Where all of them have trees, it is
/// these, one for each root. The trees are sought one after the other, up to the first root that
/// has none; the verdict then says why: a goal stands deeper than a thousand, a number leaves 128
/// bits, an elimination has too many rows, or else what is left open. The search ends at the first
/// visit that passes the budget. The goals at the roots are kept, and their terms are in order. The
/// only error is want of memory.
pub fn judge<'a>(
    alloc: Global,
    program: &'a Program,
    unit: Unit,
    roots: &[Option<Goal<'a>>],
    budget: u64,
) -> Result<Verdict, AllocError>
    requires { RootsAreSearchable (program_view program.now) (roots_view roots.now) }
    ensures { IfOk result (λ v. verdict_view v
        ≡ verdict_of (program_view program.now) (unit_view unit)
        (found (program_view program.now) budget (roots_view roots.now))) }
{
    walks_tell_verdicts();
    let mut walk = Walk::new(budget);
    match prove_roots(alloc, program, roots, &mut walk) {
        Ok(Some(trees)) => Ok(Verdict::Proved(trees)),
        Ok(None) => unproved(alloc, program, unit, &walk),
        Err(Stop::Spent) => Ok(Verdict::Spent(budget)),
        Err(Stop::OutOfMemory) => Err(AllocError),
    }
}
