//! The roots of a program's units, with their trees.
ghost use Rattle.std.specs.Prelude.{◌≡◌, IfOk, MatchOption, None, Some};
ghost use Rattle.std.specs.Prelude.{◌+◌, List, map, option_copied, option_map, Option};
ghost use Rattle.std.specs.Prelude.{slice_get, unwrap_or};
ghost use Rattle.cap_prog.specs.Program.{PlainProgram};
ghost use Rattle.cap_prog.specs.Views.{program_view};
ghost use Rattle.cap_goal_spec.specs.Choices.{PlainTree};
ghost use Rattle.cap_goal.specs.Trees.{bundle_view, node_view};
ghost use Rattle.cap_goal.specs.Views.{unit_view};
ghost use Rattle.cap_goal_roots.specs.Views.{root_view, roots_view};
ghost use Rattle.cap_kernel_nodes.specs.Views.{trees_lent};
ghost use Rattle.cap_rules.specs.Valid.{Valid};
ghost use Rattle.cap_owners_spec.specs.Steps.{root_at};
ghost use Rattle.cap_owners_places.specs.Places.{all_roots_placed, root_placed, unit_number};
ghost use Rattle.cap_owners_places.specs.Proven.{RootIsProven, RootsAreProven};
ghost use Rattle.cap_owners_places.specs.Views.{place_view, placed_view, proved_of};
ghost use Rattle.cap_owners_places.specs.Views.{AreRoots, IsPlaced};

use crate::placed::Placed;
use crate::tree::place_tree;
use crate::units::unit_roots;
use cap_goal::{Bundle, Goal, Node, Unit};
use cap_kernel_nodes::program_nodes_are_proven;
use cap_prog::{Program, well_formed};
use std::alloc::{AllocError, Global};

/// The trees of all roots of a program's units, in their order, with the goals of their nodes.
#[derive(Drop)]
pub struct Roots<'a> {
    pub(crate) trees: Vec<Option<Placed<'a>>>,
    // Where the roots of each region type begin, and then those of each function.
    pub(crate) begins: Vec<usize>,
    // How many region types there are.
    pub(crate) regions: usize,
}

// The tree of a root at its goal, unless it has no goal or no tree.
fn place_root<'a>(
    alloc: Global,
    program: &'a Program,
    root: Option<Goal<'a>>,
    tree: &'a Option<Node>,
) -> Result<Option<Placed<'a>>, AllocError>
    requires { RootIsProven (program_view program.now) (option_map node_view tree.now)
        (root_view root) }
    ensures { IfOk result (λ o. option_map placed_view o ≡ root_placed (program_view program.now)
        (root_view root.entry) (option_map node_view tree.now)) }
{
    if let (Some(goal), Some(node)) = (root, tree) {
        return Ok(Some(place_tree(alloc, program, goal, node)?));
    }
    Ok(None)
}

// The trees of roots at their goals.
fn place_roots<'a>(
    alloc: Global,
    program: &'a Program,
    roots: Vec<Option<Goal<'a>>>,
    trees: &'a [Option<Node>],
) -> Result<Vec<Option<Placed<'a>>>, AllocError>
    requires { RootsAreProven (program_view program.now) (trees_lent trees.now)
        (roots_view roots.items) }
    ensures { IfOk result (λ v. map (option_map placed_view) v.items
        ≡ all_roots_placed (program_view program.now) (roots_view roots.entry.items)
        (trees_lent trees.now)) }
{
    let mut places = Vec::with_capacity(alloc, trees.len())?;
    for (root, tree) in roots.into_iter().zip(trees) {
        places.push(place_root(alloc, program, root, tree)?)?;
    }
    Ok(places)
}

/// The trees of a valid derivation with the goals of their nodes. The only error is want of memory.
pub fn place_trees<'a>(
    alloc: Global,
    program: &'a Program,
    bundle: &'a Bundle,
) -> Result<Roots<'a>, AllocError>
    requires { Valid (program_view program.now) (bundle_view bundle.now) }
    ensures { IfOk result
        (λ r. AreRoots (program_view program.now) (bundle_view bundle.now) r) }
{
    well_formed(program);
    program_nodes_are_proven();
    let roots = unit_roots(alloc, program)?;
    Ok(Roots {
        trees: place_roots(alloc, program, roots.goals, &bundle.trees)?,
        begins: roots.begins,
        regions: program.regions().len(),
    })
}

impl<'a> Roots<'a> {
    // The number of the first root of a unit among all roots.
    fn first_root(&self, unit: Unit) -> Option<usize>
        ensures { result ≡ slice_get self.now.begins.items
            (unit_number self.now.regions (unit_view unit)) }
    {
        let number = match unit {
            Unit::Region(number) => number as usize,
            Unit::Function(number) => self.regions.checked_add(number as usize)?,
        };
        self.begins.get(number).copied()
    }

    // The tree of a root, so many behind the first of its unit.
    fn tree_at(&self, first: usize, root: usize) -> Option<&Placed<'a>>
        ensures { option_copied result
            ≡ unwrap_or (slice_get self.now.trees.items (first + root)) None }
    {
        self.trees.get(first.checked_add(root)?)?.as_ref()
    }

    /// The tree of a root of a unit, by the root's number from 0, and `None` where there is no such
    /// root, or it has no tasks. It takes no memory.
    pub fn at(&self, unit: Unit, root: usize) -> Option<&Placed<'a>>
        ensures { (p : PlainProgram) (ts : List (Option PlainTree)) → AreRoots p ts self.now →
            MatchOption result
            (root_at (proved_of p ts) (unit_view unit) root ≡ None)
            (λ q. (root_at (proved_of p ts) (unit_view unit) root ≡ Some (place_view q.now))
            × IsPlaced p q.now) }
    {
        let first = self.first_root(unit)?;
        self.tree_at(first, root)
    }
}
