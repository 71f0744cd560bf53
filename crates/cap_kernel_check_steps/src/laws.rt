//! Laws of faults, walks and what is owed, each the contract of a function that does nothing.
ghost use Rattle.cap_kernel_check_steps.specs.Laws.{FaultyAreInvalid, JudgedAreValid};
ghost use Rattle.cap_kernel_check_steps.specs.Laws.{JudgementsAreOne, ValidTreesAreOne, WalksTell};

/// Trees at which a node or a shape is told are not valid.
pub fn faulty_are_invalid()
    ensures { FaultyAreInvalid }
{}

/// A walk over the trees that goes on to the end tells that they are valid; otherwise it ends at
/// the first fault.
pub fn walks_tell()
    ensures { WalksTell }
{}

/// Choices in preorder after which nothing is owed are those of valid trees, and those of valid
/// trees are such; where one fails before, or is left over or missing, there are no such trees.
pub fn judged_are_valid()
    ensures { JudgedAreValid }
{}

/// Choices in preorder are judged in one way: with one number where they are those of valid trees,
/// and otherwise by one node, or by the shape at one.
pub fn judgements_are_one()
    ensures { JudgementsAreOne }
{}

/// Valid trees with the same choices in preorder are the same.
pub fn valid_trees_are_one()
    ensures { ValidTreesAreOne }
{}
