//! The 26 rules of derivations, said by definitions: what a choice makes of a goal, where it fails
//! first, and which trees are valid; and laws of them, each the contract of a function that does
//! nothing.
#![tactic(auto)]

ghost use Rattle.cap_rules.specs.Laws.{AnswersAreOne, SubgoalsSucceed, SuccessesAreSubgoals};
ghost use Rattle.cap_rules.specs.Expected.{ValidExamples, BrokenExamples};

/// One choice has one answer at a goal.
pub fn answers_are_one()
    ensures { AnswersAreOne }
{}

/// Subgoals are what the rule makes of the goal, and then nothing fails: each result on the way is
/// within 128 bits, and there is one certificate for each list of rows, which refutes it.
pub fn subgoals_succeed()
    ensures { SubgoalsSucceed }
{}

/// Where nothing fails, what the rule makes of the goal are its subgoals.
pub fn successes_are_subgoals()
    ensures { SuccessesAreSubgoals }
{}

/// The derivations of an empty program, of one that asserts `0 <= 1`, of one that adds to a cell
/// and disposes of it, and of the body of a function that makes a region are valid, and a move
/// applies that takes an index out of a span.
pub fn examples_are_valid()
    ensures { ValidExamples }
{}

/// Derivations are not valid where a tree is missing, a node is left over, another rule is taken, or a
/// certificate is missing or empty; and no move applies where a span is missing, isn't there, or is
/// left over.
pub fn broken_examples_are_not_valid()
    ensures { BrokenExamples }
{}
