//! Derivations are sound: a program of which each unit has valid derivations is safe in every
//! interleaved run. Definitions and laws alone; each law is the contract of a function that does
//! nothing.
#![tactic(auto)]

ghost use Rattle.cap_account.specs.Law.{DerivationsAreNodes, DerivationsAreSound};
ghost use Rattle.cap_account.specs.Expected.{SafeExample, UnsafeExamples};

/// At each node of a valid derivation the choice applies, what its certificates prove is true of
/// all valuations, and the trees below it are valid derivations of its subgoals.
pub fn derivations_are_nodes()
    ensures { DerivationsAreNodes }
{}

/// A program all units of which have valid derivations is safe: no run of its threads, whichever
/// way they interleave, makes a memory fault or fails an assertion; shared regions change only by
/// actions whose guards the stepping thread holds, and contracts are met. This is the soundness of
/// Caper's logic by the views framework, over this machine and these rules.
pub fn derivations_are_sound()
    ensures { DerivationsAreSound }
{}

/// A program that allocates a cell, has a callee write it and asserts what it reads is well-formed,
/// its derivations are valid, and so it is safe.
pub fn safe_example_is_safe()
    ensures { SafeExample }
{}

/// Programs are not safe where an address is read that nobody has, where a cell is added to that
/// was disposed of, where an assertion fails on some schedule, though it holds on another, and where
/// a callee doesn't keep its postcondition.
pub fn unsafe_examples_are_refused()
    ensures { UnsafeExamples }
{}
