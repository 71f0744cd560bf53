//! What the definitions of accounts and of safety accept and refuse, by examples: each law is the
//! contract of a function that does nothing.
#![tactic(auto)]

ghost use Rattle.cap_machine_examples.specs.Expected.{AcceptedStep, BrokenAccounts, BrokenSteps};
ghost use Rattle.cap_machine_examples.specs.Expected.{ThirdRegion, NothingHandedOver};
ghost use Rattle.cap_machine_examples.specs.LastReturns.{LastReturnsAreKept};
ghost use Rattle.cap_machine_examples.specs.Validity.{AccountConditions};
ghost use Rattle.cap_machine_examples.specs.Holding.{HoldingConditions};
ghost use Rattle.cap_machine_examples.specs.Promises.{ContractConditions, StartConditions};
ghost use Rattle.cap_machine_examples.specs.Promises.{FrameConditions};
ghost use Rattle.cap_machine_examples.specs.Regions.{InterpretationConditions, ActionConditions};
ghost use Rattle.cap_machine_examples.specs.Regions.{RegionConditions};
ghost use Rattle.cap_machine_examples.specs.Steps.{JoinConditions, ShareConditions};
ghost use Rattle.cap_machine_examples.specs.Steps.{StepConditions, MakingConditions};

/// A valid account, and one that follows it by a step that acts on a region, which writes the cell
/// or adds to it.
pub fn a_step_is_accepted()
    ensures { AcceptedStep }
{}

/// Accounts are refused where a cell is in two parts, a region in a state without a case, or two
/// guards don't compose.
pub fn broken_accounts_are_refused()
    ensures { BrokenAccounts }
{}

/// Accounts don't follow where a state changes by no action, by one whose guard another frame
/// holds, or at a step that is no access; where a cell or a guard comes from nowhere; where a third
/// region is opened. And a part that lacks what a contract promises doesn't meet it.
pub fn broken_steps_are_refused()
    ensures steps { BrokenSteps }
    ensures third_region { ThirdRegion }
    ensures nothing_handed_over { NothingHandedOver }
{}

/// A program is not safe whose last return promises a cell that the heap lacks, or another value of
/// it.
pub fn last_returns_are_kept()
    ensures { LastReturnsAreKept }
{}

/// An account is refused for each condition by itself: where a frame has no part, or a value of no
/// name; where two regions have one number; where a guard is of no region, or of another type or
/// algebra than its region; where a cell is not in the heap, or holds another value; and where a
/// region has not what its state says.
pub fn each_condition_of_accounts_counts()
    ensures { AccountConditions }
{}

/// What an assertion takes is refused for each condition by itself: a cell, a fact and a guard,
/// also one of indices.
pub fn each_condition_of_items_counts()
    ensures { HoldingConditions }
{}

/// Contracts and starts are refused for each condition by itself; and a frame that begins without
/// what its function requires, or returns without what it ensures, at a call, a fork, a return and
/// a last return.
pub fn each_condition_of_contracts_counts()
    ensures contract { ContractConditions }
    ensures start { StartConditions }
    ensures frame { FrameConditions }
{}

/// Regions are refused for each condition by itself: as interpreted; where they act, also where a
/// condition of the action is false, by a share of nothing, by another index than its own or
/// without its guard; and as unchanged by a step that doesn't open them.
pub fn each_condition_of_regions_counts()
    ensures interpretation { InterpretationConditions }
    ensures action { ActionConditions }
    ensures region { RegionConditions }
{}

/// Steps are refused for each condition by itself: where another frame or a waiting caller loses
/// its cell, or a cell of another frame is accessed, also to add to it or to dispose of it; where
/// what is handed over, at a return or at a last return, has another value than the heap, a cell
/// that it lacks or that another frame has, or what a new region has too; where a guard that is
/// joined is lost; and where a new region's guards are more than all of them.
pub fn each_condition_of_steps_counts()
    ensures join { JoinConditions }
    ensures share { ShareConditions }
    ensures step { StepConditions }
    ensures making { MakingConditions }
{}
