//! Laws of the machine's definition, each the contract of a function that does nothing.
ghost use Rattle.cap_machine.specs.Laws.{EnabledEntriesStep, FaultsAreExact, StepsKeepFit, StartsFit};

/// An entry makes a step or a fault exactly where its thread is there and has not ended, and it
/// gives a base exactly to an allocation, which is at least 1 and from which on the addresses are
/// absent.
pub fn enabled_entries_step()
    ensures { EnabledEntriesStep }
{}

/// A step is a fault exactly where its statement accesses an absent address, or asserts what does
/// not hold.
pub fn faults_are_exact()
    ensures { FaultsAreExact }
{}

/// A step of a program leaves a configuration that fits it.
pub fn steps_keep_fit()
    ensures { StepsKeepFit }
{}

/// The configuration in which `main` begins, at as many arguments as it has parameters, fits.
pub fn starts_fit()
    ensures { StartsFit }
{}
