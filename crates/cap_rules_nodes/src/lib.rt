//! The nodes of derivations, each with its goal, said by definitions. It has no code.
#![tactic(auto)]
