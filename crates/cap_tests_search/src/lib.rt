//! Tests of the search: certificates that are found, closures of states, choices that are offered,
//! and verdicts. It has no other code.
#![tactic(auto)]

#[cfg(test)]
mod closure;
#[cfg(test)]
mod closure_decide;
#[cfg(test)]
mod offer;
#[cfg(test)]
mod search;
#[cfg(test)]
mod shifting;
