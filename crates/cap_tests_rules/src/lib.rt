//! Tests of the rules of derivations: what each choice leaves of a goal, at goals of programs that
//! are read from their texts; of the lines of derivations, and of whole derivations. It has no
//! other code.
#![tactic(auto)]

#[cfg(test)]
mod deriv;
#[cfg(test)]
mod deriv_write;
#[cfg(test)]
mod derivations;
#[cfg(test)]
mod goal;
#[cfg(test)]
mod goal_roots;
#[cfg(test)]
mod goals;
#[cfg(test)]
mod indices;
#[cfg(test)]
mod items;
#[cfg(test)]
mod kernel_check;
#[cfg(test)]
mod regions;
#[cfg(test)]
mod rules_steps;
#[cfg(test)]
mod spelling;
#[cfg(test)]
mod statements;
