//! Tests of terms, rows, certificates, elimination, cores, sets of indices and guards. It has no other code.
#![tactic(auto)]

#[cfg(test)]
mod cores;
#[cfg(test)]
mod farkas;
#[cfg(test)]
mod fm;
#[cfg(test)]
mod galg;
#[cfg(test)]
mod gsolve;
#[cfg(test)]
mod indices;
#[cfg(test)]
mod lin;
#[cfg(test)]
mod texts;
