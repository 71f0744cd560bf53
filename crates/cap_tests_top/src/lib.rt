//! Tests of the outside, the words of commands, reports, and whole runs. It has no other code.
#![tactic(auto)]

#[cfg(test)]
mod io;
#[cfg(test)]
mod runs;
#[cfg(test)]
mod top_report;
#[cfg(test)]
mod top_words;
