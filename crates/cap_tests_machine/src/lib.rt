//! Tests of the machine, of runs along schedules, and of schedules that are drawn, at programs that
//! are read from their texts. It has no other code.
#![tactic(auto)]

#[cfg(test)]
mod drawn;
#[cfg(test)]
mod machine;
#[cfg(test)]
mod programs;
#[cfg(test)]
mod replay;
