//! Certificates: multipliers by which rows add up to a contradiction, and their judge.
#![tactic(auto)]

mod cert;
mod leaf;
mod system;

pub use cert::{Cert, Multipliers, refutes};
