//! Elimination, said by definitions: what it finds of rows, and each event on the way. It has no
//! code.
#![tactic(auto)]
