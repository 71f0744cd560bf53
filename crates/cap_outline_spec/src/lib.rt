//! Outlines, said by definitions: the states of a derivation at each statement, and their text. It has
//! no code.
#![tactic(auto)]
