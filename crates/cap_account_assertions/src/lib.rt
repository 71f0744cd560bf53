//! Assertions over what is held: giving their items to a state, and taking them from it. Lemmas alone.
#![tactic(auto)]
