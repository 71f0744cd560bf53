//! Walks along a derivation: the values of a track, what assertions are met by, the part of a
//! state, where a walk over tasks leads, and regions along it. Lemmas alone.
#![tactic(auto)]
