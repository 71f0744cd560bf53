//! Lemmas on whole numbers: their ring, and the order of their products.
#![tactic(auto)]
