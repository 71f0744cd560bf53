//! What a symbolic state says of values: of its names and variables, of its rows, cells, pieces of
//! guards and facts, and what adding a piece, a fact or a row and cutting a guard make of it. Lemmas
//! alone.
#![tactic(auto)]
