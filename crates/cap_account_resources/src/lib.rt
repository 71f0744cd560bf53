//! What is held: cells by counts, guards as marks of elements, what a table has room for, and what
//! others may do to regions while it is held. Definitions and lemmas alone.
#![tactic(auto)]
