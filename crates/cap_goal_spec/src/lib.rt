//! The logic's plain data, said by definitions: states, goals, choices, environments, the roots of
//! trees and the candidates of a fact. It has no code.
#![tactic(auto)]
