//! What a verdict means, said by definitions: parts, assertions, accounts of runs, and safety. It
//! knows no symbolic state, row, solver, choice or tree. It has no code.
#![tactic(auto)]
