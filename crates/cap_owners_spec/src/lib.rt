//! Who owns what along a run, said by definitions: a run of the machine beside a track of the
//! derivation, and the text of its accounts. It has no code.
#![tactic(auto)]
