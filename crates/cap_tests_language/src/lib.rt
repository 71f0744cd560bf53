//! Tests of tokens, their classes, what texts are read as, printed trees, programs and made texts.
//! It has no other code.
#![tactic(auto)]

#[cfg(test)]
mod parse;
#[cfg(test)]
mod parse_laws;
#[cfg(test)]
mod parse_print;
#[cfg(test)]
mod prog;
#[cfg(test)]
mod syntax;
#[cfg(test)]
mod trial;
