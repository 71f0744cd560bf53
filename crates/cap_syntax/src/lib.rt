//! The tokens of a program text, and their places.
#![tactic(auto)]

mod laws;
mod place;
mod scan;
mod spelling;
mod text;
mod token;

pub use laws::{printed_tokens_read_back, texts_are_read_or_refused};
pub use place::Place;
pub use scan::tokens;
pub use text::Text;
pub use token::{Token, TokenError, TokenKind};
