//! The whole of a derivation.
ghost use Rattle.std.specs.Prelude.{◌≡◌};
ghost use Rattle.cap_deriv.specs.Told.{told_by_bytes};
ghost use Rattle.cap_deriv.specs.Whole.{ReadsWhole};

use crate::cursor::{Cursor, DerivError};
use cap_goal::Choice;
use std::alloc::Global;

/// The number of trees that the first line says, and the choices in preorder.
#[derive(Drop)]
pub struct Lines {
    pub trees: u32,
    pub choices: Vec<Choice>,
}

/// Reads a derivation.
pub fn read(alloc: Global, bytes: &[u8]) -> Result<Lines, DerivError>
    ensures { ReadsWhole result (told_by_bytes bytes.now) }
{
    let mut cursor = Cursor::start(alloc, bytes)?;
    let mut choices = Vec::new(alloc);
    'choices: loop {
        match cursor.next() {
            Ok(Some(choice)) => choices.push(choice)?,
            Ok(None) => {
                return Ok(Lines {
                    trees: cursor.trees(),
                    choices,
                });
            }
            Err(error) => return Err(error),
        }
    }
}
