//! What is known once the second of three files was read, which is a derivation's.
ghost use Rattle.std.specs.Prelude.{IfOk};
ghost use Rattle.cap_top_accounts.specs.Listing.{Lists};

use cap_deriv::{Lines, read};
use cap_top_commands::{Output, bad_lines};
use std::alloc::{AllocError, Global};

/// What is known once a derivation's file was read: its lines, whose schedule is read next, or what
/// is said without one.
#[derive(Drop)]
pub enum Listed<'a> {
    Lines(Lines),
    Without(Output<'a>),
}

/// Reads the derivation by which a run has its accounts. The only error is want of memory.
pub fn list<'a>(alloc: Global, bytes: &[u8]) -> Result<Listed<'a>, AllocError>
    ensures { IfOk result (Lists bytes.now) }
{
    match read(alloc, bytes) {
        Ok(lines) => Ok(Listed::Lines(lines)),
        Err(error) => Ok(Listed::Without(bad_lines(error)?)),
    }
}
