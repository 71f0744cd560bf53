//! Bytes of a text, as contracts see them.
ghost use Rattle.std.specs.Prelude.{◌≡◌, ◌≤◌, length, slice_range, IfOk};

use std::alloc::{AllocError, Global};
use std::fmt::{self, Debug, Formatter, Write};
use std::marker::Model;
use std::rc::Rc;

/// The bytes of a token: a part of its text, which the tokens share. Contracts see them as their
/// list.
pub struct Text {
    whole: Rc<Vec<u8>>,
    start: u32,
    end: u32,
}

impl Drop for Text {
    fn drop(self) {
        let Text {
            whole: _,
            start: _,
            end: _,
        } = self;
    }
}

impl Model for Text {
    ghost use Rattle.std.specs.Prelude.{List, ℕ, ◌≤◌, length, slice_range};

    ghost Value = { List ℕ };

    ghost view = { λ t. slice_range t.whole.value.items t.start t.end };

    ghost invariant = { λ t. (t.start ≤ t.end) × (t.end ≤ length t.whole.value.items) };
}

impl Text {
    /// The text of these bytes, if there is enough memory and they are less than 2^32.
    pub fn from_slice(alloc: Global, bytes: &[u8]) -> Result<Text, AllocError>
        ensures { IfOk result (λ text. text ≡ bytes.now) }
    {
        let whole = Rc::new(alloc, Vec::from_slice(alloc, bytes)?)?;
        Text::part(&whole, 0, bytes.len())
    }

    // The bytes from one index on and up to another one, which are below 2^32, if they can be
    // shared once more.
    pub(crate) fn part(whole: &Rc<Vec<u8>>, start: usize, end: usize) -> Result<Text, AllocError>
        requires ascend { start ≤ end }
        requires within { end ≤ length whole.now.value.items }
        ensures { IfOk result (λ text. text ≡ slice_range whole.now.value.items start end) }
    {
        match (u32::try_from(start), u32::try_from(end)) {
            (Ok(start), Ok(end)) => Ok(Text {
                whole: whole.clone()?,
                start,
                end,
            }),
            _ => Err(AllocError),
        }
    }

    /// The bytes, to read.
    #[inline]
    pub fn as_bytes(&self) -> &[u8]
        ensures { result.now ≡ self.now }
    {
        &self.whole[self.start as usize..self.end as usize]
    }

    /// The same bytes once more. They take no memory of their own.
    pub fn copy(&self) -> Result<Text, AllocError>
        ensures { IfOk result (λ copy. copy ≡ self.now) }
    {
        Ok(Text {
            whole: self.whole.clone()?,
            start: self.start,
            end: self.end,
        })
    }
}

impl Debug for Text {
    fn fmt<W: Write>(&self, f: &mut Formatter<W>) -> fmt::Result {
        self.as_bytes().fmt(f)
    }
}
