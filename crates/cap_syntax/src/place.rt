//! Places in a text: a line and a column, both from 1.
ghost use Rattle.std.specs.Prelude.{Some};
ghost use Rattle.cap_syntax.specs.Place.{place_text};

use std::fmt;

/// A place in a text: a line and a column, both from 1. A line ends at a line feed, and a column
/// counts bytes.
#[derive(Clone, Copy, Debug, PartialEq, Eq)]
pub struct Place {
    pub line: u32,
    pub column: u32,
}

/// A place is printed as `line:column`.
impl fmt::Display for Place {
    ghost output = { λ p. Some (place_text p) };

    fn fmt<W: fmt::Write>(&self, f: &mut fmt::Formatter<W>) -> fmt::Result {
        let line = self.line;
        let column = self.column;
        write!(f, "{line}:{column}")
    }
}
