//! The value of a variable or of a name.

/// The value of a variable or of a name: a whole number, or a share, as a numerator over 2^63. All
/// shares of a track are over this one denominator.
#[derive(Clone, Copy, Debug, PartialEq, Eq)]
pub enum Value {
    Number(i128),
    Share(i128),
}
