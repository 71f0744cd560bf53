//! What is known of a row that is present, and how it arose.
ghost use Rattle.std.specs.Prelude.{◌≡◌};
ghost use Rattle.cap_fm_spec.specs.Rows.{is_false as is_false_kind};
ghost use Rattle.cap_fm_spec.specs.Elimination.{strictest as strictest_kind};

use bumpalo::Bump;
use cap_lin::Kind;

/// Where a row comes from.
#[derive(Clone, Copy)]
pub enum Origin {
    /// An input row, by its number.
    Given(u32),
    /// A multiple of a row plus a multiple of another, the rows by their places in the history.
    Combined(i128, usize, i128, usize),
}

/// A row that is present in an elimination. The stage has its term, by its number.
#[derive(Clone, Copy)]
pub struct Present {
    /// Never Ne.
    pub kind: Kind,
    /// Its place in the history.
    pub origin: usize,
    /// Its number among the rows that arose, from 0.
    pub number: usize,
}

/// A row without variables that is false.
#[derive(Clone, Copy)]
pub struct FalseRow {
    pub constant: i128,
    pub kind: Kind,
    /// Its place in the history, which is the last.
    pub origin: usize,
}

/// What becomes of a row that arises.
#[derive(Clone, Copy)]
pub enum Arisen {
    /// The row is true, or equal to one that is present.
    LeftOut,
    /// The row is present from now on.
    Kept(Present),
    /// The row has no variables and is false.
    False(FalseRow),
}

/// Where an elimination has come to: the rows that are present, in order, or a false row.
#[derive(Drop)]
pub enum Reached<'a> {
    /// The rows that are present.
    Rows(Vec<Present, &'a Bump>),
    /// A false row, which ends the elimination.
    Contradiction(FalseRow),
}

/// Whether a constant is not as the kind wants it.
pub fn is_false(kind: Kind, constant: i128) -> bool
    ensures { result ≡ is_false_kind kind constant }
{
    match kind {
        Kind::Le => constant > 0,
        Kind::Lt => constant >= 0,
        Kind::Eq => constant != 0,
        Kind::Ne => constant == 0,
    }
}

/// The kind of a sum of two bounds: strict where either is.
pub fn strictest(first: Kind, second: Kind) -> Kind
    ensures { result ≡ strictest_kind first second }
{
    match first {
        Kind::Lt => Kind::Lt,
        _ => match second {
            Kind::Lt => Kind::Lt,
            _ => Kind::Le,
        },
    }
}
