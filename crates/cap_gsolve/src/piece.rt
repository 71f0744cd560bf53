//! Pieces of guards whose amounts are terms.
ghost use Rattle.std.specs.Prelude.{◌≡◌, position, IfOk};
ghost use Rattle.std.specs.Prelude.{◌&&◌, ◌+ℤ◌, pos, int_lt};
ghost use Rattle.cap_lin.specs.Linear.{same_number, same_parts};
ghost use Rattle.cap_gsolve.specs.Pieces.{of_guards, of_atom, same_part, is_joined, has_indices};
ghost use Rattle.cap_gsolve.specs.Pieces.{is_single, is_surely_some};
ghost use Rattle.cap_gsolve.specs.declared.piece.Form.TheVariants.{Span};

use cap_lin::Term;
use std::alloc::{AllocError, Global};

/// How much of one guard, by terms: all of a unique one, a fraction of a divisible one; of a
/// counting one, the source with some tokens out, or some tokens; of an indexed one, the indices
/// from a start on that are below an end, or all where there is none.
pub enum Form {
    One,
    Share(Term),
    Src(Term),
    Tok(Term),
    Span(Term, Option<Term>),
}

impl Drop for Form {
    fn drop(self) {
        match self {
            Form::One | Form::Share(_) | Form::Src(_) | Form::Tok(_) | Form::Span(_, _) => {}
        }
    }
}

impl Form {
    /// Whether it is some part of the guard, whatever the values of the variables.
    pub fn is_surely_some(&self) -> bool
        ensures { result ≡ is_surely_some self.now }
    {
        match self {
            Form::One | Form::Share(_) | Form::Src(_) => true,
            Form::Tok(count) => count.parts().is_empty() && count.constant_part() >= 1,
            Form::Span(start, end) => has_some(start, end),
        }
    }

    /// The same form once more.
    pub fn copy(&self, alloc: Global) -> Result<Form, AllocError>
        ensures { IfOk result (λ f. f ≡ self.now) }
    {
        match self {
            Form::One => Ok(Form::One),
            Form::Share(amount) => Ok(Form::Share(amount.copy(alloc)?)),
            Form::Src(out) => Ok(Form::Src(out.copy(alloc)?)),
            Form::Tok(count) => Ok(Form::Tok(count.copy(alloc)?)),
            Form::Span(start, end) => copied_span(alloc, start, end),
        }
    }

    /// Whether a new piece of this form becomes one with a piece of its atom.
    pub fn is_joined(&self) -> bool
        ensures { result ≡ is_joined self.now }
    {
        match self {
            Form::One | Form::Share(_) | Form::Src(_) | Form::Tok(_) => true,
            Form::Span(_, _) => false,
        }
    }
}

// The same span once more.
fn copied_span(alloc: Global, start: &Term, end: &Option<Term>) -> Result<Form, AllocError>
    ensures { IfOk result (λ f. f ≡ Span start.now end.now) }
{
    let start = start.copy(alloc)?;
    match end {
        None => Ok(Form::Span(start, None)),
        Some(end) => Ok(Form::Span(start, Some(end.copy(alloc)?))),
    }
}

/// A part of one guard of a region: the region by its term, the guards by their kind's number, and
/// the atom of their algebra, from 0, left to right.
pub struct Piece {
    pub region: Term,
    pub kind: u32,
    pub atom: u32,
    pub form: Form,
}

impl Drop for Piece {
    fn drop(self) {
        let Piece {
            region: _,
            kind: _,
            atom: _,
            form: _,
        } = self;
    }
}

impl Piece {
    /// Whether the piece is of a region's guards of a kind, the region by the same term.
    pub fn is_of(&self, region: &Term, kind: u32) -> bool
        ensures { result ≡ of_guards region.now kind self.now }
    {
        self.region.same(region) && self.kind == kind
    }

    /// Whether the piece is of one atom of a region's guards of a kind.
    pub fn is_of_atom(&self, region: &Term, kind: u32, atom: u32) -> bool
        ensures { result ≡ of_atom region.now kind atom self.now }
    {
        self.is_of(region, kind) && self.atom == atom
    }

    /// Whether two pieces are of one atom of one region's guards.
    pub fn is_part_of(&self, other: &Piece) -> bool
        ensures { result ≡ same_part self.now other.now }
    {
        self.is_of_atom(&other.region, other.kind, other.atom)
    }

    /// The same piece once more.
    pub fn copy(&self, alloc: Global) -> Result<Piece, AllocError>
        ensures { IfOk result (λ p. p ≡ self.now) }
    {
        let region = self.region.copy(alloc)?;
        let form = self.form.copy(alloc)?;
        Ok(Piece {
            region,
            kind: self.kind,
            atom: self.atom,
            form,
        })
    }
}

/// The place of the first piece of an atom of a region's guards with which a new one becomes one.
pub fn place_of_atom(
    pieces: &[Piece],
    region: &Term,
    kind: u32,
    atom: u32,
    joined: bool,
) -> Option<usize>
    ensures { result ≡ position (λ q. of_atom region.now kind atom q && joined) pieces.now }
{
    pieces
        .iter()
        .position(|there| there.is_of_atom(region, kind, atom) && joined)
}

// Whether two terms differ by a constant alone.
fn same_but_constant(a: &Term, b: &Term) -> bool
    ensures { result ≡ same_parts a.now.parts b.now.parts }
{
    let mut left = a.parts();
    let mut right = b.parts();
    while !left.is_empty() && !right.is_empty() {
        let (x, m) = left[0];
        let (y, n) = right[0];
        if x != y || m != n {
            return false;
        }
        left = &left[1..];
        right = &right[1..];
    }
    left.is_empty() && right.is_empty()
}

/// Whether a span surely has an index.
pub fn has_some(start: &Term, end: &Option<Term>) -> bool
    ensures { result ≡ has_indices start.now end.now }
{
    match end {
        None => true,
        Some(end) => {
            same_but_constant(start, end) && start.constant_part() < end.constant_part()
        }
    }
}

/// Whether a span surely has just one index.
pub fn has_one(start: &Term, end: &Option<Term>) -> bool
    ensures { result ≡ is_single start.now end.now }
{
    match end {
        None => false,
        Some(end) => same_but_constant(start, end)
            && follows(start.constant_part(), end.constant_part()),
    }
}

fn follows(a: i128, b: i128) -> bool
    ensures { result ≡ same_number (a +ℤ pos 1) b }
{
    a < b && b - 1 == a
}
