//! Elements of guards, with counts and indices of 128 bits.
ghost use Rattle.std.specs.Prelude.{◌≡◌, true, IfOk};
ghost use Rattle.cap_galg.specs.Elements.{is_unit, is_full, on_left as made_left};
ghost use Rattle.cap_galg.specs.Elements.{on_right as made_right, tok, src};
ghost use Rattle.cap_galg.specs.Elements.{Element as PlainElement, one, indices, share};
ghost use Rattle.cap_galg.specs.Elements.{whole, left, right};
ghost use Rattle.cap_galg.specs.Fractions.{lowest};
ghost use Rattle.cap_owners_spec.specs.Filling.{counts_fit};
ghost use Rattle.cap_owners_spec.specs.Traced.{Traced, over};
ghost use Rattle.cap_owners_values.specs.Views.{Traces};
ghost use Rattle.cap_owners_parts.specs.Composed.{composed_element, paired};
ghost use Rattle.cap_owners_parts.specs.Views.{element_view};

use crate::indices::Indices;
use cap_owners_values::TraceError;
use std::alloc::{AllocError, Global};

/// All shares are over this.
pub(crate) const OVER: u128 = 1 << 63;

/// An element of the guards of a region type: cap_galg's elements have counts and indices of 64
/// bits, and those of a track are values of terms.
pub(crate) enum Element {
    Nothing,
    One,
    /// So much, as a numerator over 2^63.
    Share(u128),
    Tok(u128),
    Src(u128),
    Indices(Indices),
    Both(Box<Element>, Box<Element>),
    Whole,
    Left(Box<Element>),
    Right(Box<Element>),
}

impl Drop for Element {
    #[cycle(dropped_elements)]
    fn drop(self) {
        match self {
            Element::Nothing
            | Element::One
            | Element::Whole
            | Element::Share(_)
            | Element::Tok(_)
            | Element::Src(_)
            | Element::Indices(_)
            | Element::Both(_, _)
            | Element::Left(_)
            | Element::Right(_) => {}
        }
    }
}

impl Element {
    /// The same element once more.
    pub(crate) fn copy(&self, alloc: Global) -> Result<Element, AllocError>
        ensures same { IfOk result (λ x. element_view x ≡ element_view self.now) }
        ensures fits { counts_fit (element_view self.now) ≡ true }
    {
        match self {
            Element::Nothing => Ok(Element::Nothing),
            Element::One => Ok(Element::One),
            Element::Share(amount) => Ok(Element::Share(*amount)),
            Element::Tok(count) => Ok(Element::Tok(*count)),
            Element::Src(out) => Ok(Element::Src(*out)),
            Element::Indices(set) => Ok(Element::Indices(set.copy(alloc)?)),
            Element::Both(x, y) => {
                let first = x.copy(alloc);
                let second = y.copy(alloc);
                Ok(Element::Both(Box::new(alloc, first?)?, Box::new(alloc, second?)?))
            }
            Element::Whole => Ok(Element::Whole),
            Element::Left(x) => Ok(Element::Left(Box::new(alloc, x.copy(alloc)?)?)),
            Element::Right(y) => Ok(Element::Right(Box::new(alloc, y.copy(alloc)?)?)),
        }
    }

    /// Whether it is no part at all.
    pub(crate) fn is_unit(&self) -> bool
        ensures { result ≡ is_unit (element_view self.now) }
    {
        matches!(self, Element::Nothing)
    }

    /// Whether it composes with no part but the unit.
    pub(crate) fn is_full(&self) -> bool
        ensures { result ≡ is_full (element_view self.now) }
    {
        match self {
            Element::Nothing => false,
            Element::One => true,
            Element::Share(amount) => is_all(*amount),
            Element::Tok(_) => false,
            Element::Src(out) => *out == 0,
            Element::Indices(set) => set.is_full(),
            Element::Both(x, y) => x.is_full() && y.is_full(),
            Element::Whole => true,
            Element::Left(_) | Element::Right(_) => false,
        }
    }

    /// What two elements compose to. `Untold` comes where they don't compose, and `PastWidth` where
    /// they do and a count leaves 128 bits.
    pub(crate) fn compose(&self, alloc: Global, other: &Element) -> Result<Element, TraceError>
        ensures { Traces result element_view
            (composed_element (element_view self.now) (element_view other.now)) }
    {
        match self {
            Element::Nothing => Ok(other.copy(alloc)?),
            Element::One => beside_one(other),
            Element::Share(amount) => beside_share(*amount, other),
            Element::Tok(count) => beside_tokens(*count, other),
            Element::Src(out) => beside_source(*out, other),
            Element::Indices(set) => beside_indices(alloc, set, other),
            Element::Both(a, b) => match other {
                Element::Both(c, d) => {
                    let first = a.compose(alloc, c);
                    let second = b.compose(alloc, d);
                    pair_of(alloc, first, second)
                }
                Element::Nothing => Ok(self.copy(alloc)?),
                Element::One
                | Element::Share(_)
                | Element::Tok(_)
                | Element::Src(_)
                | Element::Indices(_)
                | Element::Whole
                | Element::Left(_)
                | Element::Right(_) => Err(TraceError::Untold),
            },
            Element::Whole => beside_whole(other),
            Element::Left(x) => match other {
                Element::Left(y) => left_of(alloc, x.compose(alloc, y)),
                Element::Nothing => Ok(self.copy(alloc)?),
                Element::One
                | Element::Share(_)
                | Element::Tok(_)
                | Element::Src(_)
                | Element::Indices(_)
                | Element::Both(_, _)
                | Element::Whole
                | Element::Right(_) => Err(TraceError::Untold),
            },
            Element::Right(x) => match other {
                Element::Right(y) => right_of(alloc, x.compose(alloc, y)),
                Element::Nothing => Ok(self.copy(alloc)?),
                Element::One
                | Element::Share(_)
                | Element::Tok(_)
                | Element::Src(_)
                | Element::Indices(_)
                | Element::Both(_, _)
                | Element::Whole
                | Element::Left(_) => Err(TraceError::Untold),
            },
        }
    }
}

// What all of a unique guard and an element compose to.
fn beside_one(other: &Element) -> Result<Element, TraceError>
    ensures { Traces result element_view (composed_element one (element_view other.now)) }
{
    match other {
        Element::Nothing => Ok(Element::One),
        Element::One
        | Element::Share(_)
        | Element::Tok(_)
        | Element::Src(_)
        | Element::Indices(_)
        | Element::Both(_, _)
        | Element::Whole
        | Element::Left(_)
        | Element::Right(_) => Err(TraceError::Untold),
    }
}

// What the full element of a sum and an element compose to.
fn beside_whole(other: &Element) -> Result<Element, TraceError>
    ensures { Traces result element_view (composed_element whole (element_view other.now)) }
{
    match other {
        Element::Nothing => Ok(Element::Whole),
        Element::One
        | Element::Share(_)
        | Element::Tok(_)
        | Element::Src(_)
        | Element::Indices(_)
        | Element::Both(_, _)
        | Element::Whole
        | Element::Left(_)
        | Element::Right(_) => Err(TraceError::Untold),
    }
}

// What a share and an element compose to.
fn beside_share(amount: u128, other: &Element) -> Result<Element, TraceError>
    ensures { Traces result element_view
        (composed_element (share (lowest amount over)) (element_view other.now)) }
{
    match other {
        Element::Share(more) => shares(amount, *more),
        Element::Nothing => Ok(Element::Share(amount)),
        Element::One
        | Element::Tok(_)
        | Element::Src(_)
        | Element::Indices(_)
        | Element::Both(_, _)
        | Element::Whole
        | Element::Left(_)
        | Element::Right(_) => Err(TraceError::Untold),
    }
}

// What some tokens and an element compose to.
fn beside_tokens(count: u128, other: &Element) -> Result<Element, TraceError>
    ensures { Traces result element_view
        (composed_element (tok count) (element_view other.now)) }
{
    match other {
        Element::Tok(more) => tokens(count, *more),
        Element::Src(out) => given_back(*out, count),
        Element::Nothing => Ok(Element::Tok(count)),
        Element::One
        | Element::Share(_)
        | Element::Indices(_)
        | Element::Both(_, _)
        | Element::Whole
        | Element::Left(_)
        | Element::Right(_) => Err(TraceError::Untold),
    }
}

// What a source and an element compose to.
fn beside_source(out: u128, other: &Element) -> Result<Element, TraceError>
    ensures { Traces result element_view
        (composed_element (src out) (element_view other.now)) }
{
    match other {
        Element::Tok(count) => given_back(out, *count),
        Element::Nothing => Ok(Element::Src(out)),
        Element::One
        | Element::Share(_)
        | Element::Src(_)
        | Element::Indices(_)
        | Element::Both(_, _)
        | Element::Whole
        | Element::Left(_)
        | Element::Right(_) => Err(TraceError::Untold),
    }
}

// What a set of indices and an element compose to.
fn beside_indices(alloc: Global, set: &Indices, other: &Element) -> Result<Element, TraceError>
    ensures { Traces result element_view
        (composed_element (indices set.now) (element_view other.now)) }
{
    match other {
        Element::Indices(more) => sets(alloc, set, more),
        Element::Nothing => Ok(Element::Indices(set.copy(alloc)?)),
        Element::One
        | Element::Share(_)
        | Element::Tok(_)
        | Element::Src(_)
        | Element::Both(_, _)
        | Element::Whole
        | Element::Left(_)
        | Element::Right(_) => Err(TraceError::Untold),
    }
}

// The element of a sum that its left side has, of what two parts of that side compose to.
fn left_of(alloc: Global, side: Result<Element, TraceError>) -> Result<Element, TraceError>
    ensures { (x y : PlainElement) → Traces side element_view (composed_element x y) →
        Traces result element_view (composed_element (left x) (left y)) }
{
    Ok(on_left(alloc, side?)?)
}

// The element of a sum that its right side has, of what two parts of that side compose to.
fn right_of(alloc: Global, side: Result<Element, TraceError>) -> Result<Element, TraceError>
    ensures { (x y : PlainElement) → Traces side element_view (composed_element x y) →
        Traces result element_view (composed_element (right x) (right y)) }
{
    Ok(on_right(alloc, side?)?)
}

// The pair of what two parts compose to. Where one part is not told of, the pair is not, even if
// the other one is past 128 bits.
fn pair_of(
    alloc: Global,
    first: Result<Element, TraceError>,
    second: Result<Element, TraceError>,
) -> Result<Element, TraceError>
    ensures { (t u : Traced PlainElement) → Traces first element_view t →
        Traces second element_view u → Traces result element_view (paired t u) }
{
    match first {
        Ok(x) => {
            let x = Box::new(alloc, x)?;
            Ok(Element::Both(x, Box::new(alloc, second?)?))
        }
        Err(TraceError::Untold) => Err(TraceError::Untold),
        Err(TraceError::OutOfMemory) => Err(TraceError::OutOfMemory),
        Err(TraceError::PastWidth) => match second {
            Err(TraceError::Untold) => Err(TraceError::Untold),
            Err(TraceError::OutOfMemory) => Err(TraceError::OutOfMemory),
            Ok(_) | Err(TraceError::PastWidth) => Err(TraceError::PastWidth),
        },
    }
}

// Whether a share is all of its guard.
fn is_all(amount: u128) -> bool
    ensures { result ≡ is_full (share (lowest amount over)) }
{
    amount == OVER
}

fn shares(amount: u128, more: u128) -> Result<Element, TraceError>
    ensures { Traces result element_view
        (composed_element (share (lowest amount over)) (share (lowest more over))) }
{
    match amount.checked_add(more) {
        Some(sum) => {
            if sum > OVER {
                return Err(TraceError::Untold);
            }
            Ok(Element::Share(sum))
        }
        None => Err(TraceError::Untold),
    }
}

fn tokens(count: u128, more: u128) -> Result<Element, TraceError>
    ensures { Traces result element_view (composed_element (tok count) (tok more)) }
{
    match count.checked_add(more) {
        Some(sum) => Ok(Element::Tok(sum)),
        None => Err(TraceError::PastWidth),
    }
}

// The source with fewer tokens out, unless more come back than are out.
fn given_back(out: u128, count: u128) -> Result<Element, TraceError>
    ensures from_source { Traces result element_view (composed_element (src out) (tok count)) }
    ensures from_tokens { Traces result element_view (composed_element (tok count) (src out)) }
{
    if count <= out {
        Ok(Element::Src(out - count))
    } else {
        Err(TraceError::Untold)
    }
}

fn sets(alloc: Global, a: &Indices, b: &Indices) -> Result<Element, TraceError>
    ensures { Traces result element_view (composed_element (indices a.now) (indices b.now)) }
{
    match a.compose(alloc, b)? {
        Some(set) => Ok(Element::Indices(set)),
        None => Err(TraceError::Untold),
    }
}

/// An element of a sum that its left side has, where it isn't the unit.
pub(crate) fn on_left(alloc: Global, side: Element) -> Result<Element, AllocError>
    ensures { IfOk result (λ x. element_view x ≡ made_left (element_view side)) }
{
    if side.is_full() {
        return Ok(Element::Whole);
    }
    Ok(Element::Left(Box::new(alloc, side)?))
}

/// An element of a sum that its right side has, where it isn't the unit.
pub(crate) fn on_right(alloc: Global, side: Element) -> Result<Element, AllocError>
    ensures { IfOk result (λ x. element_view x ≡ made_right (element_view side)) }
{
    if side.is_full() {
        return Ok(Element::Whole);
    }
    Ok(Element::Right(Box::new(alloc, side)?))
}
