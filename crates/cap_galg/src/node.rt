//! Elements of all algebras, and their composition and order.
ghost use Rattle.std.specs.Prelude.{◌≡◌, IfOk, Ok};
ghost use Rattle.cap_galg_spec.specs.Fractions.{IsShare};
ghost use Rattle.cap_galg.specs.Views.{node_view, HasShares};
ghost use Rattle.cap_galg_spec.specs.Elements.{Element, is_unit, is_full, at_most, nothing, one};
ghost use Rattle.cap_galg_spec.specs.Elements.{share};
ghost use Rattle.cap_galg_spec.specs.Elements.{tok, src, indices, both, whole, left, right};
ghost use Rattle.cap_galg_spec.specs.Elements.{on_left as made_left, on_right as made_right};
ghost use Rattle.cap_galg_spec.specs.Answers.{IsComposition};

use crate::answer::paired_answer;
use cap_galg_atoms::{is_at_most, sum};
use cap_galg_indices::Indices;
use cap_galg_spec::{Fraction, GuardError};
use std::alloc::{AllocError, Global};

/// An element of some algebra. A pair isn't two units, and what stands on a side of a sum is
/// neither unit nor full there.
pub enum Node {
    Nothing,
    One,
    Share(Fraction),
    Tok(u64),
    Src(u64),
    Indices(Indices),
    Both(Box<Node>, Box<Node>),
    Whole,
    Left(Box<Node>),
    Right(Box<Node>),
}

impl Drop for Node {
    #[cycle(dropped_nodes)]
    fn drop(self) {
        match self {
            Node::Nothing
            | Node::One
            | Node::Whole
            | Node::Share(_)
            | Node::Tok(_)
            | Node::Src(_)
            | Node::Indices(_)
            | Node::Both(_, _)
            | Node::Left(_)
            | Node::Right(_) => {}
        }
    }
}

impl Node {
    /// The same element once more.
    pub fn copy(&self, alloc: Global) -> Result<Node, AllocError>
        ensures { IfOk result (λ n. node_view n ≡ node_view self.now) }
    {
        match self {
            Node::Nothing => Ok(Node::Nothing),
            Node::One => Ok(Node::One),
            Node::Share(amount) => Ok(Node::Share(*amount)),
            Node::Tok(count) => Ok(Node::Tok(*count)),
            Node::Src(count) => Ok(Node::Src(*count)),
            Node::Indices(set) => Ok(Node::Indices(set.copy(alloc)?)),
            Node::Both(x, y) => pair_node(alloc, x.copy(alloc)?, y.copy(alloc)?),
            Node::Whole => Ok(Node::Whole),
            Node::Left(x) => left_node(alloc, x.copy(alloc)?),
            Node::Right(y) => right_node(alloc, y.copy(alloc)?),
        }
    }

    /// Whether it is no part at all.
    pub fn is_unit(&self) -> bool
        ensures { result ≡ is_unit (node_view self.now) }
    {
        matches!(self, Node::Nothing)
    }

    /// Whether it composes with no part but the unit.
    pub fn is_full(&self) -> bool
        ensures { result ≡ is_full (node_view self.now) }
    {
        match self {
            Node::Nothing => false,
            Node::One => true,
            Node::Share(amount) => amount.num == amount.den,
            Node::Tok(_) => false,
            Node::Src(out) => *out == 0,
            Node::Indices(set) => set.is_full(),
            Node::Both(x, y) => x.is_full() && y.is_full(),
            Node::Whole => true,
            Node::Left(_) | Node::Right(_) => false,
        }
    }

    /// Whether some element completes this one to the other.
    pub fn le(&self, other: &Node) -> bool
        ensures { result ≡ at_most (node_view self.now) (node_view other.now) }
    {
        match self {
            Node::Nothing => true,
            Node::One => matches!(other, Node::One),
            Node::Share(a) => is_share_within(*a, other),
            Node::Tok(j) => are_tokens_within(*j, other),
            Node::Src(out) => is_source_within(*out, other),
            Node::Indices(set) => are_indices_within(set, other),
            Node::Both(a, b) => match other {
                Node::Both(c, d) => a.le(c) && b.le(d),
                Node::Nothing
                | Node::One
                | Node::Share(_)
                | Node::Tok(_)
                | Node::Src(_)
                | Node::Indices(_)
                | Node::Whole
                | Node::Left(_)
                | Node::Right(_) => false,
            },
            Node::Whole => matches!(other, Node::Whole),
            Node::Left(x) => match other {
                Node::Whole => true,
                Node::Left(y) => x.le(y),
                Node::Nothing
                | Node::One
                | Node::Share(_)
                | Node::Tok(_)
                | Node::Src(_)
                | Node::Indices(_)
                | Node::Both(_, _)
                | Node::Right(_) => false,
            },
            Node::Right(x) => match other {
                Node::Whole => true,
                Node::Right(y) => x.le(y),
                Node::Nothing
                | Node::One
                | Node::Share(_)
                | Node::Tok(_)
                | Node::Src(_)
                | Node::Indices(_)
                | Node::Both(_, _)
                | Node::Left(_) => false,
            },
        }
    }

    /// What two elements compose to, and nothing where they don't compose. Wide comes where they
    /// do, and a denominator in lowest terms, or a count, passes 64 bits.
    pub fn compose(&self, alloc: Global, other: &Node) -> Result<Option<Node>, GuardError>
        requires shares { HasShares (node_view self.now) }
        requires other_shares { HasShares (node_view other.now) }
        ensures { IsComposition node_view (node_view self.now) (node_view other.now) result }
    {
        match self {
            Node::Nothing => beside_nothing(alloc, other),
            Node::One => Ok(beside_one(other)),
            Node::Share(a) => beside_share(*a, other),
            Node::Tok(j) => beside_tokens(*j, other),
            Node::Src(out) => Ok(beside_source(*out, other)),
            Node::Indices(set) => beside_indices(alloc, set, other),
            Node::Both(a, b) => match other {
                Node::Both(c, d) => pairs(alloc, a.compose(alloc, c), b.compose(alloc, d)),
                Node::Nothing => beside_nothing(alloc, self),
                Node::One
                | Node::Share(_)
                | Node::Tok(_)
                | Node::Src(_)
                | Node::Indices(_)
                | Node::Whole
                | Node::Left(_)
                | Node::Right(_) => Ok(None),
            },
            Node::Whole => Ok(beside_whole(other)),
            Node::Left(x) => match other {
                Node::Left(y) => lefts(alloc, x.compose(alloc, y)),
                Node::Nothing => beside_nothing(alloc, self),
                Node::One
                | Node::Share(_)
                | Node::Tok(_)
                | Node::Src(_)
                | Node::Indices(_)
                | Node::Both(_, _)
                | Node::Whole
                | Node::Right(_) => Ok(None),
            },
            Node::Right(x) => match other {
                Node::Right(y) => rights(alloc, x.compose(alloc, y)),
                Node::Nothing => beside_nothing(alloc, self),
                Node::One
                | Node::Share(_)
                | Node::Tok(_)
                | Node::Src(_)
                | Node::Indices(_)
                | Node::Both(_, _)
                | Node::Whole
                | Node::Left(_) => Ok(None),
            },
        }
    }
}

/// The element of a pair with two parts that aren't both the unit.
pub fn pair_node(alloc: Global, x: Node, y: Node) -> Result<Node, AllocError>
    ensures { IfOk result (λ n. node_view n ≡ both (node_view x) (node_view y)) }
{
    Ok(Node::Both(Box::new(alloc, x)?, Box::new(alloc, y)?))
}

// The element of a sum whose left side is neither unit nor full.
fn left_node(alloc: Global, x: Node) -> Result<Node, AllocError>
    ensures { IfOk result (λ n. node_view n ≡ left (node_view x)) }
{
    Ok(Node::Left(Box::new(alloc, x)?))
}

// The element of a sum whose right side is neither unit nor full.
fn right_node(alloc: Global, y: Node) -> Result<Node, AllocError>
    ensures { IfOk result (λ n. node_view n ≡ right (node_view y)) }
{
    Ok(Node::Right(Box::new(alloc, y)?))
}

// Whether some element completes a share to an element.
fn is_share_within(a: Fraction, other: &Node) -> bool
    ensures { result ≡ at_most (share a) (node_view other.now) }
{
    match other {
        Node::Share(b) => is_at_most(a, *b),
        Node::Nothing
        | Node::One
        | Node::Tok(_)
        | Node::Src(_)
        | Node::Indices(_)
        | Node::Both(_, _)
        | Node::Whole
        | Node::Left(_)
        | Node::Right(_) => false,
    }
}

// Whether some element completes some tokens to an element.
fn are_tokens_within(j: u64, other: &Node) -> bool
    ensures { result ≡ at_most (tok j) (node_view other.now) }
{
    match other {
        Node::Tok(k) => j <= *k,
        Node::Src(_) => true,
        Node::Nothing
        | Node::One
        | Node::Share(_)
        | Node::Indices(_)
        | Node::Both(_, _)
        | Node::Whole
        | Node::Left(_)
        | Node::Right(_) => false,
    }
}

// Whether some element completes a source to an element.
fn is_source_within(out: u64, other: &Node) -> bool
    ensures { result ≡ at_most (src out) (node_view other.now) }
{
    match other {
        Node::Src(less) => *less <= out,
        Node::Nothing
        | Node::One
        | Node::Share(_)
        | Node::Tok(_)
        | Node::Indices(_)
        | Node::Both(_, _)
        | Node::Whole
        | Node::Left(_)
        | Node::Right(_) => false,
    }
}

// Whether some element completes a set of indices to an element.
fn are_indices_within(set: &Indices, other: &Node) -> bool
    ensures { result ≡ at_most (indices set.now) (node_view other.now) }
{
    match other {
        Node::Indices(more) => set.le(more),
        Node::Nothing
        | Node::One
        | Node::Share(_)
        | Node::Tok(_)
        | Node::Src(_)
        | Node::Both(_, _)
        | Node::Whole
        | Node::Left(_)
        | Node::Right(_) => false,
    }
}

// What the unit and an element compose to, in either order.
fn beside_nothing(alloc: Global, node: &Node) -> Result<Option<Node>, GuardError>
    ensures of_unit { IsComposition node_view nothing (node_view node.now) result }
    ensures with_unit { IsComposition node_view (node_view node.now) nothing result }
{
    Ok(Some(node.copy(alloc)?))
}

// What all of a unique guard and an element compose to.
fn beside_one(other: &Node) -> Option<Node>
    ensures { IsComposition node_view one (node_view other.now) (Ok result) }
{
    match other {
        Node::Nothing => Some(Node::One),
        Node::One
        | Node::Share(_)
        | Node::Tok(_)
        | Node::Src(_)
        | Node::Indices(_)
        | Node::Both(_, _)
        | Node::Whole
        | Node::Left(_)
        | Node::Right(_) => None,
    }
}

// What the full element of a sum and an element compose to.
fn beside_whole(other: &Node) -> Option<Node>
    ensures { IsComposition node_view whole (node_view other.now) (Ok result) }
{
    match other {
        Node::Nothing => Some(Node::Whole),
        Node::One
        | Node::Share(_)
        | Node::Tok(_)
        | Node::Src(_)
        | Node::Indices(_)
        | Node::Both(_, _)
        | Node::Whole
        | Node::Left(_)
        | Node::Right(_) => None,
    }
}

// What a share and an element compose to.
fn beside_share(a: Fraction, other: &Node) -> Result<Option<Node>, GuardError>
    requires share { IsShare a }
    requires other_shares { HasShares (node_view other.now) }
    ensures { IsComposition node_view (share a) (node_view other.now) result }
{
    match other {
        Node::Share(b) => shares(a, *b),
        Node::Nothing => Ok(Some(Node::Share(a))),
        Node::One
        | Node::Tok(_)
        | Node::Src(_)
        | Node::Indices(_)
        | Node::Both(_, _)
        | Node::Whole
        | Node::Left(_)
        | Node::Right(_) => Ok(None),
    }
}

fn shares(a: Fraction, b: Fraction) -> Result<Option<Node>, GuardError>
    requires a { IsShare a }
    requires b { IsShare b }
    ensures { IsComposition node_view (share a) (share b) result }
{
    match sum(a, b)? {
        Some(amount) => Ok(Some(Node::Share(amount))),
        None => Ok(None),
    }
}

// What some tokens and an element compose to.
fn beside_tokens(j: u64, other: &Node) -> Result<Option<Node>, GuardError>
    ensures { IsComposition node_view (tok j) (node_view other.now) result }
{
    match other {
        Node::Tok(k) => tokens(j, *k),
        Node::Src(out) => Ok(given_back(*out, j)),
        Node::Nothing => Ok(Some(Node::Tok(j))),
        Node::One
        | Node::Share(_)
        | Node::Indices(_)
        | Node::Both(_, _)
        | Node::Whole
        | Node::Left(_)
        | Node::Right(_) => Ok(None),
    }
}

fn tokens(j: u64, k: u64) -> Result<Option<Node>, GuardError>
    ensures { IsComposition node_view (tok j) (tok k) result }
{
    match j.checked_add(k) {
        Some(count) => Ok(Some(Node::Tok(count))),
        None => Err(GuardError::Wide),
    }
}

// What a source and an element compose to.
fn beside_source(out: u64, other: &Node) -> Option<Node>
    ensures { IsComposition node_view (src out) (node_view other.now) (Ok result) }
{
    match other {
        Node::Tok(k) => given_back(out, *k),
        Node::Nothing => Some(Node::Src(out)),
        Node::One
        | Node::Share(_)
        | Node::Src(_)
        | Node::Indices(_)
        | Node::Both(_, _)
        | Node::Whole
        | Node::Left(_)
        | Node::Right(_) => None,
    }
}

// The source with fewer tokens out, unless more come back than are out.
fn given_back(out: u64, count: u64) -> Option<Node>
    ensures from_source { IsComposition node_view (src out) (tok count) (Ok result) }
    ensures from_tokens { IsComposition node_view (tok count) (src out) (Ok result) }
{
    if count <= out {
        Some(Node::Src(out - count))
    } else {
        None
    }
}

// What a set of indices and an element compose to.
fn beside_indices(alloc: Global, set: &Indices, other: &Node) -> Result<Option<Node>, GuardError>
    ensures { IsComposition node_view (indices set.now) (node_view other.now) result }
{
    match other {
        Node::Indices(more) => sets(alloc, set, more),
        Node::Nothing => Ok(Some(Node::Indices(set.copy(alloc)?))),
        Node::One
        | Node::Share(_)
        | Node::Tok(_)
        | Node::Src(_)
        | Node::Both(_, _)
        | Node::Whole
        | Node::Left(_)
        | Node::Right(_) => Ok(None),
    }
}

fn sets(alloc: Global, a: &Indices, b: &Indices) -> Result<Option<Node>, GuardError>
    ensures { IsComposition node_view (indices a.now) (indices b.now) result }
{
    match a.compose(alloc, b)? {
        Some(set) => Ok(Some(Node::Indices(set))),
        None => Ok(None),
    }
}

// What two pairs compose to, by the answers for their parts.
fn pairs(
    alloc: Global,
    first: Result<Option<Node>, GuardError>,
    second: Result<Option<Node>, GuardError>,
) -> Result<Option<Node>, GuardError>
    ensures { (a b c d : Element) →
        IsComposition node_view a c first → IsComposition node_view b d second →
        IsComposition node_view (both a b) (both c d) result }
{
    match paired_answer(first, second)? {
        Some((x, y)) => Ok(Some(pair_node(alloc, x, y)?)),
        None => Ok(None),
    }
}

// What two left elements of a sum compose to, by the answer for their sides.
fn lefts(
    alloc: Global,
    answer: Result<Option<Node>, GuardError>,
) -> Result<Option<Node>, GuardError>
    ensures { (x y : Element) → IsComposition node_view x y answer →
        IsComposition node_view (left x) (left y) result }
{
    match answer? {
        Some(z) => Ok(Some(on_left(alloc, z)?)),
        None => Ok(None),
    }
}

// What two right elements of a sum compose to, by the answer for their sides.
fn rights(
    alloc: Global,
    answer: Result<Option<Node>, GuardError>,
) -> Result<Option<Node>, GuardError>
    ensures { (x y : Element) → IsComposition node_view x y answer →
        IsComposition node_view (right x) (right y) result }
{
    match answer? {
        Some(z) => Ok(Some(on_right(alloc, z)?)),
        None => Ok(None),
    }
}

/// An element of a sum that its left side has, where it isn't the unit.
pub fn on_left(alloc: Global, side: Node) -> Result<Node, AllocError>
    ensures { IfOk result (λ n. node_view n ≡ made_left (node_view side)) }
{
    if side.is_full() {
        return Ok(Node::Whole);
    }
    left_node(alloc, side)
}

/// An element of a sum that its right side has, where it isn't the unit.
pub fn on_right(alloc: Global, side: Node) -> Result<Node, AllocError>
    ensures { IfOk result (λ n. node_view n ≡ made_right (node_view side)) }
{
    if side.is_full() {
        return Ok(Node::Whole);
    }
    right_node(alloc, side)
}
