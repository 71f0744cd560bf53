//! An element together with its algebra, as a guard.
ghost use Rattle.std.specs.Prelude.{◌≡◌, ℕ, ◌<◌, ◌+◌, ◌-◌, ◌==◌, if◌then◌else◌, IfOk, MatchResult};
ghost use Rattle.cap_galg.specs.Views.{algebra_view, node_view, amount_element};
ghost use Rattle.cap_galg.specs.Views.{atom_count, IsAmountOf};
ghost use Rattle.cap_galg.specs.Placed.{IsPlaced};
ghost use Rattle.cap_galg.specs.declared.elem.Placed.TheVariants.{Here, Past};
ghost use Rattle.cap_galg_spec.specs.Elements.{Element, nothing};
ghost use Rattle.cap_galg_spec.specs.Algebras.{PlainAlgebra, product, sum, atoms, IsElement, full};
ghost use Rattle.cap_galg_spec.specs.Algebras.{atom_algebra, atom_element};
ghost use Rattle.cap_galg.specs.Laws.Kin.{element-prop};
ghost use Rattle.cap_galg_spec.specs.declared.error.GuardError.TheVariants.{OutOfMemory};

use crate::algebra::Algebra;
use crate::amount::Amount;
use crate::node::{Node, on_left, on_right, pair_node};
use cap_galg_indices::Indices;
use cap_galg_spec::{Fraction, Guard, GuardError};
use std::alloc::{AllocError, Global};

/// An element of a declared algebra.
#[derive(Drop)]
pub struct Elem {
    algebra: Algebra,
    node: Node,
    ghost proper: { IsElement (algebra_view algebra) (node_view node) } by { element-prop (algebra_view algebra) (node_view node) },
}

// Where the walk for an atom has come to: the element with this atom, or how many atoms come before
// it after those that were passed, and the atom's own element.
#[derive(Drop)]
enum Placed {
    Here(Node),
    Past(u32, Node),
}

fn amount_node(alloc: Global, amount: Amount) -> Result<Node, AllocError>
    ensures { IfOk result (λ n. node_view n ≡ amount_element amount) }
{
    match amount {
        Amount::One => Ok(Node::One),
        Amount::Share(fraction) => {
            if fraction.num == 0 {
                Ok(Node::Nothing)
            } else {
                Ok(Node::Share(fraction))
            }
        }
        Amount::Src(out) => Ok(Node::Src(out)),
        Amount::Tok(count) => {
            if count == 0 {
                Ok(Node::Nothing)
            } else {
                Ok(Node::Tok(count))
            }
        }
        Amount::At(index) => Ok(Node::Indices(Indices::at(alloc, index)?)),
        Amount::From(first) => Ok(Node::Indices(Indices::from(alloc, first)?)),
    }
}

// The element of the algebra in which one atom has an element, and no other has any.
fn at_atom(alloc: Global, algebra: &Algebra, atom: u32, node: Node) -> Result<Placed, AllocError>
    ensures { IfOk result (IsPlaced (algebra_view algebra.now) atom (node_view node)) }
{
    match algebra {
        Algebra::Unique | Algebra::Divisible | Algebra::Counting | Algebra::Indexed => {
            Ok(at_leaf(atom, node))
        }
        Algebra::Pair(a, b) => match at_atom(alloc, a, atom, node)? {
            Placed::Here(x) => in_first(alloc, x),
            Placed::Past(rest, node) => in_second(alloc, at_atom(alloc, b, rest, node)),
        },
        Algebra::Either(a, b) => match at_atom(alloc, a, atom, node)? {
            Placed::Here(x) => in_left(alloc, x),
            Placed::Past(rest, node) => in_right(alloc, at_atom(alloc, b, rest, node)),
        },
    }
}

// An atom's element in the first part of a pair, in the pair.
fn in_first(alloc: Global, node: Node) -> Result<Placed, AllocError>
    ensures { (a b : PlainAlgebra) (i : ℕ) (x : Element) → IsPlaced a i x (Here node) →
        IfOk result (IsPlaced (product a b) i x) }
{
    Ok(Placed::Here(pair_node(alloc, node, Node::Nothing)?))
}

// An atom's element on the left side of a sum, in the sum.
fn in_left(alloc: Global, node: Node) -> Result<Placed, AllocError>
    ensures { (a b : PlainAlgebra) (i : ℕ) (x : Element) → IsPlaced a i x (Here node) →
        IfOk result (IsPlaced (sum a b) i x) }
{
    Ok(Placed::Here(on_left(alloc, node)?))
}

// What is placed in the second part of a pair, in the pair.
fn in_second(alloc: Global, placed: Result<Placed, AllocError>) -> Result<Placed, AllocError>
    ensures { (a b : PlainAlgebra) (i rest : ℕ) (x : Element) →
        atoms a + rest ≡ i → IfOk placed (IsPlaced b rest x) →
        IfOk result (IsPlaced (product a b) i x) }
{
    match placed? {
        Placed::Here(y) => Ok(Placed::Here(pair_node(alloc, Node::Nothing, y)?)),
        Placed::Past(rest, node) => Ok(Placed::Past(rest, node)),
    }
}

// What is placed on the right side of a sum, in the sum.
fn in_right(alloc: Global, placed: Result<Placed, AllocError>) -> Result<Placed, AllocError>
    ensures { (a b : PlainAlgebra) (i rest : ℕ) (x : Element) →
        atoms a + rest ≡ i → IfOk placed (IsPlaced b rest x) →
        IfOk result (IsPlaced (sum a b) i x) }
{
    match placed? {
        Placed::Here(y) => Ok(Placed::Here(on_right(alloc, y)?)),
        Placed::Past(rest, node) => Ok(Placed::Past(rest, node)),
    }
}

fn at_leaf(atom: u32, node: Node) -> Placed
    ensures { result ≡ (if atom == 0 then Here node else Past (atom - 1) node) }
{
    if atom == 0 {
        Placed::Here(node)
    } else {
        Placed::Past(atom - 1, node)
    }
}

fn full_node(alloc: Global, algebra: &Algebra) -> Result<Node, AllocError>
    ensures { IfOk result (λ n. node_view n ≡ full (algebra_view algebra.now)) }
{
    match algebra {
        Algebra::Unique => Ok(Node::One),
        Algebra::Divisible => Ok(Node::Share(Fraction { num: 1, den: 1 })),
        Algebra::Counting => Ok(Node::Src(0)),
        Algebra::Indexed => Ok(Node::Indices(Indices::from(alloc, 0)?)),
        Algebra::Pair(a, b) => pair_node(alloc, full_node(alloc, a)?, full_node(alloc, b)?),
        Algebra::Either(_, _) => Ok(Node::Whole),
    }
}

impl Elem {
    ghost use Rattle.cap_galg.specs.OfAlgebra.{IsElementOf};

    /// The unit: no part of any guard.
    pub fn unit(alloc: Global, algebra: &Algebra) -> Result<Elem, GuardError>
        ensures { MatchResult result (IsElementOf algebra.now nothing) (λ e. e ≡ OutOfMemory) }
    {
        Ok(Elem {
            algebra: algebra.copy(alloc)?,
            node: Node::Nothing,
        })
    }

    /// The algebra that the element is declared with.
    pub fn algebra(&self) -> &Algebra
        ensures { result.now ≡ self.now.algebra }
    {
        &self.algebra
    }

    /// The full element, which composes with the unit alone.
    pub fn full(alloc: Global, algebra: &Algebra) -> Result<Elem, GuardError>
        ensures { MatchResult result
            (IsElementOf algebra.now (full (algebra_view algebra.now))) (λ e. e ≡ OutOfMemory) }
    {
        let node = full_node(alloc, algebra)?;
        Ok(Elem {
            algebra: algebra.copy(alloc)?,
            node,
        })
    }

    /// The element in which one atom has an amount, and no other atom has any. The atom counts from
    /// 0, left to right, and the amount's form is that of the atom's declaration: a fraction in
    /// lowest terms, and at most 1.
    pub fn atom(
        alloc: Global,
        algebra: &Algebra,
        atom: u32,
        amount: Amount,
    ) -> Result<Elem, GuardError>
        requires exists { atom < atom_count algebra.now }
        requires fits { IsAmountOf (atom_algebra (algebra_view algebra.now) atom) amount }
        ensures { let x = atom_element (algebra_view algebra.now) atom (amount_element amount) in
            MatchResult result (IsElementOf algebra.now x) (λ e. e ≡ OutOfMemory) }
    {
        let node = amount_node(alloc, amount)?;
        if node.is_unit() {
            return Elem::unit(alloc, algebra);
        }
        match at_atom(alloc, algebra, atom, node)? {
            Placed::Here(node) => Ok(Elem {
                algebra: algebra.copy(alloc)?,
                node,
            }),
            Placed::Past(_, _) => unreachable!(),
        }
    }
}

impl Guard for Elem {
    ghost use Rattle.std.proofs.Common.{refl, sym};
    ghost use Rattle.cap_galg.specs.Laws.Kin.{elem-kin};

    ghost element = { λ e. node_view e.node };

    ghost kin = { λ x y. algebra_view x.algebra ≡ algebra_view y.algebra };

    fn compose(&self, alloc: Global, other: &Elem) -> Result<Option<Elem>, GuardError> {
        match self.node.compose(alloc, &other.node)? {
            Some(node) => Ok(Some(Elem {
                algebra: self.algebra.copy(alloc)?,
                node,
            })),
            None => Ok(None),
        }
    }

    fn le(&self, other: &Elem) -> bool {
        self.node.le(&other.node)
    }

    fn is_full(&self) -> bool {
        self.node.is_full()
    }

    fn is_unit(&self) -> bool {
        self.node.is_unit()
    }

    fn copy(&self, alloc: Global) -> Result<Elem, AllocError> {
        let node = self.node.copy(alloc)?;
        Ok(Elem {
            algebra: self.algebra.copy(alloc)?,
            node,
        })
    }

    ghost kin_reflexive = { λ x. refl };

    ghost kin_symmetric = { λ x y k. sym k };

    ghost lawful = { λ x y k.
        elem-kin (algebra_view x.algebra) (algebra_view y.algebra)
        (node_view x.node) (node_view y.node) k x.proper y.proper };
}
