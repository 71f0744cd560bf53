//! What every guard algebra offers, and the laws that it keeps: a partial commutative monoid.
ghost use Rattle.std.specs.Prelude.{◌≡◌, IfOk};
ghost use Rattle.cap_galg_spec.specs.Elements.{Element, is_unit, is_full, at_most};
ghost use Rattle.cap_galg_spec.specs.Algebras.{AreKin};
ghost use Rattle.cap_galg_spec.specs.Answers.{IsComposition, OnComposite};

use crate::error::GuardError;
use std::alloc::{AllocError, Global};

/// A part of a guard. Parts of one algebra compose to a greater part, where threads may hold both.
/// The ghost member `element` says which element of the definition a part is, and `kin` which two
/// parts are of one algebra; by the laws that algebra is a partial commutative monoid with a full
/// element, which composes with the unit alone and which every element is at most.
pub trait Guard: Drop {
    ghost element: { Self → Element };

    ghost kin: { Self → Self → Type 0 };

    /// What two parts compose to, and nothing exactly where they don't compose. Wide comes exactly
    /// where they compose, and the denominator of a sum in lowest terms, or a count, passes 64
    /// bits.
    fn compose(&self, alloc: Global, other: &Self) -> Result<Option<Self>, GuardError>
        requires { kin self.now other.now }
        ensures composed { IsComposition element (element self.now) (element other.now) result }
        ensures kin { OnComposite result (λ z.
            (w : Self) → kin self.now w → kin other.now w → kin z w) };

    /// Whether some part completes this one to the other. It takes no memory.
    fn le(&self, other: &Self) -> bool
        requires { kin self.now other.now }
        ensures { result ≡ at_most (element self.now) (element other.now) };

    /// Whether nobody else holds any part. It takes no memory.
    fn is_full(&self) -> bool
        ensures { result ≡ is_full (element self.now) };

    /// Whether it is no part at all. It takes no memory.
    fn is_unit(&self) -> bool
        ensures { result ≡ is_unit (element self.now) };

    /// The same part once more.
    fn copy(&self, alloc: Global) -> Result<Self, AllocError>
        ensures { IfOk result (λ z.
            (element z ≡ element self.now) × ((w : Self) → kin self.now w → kin z w)) };

    ghost kin_reflexive: { (x : Self) → kin x x };

    ghost kin_symmetric: { (x y : Self) → kin x y → kin y x };

    ghost lawful: { (x y : Self) → kin x y → AreKin (element x) (element y) };
}
