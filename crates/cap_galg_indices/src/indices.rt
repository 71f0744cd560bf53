//! Sets of indices.
ghost use Rattle.std.specs.Prelude.{◌≡◌, [], IfOk};
ghost use Rattle.cap_galg_indices.specs.Sets.{has, one_index, indices_from, is_empty, is_full};
ghost use Rattle.cap_galg_indices.specs.Sets.{is_within, composed};

use crate::bounds::{holds, meet};
use crate::merge::union;
use std::alloc::{AllocError, Global};
use std::marker::Model;

/// A set of indices that is finite or lacks finitely many. Contracts see its bounds: from the first
/// on an index is in the set, from the second on it isn't, and so on. Two sets that are equal have
/// the same bounds.
#[derive(Drop)]
pub struct Indices {
    bounds: Vec<u128>,
}

impl Model for Indices {
    ghost use Rattle.std.specs.Prelude.{ℕ, List};
    ghost use Rattle.cap_galg_indices.specs.Sets.{AreBounds};

    ghost Value = { List ℕ };

    ghost view = { λ s. s.bounds.items };

    ghost invariant = { λ s. AreBounds s.bounds.items };
}

impl Indices {
    /// No index.
    pub fn new(alloc: Global) -> Indices
        ensures { result ≡ [] }
    {
        Indices {
            bounds: Vec::new(alloc),
        }
    }

    /// One index.
    pub fn at(alloc: Global, index: u64) -> Result<Indices, AllocError>
        ensures { IfOk result (λ s. s ≡ one_index index) }
    {
        let mut bounds = Vec::new(alloc);
        bounds.push(index as u128)?;
        bounds.push(index as u128 + 1)?;
        Ok(Indices { bounds })
    }

    /// All indices from one on.
    pub fn from(alloc: Global, first: u64) -> Result<Indices, AllocError>
        ensures { IfOk result (λ s. s ≡ indices_from first) }
    {
        let mut bounds = Vec::new(alloc);
        bounds.push(first as u128)?;
        Ok(Indices { bounds })
    }

    /// Whether an index is in the set.
    pub fn has(&self, index: u64) -> bool
        ensures { result ≡ has self.now index }
    {
        holds(&self.bounds, index as u128)
    }

    /// Whether no index is in the set.
    pub fn is_empty(&self) -> bool
        ensures { result ≡ is_empty self.now }
    {
        self.bounds.is_empty()
    }

    /// Whether all indices are in the set.
    pub fn is_full(&self) -> bool
        ensures { result ≡ is_full self.now }
    {
        matches!(self.bounds.as_slice(), [0])
    }

    /// Whether each index of this set is in the other, so that some set completes it to the other.
    pub fn le(&self, other: &Indices) -> bool
        ensures { result ≡ is_within self.now other.now }
    {
        !meet(&self.bounds, &other.bounds, true)
    }

    /// The union of two sets, and nothing exactly where some index is in both.
    pub fn compose(&self, alloc: Global, other: &Indices) -> Result<Option<Indices>, AllocError>
        ensures { IfOk result (λ s. s ≡ composed self.now other.now) }
    {
        if meet(&self.bounds, &other.bounds, false) {
            return Ok(None);
        }
        let bounds = union(alloc, &self.bounds, &other.bounds)?;
        Ok(Some(Indices { bounds }))
    }

    /// The same set once more.
    pub fn copy(&self, alloc: Global) -> Result<Indices, AllocError>
        ensures { IfOk result (λ s. s ≡ self.now) }
    {
        let mut bounds = Vec::new(alloc);
        bounds.extend_from_slice(&self.bounds)?;
        Ok(Indices { bounds })
    }
}
