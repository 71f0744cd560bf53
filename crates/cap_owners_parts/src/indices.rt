//! Sets of indices of 128 bits.
ghost use Rattle.std.specs.Prelude.{◌≡◌, ◌<◌, ◌^◌, IfOk};
ghost use Rattle.cap_galg_indices.specs.Sets.{one_index, indices_from, index_range, is_empty};
ghost use Rattle.cap_galg_indices.specs.Sets.{is_full, composed};

use crate::bounds::meet;
use crate::merge::union;
use std::alloc::{AllocError, Global};
use std::marker::Model;

/// A set of indices that is finite or lacks finitely many, by its bounds: from the first on an
/// index is in the set, from the second on it isn't, and so on. Indices are whole numbers of a
/// track, so that cap_galg_indices' sets, which are made of 64 bits, do not serve.
#[derive(Drop)]
pub(crate) struct Indices {
    bounds: Vec<u128>,
}

impl Model for Indices {
    ghost use Rattle.std.specs.Prelude.{ℕ, List};
    ghost use Rattle.cap_galg_indices.specs.Sets.{AreBounds};

    ghost Value = { List ℕ };

    ghost view = { λ s. s.bounds.items };

    ghost invariant = { λ s. AreBounds s.bounds.items };
}

impl Indices {
    /// One index.
    pub(crate) fn at(alloc: Global, index: u128) -> Result<Indices, AllocError>
        requires { index < 2 ^ 127 }
        ensures { IfOk result (λ s. s ≡ one_index index) }
    {
        let mut bounds = Vec::new(alloc);
        bounds.push(index)?;
        bounds.push(index + 1)?;
        Ok(Indices { bounds })
    }

    /// All indices from one on.
    pub(crate) fn from(alloc: Global, first: u128) -> Result<Indices, AllocError>
        ensures { IfOk result (λ s. s ≡ indices_from first) }
    {
        let mut bounds = Vec::new(alloc);
        bounds.push(first)?;
        Ok(Indices { bounds })
    }

    /// All indices from one on that are below another.
    pub(crate) fn range(alloc: Global, first: u128, end: u128) -> Result<Indices, AllocError>
        ensures { IfOk result (λ s. s ≡ index_range first end) }
    {
        let mut bounds = Vec::new(alloc);
        if first < end {
            bounds.push(first)?;
            bounds.push(end)?;
        }
        Ok(Indices { bounds })
    }

    /// The bounds, in ascending order.
    pub(crate) fn bounds(&self) -> &[u128]
        ensures { result.now ≡ self.now }
    {
        self.bounds.as_slice()
    }

    /// Whether no index is in the set.
    pub(crate) fn is_empty(&self) -> bool
        ensures { result ≡ is_empty self.now }
    {
        self.bounds.is_empty()
    }

    /// Whether all indices are in the set.
    pub(crate) fn is_full(&self) -> bool
        ensures { result ≡ is_full self.now }
    {
        matches!(self.bounds.as_slice(), [0])
    }

    /// The union of two sets, and nothing exactly where some index is in both.
    pub(crate) fn compose(
        &self,
        alloc: Global,
        other: &Indices,
    ) -> Result<Option<Indices>, AllocError>
        ensures { IfOk result (λ s. s ≡ composed self.now other.now) }
    {
        if meet(&self.bounds, &other.bounds) {
            return Ok(None);
        }
        let bounds = union(alloc, &self.bounds, &other.bounds)?;
        Ok(Some(Indices { bounds }))
    }

    /// The same set once more.
    pub(crate) fn copy(&self, alloc: Global) -> Result<Indices, AllocError>
        ensures { IfOk result (λ s. s ≡ self.now) }
    {
        let bounds = Vec::from_slice(alloc, &self.bounds)?;
        Ok(Indices { bounds })
    }
}
