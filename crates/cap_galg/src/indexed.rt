//! A guard whose parts are sets of indices.
ghost use Rattle.std.specs.Prelude.{◌≡◌};
ghost use Rattle.cap_galg_indices.specs.Sets.{AreBounds};
ghost use Rattle.cap_galg_indices.specs.Laws.Members.{ascend-prop};

use cap_galg_indices::Indices;
use cap_galg_spec::{Guard, GuardError};
use std::alloc::{AllocError, Global};

/// A part of a guard that is handed out by indices: a set of them. The empty set is the unit, and
/// all indices are full.
#[derive(Drop)]
pub struct Indexed {
    indices: Indices,
    ghost proper: { AreBounds indices } by { ascend-prop 0 indices },
}

impl Indexed {
    /// The part with a set of indices.
    pub fn new(indices: Indices) -> Indexed
        ensures { result.indices ≡ indices }
    {
        Indexed { indices }
    }

    /// The indices.
    pub fn indices(&self) -> &Indices
        ensures { result.now ≡ self.now.indices }
    {
        &self.indices
    }
}

impl Guard for Indexed {
    ghost use Rattle.cap_galg_spec.specs.Elements.{index_set};
    ghost use Rattle.cap_galg.specs.Laws.Kin.{indexed-kin};

    ghost element = { λ s. index_set s.indices };

    ghost kin = { λ x y. Unit {0} };

    fn compose(&self, alloc: Global, other: &Indexed) -> Result<Option<Indexed>, GuardError> {
        match self.indices.compose(alloc, &other.indices)? {
            Some(indices) => Ok(Some(Indexed { indices })),
            None => Ok(None),
        }
    }

    fn le(&self, other: &Indexed) -> bool {
        self.indices.le(&other.indices)
    }

    fn is_full(&self) -> bool {
        self.indices.is_full()
    }

    fn is_unit(&self) -> bool {
        self.indices.is_empty()
    }

    fn copy(&self, alloc: Global) -> Result<Indexed, AllocError> {
        let indices = self.indices.copy(alloc)?;
        Ok(Indexed { indices })
    }

    ghost kin_reflexive = { λ x. tt };

    ghost kin_symmetric = { λ x y h. tt };

    ghost lawful = { λ x y h. indexed-kin x.indices y.indices x.proper y.proper };
}
