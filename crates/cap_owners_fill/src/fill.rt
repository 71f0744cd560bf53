//! By what the items of an assertion are met.
ghost use Rattle.std.specs.Prelude.{◌≡◌, IfOk};
ghost use Rattle.cap_owners_spec.specs.Walks.{no_fill};

use cap_owners_values::Values;
use std::alloc::{AllocError, Global};
use std::marker::Model;

/// By what the items of an assertion are met: the values of its names and of each `_` in order, and
/// the regions of its facts with the states in which they are.
pub struct Fill {
    pub names: Values,
    pub wildcards: Values,
    pub facts: Vec<(i128, i128)>,
}

impl Drop for Fill {
    fn drop(self) {
        let Fill {
            names: _,
            wildcards: _,
            facts: _,
        } = self;
    }
}

impl Model for Fill {
    ghost use Rattle.cap_owners_spec.specs.Track.{Fill};

    ghost Value = { Fill };

    ghost view = { λ f. record {
      names = f.names;
      wildcards = f.wildcards;
      facts = f.facts.items;
    } };
}

impl Fill {
    /// By nothing. It takes no memory.
    pub fn new(alloc: Global) -> Fill
        ensures { result ≡ no_fill }
    {
        Fill {
            names: Values::new(alloc),
            wildcards: Values::new(alloc),
            facts: Vec::new(alloc),
        }
    }

    /// By the same, but for the values of names.
    pub fn with_names(self, names: Values) -> Fill
        ensures { result ≡ record self { names = names } }
    {
        let Fill {
            names: _,
            wildcards,
            facts,
        } = self;
        Fill {
            names,
            wildcards,
            facts,
        }
    }

    /// By the same, but for the value of each `_`.
    pub fn with_wildcards(self, wildcards: Values) -> Fill
        ensures { result ≡ record self { wildcards = wildcards } }
    {
        let Fill {
            names,
            wildcards: _,
            facts,
        } = self;
        Fill {
            names,
            wildcards,
            facts,
        }
    }

    /// The same once more.
    pub fn copy(&self, alloc: Global) -> Result<Fill, AllocError>
        ensures { IfOk result (λ f. f ≡ self.now) }
    {
        Ok(Fill {
            names: self.names.copy(alloc)?,
            wildcards: self.wildcards.copy(alloc)?,
            facts: Vec::from_slice(alloc, &self.facts)?,
        })
    }
}
