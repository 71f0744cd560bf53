//! Why a tree stands for no program.
ghost use Rattle.std.specs.Prelude.{◌≡◌};
ghost use Rattle.cap_resolve.specs.declared.error.ResolveError.TheVariants.{OutOfMemory};

use cap_resolve_terms::Limit;
use cap_syntax::{Place, Text};
use std::alloc::AllocError;
use thiserror::Error;

/// Why a tree stands for no program, in the order in which causes count at one place, and want of
/// memory. A place is that of the name, term, literal or token at fault.
#[derive(Debug, Drop, Error)]
pub enum ResolveError {
    /// A name that is not known where it stands.
    #[error("unknown name")]
    Unknown(Text, Place),
    /// A name that is declared a second time, or that stands where it may not.
    #[error("name twice")]
    Twice(Text, Place),
    /// A call, a fork or a region fact with a wrong number of arguments.
    #[error("wrong number of arguments")]
    Arity(Place),
    /// A factor, an atom or a region's name of the wrong sort.
    #[error("wrong sort")]
    Sort(Place),
    /// A product of two names.
    #[error("product of two names")]
    NonLinear(Place),
    /// No function is called `main`; the place is the first one of a text.
    #[error("no main")]
    NoMain(Place),
    /// An item of `main`'s precondition that is no comparison and no cell.
    #[error("main asks for more than cells")]
    MainPre(Place),
    /// A region fact in a case that is about the region of the case.
    #[error("region states itself")]
    SelfFact(Place),
    /// A limit that is passed.
    #[error("limit")]
    Limit(Limit, Place),
    #[error("out of memory")]
    OutOfMemory,
}

impl From<AllocError> for ResolveError {
    ghost from_gives = { λ _ e. e ≡ OutOfMemory };

    fn from(_: AllocError) -> ResolveError {
        ResolveError::OutOfMemory
    }
}
