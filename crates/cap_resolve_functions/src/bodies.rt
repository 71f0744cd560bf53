//! What is known where a body is built.
use cap_resolve_tables::{FunctionTable, RegionTable, TypedNames};
use cap_resolve_terms::Scope;

/// What the names of a body stand for: region types, functions, the types that `requires` tells, the
/// variables that are known in invariants, and those that are known in the body.
#[derive(Clone, Copy)]
pub(crate) struct Body<'s, 't, 'a> {
    pub regions: &'t RegionTable<'a>,
    pub functions: &'t FunctionTable<'a>,
    pub types: &'s TypedNames<'t, 'a>,
    pub kept: &'s Scope<'a>,
    pub scope: &'s Scope<'a>,
}
