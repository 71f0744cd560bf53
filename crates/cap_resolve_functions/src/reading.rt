//! What is known where an assertion is built.
use cap_resolve_tables::{RegionTable, Types};
use cap_resolve_terms::Scope;

/// What the names of an assertion stand for: region types, types of regions, and variables.
#[derive(Clone, Copy)]
pub struct Reading<'s, 't, 'a> {
    pub regions: &'t RegionTable<'a>,
    pub types: Types<'s, 't, 'a>,
    pub scope: &'s Scope<'a>,
}
