//! Tables of region types, of functions, and of the types of names.
ghost use Rattle.std.specs.Prelude.{◌≡◌, ◌<◌, ◌^◌, length, map, Some};
ghost use Rattle.cap_lin.specs.declared.row.Sort.TheVariants.{Int};
ghost use Rattle.cap_parse_tree.specs.Views.{region_view};
ghost use Rattle.cap_resolve_spec.specs.Names.{known_as};
ghost use Rattle.cap_resolve_spec.specs.Items.{region_guards};
ghost use Rattle.cap_resolve_tables.specs.Entries.{guard_entry, guard_atom};

use cap_galg::Atom;
use cap_parse_tree::{Function, Region};
use cap_resolve_terms::Scope;

/// A region type of fewer than 2^32 guards, with a table of these by their numbers.
#[derive(Drop)]
pub struct RegionType<'a> {
    pub tree: &'a Region,
    pub(crate) names: Scope<'a>,
    pub(crate) kinds: Vec<Atom>,
    ghost named: { names ≡ map guard_entry (region_guards (region_view tree.now)) },
    ghost kinded: { kinds.items ≡ map guard_atom (region_guards (region_view tree.now)) },
    ghost few: { length (region_guards (region_view tree.now)) < 2 ^ 32 },
}

/// The region types of a text, fewer than 2^32, by their numbers. Of two with one name the first is
/// meant.
#[derive(Drop)]
pub struct RegionTable<'a> {
    pub types: Vec<RegionType<'a>>,
    pub(crate) names: Scope<'a>,
    ghost named: { names ≡ map (λ t. known_as Int t.tree.now.name) types.items },
    ghost few: { length types.items < 2 ^ 32 },
}

/// A region type and its number.
#[derive(Clone, Copy)]
pub struct Numbered<'t, 'a> {
    pub number: u32,
    pub region: &'t RegionType<'a>,
}

/// The functions of a text, fewer than 2^32, by their numbers. Of two with one name the first is
/// meant.
#[derive(Drop)]
pub struct FunctionTable<'a> {
    pub functions: Vec<&'a Function>,
    pub(crate) names: Scope<'a>,
    ghost named: { names ≡ map (λ f. known_as Int f.now.name) functions.items },
    ghost few: { length functions.items < 2 ^ 32 },
}

/// A name, and the type of the region that it stands for.
#[derive(Clone, Copy)]
pub struct Typed<'t, 'a> {
    pub name: &'a [u8],
    pub region: Numbered<'t, 'a>,
}

/// Names and the types of the regions that they stand for. Of two types of a name the first counts.
#[derive(Drop)]
pub struct TypedNames<'t, 'a> {
    pub list: Vec<Typed<'t, 'a>>,
    pub(crate) names: Scope<'a>,
    ghost named: { names ≡ map (λ t. Some (record { name = t.name.now; sort = Int })) list.items },
}

/// The types that an assertion around tells, if one does, and then its own.
#[derive(Clone, Copy)]
pub struct Types<'s, 't, 'a> {
    pub outer: Option<&'s TypedNames<'t, 'a>>,
    pub own: &'s TypedNames<'t, 'a>,
}
