//! The table of region types, in which the first of a name counts.
ghost use Rattle.std.specs.Prelude.{◌≡◌, ◌<◌, ◌^◌, length, map, IfOk, option_map};
ghost use Rattle.std.specs.List.{AllByRecursion, position_or_len};
ghost use Rattle.cap_galg.specs.Views.{atom_view};
ghost use Rattle.cap_parse_tree.specs.Views.{declared_view, region_view};
ghost use Rattle.cap_resolve_spec.specs.Items.{region_named, is_guard, region_guards};
ghost use Rattle.cap_resolve_spec.specs.Program.{type_number};
ghost use Rattle.cap_resolve_terms.specs.Views.{entry_view};
ghost use Rattle.cap_resolve_parts.specs.Views.{declareds_view, regions_view};
ghost use Rattle.cap_resolve_tables.specs.Entries.{guard_entry, guard_atom as atom_of, kind_in};
ghost use Rattle.cap_resolve_tables.specs.Entries.{HasFewGuards};
ghost use Rattle.cap_resolve_tables.specs.Tables.{type_view, regions_of, numbered_seen};

use crate::tables::{Numbered, RegionTable, RegionType};
use cap_galg::Atom;
use cap_lin::Sort;
use cap_parse_tree::{Declared, Region};
use cap_resolve_parts::{guard_word, push_algebra};
use cap_resolve_terms::{Known, Scope};
use std::alloc::{AllocError, Global};

fn guard_known(declared: &Declared) -> Option<Known<'_>>
    ensures { entry_view result ≡ guard_entry (declared_view declared.now) }
{
    match declared {
        Declared::Unique(word)
        | Declared::Divisible(_, word)
        | Declared::Counting(_, word, _)
        | Declared::Indexed(_, word, _) => {
            Some(Known {
                name: word.text.as_bytes(),
                sort: Sort::Int,
            })
        }
        Declared::Bracketed(_, _, _) => None,
    }
}

fn guard_atom(declared: &Declared) -> Atom
    ensures { result ≡ atom_of (declared_view declared.now) }
{
    match declared {
        Declared::Divisible(_, _) => Atom::Divisible,
        Declared::Counting(_, _, _) => Atom::Counting,
        Declared::Indexed(_, _, _) => Atom::Indexed,
        Declared::Unique(_) | Declared::Bracketed(_, _, _) => Atom::Unique,
    }
}

fn guard_names<'a>(alloc: Global, guards: &[&'a Declared]) -> Result<Scope<'a>, AllocError>
    ensures { IfOk result (λ names. names ≡ map guard_entry (declareds_view guards.now)) }
{
    let mut names = Scope::new(alloc);
    for guard in guards {
        names.push(guard_known(guard))?;
    }
    Ok(names)
}

fn guard_kinds(alloc: Global, guards: &[&Declared]) -> Result<Vec<Atom>, AllocError>
    ensures { IfOk result (λ kinds. kinds.items ≡ map atom_of (declareds_view guards.now)) }
{
    let mut kinds = Vec::new(alloc);
    for guard in guards {
        kinds.push(guard_atom(guard))?;
    }
    Ok(kinds)
}

/// A region type with its table of guards.
pub(crate) fn region_type<'a>(alloc: Global, tree: &'a Region) -> Result<RegionType<'a>, AllocError>
    requires { HasFewGuards (region_view tree.now) }
    ensures { IfOk result (λ t. type_view t ≡ region_view tree.now) }
{
    let mut guards = Vec::new(alloc);
    push_algebra(&mut guards, &tree.algebra)?;
    let names = guard_names(alloc, guards.as_slice())?;
    let kinds = guard_kinds(alloc, guards.as_slice())?;
    Ok(RegionType { tree, names, kinds })
}

impl<'a> RegionType<'a> {
    /// The number of a guard, or the number of guards where none has the name.
    pub fn guard_number(&self, name: &[u8]) -> u32
        ensures { result
            ≡ position_or_len (is_guard name.now) (region_guards (type_view self.now)) }
    {
        self.names.variable(name)
    }

    /// The kind of the guard of this name, if there is one.
    pub fn guard_kind(&self, name: &[u8]) -> Option<Atom>
        ensures { option_map atom_view result ≡ kind_in (type_view self.now) name.now }
    {
        let number = self.names.number(name);
        match self.kinds.as_slice().get(number) {
            Some(kind) => Some(*kind),
            None => None,
        }
    }
}

/// The table of these region types. There is an error where memory runs out.
pub fn region_table<'a>(
    alloc: Global,
    regions: &[&'a Region],
) -> Result<RegionTable<'a>, AllocError>
    requires few { length (regions_view regions.now) < 2 ^ 32 }
    requires guards { AllByRecursion HasFewGuards (regions_view regions.now) }
    ensures { IfOk result (λ t. regions_of t ≡ regions_view regions.now) }
{
    let mut types = Vec::new(alloc);
    let mut names = Scope::new(alloc);
    for region in regions {
        types.push(region_type(alloc, region)?)?;
        names.push(Some(Known {
            name: region.name.text.as_bytes(),
            sort: Sort::Int,
        }))?;
    }
    Ok(RegionTable { types, names })
}

impl<'a> RegionTable<'a> {
    /// The number of region types.
    pub fn len(&self) -> u32
        ensures { result ≡ length (regions_of self.now) }
    {
        self.types.len() as u32
    }

    /// The number of the region type of this name, or the number of region types where none has it.
    pub fn number(&self, name: &[u8]) -> u32
        ensures { result ≡ type_number (regions_of self.now) name.now }
    {
        self.names.variable(name)
    }

    /// The region type of this name, if there is one.
    pub fn named(&self, name: &[u8]) -> Option<Numbered<'_, 'a>>
        ensures { numbered_seen result ≡ region_named (regions_of self.now) name.now }
    {
        let number = self.names.variable(name);
        match self.types.as_slice().get(number as usize) {
            Some(region) => Some(Numbered { number, region }),
            None => None,
        }
    }
}
