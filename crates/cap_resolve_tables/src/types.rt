//! The region types of names, as facts tell them.
ghost use Rattle.std.specs.Prelude.{◌≡◌, ◌++◌, IfOk, OnOk, option_to_list};
ghost use Rattle.cap_parse_tree.specs.Views.{item_view};
ghost use Rattle.cap_resolve_spec.specs.Items.{types_told as types_in, type_of as type_among};
ghost use Rattle.cap_resolve_spec.specs.Items.{fact_type as type_in_fact};
ghost use Rattle.cap_resolve_parts.specs.Views.{parts_view};
ghost use Rattle.cap_resolve_tables.specs.Tables.{regions_of, numbered_seen, typed_names, types_of};
ghost use Rattle.cap_resolve_tables.specs.Tables.{typed_seen, typed_list};

use crate::tables::{Numbered, RegionTable, Typed, TypedNames, Types};
use cap_lin::Sort;
use cap_parse_tree::Item;
use cap_resolve_parts::Placed;
use cap_resolve_terms::{Known, Scope};
use std::alloc::{AllocError, Global};

/// The type that a fact tells of its region, if the item is a fact of a type that is declared.
#[tactic(auto, using(cap_parse_tree::specs::declared::assertion::Item::TheFolds::the_lemmas))]
fn fact_type<'t, 'a>(regions: &'t RegionTable<'a>, item: &'a Item) -> Option<Typed<'t, 'a>>
    ensures { typed_seen result ≡ type_in_fact (regions_of regions.now) (item_view item.now) }
{
    match item {
        Item::Fact(kind, _, name, _, _, _, _) => match regions.named(kind.text.as_bytes()) {
            Some(region) => Some(Typed {
                name: name.text.as_bytes(),
                region,
            }),
            None => None,
        },
        Item::True(_) | Item::False(_) | Item::Guards(_, _, _) => None,
        Item::Cell(_, _, _) | Item::Compare(_) | Item::Choose(_, _, _, _, _) => None,
    }
}

/// Names with their types, as a list with its table.
fn typed_names_of<'t, 'a>(
    alloc: Global,
    list: Vec<Typed<'t, 'a>>,
) -> Result<TypedNames<'t, 'a>, AllocError>
    ensures { IfOk result (λ t. t.list.items ≡ list.entry.items) }
{
    let mut names = Scope::new(alloc);
    for typed in &list {
        names.push(Some(Known {
            name: typed.name,
            sort: Sort::Int,
        }))?;
    }
    Ok(TypedNames { list, names })
}

/// The types that facts tell of names, behind the type that a name has anyway, if one does. The facts
/// in the sides of conditionals count as well.
pub fn types_told<'t, 'a>(
    alloc: Global,
    regions: &'t RegionTable<'a>,
    own: Option<Typed<'t, 'a>>,
    parts: &[Placed<'a>],
) -> Result<TypedNames<'t, 'a>, AllocError>
    ensures { IfOk result (λ t. typed_names t ≡ option_to_list (typed_seen own.entry)
        ++ types_in (regions_of regions.now) (parts_view parts.now)) }
{
    let mut list = Vec::new(alloc);
    if let Some(own) = own {
        list.push(own)?;
    }
    push_types(&mut list, regions, parts)?;
    typed_names_of(alloc, list)
}

fn push_types<'t, 'a>(
    list: &mut Vec<Typed<'t, 'a>>,
    regions: &'t RegionTable<'a>,
    parts: &[Placed<'a>],
) -> Result<(), AllocError>
    ensures { OnOk result (typed_list list.new.items ≡ typed_list list.old.items
        ++ types_in (regions_of regions.now) (parts_view parts.now)) }
{
    for part in parts {
        match fact_type(regions, part.item) {
            Some(typed) => list.push(typed)?,
            None => {}
        }
    }
    Ok(())
}

impl<'t, 'a> TypedNames<'t, 'a> {
    /// The type of the region that a name stands for, if it has one.
    pub fn type_of(&self, name: &[u8]) -> Option<Numbered<'t, 'a>>
        ensures { numbered_seen result ≡ type_among (typed_names self.now) name.now }
    {
        let number = self.names.number(name);
        match self.list.as_slice().get(number) {
            Some(typed) => Some(typed.region),
            None => None,
        }
    }
}

impl<'s, 't, 'a> Types<'s, 't, 'a> {
    /// The type of the region that a name stands for, if it has one.
    pub fn type_of(&self, name: &[u8]) -> Option<Numbered<'t, 'a>>
        ensures { numbered_seen result ≡ type_among (types_of self.now) name.now }
    {
        match self.outer {
            None => self.own.type_of(name),
            Some(outer) => match outer.type_of(name) {
                Some(region) => Some(region),
                None => self.own.type_of(name),
            },
        }
    }
}
