//! What is wrong in the items of an assertion.
ghost use Rattle.std.specs.Prelude.{◌≡◌, ◌++◌, ◌<◌, ◌^◌, fold};
ghost use Rattle.std.specs.Prelude.{map, flat_map, IfOk, OnOk, option_map};
ghost use Rattle.cap_galg.specs.Views.{atom_view};
ghost use Rattle.cap_parse_tree.specs.Views.{guard_view, held_view, item_view};
ghost use Rattle.cap_resolve_spec.specs.Finding.{note};
ghost use Rattle.cap_resolve_spec.specs.Parts.{atom_word as word_of, held_atoms};
ghost use Rattle.cap_resolve_spec.specs.Items.{has_form as form_is, guard_findings, atom_findings};
ghost use Rattle.cap_resolve_spec.specs.Items.{atoms_twice, held_findings, arity_findings};
ghost use Rattle.cap_resolve_spec.specs.Items.{region_findings, is_other_type as differs, is_own as owns};
ghost use Rattle.cap_resolve_spec.specs.Items.{item_findings, type_of};
ghost use Rattle.cap_resolve_terms.specs.Views.{noted_view};
ghost use Rattle.cap_resolve_parts.specs.Views.{guards_view, parts_view, words_view, word_seen};
ghost use Rattle.cap_resolve_tables.specs.Tables.{numbered_view, numbered_seen, regions_of};
ghost use Rattle.cap_resolve_tables.specs.Tables.{types_of};
ghost use Rattle.cap_resolve_findings.specs.Facts.{fact_findings};

use crate::names::note_repeated;
use cap_galg::Atom;
use cap_lin::Sort;
use cap_parse_tree::{GuardAtom, Guards, Item, Word};
use cap_resolve_parts::{Placed, atom_place, atom_word, atoms_held, counts_indices, word_count};
use cap_resolve_tables::{Numbered, RegionTable, Types};
use cap_resolve_terms::{Cause, Noted, Scope};
use std::alloc::{AllocError, Global};

/// What an item is read with: the region types, the types of names, and the names that are known.
#[derive(Clone, Copy)]
pub struct Reading<'s, 't, 'k, 'a> {
    pub regions: &'t RegionTable<'a>,
    pub types: Types<'s, 't, 'a>,
    pub scope: &'k Scope<'a>,
}

fn has_form(kind: Atom, atom: &GuardAtom) -> bool
    ensures { result ≡ form_is (atom_view kind) (guard_view atom.now) }
{
    match kind {
        Atom::Unique => match atom {
            GuardAtom::Alone(_) => true,
            GuardAtom::Amount(_, _, _, _) | GuardAtom::Count(_, _, _, _, _, _) => false,
        },
        Atom::Divisible => match atom {
            GuardAtom::Amount(_, _, _, _) => true,
            GuardAtom::Alone(_) | GuardAtom::Count(_, _, _, _, _, _) => false,
        },
        Atom::Counting => match atom {
            GuardAtom::Count(counted, _, _, _, _, _) => !counts_indices(*counted),
            GuardAtom::Alone(_) | GuardAtom::Amount(_, _, _, _) => false,
        },
        Atom::Indexed => match atom {
            GuardAtom::Count(counted, _, _, _, _, _) => counts_indices(*counted),
            GuardAtom::Alone(_) | GuardAtom::Amount(_, _, _, _) => false,
        },
    }
}

fn note_guard<'a>(noted: &mut Noted<'a>, kind: Option<Atom>, atom: &'a GuardAtom)
    ensures { noted_view noted.new ≡ fold note (noted_view noted.old)
        (guard_findings (option_map atom_view kind) (guard_view atom.now)) }
{
    match kind {
        None => {
            let word = atom_word(atom);
            noted.note_if(true, word.place, Cause::Unknown(word.text.as_bytes()));
        }
        Some(kind) => noted.note_if(!has_form(kind, atom), atom_place(atom), Cause::Sort),
    }
}

/// Notes the atoms whose guard the region type does not declare, or declares of another form.
pub fn note_atoms<'a>(noted: &mut Noted<'a>, region: Numbered<'_, '_>, atoms: &[&'a GuardAtom])
    ensures { noted_view noted.new ≡ fold note (noted_view noted.old)
        (flat_map (atom_findings (numbered_view region.entry)) (guards_view atoms.now)) }
{
    for atom in atoms {
        let kind = region.region.guard_kind(atom_word(atom).text.as_bytes());
        note_guard(noted, kind, atom);
    }
}

fn atom_words<'a>(alloc: Global, atoms: &[&'a GuardAtom]) -> Result<Vec<&'a Word>, AllocError>
    ensures { IfOk result (λ words. words_view words.items
        ≡ map word_of (guards_view atoms.now)) }
{
    let mut words = Vec::new(alloc);
    for atom in atoms {
        words.push(atom_word(atom))?;
    }
    Ok(words)
}

/// Notes each guard that stands twice in the list.
pub fn note_atoms_twice<'a>(
    noted: &mut Noted<'a>,
    alloc: Global,
    atoms: &[&'a GuardAtom],
) -> Result<(), AllocError>
    ensures { OnOk result (noted_view noted.new ≡ fold note (noted_view noted.old)
        (atoms_twice (guards_view atoms.now))) }
{
    let words = atom_words(alloc, atoms)?;
    note_repeated(noted, alloc, words.as_slice())
}

fn note_held<'a>(
    noted: &mut Noted<'a>,
    region: Option<Numbered<'_, '_>>,
    word: &'a Word,
    atoms: &[&'a GuardAtom],
)
    ensures { noted_view noted.new ≡ fold note (noted_view noted.old)
        (held_findings (numbered_seen region.entry) word.now (guards_view atoms.now)) }
{
    match region {
        None => noted.note_if(true, word.place, Cause::Sort),
        Some(region) => note_atoms(noted, region, atoms),
    }
}

fn note_arity<'a>(
    noted: &mut Noted<'a>,
    region: Option<Numbered<'_, '_>>,
    word: &'a Word,
    arguments: usize,
)
    requires { arguments < 2 ^ 63 }
    ensures { noted_view noted.new ≡ fold note (noted_view noted.old)
        (arity_findings (numbered_seen region.entry) word.now arguments) }
{
    match region {
        None => noted.note_if(true, word.place, Cause::Unknown(word.text.as_bytes())),
        Some(region) => {
            let wanted = word_count(&region.region.tree.parameters);
            noted.note_if(wanted != arguments + 1, word.place, Cause::Arity);
        }
    }
}

fn is_other_type(a: Option<Numbered<'_, '_>>, b: Option<Numbered<'_, '_>>) -> bool
    ensures { result ≡ differs (numbered_seen a.entry) (numbered_seen b.entry) }
{
    match a {
        None => false,
        Some(a) => match b {
            None => false,
            Some(b) => a.number != b.number,
        },
    }
}

fn note_region(noted: &mut Noted<'_>, scope: &Scope<'_>, word: &Word)
    ensures { noted_view noted.new ≡ fold note (noted_view noted.old)
        (region_findings scope.now word.now) }
{
    let wrong = match scope.sort(word.text.as_bytes()) {
        Some(Sort::Perm) => true,
        Some(Sort::Int) | None => false,
    };
    noted.note_if(wrong, word.place, Cause::Sort);
}

fn is_own(own: Option<&Word>, name: &[u8]) -> bool
    ensures { result ≡ owns (word_seen own.entry) name.now }
{
    match own {
        None => false,
        Some(own) => name == own.text.as_bytes(),
    }
}

fn note_fact<'a>(
    noted: &mut Noted<'a>,
    reading: Reading<'_, '_, '_, 'a>,
    own: Option<&Word>,
    kind: &'a Word,
    region: &'a Word,
    arguments: usize,
)
    requires { arguments < 2 ^ 63 }
    ensures { noted_view noted.new ≡ fold note (noted_view noted.old)
        (fact_findings (regions_of reading.entry.regions.now) (word_seen own.entry)
        (types_of reading.entry.types) reading.entry.scope.now kind.now region.now arguments) }
{
    let found = reading.regions.named(kind.text.as_bytes());
    note_arity(noted, found, kind, arguments);
    let name = region.text.as_bytes();
    noted.note_if(is_own(own, name), kind.place, Cause::SelfFact);
    note_region(noted, reading.scope, region);
    let other = is_other_type(found, reading.types.type_of(name));
    noted.note_if(other, region.place, Cause::Sort);
}

fn note_guards<'a>(
    noted: &mut Noted<'a>,
    alloc: Global,
    types: Types<'_, '_, 'a>,
    scope: &Scope<'_>,
    word: &'a Word,
    held: &'a Guards,
) -> Result<(), AllocError>
    ensures { OnOk result (noted_view noted.new ≡ fold note (noted_view noted.old)
        (region_findings scope.now word.now
        ++ (held_findings (type_of (types_of types.entry) word.now.text) word.now
        (held_atoms (held_view held.now))
        ++ atoms_twice (held_atoms (held_view held.now))))) }
{
    note_region(noted, scope, word);
    let atoms = atoms_held(alloc, held)?;
    note_held(
        noted,
        types.type_of(word.text.as_bytes()),
        word,
        atoms.as_slice(),
    );
    note_atoms_twice(noted, alloc, atoms.as_slice())?;
    Ok(())
}

/// Notes what is wrong in an item, but for its terms. `own` is the first parameter of the region type
/// around it, if there is one.
#[tactic(auto, using(cap_parse_tree::specs::declared::assertion::Item::TheFolds::the_lemmas))]
fn note_item<'a>(
    noted: &mut Noted<'a>,
    alloc: Global,
    reading: Reading<'_, '_, '_, 'a>,
    own: Option<&Word>,
    item: &'a Item,
) -> Result<(), AllocError>
    ensures { OnOk result (noted_view noted.new ≡ fold note (noted_view noted.old)
        (item_findings (regions_of reading.entry.regions.now) (word_seen own.entry)
        (types_of reading.entry.types) reading.entry.scope.now (item_view item.now))) }
{
    match item {
        Item::Fact(kind, _, region, arguments, _, _, _) => {
            note_fact(
                noted,
                reading,
                own,
                kind,
                region,
                arguments.as_slice().len(),
            );
            Ok(())
        }
        Item::Guards(word, _, held) => {
            note_guards(noted, alloc, reading.types, reading.scope, word, held)
        }
        Item::True(_) | Item::False(_) | Item::Cell(_, _, _) => Ok(()),
        Item::Compare(_) | Item::Choose(_, _, _, _, _) => Ok(()),
    }
}

/// Notes what is wrong in items, but for their terms.
pub fn note_items<'a>(
    noted: &mut Noted<'a>,
    alloc: Global,
    reading: Reading<'_, '_, '_, 'a>,
    own: Option<&Word>,
    parts: &[Placed<'a>],
) -> Result<(), AllocError>
    ensures { OnOk result (noted_view noted.new ≡ fold note (noted_view noted.old)
        (flat_map (λ i. item_findings (regions_of reading.entry.regions.now) (word_seen own.entry)
        (types_of reading.entry.types) reading.entry.scope.now i.1) (parts_view parts.now))) }
{
    for part in parts {
        note_item(noted, alloc, reading, own, part.item)?;
    }
    Ok(())
}
