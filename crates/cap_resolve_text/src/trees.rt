//! All that is wrong in a tree, and whether it has a `main`.
ghost use Rattle.std.specs.Prelude.{◌≡◌, ◌≤◌, fold, codes, is_some, length, OnOk};
ghost use Rattle.cap_prog.specs.WellFormed.{most_members};
ghost use Rattle.cap_parse_tree.specs.Spelling.{spelling};
ghost use Rattle.cap_parse_tree.specs.Views.{function_view, tree_view};
ghost use Rattle.cap_resolve_spec.specs.Finding.{note};
ghost use Rattle.cap_resolve_spec.specs.Parts.{regions as regions_of_tree};
ghost use Rattle.cap_resolve_spec.specs.Parts.{functions as functions_of_tree};
ghost use Rattle.cap_resolve_spec.specs.Functions.{is_function};
ghost use Rattle.cap_resolve_spec.specs.Stands.{findings, main_of};
ghost use Rattle.cap_resolve_terms.specs.Views.{noted_view};
ghost use Rattle.cap_resolve_text.specs.Parts.{text_part};

use crate::texts::note_text;
use cap_parse_tree::{Declaration, Function, Tree};
use cap_resolve_tables::{functions_in, regions_in};
use cap_resolve_terms::Noted;
use std::alloc::{AllocError, Global};

fn note_declarations<'a>(
    noted: &mut Noted<'a>,
    alloc: Global,
    tree: &'a Tree,
) -> Result<(), AllocError>
    requires { length (spelling (tree_view tree.now)) ≤ most_members }
    ensures { OnOk result (noted_view noted.new ≡ fold note (noted_view noted.old)
        (text_part (regions_of_tree (tree_view tree.now))
        (functions_of_tree (tree_view tree.now)))) }
{
    let regions = regions_in(alloc, tree)?;
    let functions = functions_in(alloc, tree)?;
    note_text(noted, alloc, regions.as_slice(), functions.as_slice())?;
    Ok(())
}

/// Notes all that is wrong in a tree of at most 2^20 tokens, but for a missing `main`. There is an
/// error where memory runs out.
pub fn note_tree<'a>(noted: &mut Noted<'a>, alloc: Global, tree: &'a Tree) -> Result<(), AllocError>
    requires { length (spelling (tree_view tree.now)) ≤ most_members }
    ensures { OnOk result (noted_view noted.new ≡ fold note (noted_view noted.old)
        (findings (tree_view tree.now))) }
{
    note_declarations(noted, alloc, tree)?;
    Ok(())
}

fn is_main(function: &Function) -> bool
    ensures { result ≡ is_function (codes "main") (function_view function.now) }
{
    b"main".as_slice() == function.name.text.as_bytes()
}

/// Whether the tree has a function `main`.
pub fn has_main(tree: &Tree) -> bool
    ensures { result ≡ is_some (main_of (tree_view tree.now)) }
{
    for declaration in &tree.declarations {
        match declaration {
            Declaration::Region(_) => {}
            Declaration::Function(function) => {
                if is_main(function) {
                    return true;
                }
            }
        }
    }
    false
}
