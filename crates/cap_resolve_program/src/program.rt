//! The program of a tree that is not refused.
ghost use Rattle.std.specs.Prelude.{◌≡◌, ◌≤◌, IfOk, None, length, map};
ghost use Rattle.cap_prog.specs.Views.{program_view, region_view as region_seen};
ghost use Rattle.cap_prog.specs.WellFormed.{most_members};
ghost use Rattle.cap_parse_tree.specs.Spelling.{spelling};
ghost use Rattle.cap_parse_tree.specs.Views.{tree_view};
ghost use Rattle.cap_resolve_spec.specs.Parts.{regions as regions_in, functions as functions_in};
ghost use Rattle.cap_resolve_spec.specs.Program.{program_of};
ghost use Rattle.cap_resolve_spec.specs.Stands.{refusal};
ghost use Rattle.cap_resolve_tables.specs.Tables.{regions_of, functions_of};

use crate::parts::{build_functions, build_regions};
use crate::tables::{functions_of_tree, regions_of_tree};
use cap_parse_tree::Tree;
use cap_prog::{Function, Program, RegionType};
use cap_resolve_spec::programs_are_well_formed;
use cap_resolve_tables::{FunctionTable, RegionTable};
use std::alloc::{AllocError, Global};

/// The program of these parts, which are those of the tree's program.
fn put_together(
    tree: &Tree,
    regions: Vec<RegionType>,
    functions: Vec<Function>,
    main: u32,
) -> Program
    requires small { length (spelling (tree_view tree.now)) ≤ most_members }
    requires right { refusal (tree_view tree.now) ≡ None }
    requires parts { program_view
        (record { regions = regions.items; functions = functions.items; main = main })
        ≡ program_of (tree_view tree.now) }
    ensures { program_view result ≡ program_of (tree_view tree.now) }
{
    programs_are_well_formed();
    Program::new(regions, functions, main)
}

/// The program of a tree with these region types, by these tables of the tree.
fn build_with(
    alloc: Global,
    tree: &Tree,
    regions: &RegionTable<'_>,
    functions: &FunctionTable<'_>,
    types: Vec<RegionType>,
) -> Result<Program, AllocError>
    requires small { length (spelling (tree_view tree.now)) ≤ most_members }
    requires right { refusal (tree_view tree.now) ≡ None }
    requires regions { regions_of regions.now ≡ regions_in (tree_view tree.now) }
    requires functions { functions_of functions.now ≡ functions_in (tree_view tree.now) }
    requires types { map region_seen types.items ≡ (program_of (tree_view tree.now)).regions }
    ensures { IfOk result (λ p. program_view p ≡ program_of (tree_view tree.now)) }
{
    let built = build_functions(alloc, regions, functions)?;
    let main = functions.number(b"main");
    Ok(put_together(tree, types, built, main))
}

/// The program of a tree, by these tables of its region types and of its functions.
fn build_by(
    alloc: Global,
    tree: &Tree,
    regions: &RegionTable<'_>,
    functions: &FunctionTable<'_>,
) -> Result<Program, AllocError>
    requires small { length (spelling (tree_view tree.now)) ≤ most_members }
    requires right { refusal (tree_view tree.now) ≡ None }
    requires regions { regions_of regions.now ≡ regions_in (tree_view tree.now) }
    requires functions { functions_of functions.now ≡ functions_in (tree_view tree.now) }
    ensures { IfOk result (λ p. program_view p ≡ program_of (tree_view tree.now)) }
{
    let types = build_regions(alloc, regions)?;
    build_with(alloc, tree, regions, functions, types)
}

/// The program of a tree that is not refused and of at most 2^20 tokens: its region types and its
/// functions, each numbered from 0 in the order of the text, and the number of `main`. There is an
/// error where memory runs out.
pub fn build_program(alloc: Global, tree: &Tree) -> Result<Program, AllocError>
    requires small { length (spelling (tree_view tree.now)) ≤ most_members }
    requires right { refusal (tree_view tree.now) ≡ None }
    ensures { IfOk result (λ p. program_view p ≡ program_of (tree_view tree.now)) }
{
    let regions = regions_of_tree(alloc, tree)?;
    let functions = functions_of_tree(alloc, tree)?;
    build_by(alloc, tree, &regions, &functions)
}
