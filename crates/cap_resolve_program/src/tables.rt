//! The tables of region types and functions of a tree.
ghost use Rattle.std.specs.Prelude.{◌≡◌, ◌≤◌, length, IfOk};
ghost use Rattle.cap_prog.specs.WellFormed.{most_members};
ghost use Rattle.cap_parse_tree.specs.Spelling.{spelling};
ghost use Rattle.cap_parse_tree.specs.Views.{tree_view};
ghost use Rattle.cap_resolve_spec.specs.Parts.{regions, functions};
ghost use Rattle.cap_resolve_tables.specs.Tables.{regions_of, functions_of};

use cap_parse_tree::Tree;
use cap_resolve_tables::{
    FunctionTable, RegionTable, function_table, functions_in, region_table, regions_in,
};
use std::alloc::{AllocError, Global};

/// The table of the region types of a tree of at most 2^20 tokens.
pub(crate) fn regions_of_tree<'a>(
    alloc: Global,
    tree: &'a Tree,
) -> Result<RegionTable<'a>, AllocError>
    requires { length (spelling (tree_view tree.now)) ≤ most_members }
    ensures { IfOk result (λ table. regions_of table ≡ regions (tree_view tree.now)) }
{
    let found = regions_in(alloc, tree)?;
    region_table(alloc, found.as_slice())
}

/// The table of the functions of a tree of at most 2^20 tokens.
pub(crate) fn functions_of_tree<'a>(
    alloc: Global,
    tree: &'a Tree,
) -> Result<FunctionTable<'a>, AllocError>
    requires { length (spelling (tree_view tree.now)) ≤ most_members }
    ensures { IfOk result (λ table. functions_of table ≡ functions (tree_view tree.now)) }
{
    let found = functions_in(alloc, tree)?;
    function_table(alloc, found.as_slice())
}
