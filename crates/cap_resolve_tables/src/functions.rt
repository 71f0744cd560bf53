//! The table of functions, in which the first of a name counts.
ghost use Rattle.std.specs.Prelude.{◌≡◌, ◌<◌, ◌^◌, length, IfOk};
ghost use Rattle.cap_parse_tree.specs.Views.{tree_view};
ghost use Rattle.cap_resolve_spec.specs.Parts.{regions, functions};
ghost use Rattle.cap_resolve_spec.specs.Functions.{function_named};
ghost use Rattle.cap_resolve_spec.specs.Program.{function_number};
ghost use Rattle.cap_resolve_parts.specs.Views.{regions_view, functions_view};
ghost use Rattle.cap_resolve_tables.specs.Tables.{functions_of, function_seen};

use crate::tables::FunctionTable;
use cap_lin::Sort;
use cap_parse_tree::{Declaration, Function, Region, Tree};
use cap_resolve_terms::{Known, Scope};
use std::alloc::{AllocError, Global};

/// The region types of a text, in its order.
pub fn regions_in<'a>(alloc: Global, tree: &'a Tree) -> Result<Vec<&'a Region>, AllocError>
    ensures { IfOk result (λ found. regions_view found.items ≡ regions (tree_view tree.now)) }
{
    let mut found = Vec::new(alloc);
    for declaration in &tree.declarations {
        match declaration {
            Declaration::Region(region) => found.push(region)?,
            Declaration::Function(_) => {}
        }
    }
    Ok(found)
}

/// The functions of a text, in its order.
pub fn functions_in<'a>(alloc: Global, tree: &'a Tree) -> Result<Vec<&'a Function>, AllocError>
    ensures { IfOk result (λ found. functions_view found.items ≡ functions (tree_view tree.now)) }
{
    let mut found = Vec::new(alloc);
    for declaration in &tree.declarations {
        match declaration {
            Declaration::Function(function) => found.push(function)?,
            Declaration::Region(_) => {}
        }
    }
    Ok(found)
}

/// The table of these functions. There is an error where memory runs out.
pub fn function_table<'a>(
    alloc: Global,
    functions: &[&'a Function],
) -> Result<FunctionTable<'a>, AllocError>
    requires { length (functions_view functions.now) < 2 ^ 32 }
    ensures { IfOk result (λ t. functions_of t ≡ functions_view functions.now) }
{
    let mut list = Vec::new(alloc);
    let mut names = Scope::new(alloc);
    for function in functions {
        list.push(*function)?;
        names.push(Some(Known {
            name: function.name.text.as_bytes(),
            sort: Sort::Int,
        }))?;
    }
    Ok(FunctionTable {
        functions: list,
        names,
    })
}

impl<'a> FunctionTable<'a> {
    /// The number of the function of this name, or the number of functions where none has it.
    pub fn number(&self, name: &[u8]) -> u32
        ensures { result ≡ function_number (functions_of self.now) name.now }
    {
        self.names.variable(name)
    }

    /// The function of this name, if there is one.
    pub fn named(&self, name: &[u8]) -> Option<&'a Function>
        ensures { function_seen result ≡ function_named (functions_of self.now) name.now }
    {
        let number = self.names.number(name);
        match self.functions.as_slice().get(number) {
            Some(function) => Some(*function),
            None => None,
        }
    }
}
