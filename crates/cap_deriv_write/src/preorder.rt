//! The choices of trees in preorder.
ghost use Rattle.std.specs.Prelude.{◌≡◌, ◌++◌, IfOk, OnOk, length};
ghost use Rattle.cap_goal.specs.Trees.{node_view, bundle_view};
ghost use Rattle.cap_deriv_write.specs.Preorder.{choices_of_tree, choices_of_roots};
ghost use Rattle.cap_deriv_write.specs.Seen.{choices_seen};

use cap_goal::{Bundle, Choice, Node};
use std::alloc::{AllocError, Global};

// Puts the choices of a tree behind the list.
#[cycle(preorder)]
fn push_tree<'a>(list: &mut Vec<&'a Choice>, node: &'a Node) -> Result<(), AllocError>
    ensures { OnOk result (choices_seen list.new.items
        ≡ choices_seen list.old.items ++ choices_of_tree (node_view node.now)) }
{
    list.push(&node.choice)?;
    for child in &node.children {
        push_tree(list, child)?;
    }
    Ok(())
}

/// The choices of a bundle's trees.
pub(crate) fn preorder<'a>(alloc: Global, bundle: &'a Bundle) -> Result<Vec<&'a Choice>, AllocError>
    ensures { IfOk result (λ list. choices_seen list.items
        ≡ choices_of_roots (bundle_view bundle.now)) }
{
    let mut list = Vec::new(alloc);
    for root in &bundle.trees {
        match root {
            Some(node) => push_tree(&mut list, node)?,
            None => {}
        }
    }
    Ok(list)
}

/// How many nodes a bundle's trees have. The only error is want of memory.
pub fn node_count(alloc: Global, bundle: &Bundle) -> Result<usize, AllocError>
    ensures { IfOk result (λ n. n ≡ length (choices_of_roots (bundle_view bundle.now))) }
{
    let choices = preorder(alloc, bundle)?;
    Ok(choices.len())
}
