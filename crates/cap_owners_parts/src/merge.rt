//! The union of two sets, as a merge of their bounds.
ghost use Rattle.std.specs.Prelude.{◌≡◌, IfOk};
ghost use Rattle.cap_galg_indices.specs.Sets.{AreBounds, disjoint_union};

use crate::bounds::after_first;
use std::alloc::{AllocError, Global};

/// The union of two sets that are disjoint.
pub(crate) fn union(alloc: Global, left: &[u128], right: &[u128]) -> Result<Vec<u128>, AllocError>
    requires left { AreBounds left.now }
    requires right { AreBounds right.now }
    ensures { IfOk result (λ v. v.items ≡ disjoint_union left.now right.now) }
{
    let mut left = left;
    let mut right = right;
    let mut bounds = Vec::new(alloc);
    while !left.is_empty() && !right.is_empty() {
        let x = left[0];
        let y = right[0];
        if x < y {
            bounds.push(x)?;
            left = after_first(left);
        } else if y < x {
            bounds.push(y)?;
            right = after_first(right);
        } else {
            left = after_first(left);
            right = after_first(right);
        }
    }
    bounds.extend_from_slice(left)?;
    bounds.extend_from_slice(right)?;
    Ok(bounds)
}
