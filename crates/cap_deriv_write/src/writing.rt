//! The whole of a derivation.
ghost use Rattle.std.specs.Prelude.{◌≡◌, ◌≤◌, ◌<◌, ◌^◌, IfOk, length};
ghost use Rattle.cap_goal.specs.Trees.{bundle_view};
ghost use Rattle.cap_deriv.specs.Told.{most_nodes, told_by_bytes};
ghost use Rattle.cap_deriv.specs.Told.{opening_told, choices_told, all_told};
ghost use Rattle.cap_deriv_write.specs.Bounds.{HaveNoZeros, TreesFit};
ghost use Rattle.cap_deriv_write.specs.Preorder.{choices_of_roots};
ghost use Rattle.cap_deriv_write.specs.Spelled.{DerivationLines, HaveNoSpaces};
ghost use Rattle.cap_deriv_write.specs.Written.{derivation_text};

use crate::preorder::preorder;
use crate::put::{put_choice, put_closing, put_opening};
use cap_goal::Bundle;
use std::alloc::{AllocError, Global};

// The lines, of which the numbers are those of the code's types.
fn lines(alloc: Global, bundle: &Bundle) -> Result<Vec<u8>, AllocError>
    ensures text { IfOk result (λ bytes. bytes.items ≡ derivation_text (bundle_view bundle.now)) }
    ensures fits { IfOk result (λ bytes. TreesFit (bundle_view bundle.now)) }
{
    let choices = preorder(alloc, bundle)?;
    let mut out = Vec::new(alloc);
    put_opening(&mut out, alloc, bundle.trees.len())?;
    for one in &choices {
        put_choice(&mut out, alloc, one)?;
    }
    put_closing(&mut out, alloc, choices.len())?;
    Ok(out)
}

/// The lines of a bundle's trees: the first one, one for each node in preorder, and the last one.
pub fn write(alloc: Global, bundle: &Bundle) -> Result<Vec<u8>, AllocError>
    ensures text { IfOk result (λ bytes. bytes.items ≡ derivation_text (bundle_view bundle.now)) }

    // Where no multiplier is 0, the bytes are lines of the trees, without spaces.
    ensures lines { let roots = bundle_view bundle.now in IfOk result (λ bytes.
        HaveNoZeros roots → (length roots < 2 ^ 32)
        → DerivationLines roots bytes.items × HaveNoSpaces bytes.items) }

    // They are read back as the choices in preorder, where these are at most a million.
    ensures read_back { let roots = bundle_view bundle.now in IfOk result (λ bytes.
        HaveNoZeros roots → (length roots < 2 ^ 32)
        → (length (choices_of_roots roots) ≤ most_nodes)
        → told_by_bytes bytes.items
        ≡ opening_told (length roots) (choices_told (choices_of_roots roots) all_told)) }
{
    lines(alloc, bundle)
}
