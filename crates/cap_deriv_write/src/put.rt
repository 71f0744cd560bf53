//! Lines, put behind a text.
ghost use Rattle.std.specs.Prelude.{◌≡◌, ◌++◌, IfOk, OnOk, false};
ghost use Rattle.serde_json.specs.View.{view};
ghost use Rattle.serde_json.specs.Written.{has_float};
ghost use Rattle.cap_goal.specs.Views.{choice_view};
ghost use Rattle.cap_deriv_write.specs.Bounds.{ChoiceFits};
ghost use Rattle.cap_deriv_write.specs.Forms.{choice_form, opening_form, closing_form};
ghost use Rattle.cap_deriv_write.specs.Written.{line_text};

use crate::choices::choice;
use crate::values::{headed_one, headed_two};
use cap_goal::Choice;
use serde_json::Value;
use std::alloc::{AllocError, Global};

// A value's line.
#[tactic(auto, unfolding(crate::specs::Written::line_text))]
fn put(out: &mut Vec<u8>, alloc: Global, value: &Value) -> Result<(), AllocError>
    ensures { OnOk result (has_float (view value.now) ≡ false
        → out.new.items ≡ out.old.items ++ line_text (view value.now)) }
{
    let bytes = value.to_vec(alloc)?;
    out.extend_from_slice(&bytes)?;
    out.push(b'\n')?;
    Ok(())
}

fn opening(alloc: Global, trees: usize) -> Result<Value, AllocError>
    ensures { IfOk result (λ v. view v ≡ opening_form trees) }
{
    headed_two(alloc, "caper", Value::from(1u32), Value::from(trees))
}

/// The first line.
pub(crate) fn put_opening(out: &mut Vec<u8>, alloc: Global, trees: usize) -> Result<(), AllocError>
    ensures { OnOk result (out.new.items ≡ out.old.items ++ line_text (opening_form trees)) }
{
    let value = opening(alloc, trees)?;
    put(out, alloc, &value)
}

/// The line of a choice.
pub(crate) fn put_choice(out: &mut Vec<u8>, alloc: Global, one: &Choice) -> Result<(), AllocError>
    ensures text { OnOk result (out.new.items
        ≡ out.old.items ++ line_text (choice_form (choice_view one.now))) }
    ensures fits { OnOk result (ChoiceFits (choice_view one.now)) }
{
    let value = choice(alloc, one)?;
    put(out, alloc, &value)
}

fn closing(alloc: Global, nodes: usize) -> Result<Value, AllocError>
    ensures { IfOk result (λ v. view v ≡ closing_form nodes) }
{
    headed_one(alloc, "end", Value::from(nodes))
}

/// The last line.
pub(crate) fn put_closing(out: &mut Vec<u8>, alloc: Global, nodes: usize) -> Result<(), AllocError>
    ensures { OnOk result (out.new.items ≡ out.old.items ++ line_text (closing_form nodes)) }
{
    let value = closing(alloc, nodes)?;
    put(out, alloc, &value)
}
