//! The trees of all roots that have choices in preorder.
ghost use Rattle.std.specs.Prelude.{map};
ghost use Rattle.std.specs.List.{AllByRecursion};
ghost use Rattle.cap_prog.specs.Views.{program_view};
ghost use Rattle.cap_goal.specs.Views.{choice_view};
ghost use Rattle.cap_kernel_check_steps.specs.Views.{StartIsKept, starts_view};
ghost use Rattle.cap_kernel_check_steps.specs.GrowthViews.{Shapes};

use crate::error::CheckError;
use crate::growth::grow_at_roots;
use crate::preorder::Preorder;
use crate::start::Start;
use cap_goal::{Bundle, Choice};
use cap_prog::Program;
use std::alloc::Global;

/// The trees of all roots, which have all of these choices in preorder. `Node` has the number of
/// the first node whose choice does not apply, that stands deeper than a thousand, or that a barred
/// root has or would have; `Shape` that of the first node that is left over, or one more than the
/// last before one that is missing. The goals at the roots are kept.
pub fn shape_at<'a>(
    alloc: Global,
    program: &'a Program,
    starts: &[Start<'a>],
    choices: &[Choice],
) -> Result<Bundle, CheckError>
    requires { AllByRecursion (StartIsKept (program_view program.now)) (starts_view starts.now) }
    ensures { Shapes (program_view program.now) (starts_view starts.now)
        (map choice_view choices.now) result }
{
    let mut choices = Preorder::new(choices);
    let trees = grow_at_roots(alloc, program, starts, &mut choices)?;
    choices.end()?;
    Ok(Bundle { trees })
}
