//! Points of bodies.
ghost use Rattle.std.specs.Prelude.{◌≡◌, IfOk};
ghost use Rattle.cap_rules_steps.specs.Goals.{point_view, ahead};

use cap_goal::Point;
use cap_prog::Statement;
use std::alloc::{AllocError, Global};

/// The statement that comes first, if there is one, and the point behind it.
pub fn next_statement<'a>(
    alloc: Global,
    point: &Point<'a>,
) -> Result<Option<(&'a Statement, Point<'a>)>, AllocError>
    ensures { IfOk result (λ next. point_view point.now ≡ ahead next) }
{
    let mut lists = Vec::from_slice(alloc, &point.lists)?;
    while let Some(list) = lists.pop() {
        if let [statement, rest @ ..] = list {
            lists.push(rest)?;
            return Ok(Some((statement, Point { lists })));
        }
    }
    Ok(None)
}
