//! The loops of a body, each with the place at which it stands.
ghost use Rattle.std.specs.Prelude.{◌≡◌, ◌++◌, ◌∷◌, [], drop, IfOk};
ghost use Rattle.cap_prog.specs.Program.{done, append, PlainStatement};
ghost use Rattle.cap_prog.specs.Views.{block_view, statement_view};
ghost use Rattle.cap_goal_spec.specs.Roots.{loops_in, loops_of};
ghost use Rattle.cap_goal.specs.Views.{block_in};
ghost use Rattle.cap_goal_roots.specs.Views.{loops_view};

use cap_goal::Point;
use cap_prog::{Act, Assertion, Statement};
use std::alloc::{AllocError, Global};

/// A loop: its invariant, and the statements from it on.
#[derive(Drop)]
pub struct LoopPoint<'a> {
    pub invariant: &'a Assertion,
    pub point: Point<'a>,
}

// The statements of a list, and after them those of the others.
fn before<'a>(
    alloc: Global,
    list: &'a [Statement],
    others: &[&'a [Statement]],
) -> Result<Point<'a>, AllocError>
    ensures { IfOk result (λ p. block_in p.lists.items done
        ≡ append (block_view list.now) (block_in others.now done)) }
{
    let mut lists = Vec::from_slice(alloc, others)?;
    lists.push(list)?;
    Ok(Point { lists })
}

// Appends the loops of a statement, behind which the rest of its list and then the others run. The
// list from the statement on is lent too.
#[cycle(loops)]
fn push_loops_of<'a>(
    alloc: Global,
    loops: &mut Vec<LoopPoint<'a>>,
    statement: &'a Statement,
    from: &'a [Statement],
    rest: &'a [Statement],
    others: &[&'a [Statement]],
) -> Result<(), AllocError>
    requires { from.now ≡ statement.now ∷ rest.now }
    ensures { IfOk result (λ _. loops_view loops.new.items
        ≡ loops_view loops.old.items
        ++ loops_of (statement_view statement.now).act (statement_view statement.now).label
        (append (block_view rest.now) (block_in others.now done))) }
{
    match &statement.act {
        Act::If(_, yes, no) => {
            let point = before(alloc, rest, others)?;
            push_loops(alloc, loops, yes, &point.lists)?;
            push_loops(alloc, loops, no, &point.lists)
        }
        Act::While(_, invariant, body) => {
            let point = before(alloc, from, others)?;
            loops.push(LoopPoint { invariant, point })?;
            let outer = before(alloc, from, others)?;
            push_loops(alloc, loops, body, &outer.lists)
        }
        Act::Set(_, _)
        | Act::Read(_, _)
        | Act::Write(_, _)
        | Act::Cas(_, _, _, _)
        | Act::Faa(_, _, _)
        | Act::Dispose(_)
        | Act::Alloc(_, _)
        | Act::Call(_, _, _)
        | Act::Fork(_, _)
        | Act::Assert(_)
        | Act::Return(_) => Ok(()),
    }
}

/// Appends the loops of a list of statements, after which the others run, in the order of the text.
#[cycle(loops)]
pub fn push_loops<'a>(
    alloc: Global,
    loops: &mut Vec<LoopPoint<'a>>,
    list: &'a [Statement],
    others: &[&'a [Statement]],
) -> Result<(), AllocError>
    ensures { IfOk result (λ _. loops_view loops.new.items
        ≡ loops_view loops.old.items
        ++ loops_in (block_view list.now) (block_in others.now done)) }
{
    for i in 0..list.len() {
        push_loops_of(alloc, loops, &list[i], &list[i..], &list[i + 1..], others)?;
    }
    Ok(())
}
