//! Places in the bodies of functions: no step copies a block.
ghost use Rattle.std.specs.Prelude.{◌≡◌, suc, ◌^◌, ◌<◌, ◌∷◌, [], ◌++◌, IfOk, IfSome, OnErr};
ghost use Rattle.std.specs.Prelude.{slice_get, option_map, option_copied};
ghost use Rattle.std.specs.Vec.{vec_len};
ghost use Rattle.cap_prog.specs.Program.{append};
ghost use Rattle.cap_prog.specs.Views.{act_view, block_view, statement_view};
ghost use Rattle.cap_machine.specs.Places.{skip, side_of as the_side_of, is_loop as is_a_loop, inside};
ghost use Rattle.cap_machine.specs.Places.{after, past, block_at, rest_at, here, IsSettled};

use cap_prog::{Act, Statement};
use std::alloc::AllocError;

/// A block that was entered: by the statement at an index of the block around it, on one of its
/// sides.
#[derive(Clone, Copy)]
pub(crate) struct Level {
    pub(crate) index: usize,
    pub(crate) side: bool,
}

fn get(block: &[Statement], index: usize) -> Option<&Statement>
    ensures is { option_copied result ≡ slice_get block.now index }
    ensures within { IfSome result (λ _. index < 2 ^ 63) }
{
    block.get(index)
}

// The statement at an index.
fn statement_at(block: &[Statement], index: usize) -> Option<&Statement>
    ensures is { skip index (block_view block.now)
        ≡ here (option_map statement_view (option_copied result))
        (skip (suc index) (block_view block.now)) }
    ensures within { IfSome result (λ _. index < 2 ^ 63) }
{
    get(block, index)
}

// The block that a level leads into.
fn inside(block: &[Statement], level: Level) -> &[Statement]
    ensures { block_view result.now ≡ inside level.side (skip level.index (block_view block.now)) }
{
    match statement_at(block, level.index) {
        None => &[],
        Some(statement) => side_of(&statement.act, level.side),
    }
}

fn side_of(act: &Act, side: bool) -> &[Statement]
    ensures { block_view result.now ≡ the_side_of side (act_view act.now) }
{
    match act {
        Act::If(_, first, second) => { if side { first } else { second } }
        Act::While(_, _, block) => block,
        Act::Set(_, _)
        | Act::Read(_, _)
        | Act::Write(_, _)
        | Act::Cas(_, _, _, _)
        | Act::Faa(_, _, _)
        | Act::Dispose(_)
        | Act::Alloc(_, _)
        | Act::Call(_, _, _)
        | Act::Fork(_, _)
        | Act::Assert(_)
        | Act::Return(_) => &[],
    }
}

// The index behind the block that the statement at an index leads into: a loop stands there once
// more.
fn after(block: &[Statement], index: usize) -> usize
    ensures { result ≡ after (skip index (block_view block.now)) index }
{
    match statement_at(block, index) {
        None => index,
        Some(statement) => {
            if is_loop(&statement.act) {
                index
            } else {
                index + 1
            }
        }
    }
}

fn is_loop(act: &Act) -> bool
    ensures { result ≡ is_a_loop (act_view act.now) }
{
    matches!(act, Act::While(_, _, _))
}

// The index behind the statement at an index.
pub(crate) fn past(block: &[Statement], index: usize) -> usize
    ensures { result ≡ past (skip index (block_view block.now)) index }
{
    match statement_at(block, index) {
        None => index,
        Some(_) => index + 1,
    }
}

// The innermost block.
pub(crate) fn block_at<'a>(body: &'a [Statement], levels: &[Level]) -> &'a [Statement]
    ensures { block_view result.now ≡ block_at (block_view body.now) levels.now }
{
    match levels {
        [] => body,
        [level, rest @ ..] => block_at(inside(body, *level), rest),
    }
}

/// The statement at a place.
pub(crate) fn ahead<'a>(
    body: &'a [Statement],
    levels: &[Level],
    next: usize,
) -> Option<&'a Statement>
    ensures is { let b = block_at (block_view body.now) levels.now in
        skip next b ≡ here (option_map statement_view (option_copied result)) (skip (suc next) b) }
{
    statement_at(block_at(body, levels), next)
}

/// Leaves the blocks at whose end the place stands.
#[tactic(auto, using(crate::proofs::PlaceLemmas::leave))]
pub(crate) fn settle(body: &[Statement], levels: &mut Vec<Level>, next: usize) -> usize
    ensures rest { rest_at (block_view body.now) levels.new.items result
        ≡ rest_at (block_view body.now) levels.old.items next }
    ensures settled { IsSettled (block_view body.now) levels.new.items result }
{
    match ahead(body, levels, next) {
        Some(_) => next,
        None => match levels.pop() {
            None => next,
            Some(level) => {
                let next = after(block_at(body, levels), level.index);
                settle(body, levels, next)
            }
        },
    }
}
