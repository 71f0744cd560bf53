//! Guards that an assertion or an action asks for.
ghost use Rattle.std.specs.Prelude.{◌≡◌, IfOk};
ghost use Rattle.cap_parse_tree.specs.Views.{guard_view};
ghost use Rattle.cap_resolve_spec.specs.Program.{asked_program};
ghost use Rattle.cap_resolve_functions.specs.Narrow.{IsNarrowGuard};

use crate::slots::build_slot;
use cap_parse_tree::{Counted, GuardAtom};
use cap_prog::Asked;
use cap_resolve_terms::Scope;
use std::alloc::{AllocError, Global};

/// What is asked of a guard.
pub fn build_asked(alloc: Global, scope: &Scope<'_>, guard: &GuardAtom) -> Result<Asked, AllocError>
    requires { IsNarrowGuard scope.now (guard_view guard.now) }
    ensures { IfOk result (λ a. a ≡ asked_program scope.now (guard_view guard.now)) }
{
    match guard {
        GuardAtom::Alone(_) => Ok(Asked::One),
        GuardAtom::Amount(_, _, amount, _) => Ok(Asked::Share(build_slot(alloc, scope, amount)?)),
        GuardAtom::Count(Counted::Source, _, _, _, count, _) => {
            Ok(Asked::Src(build_slot(alloc, scope, count)?))
        }
        GuardAtom::Count(Counted::Tokens, _, _, _, count, _) => {
            Ok(Asked::Tok(build_slot(alloc, scope, count)?))
        }
        GuardAtom::Count(Counted::At, _, _, _, index, _) => {
            Ok(Asked::At(build_slot(alloc, scope, index)?))
        }
        GuardAtom::Count(Counted::From, _, _, _, index, _) => {
            Ok(Asked::From(build_slot(alloc, scope, index)?))
        }
    }
}
