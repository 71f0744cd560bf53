//! The program for which a tree stands, or its refusal.
ghost use Rattle.std.specs.Prelude.{◌≡◌, ◌≤◌, length, IfOk, Some};
ghost use Rattle.cap_prog.specs.WellFormed.{most_members};
ghost use Rattle.cap_parse_tree.specs.Spelling.{spelling};
ghost use Rattle.cap_parse_tree.specs.Views.{tree_view};
ghost use Rattle.cap_resolve_terms.specs.Views.{finding_view};
ghost use Rattle.cap_resolve.specs.Errors.{IsResolved, error_view};

use crate::error::ResolveError;
use cap_parse_tree::Tree;
use cap_prog::Program;
use cap_resolve_program::build_program;
use cap_resolve_terms::{Cause, Finding, Noted};
use cap_resolve_text::{has_main, note_tree};
use cap_syntax::{Place, Text};
use std::alloc::{AllocError, Global};

/// Where it is said that there is no `main`.
const FIRST_PLACE: Place = Place { line: 1, column: 1 };

/// The refusal by a finding.
fn refusal(alloc: Global, finding: &Finding<'_>) -> Result<ResolveError, AllocError>
    ensures { IfOk result (λ e. error_view e ≡ Some (finding_view finding.now)) }
{
    let place = finding.place;
    match finding.cause {
        Cause::Unknown(name) => Ok(ResolveError::Unknown(Text::from_slice(alloc, name)?, place)),
        Cause::Twice(name) => Ok(ResolveError::Twice(Text::from_slice(alloc, name)?, place)),
        Cause::Arity => Ok(ResolveError::Arity(place)),
        Cause::Sort => Ok(ResolveError::Sort(place)),
        Cause::NonLinear => Ok(ResolveError::NonLinear(place)),
        Cause::NoMain => Ok(ResolveError::NoMain(place)),
        Cause::MainPre => Ok(ResolveError::MainPre(place)),
        Cause::SelfFact => Ok(ResolveError::SelfFact(place)),
        Cause::Limit(limit) => Ok(ResolveError::Limit(limit, place)),
    }
}

/// The program for which a tree stands.
///
/// The tree has no more tokens than a text may have bytes. Of the causes for which it stands for no
/// program the one with the least place counts and, at one place, the first in the order of
/// `ResolveError`; `NoMain` comes only where there is no other.
pub fn resolve(alloc: Global, tree: &Tree) -> Result<Program, ResolveError>
    requires { length (spelling (tree_view tree.now)) ≤ most_members }
    ensures { IsResolved (tree_view tree.now) result }
{
    let mut noted = Noted { first: None };
    note_tree(&mut noted, alloc, tree)?;
    match noted.first {
        Some(finding) => Err(refusal(alloc, &finding)?),
        None if has_main(tree) => Ok(build_program(alloc, tree)?),
        None => Err(ResolveError::NoMain(FIRST_PLACE)),
    }
}
