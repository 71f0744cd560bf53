//! Why bytes are refused, and the line that says so.
ghost use Rattle.std.specs.Prelude.{◌≡◌, ◌++◌, IfOk};
ghost use Rattle.cap_resolve_spec.specs.Finding.{limit_name};
ghost use Rattle.cap_resolve.specs.Errors.{error_view};
ghost use Rattle.cap_resolve_terms.specs.Views.{limit_view};
ghost use Rattle.cap_top_reading.specs.Texts.{refused_at, finding_line, refusal_line};
ghost use Rattle.cap_top_reading.specs.declared.refusal.Refusal.TheVariants.{OutOfMemory};

use cap_resolve::ResolveError;
use cap_resolve_terms::Limit;
use cap_syntax::Place;
use std::alloc::{AllocError, Global};
use thiserror::Error;

/// Why bytes are no text of a tree or of a program, by the least place, and want of memory.
#[derive(Debug, Drop, Error)]
pub enum Refusal {
    /// A byte that begins no token, or that may not follow the token before it.
    #[error("bad byte")]
    BadByte(Place),
    /// Digits of more than a literal may be worth.
    #[error("literal too long")]
    LongLiteral(Place),
    /// More bytes than a text may have.
    #[error("text too long")]
    TextTooLong,
    /// The first token after which no text goes on so, or the end of a text that ends too early.
    #[error("unexpected token")]
    Unexpected(Place),
    /// A bracket that opens while 64 are open.
    #[error("nested too deep")]
    TooDeep(Place),
    /// The tree stands for no program. The cause is not want of memory.
    #[error("no program")]
    Unresolved(ResolveError),
    #[error("out of memory")]
    OutOfMemory,
}

impl From<AllocError> for Refusal {
    ghost from_gives = { λ _ e. e ≡ OutOfMemory };

    fn from(_: AllocError) -> Self {
        Refusal::OutOfMemory
    }
}

/// The line that says it: `refused L:C: CAUSE`. Want of memory has none.
pub fn refusal_text(alloc: Global, refusal: &Refusal) -> Result<Vec<u8>, AllocError>
    ensures { IfOk result (λ text. text.items ≡ refusal_line refusal.now) }
{
    match refusal {
        Refusal::BadByte(place) => line(alloc, *place, "bad byte"),
        Refusal::LongLiteral(place) => line(alloc, *place, "literal too long"),
        Refusal::TextTooLong => line(alloc, FIRST_PLACE, "text too long"),
        Refusal::Unexpected(place) => line(alloc, *place, "unexpected token"),
        Refusal::TooDeep(place) => line(alloc, *place, "nested too deep"),
        Refusal::Unresolved(error) => unresolved(alloc, error),
        Refusal::OutOfMemory => Ok(Vec::new(alloc)),
    }
}

const FIRST_PLACE: Place = Place { line: 1, column: 1 };

/// The name of a limit.
fn limit_name(limit: Limit) -> &'static str
    ensures { result.now ≡ limit_name (limit_view limit) }
{
    match limit {
        Limit::Functions => "functions",
        Limit::Regions => "regions",
        Limit::Parameters => "parameters",
        Limit::Guards => "guards",
        Limit::Variables => "variables",
        Limit::Alloc => "alloc",
        Limit::Width => "width",
    }
}

/// A refusal's line, by its place and cause.
fn line(alloc: Global, place: Place, cause: &str) -> Result<Vec<u8>, AllocError>
    ensures { IfOk result (λ text. text.items ≡ refused_at place cause.now) }
{
    named(alloc, place, cause, &[], "")
}

/// A refusal's line, whose cause has a name within it.
fn named(
    alloc: Global,
    place: Place,
    before: &str,
    name: &[u8],
    after: &str,
) -> Result<Vec<u8>, AllocError>
    ensures { IfOk result (λ text. text.items
        ≡ refused_at place (before.now ++ (name.now ++ after.now))) }
{
    let mut text = format!(in alloc; "refused {place}: ")?.into_bytes();
    text.extend_from_slice(before.as_bytes())?;
    text.extend_from_slice(name)?;
    text.extend_from_slice(after.as_bytes())?;
    text.push(b'\n')?;
    Ok(text)
}

fn unresolved(alloc: Global, error: &ResolveError) -> Result<Vec<u8>, AllocError>
    ensures { IfOk result (λ text. text.items ≡ finding_line (error_view error.now)) }
{
    match error {
        ResolveError::Unknown(name, place) => {
            named(alloc, *place, "unknown name ", name.as_bytes(), "")
        }
        ResolveError::Twice(name, place) => {
            named(alloc, *place, "name ", name.as_bytes(), " twice")
        }
        ResolveError::Arity(place) => line(alloc, *place, "wrong number of arguments"),
        ResolveError::Sort(place) => line(alloc, *place, "wrong sort"),
        ResolveError::NonLinear(place) => line(alloc, *place, "product of two names"),
        ResolveError::NoMain(place) => line(alloc, *place, "no main"),
        ResolveError::MainPre(place) => line(alloc, *place, "main asks for more than cells"),
        ResolveError::SelfFact(place) => line(alloc, *place, "region states itself"),
        ResolveError::Limit(limit, place) => {
            named(alloc, *place, "limit ", limit_name(*limit).as_bytes(), "")
        }
        ResolveError::OutOfMemory => Ok(Vec::new(alloc)),
    }
}
