//! The answer of two parts that compose each for itself.
ghost use Rattle.std.specs.Prelude.{◌≡◌};
ghost use Rattle.cap_galg_spec.specs.Answers.{answer_of_both};

use cap_galg_spec::GuardError;

/// The answers for two parts, as one answer: nothing where either is nothing, else the first want
/// of memory, else Wide.
pub fn paired_answer<A: Drop, B: Drop>(
    first: Result<Option<A>, GuardError>,
    second: Result<Option<B>, GuardError>,
) -> Result<Option<(A, B)>, GuardError>
    ensures { result ≡ answer_of_both first second }
{
    match first {
        Ok(None) => Ok(None),
        Ok(Some(x)) => match second? {
            None => Ok(None),
            Some(y) => Ok(Some((x, y))),
        },
        Err(GuardError::OutOfMemory) => Err(GuardError::OutOfMemory),
        Err(GuardError::Wide) => match second? {
            None => Ok(None),
            Some(_) => Err(GuardError::Wide),
        },
    }
}
