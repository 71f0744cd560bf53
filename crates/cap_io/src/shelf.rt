//! What a shelf and a sink are: where files are read by name, and what takes the output.
ghost use Rattle.std.specs.Prelude.{◌≡◌, ◌≢◌, ◌≤◌, List, ℕ, Err, IsOk, OnOk, OnErr};
ghost use Rattle.cap_io.specs.declared.shelf.FetchError.TheVariants.{Failed, OutOfMemory};
ghost use Rattle.cap_io.specs.Files.{SeenShelf};
ghost use Rattle.cap_io.specs.Outside.{FetchAnswers, AnswersAreExact, Gives, Blames, Counts};
ghost use Rattle.cap_io.specs.Outside.{Measures, SeenSink, Gains, GainsPrefix, Rose};

use std::alloc::{AllocError, AllocFailed};
use thiserror::Error;

/// The most bytes that a file may have.
pub const LONGEST_FILE: usize = 67_108_864;

/// Why a fetch has no bytes.
#[derive(Clone, Copy, Debug, PartialEq, Eq, Error)]
pub enum FetchError {
    /// The file cannot be read: a fault, for which the shelf counts it and blames its name.
    #[error("the file cannot be read")]
    Failed,
    /// The shelf tells its files, and has none of this name.
    #[error("there is no such file")]
    Absent,
    /// The file has more than 67,108,864 bytes. The number is that of the bytes that were seen.
    #[error("the file is too long: {0} bytes were seen")]
    TooLong(u64),
    #[error("out of memory")]
    OutOfMemory,
}

impl From<AllocError> for FetchError {
    ghost from_gives = { λ _ e. e ≡ OutOfMemory };

    fn from(_: AllocError) -> Self {
        FetchError::OutOfMemory
    }
}

impl<T: Drop> From<AllocFailed<T>> for FetchError {
    ghost from_gives = { λ _ e. e ≡ OutOfMemory };

    fn from(_: AllocFailed<T>) -> Self {
        FetchError::OutOfMemory
    }
}

/// A put did not take all of its bytes.
#[derive(Clone, Copy, Debug, PartialEq, Eq, Error)]
#[error("the bytes cannot be written")]
pub struct PutFailed;

/// Files that are read by name.
pub trait Shelf {
    /// What is seen of the shelf: its files, where it tells them, what fetches gave so far, how many
    /// faults came so far, the name that met the last one, and how many fetches were answered, want of
    /// memory aside, where it counts them. The counts stand still at 2^64 - 1.
    ghost seen: { Self → SeenShelf };

    /// No fetch meets a fault, from here on. A shelf that cannot know leaves this out.
    ghost never_fails: { Self → Type 0 } = { λ _. ⊥ };

    /// The bytes of the file of this name, at most 67,108,864.
    ///
    /// `Failed` comes only where a fault came in this call. Over a shelf that tells its files, and
    /// where no fault came, `Absent` comes exactly where there is no file of this name, and `TooLong`
    /// exactly where it has more bytes than that, unless memory is short. A shelf that does not tell
    /// its files never answers `Absent`.
    fn fetch(&mut self, name: &str) -> Result<Vec<u8>, FetchError>
        ensures kept { (seen self.new).holds ≡ (seen self.old).holds }
        ensures answer { FetchAnswers (seen self.old).holds name.now result }
        ensures given { Gives name.now (seen self.old) (seen self.new) result }
        ensures later { (seen self.old).faults ≤ (seen self.new).faults }
        ensures blame { Blames name.now (seen self.old) (seen self.new) result }
        ensures counts { Counts (seen self.old) (seen self.new) result }
        ensures measure { Measures (seen self.old) (seen self.new) result }
        ensures sure { never_fails self.old → never_fails self.new
            × ((seen self.new).faults ≡ (seen self.old).faults) × (result ≢ Err Failed) };
}

/// A law of every shelf that tells its files: where no fault came and memory is not short, a fetch answers
/// exactly by the content of its file.
pub fn answers_are_exact()
    ensures { AnswersAreExact }
{}

/// A place that bytes are written to.
pub trait Sink {
    /// What is seen of the sink: the bytes that were written so far, where it tells them, and how many
    /// faults came so far, a count that stands still at 2^64 - 1.
    ghost seen: { Self → SeenSink };

    /// The next put, of these bytes, does not fail. A sink that cannot know leaves this out.
    ghost takes: { Self → List ℕ → Type 0 } = { λ _ _. ⊥ };

    /// Appends the bytes: all of them, or, where it fails, the first of them. It fails only where a
    /// fault came in this call.
    fn put(&mut self, bytes: &[u8]) -> Result<(), PutFailed>
        ensures later { (seen self.old).faults ≤ (seen self.new).faults }
        ensures all { OnOk result
            (Gains (seen self.old).written (seen self.new).written bytes.now) }
        ensures prefix { OnErr result
            (GainsPrefix (seen self.old).written (seen self.new).written bytes.now) }
        ensures cause { OnErr result (Rose (seen self.old).faults (seen self.new).faults) }
        ensures sure { takes self.old bytes.now → IsOk result };
}
