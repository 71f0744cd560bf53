//! What fetches gave: a history that only proofs read.
ghost use Rattle.std.specs.Prelude.{◌≡◌, ◌++◌, [], ◌∷◌, string_bytes};
ghost use Rattle.std.specs.Borrow.{ftrue};
ghost use Rattle.cap_io.specs.Files.{Files};

use std::marker::Model;

/// The names and the bytes that fetches gave so far, in order. It takes no memory, and its methods do
/// nothing when the program runs.
#[derive(Drop)]
pub(crate) struct Given {
    ghost files: { Files },
}

impl Model for Given {
    ghost also_owns = { λ _. ftrue };
}

impl Given {
    /// Nothing was given.
    pub(crate) fn nothing() -> Given
        ensures { result.files ≡ [] }
    {
        Given {}
    }

    /// Then the file of this name gave these bytes.
    #[inline(always)]
    pub(crate) fn and(&self, _name: &String, _bytes: &Vec<u8>) -> Given
        ensures { result.files
            ≡ self.now.files ++ (string_bytes _name.now, _bytes.now.items) ∷ [] }
    {
        Given {}
    }
}
