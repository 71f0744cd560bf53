//! Names that occur whole or hidden, and scopes of words.
ghost use Rattle.std.specs.Prelude.{◌≡◌, ◌++◌, IfOk, OnOk};
ghost use Rattle.cap_resolve_spec.specs.Names.{whole_numbers, hidden};
ghost use Rattle.cap_resolve_parts.specs.Views.{words_view};

use cap_lin::Sort;
use cap_parse_tree::Word;
use cap_resolve_terms::{Known, Scope};
use std::alloc::{AllocError, Global};

/// Appends words to a scope as whole numbers.
pub fn push_whole<'a>(scope: &mut Scope<'a>, words: &[&'a Word]) -> Result<(), AllocError>
    ensures { OnOk result (scope.new ≡ scope.old ++ whole_numbers (words_view words.now)) }
{
    for word in words {
        let name = word.text.as_bytes();
        scope.push(Some(Known {
            name,
            sort: Sort::Int,
        }))?;
    }
    Ok(())
}

/// Appends variables to a scope whose names are not known.
pub fn push_hidden<'a>(scope: &mut Scope<'a>, words: &[&'a Word]) -> Result<(), AllocError>
    ensures { OnOk result (scope.new ≡ scope.old ++ hidden (words_view words.now)) }
{
    for _word in words {
        scope.push(None)?;
    }
    Ok(())
}

/// The scope of these words as whole numbers.
pub fn scope_of_words<'a>(alloc: Global, words: &[&'a Word]) -> Result<Scope<'a>, AllocError>
    ensures { IfOk result (λ scope. scope ≡ whole_numbers (words_view words.now)) }
{
    let mut scope = Scope::new(alloc);
    push_whole(&mut scope, words)?;
    Ok(scope)
}
