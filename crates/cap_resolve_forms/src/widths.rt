//! Whether a term's form stays within 128 bits, and all that is wrong in a term.
ghost use Rattle.std.specs.Prelude.{◌≡◌, ◌<◌, ◌^◌, fold, length, OnOk, IfOk};
ghost use Rattle.cap_lin.specs.Exact.{IsExact};
ghost use Rattle.cap_parse_tree.specs.Views.{term_view};
ghost use Rattle.cap_resolve_spec.specs.Finding.{note, found_if, limit, width};
ghost use Rattle.cap_resolve_spec.specs.Linear.{term_form, term_steps, is_wide as leaves_bits};
ghost use Rattle.cap_resolve_spec.specs.Parts.{term_place as place_of};
ghost use Rattle.cap_resolve_spec.specs.Terms.{wanted_as, term_findings};
ghost use Rattle.cap_resolve_terms.specs.Views.{noted_view};

use crate::forms::form;
use crate::long::LongForm;
use crate::names::Names;
use cap_lin::{LinError, Sort, Term as Linear};
use cap_parse_tree::Term;
use cap_resolve_parts::term_place;
use cap_resolve_terms::{Cause, Limit, Noted, Scope, note_brackets, note_products_of};
use std::alloc::{AllocError, Global};

/// The linear form of a term over the variables of a scope. A product of two terms with variables
/// counts as 0, and each name that is not known as the variable behind the last. Wide has the first
/// result on the way, from the left to the right, that leaves 128 bits.
pub fn linear(alloc: Global, scope: &Scope<'_>, term: &Term) -> Result<Linear, LinError>
    requires { length scope.now < 2 ^ 32 }
    ensures { IsExact result (term_steps scope.now (term_view term.now))
        (term_form scope.now (term_view term.now)) }
{
    let names = Names::of_scope(alloc, scope);
    form(alloc, &names, term)
}

/// Whether some result on the way to a term's linear form leaves 128 bits, where each name that is
/// not known is a variable of its own. There is an error where memory runs out.
pub fn is_wide<'a>(alloc: Global, scope: &Scope<'a>, term: &'a Term) -> Result<bool, AllocError>
    ensures { IfOk result (λ wide. wide ≡ leaves_bits scope.now (term_view term.now)) }
{
    let names = Names::with_names(alloc, scope, term)?;
    match form::<LongForm>(alloc, &names, term) {
        Ok(_) => Ok(false),
        Err(LinError::Wide(_, _)) => Ok(true),
        Err(LinError::OutOfMemory) => Err(AllocError),
    }
}

/// Notes a term of which some result on the way to its linear form leaves 128 bits.
pub(crate) fn note_width<'a>(
    noted: &mut Noted<'_>,
    alloc: Global,
    scope: &Scope<'a>,
    term: &'a Term,
) -> Result<(), AllocError>
    ensures { OnOk result (noted_view noted.new ≡ fold note (noted_view noted.old)
        (found_if (leaves_bits scope.now (term_view term.now)) (place_of (term_view term.now))
        (limit width))) }
{
    let wide = is_wide(alloc, scope, term)?;
    noted.note_if(wide, term_place(term), Cause::Limit(Limit::Width));
    Ok(())
}

/// Notes what is wrong in a term, which is wanted of this sort, if of one.
pub fn note_term<'a>(
    noted: &mut Noted<'_>,
    alloc: Global,
    scope: &Scope<'a>,
    wanted: Option<Sort>,
    term: &'a Term,
) -> Result<(), AllocError>
    ensures { OnOk result (noted_view noted.new ≡ fold note (noted_view noted.old)
        (term_findings scope.now (wanted_as wanted (term_view term.now)))) }
{
    note_products_of(noted, scope, wanted, term);
    note_brackets(noted, scope, term);
    note_width(noted, alloc, scope, term)
}
