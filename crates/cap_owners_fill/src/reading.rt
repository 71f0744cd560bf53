//! What an environment makes of a slot of an assertion.
ghost use Rattle.std.specs.Prelude.{◌≡◌, is_some};
ghost use Rattle.std.specs.Option.{option_copied};
ghost use Rattle.cap_goal_spec.specs.Environments.{is_determined as has_terms, reading};
ghost use Rattle.cap_goal_spec.specs.Environments.{term_of as term_in, with_name, zero_value};
ghost use Rattle.cap_goal_spec.specs.Terms.{lone_variable};
ghost use Rattle.cap_prog.specs.declared.assertion.Slot.TheVariants.{Is};
ghost use Rattle.cap_owners_fill.specs.Views.{reading_view};

use cap_goal::Env;
use cap_lin::Term;
use cap_prog::Slot;
use std::alloc::Global;

/// What an environment makes of a slot of an assertion.
#[derive(Clone, Copy)]
pub enum Reading<'a> {
    /// A term whose names are all bound.
    Settled(&'a Term),
    /// One unbound name; `_` has none.
    OpenTo(Option<u32>),
    /// Another term with an unbound name.
    Stuck,
}

// The term of a name, if it is bound.
fn term_of(env: &Env, name: u32) -> Option<&Term>
    ensures { option_copied result ≡ term_in env.now name }
{
    let name = name as usize;
    if name >= env.terms.len() {
        return None;
    }
    match &env.terms[name] {
        None => None,
        Some(term) => Some(term),
    }
}

/// Whether a name is bound. It takes no memory.
pub(crate) fn is_bound(env: &Env, name: u32) -> bool
    ensures { result ≡ is_some (term_in env.now name) }
{
    term_of(env, name).is_some()
}

/// Whether each name of the term is bound. It takes no memory.
pub fn is_determined(env: &Env, term: &Term) -> bool
    ensures { result ≡ has_terms env.now term.now }
{
    for part in term.parts() {
        if !is_bound(env, part.0) {
            return false;
        }
    }
    true
}

/// The variable that the term is, alone. It takes no memory.
pub(crate) fn lone_name(term: &Term) -> Option<u32>
    ensures { result ≡ lone_variable term.now }
{
    if term.constant_part() != 0 {
        return None;
    }
    match term.parts() {
        [part] => { if part.1 == 1 { Some(part.0) } else { None } }
        _ => None,
    }
}

// What the environment makes of a term that stands as a slot.
fn read_term<'a>(env: &Env, term: &'a Term) -> Reading<'a>
    ensures { reading_view result ≡ reading env.now (Is term.now) }
{
    if is_determined(env, term) {
        return Reading::Settled(term);
    }
    match lone_name(term) {
        None => Reading::Stuck,
        Some(name) => Reading::OpenTo(Some(name)),
    }
}

/// What the environment makes of a slot. It takes no memory.
pub fn read_slot<'a>(env: &Env, slot: &'a Slot) -> Reading<'a>
    ensures { reading_view result ≡ reading env.now slot.now }
{
    match slot {
        Slot::Any => Reading::OpenTo(None),
        Slot::Is(term) => read_term(env, term),
    }
}

/// Binds a name to the number 0, where the environment has such a name. It takes no memory.
pub fn bind(alloc: Global, env: &mut Env, name: u32)
    ensures { env.new ≡ with_name env.old name zero_value }
{
    let name = name as usize;
    if name < env.terms.len() {
        env.terms[name] = Some(Term::constant(alloc, 0));
    }
}
