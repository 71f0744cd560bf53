//! The parts of guards: their algebras and their words.
ghost use Rattle.std.specs.Prelude.{◌≡◌, ◌++◌, OnOk, option_to_list};
ghost use Rattle.cap_parse_tree.specs.Views.{declared_view, joint_view, algebra_view};
ghost use Rattle.cap_resolve_spec.specs.Parts.{declared_guards, joint_guards, algebra_guards};
ghost use Rattle.cap_resolve_spec.specs.Items.{guard_words};
ghost use Rattle.cap_resolve_parts.specs.Views.{declareds_view, word_seen};

use cap_parse_tree::{Algebra, Declared, Joint, Word};
use std::alloc::AllocError;

#[cycle(guards)]
fn push_declared<'a>(list: &mut Vec<&'a Declared>, declared: &'a Declared) -> Result<(), AllocError>
    ensures { OnOk result (declareds_view list.new.items
        ≡ declareds_view list.old.items ++ declared_guards (declared_view declared.now)) }
{
    match declared {
        Declared::Bracketed(_, algebra, _) => push_algebra(list, algebra),
        Declared::Unique(_)
        | Declared::Divisible(_, _)
        | Declared::Counting(_, _, _)
        | Declared::Indexed(_, _, _) => {
            list.push(declared)?;
            Ok(())
        }
    }
}

#[cycle(guards)]
fn push_joint<'a>(list: &mut Vec<&'a Declared>, joint: &'a Joint) -> Result<(), AllocError>
    ensures { OnOk result (declareds_view list.new.items
        ≡ declareds_view list.old.items ++ joint_guards (joint_view joint.now)) }
{
    push_declared(list, &joint.first)?;
    for both in &joint.more {
        push_declared(list, &both.declared)?;
    }
    Ok(())
}

/// Puts the guards that an algebra declares behind the list, in the order of the text.
#[cycle(guards)]
pub fn push_algebra<'a>(
    list: &mut Vec<&'a Declared>,
    algebra: &'a Algebra,
) -> Result<(), AllocError>
    ensures { OnOk result (declareds_view list.new.items
        ≡ declareds_view list.old.items ++ algebra_guards (algebra_view algebra.now)) }
{
    push_joint(list, &algebra.first)?;
    for either in &algebra.more {
        push_joint(list, &either.joint)?;
    }
    Ok(())
}

/// The name of a guard that is declared; an algebra in parentheses has none.
#[tactic(auto, using(cap_parse_tree::specs::declared::region::Declared::TheFolds::the_lemmas))]
pub fn guard_word(declared: &Declared) -> Option<&Word>
    ensures { option_to_list (word_seen result) ≡ guard_words (declared_view declared.now) }
{
    match declared {
        Declared::Unique(word) => Some(word),
        Declared::Divisible(_, word) => Some(word),
        Declared::Counting(_, word, _) => Some(word),
        Declared::Indexed(_, word, _) => Some(word),
        Declared::Bracketed(_, _, _) => None,
    }
}
