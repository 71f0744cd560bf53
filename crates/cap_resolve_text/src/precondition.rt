//! What is wrong in the precondition of `main`.
ghost use Rattle.std.specs.Prelude.{◌≡◌, fold, filter, take, option_to_list};
ghost use Rattle.cap_parse_tree.specs.Views.{assertion_view, clause_view, function_view, item_view};
ghost use Rattle.cap_resolve_spec.specs.Finding.{note};
ghost use Rattle.cap_resolve_spec.specs.Parts.{outer_items};
ghost use Rattle.cap_resolve_spec.specs.Functions.{asks_for_more as asks, main_findings};
ghost use Rattle.cap_resolve_terms.specs.Views.{noted_view};
ghost use Rattle.cap_resolve_tables.specs.Tables.{functions_of};
ghost use Rattle.cap_resolve_text.specs.Parts.{item_seen, main_part, asking_findings};

use cap_parse_tree::{Assertion, Clause, Function, Item};
use cap_resolve_parts::item_place;
use cap_resolve_tables::FunctionTable;
use cap_resolve_terms::{Cause, Noted};

/// Whether an item is no comparison, cell, `true` or `false`.
#[tactic(auto, using(cap_parse_tree::specs::declared::assertion::Item::TheFolds::the_lemmas))]
fn asks_for_more(item: &Item) -> bool
    ensures { result ≡ asks (item_view item.now) }
{
    match item {
        Item::Fact(_, _, _, _, _, _, _) => true,
        Item::Guards(_, _, _) | Item::Choose(_, _, _, _, _) => true,
        Item::True(_) | Item::False(_) | Item::Cell(_, _, _) | Item::Compare(_) => false,
    }
}

/// The first item, outside of all sides, that asks for more.
fn first_asking(assertion: &Assertion) -> Option<&Item>
    ensures { option_to_list (item_seen result)
        ≡ take 1 (filter asks (outer_items (assertion_view assertion.now))) }
{
    if asks_for_more(&assertion.first) {
        return Some(&assertion.first);
    }
    for and in &assertion.more {
        if asks_for_more(&and.item) {
            return Some(&and.item);
        }
    }
    None
}

fn note_asking(noted: &mut Noted<'_>, item: Option<&Item>)
    ensures { noted_view noted.new ≡ fold note (noted_view noted.old)
        (asking_findings (option_to_list (item_seen item.entry))) }
{
    match item {
        None => {}
        Some(item) => noted.note_if(true, item_place(item), Cause::MainPre),
    }
}

fn note_precondition(noted: &mut Noted<'_>, clause: &Clause)
    ensures { noted_view noted.new ≡ fold note (noted_view noted.old)
        (asking_findings (take 1 (filter asks (outer_items (clause_view clause.now).assertion)))) }
{
    note_asking(noted, first_asking(&clause.assertion));
}

/// Notes what is wrong in `main` alone: that its precondition asks for more than cells.
fn note_main(noted: &mut Noted<'_>, main: &Function)
    ensures { noted_view noted.new ≡ fold note (noted_view noted.old)
        (main_findings (function_view main.now)) }
{
    match &main.precondition {
        None => {}
        Some(clause) => note_precondition(noted, clause),
    }
}

/// The same of the function `main`, if there is one.
pub fn note_named_main(noted: &mut Noted<'_>, functions: &FunctionTable<'_>)
    ensures { noted_view noted.new ≡ fold note (noted_view noted.old)
        (main_part (functions_of functions.now)) }
{
    match functions.named(b"main".as_slice()) {
        None => {}
        Some(main) => note_main(noted, main),
    }
}
