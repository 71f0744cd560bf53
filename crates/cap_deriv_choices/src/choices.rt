//! Choices, from the tokens of a line: their words, and the arguments of each.
ghost use Rattle.std.specs.Prelude.{◌≡◌};
ghost use Rattle.cap_goal.specs.Views.{choice_view};
ghost use Rattle.cap_deriv_choices.specs.Taking.{take_by_three, take_by_two, take_by_one};
ghost use Rattle.cap_deriv_choices.specs.Taking.{take_by_word, take_closed, take_choice};
ghost use Rattle.cap_deriv_choices.specs.Taking.{take_spans, take_last_spans, take_shift};
ghost use Rattle.cap_deriv_choices.specs.Views.{Takes};

use crate::certs::{cert, certs, marks};
use crate::values::{Fault, close, number, numbers};
use cap_goal::Choice;
use json::Reader;
use std::alloc::Global;

#[tactic(auto, unfolding(crate::specs::Taking::take_by_three))]
fn by_three(alloc: Global, word: &str, reader: &mut Reader<'_>) -> Result<Choice, Fault>
    ensures { Takes choice_view result reader.new (take_by_three word.now reader.old) }
{
    match word {
        "clash" => Ok(Choice::Clash(number(reader)?, number(reader)?, certs(alloc, reader)?)),
        "act" => Ok(Choice::Act(
            number(reader)?,
            certs(alloc, reader)?,
            marks(alloc, reader)?,
        )),
        "pick" => Ok(Choice::Pick(number(reader)?, number(reader)?, number(reader)?)),
        "guard" => Ok(Choice::Guard(number(reader)?, number(reader)?, certs(alloc, reader)?)),
        "convert" => Ok(Choice::Convert(number(reader)?, number(reader)?, certs(alloc, reader)?)),
        _ => Err(Fault::Form),
    }
}

#[tactic(auto, unfolding(crate::specs::Taking::take_by_two))]
fn by_two(alloc: Global, word: &str, reader: &mut Reader<'_>) -> Result<Choice, Fault>
    ensures { Takes choice_view result reader.new (take_by_two word.now reader.old) }
{
    match word {
        "enter" => Ok(Choice::Enter(number(reader)?, certs(alloc, reader)?)),
        "settle" => Ok(Choice::Settle(numbers(alloc, reader)?, certs(alloc, reader)?)),
        "cell" => Ok(Choice::Cell(number(reader)?, certs(alloc, reader)?)),
        "region" => Ok(Choice::Region(number(reader)?, certs(alloc, reader)?)),
        _ => by_three(alloc, word, reader),
    }
}

#[tactic(auto, unfolding(crate::specs::Taking::take_by_one))]
fn by_one(alloc: Global, word: &str, reader: &mut Reader<'_>) -> Result<Choice, Fault>
    ensures { Takes choice_view result reader.new (take_by_one word.now reader.old) }
{
    match word {
        "absurd" => Ok(Choice::Absurd(cert(alloc, reader)?)),
        "assert" => Ok(Choice::Assert(certs(alloc, reader)?)),
        "keep" => Ok(Choice::Keep(certs(alloc, reader)?)),
        "fact" => Ok(Choice::Fact(certs(alloc, reader)?)),
        "create" => Ok(Choice::Create(number(reader)?)),
        "made" => Ok(Choice::Made(certs(alloc, reader)?)),
        _ => by_two(alloc, word, reader),
    }
}

#[tactic(auto, unfolding(crate::specs::Taking::take_by_word))]
fn by_word(alloc: Global, word: &str, reader: &mut Reader<'_>) -> Result<Choice, Fault>
    ensures { Takes choice_view result reader.new (take_by_word word.now reader.old) }
{
    match word {
        "set" => Ok(Choice::Set),
        "alloc" => Ok(Choice::Alloc),
        "if" => Ok(Choice::If),
        "loop" => Ok(Choice::Loop),
        "turn" => Ok(Choice::Turn),
        "call" => Ok(Choice::Call),
        "fork" => Ok(Choice::Fork),
        "return" => Ok(Choice::Return),
        "give" => Ok(Choice::Give),
        "cases" => Ok(Choice::Cases),
        _ => by_one(alloc, word, reader),
    }
}

fn closed(alloc: Global, word: &str, reader: &mut Reader<'_>) -> Result<Choice, Fault>
    ensures { Takes choice_view result reader.new (take_closed word.now reader.old) }
{
    let choice = by_word(alloc, word, reader)?;
    close(reader)?;
    Ok(choice)
}

// An array of numbers that is not empty.
fn spans(alloc: Global, reader: &mut Reader<'_>) -> Result<Vec<u32>, Fault>
    ensures { Takes (λ v. v.items) result reader.new (take_spans reader.old) }
{
    let found = numbers(alloc, reader)?;
    if found.is_empty() {
        return Err(Fault::Form);
    }
    Ok(found)
}

// The end of the line's array, or such numbers before it.
fn last_spans(alloc: Global, reader: &mut Reader<'_>) -> Result<Vec<u32>, Fault>
    ensures { Takes (λ v. v.items) result reader.new (take_last_spans reader.old) }
{
    if reader.take_end_array() {
        return Ok(Vec::new(alloc));
    }
    let found = spans(alloc, reader)?;
    close(reader)?;
    Ok(found)
}

fn shift(alloc: Global, reader: &mut Reader<'_>) -> Result<Choice, Fault>
    ensures { Takes choice_view result reader.new (take_shift reader.old) }
{
    Ok(Choice::Shift(certs(alloc, reader)?, last_spans(alloc, reader)?))
}

/// The choice of a line whose bracket and word were read: the word's arguments, and the bracket
/// that ends the line. Numbers are within 32 bits, and multipliers within 128 bits and other than
/// 0. `Form` comes at a word that no choice has, and where what follows is not of its form;
/// `OutOfMemory` where there is no memory for the lists that the choice holds.
pub fn choice(alloc: Global, word: &str, reader: &mut Reader<'_>) -> Result<Choice, Fault>
    ensures { Takes choice_view result reader.new (take_choice word.now reader.old) }
{
    match word {
        "shift" => shift(alloc, reader),
        _ => closed(alloc, word, reader),
    }
}
