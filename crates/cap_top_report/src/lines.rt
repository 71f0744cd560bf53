//! The line of a unit.
ghost use Rattle.std.specs.Prelude.{◌≡◌, ◌++◌, IfOk, OnOk, string_bytes};
ghost use Rattle.cap_syntax.specs.Place.{place_text as text_of_place};
ghost use Rattle.cap_prog.specs.Views.{program_view};
ghost use Rattle.cap_goal.specs.Views.{unit_view};
ghost use Rattle.cap_goal_roots.specs.Units.{HasUnit};
ghost use Rattle.cap_search.specs.Views.{need_view, obligation_view, verdict_view};
ghost use Rattle.cap_top_report.specs.Texts.{need_word as word_of_need, obligation_text as text_of};
ghost use Rattle.cap_top_report.specs.Texts.{verdict_text as text_of_verdict};
ghost use Rattle.cap_top_report.specs.Texts.{unit_title, titled_line};
ghost use Rattle.cap_top_report.specs.Report.{once_proved};

use cap_goal::Unit;
use cap_prog::Program;
use cap_search::{Need, Obligation, Verdict};
use cap_syntax::Place;
use std::alloc::{AllocError, Global};

/// How often a unit with this verdict counts as proved.
pub(crate) fn once_proved(verdict: &Verdict) -> usize
    ensures { result ≡ once_proved (verdict_view verdict.now) }
{
    match verdict {
        Verdict::Proved(_) => 1,
        Verdict::Spent(_)
        | Verdict::Deep
        | Verdict::Wide(_, _)
        | Verdict::Rows
        | Verdict::Stuck(_) => 0,
    }
}

fn need_word(need: Need) -> &'static str
    ensures { result.now ≡ word_of_need (need_view need) }
{
    match need {
        Need::Fact => "fact",
        Need::Cell => "cell",
        Need::Region => "region",
        Need::Guard => "guard",
        Need::Move => "move",
        Need::State => "state",
    }
}

fn place_text(alloc: Global, place: Place) -> Result<String, AllocError>
    ensures { IfOk result (λ text. string_bytes text ≡ text_of_place place) }
{
    format!(in alloc; "{place}")
}

fn obligation_text(alloc: Global, obligation: Obligation) -> Result<String, AllocError>
    ensures { IfOk result (λ text. string_bytes text ≡ text_of (obligation_view obligation)) }
{
    let statement = obligation.statement;
    let mut text = format!(in alloc; "open {statement} needs ")?;
    text.push_str(need_word(obligation.need))?;
    text.push_str(" ")?;
    let item = place_text(alloc, obligation.item)?;
    text.push_str(item.as_str())?;
    Ok(text)
}

fn verdict_text(alloc: Global, verdict: &Verdict) -> Result<String, AllocError>
    ensures { IfOk result
        (λ text. string_bytes text ≡ text_of_verdict (verdict_view verdict.now)) }
{
    match verdict {
        Verdict::Proved(_) => String::from_str(alloc, "proved"),
        Verdict::Spent(budget) => format!(in alloc; "spent {budget}"),
        Verdict::Deep => String::from_str(alloc, "deep 1000"),
        Verdict::Wide(first, second) => format!(in alloc; "wide {first} {second}"),
        Verdict::Rows => String::from_str(alloc, "rows 4096"),
        Verdict::Stuck(obligation) => obligation_text(alloc, *obligation),
    }
}

// Writes the kind and the name of a unit.
fn push_title(text: &mut Vec<u8>, program: &Program, unit: Unit) -> Result<(), AllocError>
    requires { HasUnit (program_view program.now) (unit_view unit) }
    ensures { OnOk result (text.new.items
        ≡ text.old.items ++ unit_title (program_view program.now) (unit_view unit)) }
{
    match unit {
        Unit::Region(number) => {
            text.extend_from_slice(b"region ")?;
            text.extend_from_slice(program.region(number).name.as_bytes())?;
        }
        Unit::Function(number) => {
            text.extend_from_slice(b"function ")?;
            text.extend_from_slice(program.function(number).name.as_bytes())?;
        }
    }
    Ok(())
}

/// Writes the line of a unit with this verdict.
pub(crate) fn push_line(
    alloc: Global,
    text: &mut Vec<u8>,
    program: &Program,
    unit: Unit,
    verdict: &Verdict,
) -> Result<(), AllocError>
    requires { HasUnit (program_view program.now) (unit_view unit) }
    ensures { OnOk result (text.new.items ≡ text.old.items
        ++ titled_line (unit_title (program_view program.now) (unit_view unit))
        (verdict_view verdict.now)) }
{
    let verdict = verdict_text(alloc, verdict)?;
    push_title(text, program, unit)?;
    text.extend_from_slice(b": ")?;
    text.extend_from_slice(verdict.as_bytes())?;
    text.push(b'\n')?;
    Ok(())
}
