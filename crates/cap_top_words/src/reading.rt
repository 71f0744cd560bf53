//! The command that words are, if they are one.
ghost use Rattle.std.specs.Prelude.{◌≡◌, ◌≤◌, IfOk, IfSome, codes, map, string_bytes};
ghost use Rattle.std.specs.Prelude.{option_and_then, option_map};
ghost use Rattle.clap.specs.Words.{first_of, found_of, rows_of, subcommand_rows_of};
ghost use Rattle.cap_top_words.specs.Meaning.{check, command_of, core, derive, outline, owners_of};
ghost use Rattle.cap_top_words.specs.Meaning.{replay, show, stray_of, trial, verify};
ghost use Rattle.cap_top_words.specs.Number.{number_within};
ghost use Rattle.cap_top_words.specs.Parser.{budget_in, command_in, file_and_budget_in};
ghost use Rattle.cap_top_words.specs.Parser.{has_lone_dash, one_operand_in, three_operands_in};
ghost use Rattle.cap_top_words.specs.Parser.{two_operands_in};
ghost use Rattle.cap_top_words.specs.Views.{command_view};

use crate::command::Command;
use crate::numeral::number;
use crate::parser::parser;
use clap::ArgMatches;
use clap::error::ErrorKind;
use std::alloc::{AllocError, Global};

/// The budget where the words give none.
pub const DEFAULT_BUDGET: u64 = 200_000;

const MAX_BUDGET: u64 = 1_000_000_000;

const MAX_TRIAL: u64 = 50;

const MAX_SCHEDULES: u64 = 1_000;

// `-` alone stands before the first `--`: `clap` would take it for an operand.
fn has_lone_dash(words: &[String]) -> bool
    ensures { result ≡ has_lone_dash (map string_bytes words.now) }
{
    for word in words {
        if word.as_str() == "--" {
            return false;
        }
        if word.as_str() == "-" {
            return true;
        }
    }
    false
}

// The value of the argument, where it was given.
fn value<'a>(matches: &ArgMatches<'a>, id: &str) -> Option<&'a str>
    ensures { option_map (λ s. s.now) result ≡ first_of id.now (rows_of (found_of matches.now)) }
{
    matches.get_str(id)
}

// The budget, where the option's value is one.
fn budget(matches: &ArgMatches<'_>) -> Option<u64>
    ensures { result ≡ budget_in (rows_of (found_of matches.now)) }
{
    match value(matches, "budget") {
        Some(text) => number(text, 1, MAX_BUDGET),
        None => Some(DEFAULT_BUDGET),
    }
}

// The number from `least` to `most` that the argument's value is.
fn number_in(matches: &ArgMatches<'_>, id: &str, least: u64, most: u64) -> Option<u64>
    ensures exact { result ≡ option_and_then (number_within least most)
        (first_of id.now (rows_of (found_of matches.now))) }
    ensures within { IfSome result (λ n. n ≤ most) }
{
    number(value(matches, id)?, least, most)
}

// `verify FILE [--budget N]`
fn verify<'a>(matches: &ArgMatches<'a>) -> Option<Command<'a>>
    ensures { let rows = rows_of (found_of matches.now) in option_map command_view result
        ≡ file_and_budget_in verify rows }
{
    Some(Command::Verify {
        file: value(matches, "file")?,
        budget: budget(matches)?,
    })
}

// `derive FILE [--budget N]`
fn derive<'a>(matches: &ArgMatches<'a>) -> Option<Command<'a>>
    ensures { let rows = rows_of (found_of matches.now) in option_map command_view result
        ≡ file_and_budget_in derive rows }
{
    Some(Command::Derive {
        file: value(matches, "file")?,
        budget: budget(matches)?,
    })
}

// `check FILE DERIVATION`
fn check<'a>(matches: &ArgMatches<'a>) -> Option<Command<'a>>
    ensures { let rows = rows_of (found_of matches.now) in option_map command_view result
        ≡ two_operands_in (codes "file") (codes "derivation") check rows }
{
    Some(Command::Check {
        file: value(matches, "file")?,
        derivation: value(matches, "derivation")?,
    })
}

// `replay FILE SCHEDULE`
fn replay<'a>(matches: &ArgMatches<'a>) -> Option<Command<'a>>
    ensures { let rows = rows_of (found_of matches.now) in option_map command_view result
        ≡ two_operands_in (codes "file") (codes "schedule") replay rows }
{
    Some(Command::Replay {
        file: value(matches, "file")?,
        schedule: value(matches, "schedule")?,
    })
}

// `show FILE`
fn show<'a>(matches: &ArgMatches<'a>) -> Option<Command<'a>>
    ensures { let rows = rows_of (found_of matches.now) in option_map command_view result
        ≡ one_operand_in (codes "file") (λ file. Some (show file)) rows }
{
    Some(Command::Show {
        file: value(matches, "file")?,
    })
}

// `trial NUMBER`
fn trial<'a>(matches: &ArgMatches<'a>) -> Option<Command<'a>>
    ensures { let rows = rows_of (found_of matches.now) in option_map command_view result
        ≡ one_operand_in (codes "number") (λ n. option_map trial (number_within 1 50 n)) rows }
{
    Some(Command::Trial {
        number: number_in(matches, "number", 1, MAX_TRIAL)? as u32,
    })
}

// `outline FILE DERIVATION`
fn outline<'a>(matches: &ArgMatches<'a>) -> Option<Command<'a>>
    ensures { let rows = rows_of (found_of matches.now) in option_map command_view result
        ≡ two_operands_in (codes "file") (codes "derivation") outline rows }
{
    Some(Command::Outline {
        file: value(matches, "file")?,
        derivation: value(matches, "derivation")?,
    })
}

// `owners FILE DERIVATION SCHEDULE`
fn owners<'a>(matches: &ArgMatches<'a>) -> Option<Command<'a>>
    ensures { let rows = rows_of (found_of matches.now) in option_map command_view result
        ≡ three_operands_in (codes "file") (codes "derivation") (codes "schedule") owners_of
        rows }
{
    Some(Command::Owners {
        file: value(matches, "file")?,
        derivation: value(matches, "derivation")?,
        schedule: value(matches, "schedule")?,
    })
}

// `stray FILE NUMBER COUNT`
fn stray<'a>(matches: &ArgMatches<'a>) -> Option<Command<'a>>
    ensures { let rows = rows_of (found_of matches.now) in option_map command_view result
        ≡ three_operands_in (codes "file") (codes "number") (codes "count") stray_of rows }
{
    Some(Command::Stray {
        file: value(matches, "file")?,
        number: number_in(matches, "number", 0, u64::MAX)?,
        count: number_in(matches, "count", 1, MAX_SCHEDULES)?,
    })
}

// `core FILE`
fn core<'a>(matches: &ArgMatches<'a>) -> Option<Command<'a>>
    ensures { let rows = rows_of (found_of matches.now) in option_map command_view result
        ≡ one_operand_in (codes "file") (λ file. Some (core file)) rows }
{
    Some(Command::Core {
        file: value(matches, "file")?,
    })
}

// The command of the subcommand `name` with these matches.
fn command<'a>(name: &str, matches: &ArgMatches<'a>) -> Option<Command<'a>>
    ensures { let rows = rows_of (found_of matches.now) in
        option_map command_view result ≡ command_in name.now rows }
{
    match name {
        "verify" => verify(matches),
        "derive" => derive(matches),
        "check" => check(matches),
        "replay" => replay(matches),
        "show" => show(matches),
        "trial" => trial(matches),
        "outline" => outline(matches),
        "owners" => owners(matches),
        "stray" => stray(matches),
        "core" => core(matches),
        _ => None,
    }
}

// The command of the subcommand that was met, and of its matches.
fn met_command<'a>(matches: &ArgMatches<'a>) -> Option<Command<'a>>
    ensures { option_map command_view result
        ≡ option_and_then (λ sub. command_in sub.0 sub.1) (subcommand_rows_of matches.now) }
{
    let (name, inner) = matches.subcommand()?;
    command(name, inner)
}

/// The command that the words after the program's name are, and `None` where they are no command.
///
/// A command is a name and then its operands. Those that have a budget take the option `--budget N`
/// or `--budget=N` too, at most once, anywhere after the name. Before the first `--` no other word
/// begins with `-`, and all words after it are operands. Numbers are decimal, without leading
/// zeros.
///
/// The words are read by `clap`, none of whose texts is printed. The only error is want of memory.
pub fn read_command<'a>(
    alloc: Global,
    words: &'a [String],
) -> Result<Option<Command<'a>>, AllocError>
    ensures { let bytes = map string_bytes words.entry.now in
        IfOk result (λ c. option_map command_view c ≡ command_of bytes) }
{
    if has_lone_dash(words) {
        return Ok(None);
    }
    match parser(alloc)?.try_get_matches_from(words) {
        Ok(matches) => Ok(met_command(&matches)),
        Err(error) if error.kind() == ErrorKind::OutOfMemory => Err(AllocError),
        Err(_) => Ok(None),
    }
}
