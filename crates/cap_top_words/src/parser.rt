//! The words of the command line, as `clap` is told of them.
ghost use Rattle.std.specs.Prelude.{◌≡◌, ◌∷◌, IfOk, codes, false, fold, map};
ghost use Rattle.clap.specs.Words.{app_of, rule_of, with_subcommand};
ghost use Rattle.cap_top_words.specs.Parser.{IsSubcommand, bare_app, budget_rule, budgeted_rules};
ghost use Rattle.cap_top_words.specs.Parser.{caper_app, operand_rule, operand_rules};
ghost use Rattle.cap_top_words.specs.Parser.{subcommand_of_rules};

use clap::{Arg, Command};
use std::alloc::{AllocError, Global};

// An operand, which has to be there.
fn operand<'a>(alloc: Global, id: &'a str) -> Arg<'a>
    ensures rule { rule_of result ≡ operand_rule id.entry.now }
    ensures local { result.global ≡ false }
{
    Arg::new(alloc, id).required(true)
}

// `--budget N` or `--budget=N`
fn budget<'a>(alloc: Global) -> Arg<'a>
    ensures rule { rule_of result ≡ budget_rule }
    ensures local { result.global ≡ false }
{
    Arg::new(alloc, "budget").long("budget")
}

// A subcommand with these operands.
fn with_operands<'a>(
    alloc: Global,
    name: &'a str,
    operands: &[&'a str],
) -> Result<Command<'a>, AllocError>
    ensures { let ids = map (λ id. id.now) operands.entry.now in
        IfOk result (IsSubcommand name.entry.now (operand_rules ids)) }
{
    let mut command = Command::new(alloc, name);
    for id in operands {
        command = command.arg(operand(alloc, id))?;
    }
    Ok(command)
}

// `FILE [--budget N]`
fn with_file_and_budget<'a>(alloc: Global, name: &'a str) -> Result<Command<'a>, AllocError>
    ensures { IfOk result (IsSubcommand name.entry.now budgeted_rules) }
{
    Ok(
        Command::new(alloc, name)
            .arg(budget(alloc))?
            .arg(operand(alloc, "file"))?,
    )
}

// The command with one subcommand more, which takes these operands.
fn with_subcommand<'a>(
    alloc: Global,
    command: Command<'a>,
    name: &'a str,
    operands: &[&'a str],
) -> Result<Command<'a>, AllocError>
    ensures { let ids = map (λ id. id.now) operands.entry.now in
        let sub = subcommand_of_rules name.entry.now (operand_rules ids) in
        IfOk result (λ c. app_of c ≡ with_subcommand (app_of command.entry) sub) }
{
    command.subcommand(with_operands(alloc, name, operands)?)
}

// The command with these subcommands too, each a name and its operands.
fn with_subcommands<'a>(
    alloc: Global,
    mut command: Command<'a>,
    table: &[(&'a str, &[&'a str])],
) -> Result<Command<'a>, AllocError>
    ensures { IfOk result (λ c. app_of c ≡ fold (λ app row. with_subcommand app
        (subcommand_of_rules row.0.now (operand_rules (map (λ id. id.now) row.1.now))))
        (app_of command.entry) table.entry.now) }
{
    for (name, operands) in table {
        command = with_subcommand(alloc, command, name, operands)?;
    }
    Ok(command)
}

// The command with one subcommand more, which takes `FILE [--budget N]`.
fn with_budgeted<'a>(
    alloc: Global,
    command: Command<'a>,
    name: &'a str,
) -> Result<Command<'a>, AllocError>
    ensures { let sub = subcommand_of_rules name.entry.now budgeted_rules in
        IfOk result (λ c. app_of c ≡ with_subcommand (app_of command.entry) sub) }
{
    command.subcommand(with_file_and_budget(alloc, name)?)
}

// The parser with no subcommand.
fn bare<'a>(alloc: Global) -> Command<'a>
    ensures { app_of result ≡ bare_app }
{
    Command::new(alloc, "caper")
        .no_binary_name(true)
        .disable_help_flag(true)
        .disable_help_subcommand(true)
        .subcommand_required(true)
}

/// The parser of the words after the program's name: one level of subcommands, all values as text,
/// and no help.
pub(crate) fn parser<'a>(alloc: Global) -> Result<Command<'a>, AllocError>
    ensures { IfOk result (λ c. app_of c ≡ caper_app) }
{
    let command = with_budgeted(alloc, bare(alloc), "verify")?;
    let command = with_budgeted(alloc, command, "derive")?;
    with_subcommands(
        alloc,
        command,
        &[
            ("check", &["file", "derivation"]),
            ("replay", &["file", "schedule"]),
            ("show", &["file"]),
            ("trial", &["number"]),
            ("outline", &["file", "derivation"]),
            ("owners", &["file", "derivation", "schedule"]),
            ("stray", &["file", "number", "count"]),
            ("core", &["file"]),
        ],
    )
}
