//! What was found, as a status and a text.
ghost use Rattle.std.specs.Prelude.{◌≡◌, IfOk};
ghost use Rattle.cap_top_commands.specs.Output.{end_status, schedule_line};
ghost use Rattle.cap_top_commands.specs.Output.{derivation_line, judged_line, trial_line};
ghost use Rattle.cap_top_commands.specs.Views.{output_view};

use crate::status::Status;
use cap_deriv::DerivError;
use cap_kernel_check::CheckError;
use cap_replay::{End, Played};
use cap_replay_schedules::ScheduleError;
use cap_top_reading::{Refusal, refusal_text};
use cap_top_report::{Counts, Report};
use std::alloc::{AllocError, Global};

/// What is said. A file that cannot be read is named, and a text that is shown is canonical. A
/// derivation that was written has its lines, one that was judged the number of its nodes or why it
/// is rejected.
#[derive(Drop)]
pub enum Output<'a> {
    Usage,
    Unreadable(&'a str),
    TooLong,
    Refused(Refusal),
    Reported(Report),
    Derived(Vec<u8>),
    DerivedTooLong,
    BadDerivation(DerivError),
    Judged(Result<u64, CheckError>),
    /// The states of an accepted derivation at each statement.
    Outlined(Vec<u8>),
    Shown(Vec<u8>),
    BadSchedule(ScheduleError),
    /// The text of a run, perhaps with its accounts.
    Played(Played),
    /// The number of a trial, and how many units of its program are proved.
    Tried { number: u32, counts: Counts },
    /// No schedules are drawn, as `main` asks for something; or the start that was given is none.
    NoStart,
    /// The text of a schedule that was drawn and ends in a fault.
    Stray(Vec<u8>),
    /// None of so many schedules ends in a fault.
    NoStray(u64),
}

/// The command line, for words that are none.
const USAGE: &str =
    "usage: caper verify FILE [--budget N] | derive FILE [--budget N] | check FILE DERIVATION | \
    replay FILE SCHEDULE | show FILE | trial N | outline FILE DERIVATION | \
    owners FILE DERIVATION SCHEDULE | stray FILE N M | core FILE\n";

/// The status of a run that ends so.
fn end_status(end: End) -> Status
    ensures { result ≡ end_status end }
{
    match end {
        End::Ended(_) => Status::Good,
        End::Stopped(_) => Status::Bad,
        End::NotEnabled(_) => Status::NotEnabled,
        End::Wide(_) => Status::Wide,
    }
}

/// The line for bytes that are no derivation.
fn derivation_text(alloc: Global, error: DerivError) -> Result<Vec<u8>, AllocError>
    ensures { IfOk result (λ text. text.items ≡ derivation_line error) }
{
    let text = match error {
        DerivError::BadLine(line) => format!(in alloc; "refused derivation line {line}\n")?,
        DerivError::Unended => String::from_str(alloc, "refused derivation: no end\n")?,
        DerivError::TooMany => {
            String::from_str(alloc, "refused derivation: more than 1000000 nodes\n")?
        }
        DerivError::OutOfMemory => String::new(alloc),
    };
    Ok(text.into_bytes())
}

/// The line for a derivation that is judged so.
fn judged_text(alloc: Global, answer: Result<u64, CheckError>) -> Result<Vec<u8>, AllocError>
    ensures { IfOk result (λ text. text.items ≡ judged_line answer) }
{
    let text = match answer {
        Ok(nodes) => format!(in alloc; "accepted {nodes}\n")?,
        Err(CheckError::Node(number)) => format!(in alloc; "rejected node {number}\n")?,
        Err(CheckError::Shape(number)) => format!(in alloc; "rejected shape {number}\n")?,
        Err(CheckError::OutOfMemory) => String::new(alloc),
    };
    Ok(text.into_bytes())
}

/// The line for bytes that are no schedule.
fn schedule_text(alloc: Global, error: ScheduleError) -> Result<Vec<u8>, AllocError>
    ensures { IfOk result (λ text. text.items ≡ schedule_line error) }
{
    let text = match error {
        ScheduleError::BadLine(line) => format!(in alloc; "refused schedule line {line}\n")?,
        ScheduleError::TooMany => {
            String::from_str(alloc, "refused schedule: more than 100000 entries\n")?
        }
        ScheduleError::OutOfMemory => String::new(alloc),
    };
    Ok(text.into_bytes())
}

/// The line for the trial of a number, so many units of which are proved.
fn counts_text(alloc: Global, number: u32, counts: Counts) -> Result<Vec<u8>, AllocError>
    ensures { IfOk result (λ text. text.items ≡ trial_line number counts.proved counts.all) }
{
    let Counts { proved, all } = counts;
    let text = format!(in alloc; "trial {number}: {all} units, {proved} proved\n")?;
    Ok(text.into_bytes())
}

impl<'a> Output<'a> {
    /// The status with which it is said.
    pub fn status(&self) -> Status
        ensures { result ≡ (output_view self.now).status }
    {
        match self {
            Output::Usage => Status::Usage,
            Output::Unreadable(_) => Status::ReadFault,
            Output::TooLong | Output::Refused(_) => Status::Refused,
            Output::Reported(report) if report.good => Status::Good,
            Output::Reported(_) => Status::Bad,
            Output::Derived(_) => Status::Good,
            Output::DerivedTooLong => Status::Bad,
            Output::BadDerivation(_) => Status::Refused,
            Output::Judged(Ok(_)) => Status::Good,
            Output::Judged(Err(_)) => Status::Bad,
            Output::Outlined(_) => Status::Good,
            Output::Shown(_) => Status::Good,
            Output::BadSchedule(_) => Status::Refused,
            Output::Played(played) => end_status(played.end),
            Output::Tried { counts, .. } if counts.proved == counts.all => Status::Good,
            Output::Tried { .. } => Status::Bad,
            Output::NoStart => Status::Refused,
            Output::Stray(_) => Status::Bad,
            Output::NoStray(_) => Status::Good,
        }
    }

    /// The text that says it. The only error is want of memory.
    pub fn into_text(self, alloc: Global) -> Result<Vec<u8>, AllocError>
        ensures { IfOk result (λ text. text.items ≡ (output_view self.entry).text) }
    {
        match self {
            Output::Usage => Ok(String::from_str(alloc, USAGE)?.into_bytes()),
            Output::Unreadable(name) => Ok(format!(in alloc; "cannot read {name}\n")?.into_bytes()),
            Output::TooLong => Ok(String::from_str(
                alloc,
                "refused: file too long\n",
            )?.into_bytes()),
            Output::Refused(refusal) => refusal_text(alloc, &refusal),
            Output::Reported(report) => Ok(report.text),
            Output::Derived(text) => Ok(text),
            Output::DerivedTooLong => Ok(String::from_str(
                alloc,
                "derivation too long\n",
            )?.into_bytes()),
            Output::BadDerivation(error) => derivation_text(alloc, error),
            Output::Judged(answer) => judged_text(alloc, answer),
            Output::Outlined(text) => Ok(text),
            Output::Shown(text) => Ok(text),
            Output::BadSchedule(error) => schedule_text(alloc, error),
            Output::Played(played) => Ok(played.text),
            Output::Tried { number, counts } => counts_text(alloc, number, counts),
            Output::NoStart => Ok(String::from_str(alloc, "refused start\n")?.into_bytes()),
            Output::Stray(text) => Ok(text),
            Output::NoStray(count) => {
                Ok(format!(in alloc; "stray: none in {count}\n")?.into_bytes())
            }
        }
    }
}
