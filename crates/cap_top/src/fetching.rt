//! A command's files, read in the order of its words, and what is then answered.
ghost use Rattle.std.specs.Prelude.{◌≡◌, ◌≤◌, IfOk, map};
ghost use Rattle.cap_prog.specs.Views.{program_view};
ghost use Rattle.cap_goal.specs.Views.{choice_view};
ghost use Rattle.cap_top_commands.specs.Answers.{After, IsVerified, IsDerived, IsShown};
ghost use Rattle.cap_top_commands.specs.Answers.{IsStrayed, IsCored, IsOnly};
ghost use Rattle.cap_top_commands.specs.Schedules.{IsPlayed};
ghost use Rattle.cap_top_commands.specs.Derivations.{IsChecked};
ghost use Rattle.cap_top_commands.specs.Outlines.{IsOutline};
ghost use Rattle.cap_top_commands.specs.Owners.{IsOwners};
ghost use Rattle.cap_top_commands.specs.Views.{output_view};
ghost use Rattle.cap_io.specs.Files.{HasGiven};
ghost use Rattle.cap_io.specs.Outside.{IsCounted};
ghost use Rattle.cap_top.specs.Reads.{IsFetched, gift};
ghost use Rattle.cap_top.specs.Views.{fetched_view, BeginsAfter, ListsAfter};

use cap_deriv::Lines;
use cap_io::{FetchError, Shelf};
use cap_prog::Program;
use cap_top_accounts::{Listed, list, owners};
use cap_top_commands::{
    Begun, Output, begin, check, core, derive, outline, play, show, stray, verify,
};
use std::alloc::{AllocError, Global};

/// What a file gave: its bytes, nothing, or more bytes than a file may have.
#[derive(Drop)]
pub(crate) enum Fetched {
    Held(Vec<u8>),
    Unread,
    Long,
}

/// Reads a file. The only error is want of memory.
pub(crate) fn fetch<S: Shelf>(shelf: &mut S, name: &str) -> Result<Fetched, AllocError>
    ensures kept { (S.seen shelf.new).holds ≡ (S.seen shelf.old).holds }
    ensures later { (S.seen shelf.old).faults ≤ (S.seen shelf.new).faults }
    ensures fetched { IfOk result (λ x.
        IsFetched (S.seen shelf.old) (S.seen shelf.new) name.now (fetched_view x)) }
    ensures given { IfOk result (λ x.
        HasGiven (S.seen shelf.old) (S.seen shelf.new) (gift name.now (fetched_view x))) }
    ensures counted { IfOk result (λ _. IsCounted (S.seen shelf.old) (S.seen shelf.new)) }
{
    match shelf.fetch(name) {
        Ok(bytes) => Ok(Fetched::Held(bytes)),
        Err(FetchError::TooLong(_)) => Ok(Fetched::Long),
        Err(FetchError::OutOfMemory) => Err(AllocError),
        Err(FetchError::Failed | FetchError::Absent) => Ok(Fetched::Unread),
    }
}

/// What `verify` says of a file that gave this, within a budget of visits.
pub(crate) fn verify_file<'a>(
    alloc: Global,
    name: &'a str,
    file: Fetched,
    budget: u64,
) -> Result<Output<'a>, AllocError>
    ensures { IfOk result (λ o. IsOnly (After name.now (fetched_view file) (IsVerified budget))
        (output_view o)) }
{
    match file {
        Fetched::Held(bytes) => verify(alloc, bytes.as_slice(), budget),
        Fetched::Unread => Ok(Output::Unreadable(name)),
        Fetched::Long => Ok(Output::TooLong),
    }
}

/// What `derive` says of a file that gave this, within a budget of visits.
pub(crate) fn derive_file<'a>(
    alloc: Global,
    name: &'a str,
    file: Fetched,
    budget: u64,
) -> Result<Output<'a>, AllocError>
    ensures { IfOk result (λ o. IsOnly (After name.now (fetched_view file) (IsDerived budget))
        (output_view o)) }
{
    match file {
        Fetched::Held(bytes) => derive(alloc, bytes.as_slice(), budget),
        Fetched::Unread => Ok(Output::Unreadable(name)),
        Fetched::Long => Ok(Output::TooLong),
    }
}

/// What is known once the file of a program gave this, of which a second file is answered.
pub(crate) fn begin_file<'a>(
    alloc: Global,
    name: &'a str,
    file: Fetched,
) -> Result<Begun<'a>, AllocError>
    ensures { IfOk result (BeginsAfter name.now (fetched_view file)) }
{
    match file {
        Fetched::Held(bytes) => begin(alloc, bytes.as_slice()),
        Fetched::Unread => Ok(Begun::Said(Output::Unreadable(name))),
        Fetched::Long => Ok(Begun::Said(Output::TooLong)),
    }
}

/// What is said of a derivation's file that gave this.
pub(crate) fn check_file<'a>(
    alloc: Global,
    program: &Program,
    name: &'a str,
    file: Fetched,
) -> Result<Output<'a>, AllocError>
    ensures { IfOk result (λ o.
        IsOnly (After name.now (fetched_view file) (IsChecked (program_view program.now)))
        (output_view o)) }
{
    match file {
        Fetched::Held(bytes) => check(alloc, program, bytes.as_slice()),
        Fetched::Unread => Ok(Output::Unreadable(name)),
        Fetched::Long => Ok(Output::TooLong),
    }
}

/// What is said of the outline of a derivation whose file gave this.
pub(crate) fn outline_file<'a>(
    alloc: Global,
    program: &Program,
    name: &'a str,
    file: Fetched,
) -> Result<Output<'a>, AllocError>
    ensures { IfOk result (λ o.
        IsOnly (After name.now (fetched_view file) (IsOutline (program_view program.now)))
        (output_view o)) }
{
    match file {
        Fetched::Held(bytes) => outline(alloc, program, bytes.as_slice()),
        Fetched::Unread => Ok(Output::Unreadable(name)),
        Fetched::Long => Ok(Output::TooLong),
    }
}

/// What is known once the file of a derivation gave this, by which a third file is answered.
pub(crate) fn list_file<'a>(
    alloc: Global,
    name: &'a str,
    file: Fetched,
) -> Result<Listed<'a>, AllocError>
    ensures { IfOk result (ListsAfter name.now (fetched_view file)) }
{
    match file {
        Fetched::Held(bytes) => list(alloc, bytes.as_slice()),
        Fetched::Unread => Ok(Listed::Without(Output::Unreadable(name))),
        Fetched::Long => Ok(Listed::Without(Output::TooLong)),
    }
}

/// What is said of the owners along a schedule whose file gave this, by the lines of a derivation.
pub(crate) fn owners_file<'a>(
    alloc: Global,
    program: &Program,
    lines: Lines,
    name: &'a str,
    file: Fetched,
) -> Result<Output<'a>, AllocError>
    ensures { let choices = map choice_view lines.choices.items in
        let IsSaid = IsOwners (program_view program.now) lines.trees choices in
        IfOk result (λ o. IsOnly (After name.now (fetched_view file) IsSaid) (output_view o)) }
{
    match file {
        Fetched::Held(bytes) => owners(alloc, program, lines, bytes.as_slice()),
        Fetched::Unread => Ok(Output::Unreadable(name)),
        Fetched::Long => Ok(Output::TooLong),
    }
}

/// What `show` says of a file that gave this.
pub(crate) fn show_file<'a>(
    alloc: Global,
    name: &'a str,
    file: Fetched,
) -> Result<Output<'a>, AllocError>
    ensures { IfOk result (λ o. IsOnly (After name.now (fetched_view file) IsShown)
        (output_view o)) }
{
    match file {
        Fetched::Held(bytes) => show(alloc, bytes.as_slice()),
        Fetched::Unread => Ok(Output::Unreadable(name)),
        Fetched::Long => Ok(Output::TooLong),
    }
}

/// What `stray` says of a file that gave this, of so many schedules that are drawn from the number.
pub(crate) fn stray_file<'a>(
    alloc: Global,
    name: &'a str,
    file: Fetched,
    number: u64,
    count: u64,
) -> Result<Output<'a>, AllocError>
    ensures { IfOk result (λ o. IsOnly (After name.now (fetched_view file) (IsStrayed number count))
        (output_view o)) }
{
    match file {
        Fetched::Held(bytes) => stray(alloc, bytes.as_slice(), number, count),
        Fetched::Unread => Ok(Output::Unreadable(name)),
        Fetched::Long => Ok(Output::TooLong),
    }
}

/// What `core` says of a file that gave this.
pub(crate) fn core_file<'a>(
    alloc: Global,
    name: &'a str,
    file: Fetched,
) -> Result<Output<'a>, AllocError>
    ensures { IfOk result (λ o. IsOnly (After name.now (fetched_view file) IsCored)
        (output_view o)) }
{
    match file {
        Fetched::Held(bytes) => core(alloc, bytes.as_slice()),
        Fetched::Unread => Ok(Output::Unreadable(name)),
        Fetched::Long => Ok(Output::TooLong),
    }
}

/// What is said of a schedule's file that gave this.
pub(crate) fn play_file<'a>(
    alloc: Global,
    program: &Program,
    name: &'a str,
    file: Fetched,
) -> Result<Output<'a>, AllocError>
    ensures { IfOk result (λ o.
        IsOnly (After name.now (fetched_view file) (IsPlayed (program_view program.now)))
        (output_view o)) }
{
    match file {
        Fetched::Held(bytes) => play(alloc, program, bytes.as_slice()),
        Fetched::Unread => Ok(Output::Unreadable(name)),
        Fetched::Long => Ok(Output::TooLong),
    }
}
