//! The top call: from the words to the text that is put out, and the status.
ghost use Rattle.std.specs.Prelude.{◌≡◌, ◌⊎◌, ℕ, List, IfOk, IfSome, Some, None};
ghost use Rattle.cap_io.specs.Outside.{Rose};
ghost use Rattle.cap_top_words.specs.Meaning.{verify, derive, check, show, replay, trial};
ghost use Rattle.cap_top_words.specs.Meaning.{outline, owners, stray, core, default_budget};
ghost use Rattle.cap_gen.specs.Trial.{trial_text};
ghost use Rattle.cap_top_commands.specs.Answers.{IsVerified, IsDerived};
ghost use Rattle.cap_top_commands.specs.Commands.{meant_by};
ghost use Rattle.cap_top_commands.specs.Good.{IsProvedText};
ghost use Rattle.cap_top_commands.specs.Views.{output_view};
ghost use Rattle.cap_top_commands.specs.declared.status.Status.TheVariants.{Good, Bad, Usage};
ghost use Rattle.cap_top_commands.specs.declared.status.Status.TheVariants.{ReadFault};
ghost use Rattle.cap_top_commands.specs.declared.status.Status.TheVariants.{WriteFault, NoMemory};
ghost use Rattle.cap_top.specs.Verified.{VerifiesFile};
ghost use Rattle.cap_top.specs.Promise.{ProvesFile, FailsFile};
ghost use Rattle.cap_top.specs.Promise.{DerivesFile, ChecksFiles, ShowsFile};
ghost use Rattle.cap_top.specs.Promise.{OutlinesFiles, StraysFile, CoresFile, HoldsSafe};
ghost use Rattle.cap_top.specs.Promise.{OwnsFiles, RejectsFiles, HoldRun, EndsOwners};
ghost use Rattle.cap_top.specs.Promise.{EndsRun, ReplaysFiles, Ends, NoFault, AnswersFiles};
ghost use Rattle.cap_top.specs.Promise.{HoldsGood, HoldAccepted, HoldsTree, Refuses, ReadFails};
ghost use Rattle.cap_top.specs.Run.{IsSaid, IsRun};

use crate::fetching::{
    begin_file, check_file, core_file, derive_file, fetch, list_file, outline_file, owners_file,
    play_file, show_file, stray_file, verify_file,
};
use cap_gen_schedules::safe_programs_have_none;
use cap_io::{Shelf, Sink};
use cap_top_accounts::{Listed, accepted_have_trees, owners_are_told, refused_starts_are_none};
use cap_top_commands::{
    Begun, Output, Status, accepted_are_safe, checked_are_outlined, cores_are_told,
    derived_are_accepted, empty_answers_have_no_start, good_answers_are_safe, good_trials_are_safe,
    outlines_are_told, safe_texts_have_no_stray, strays_fault, trial,
};
use cap_top_words::{Command, read_command};
use std::alloc::{AllocError, Global};

/// What is said of a replay: the program is read first, and its schedule only where that is one.
fn replay_files<'a, S: Shelf>(
    alloc: Global,
    shelf: &mut S,
    file: &'a str,
    schedule: &'a str,
) -> Result<Output<'a>, AllocError>
    ensures kept { (S.seen shelf.new).holds ≡ (S.seen shelf.old).holds }
    ensures said { IfOk result (λ o. IsSaid (S.seen shelf.old) (S.seen shelf.new)
        (Some (replay file.now schedule.now)) (output_view o)) }
{
    let fetched = fetch(shelf, file)?;
    match begin_file(alloc, file, fetched)? {
        Begun::Said(output) => Ok(output),
        Begun::Program(program) => {
            let fetched = fetch(shelf, schedule)?;
            play_file(alloc, &program, schedule, fetched)
        }
    }
}

/// What is said of a derivation: the program is read first, and its derivation only where that is
/// one.
fn check_files<'a, S: Shelf>(
    alloc: Global,
    shelf: &mut S,
    file: &'a str,
    derivation: &'a str,
) -> Result<Output<'a>, AllocError>
    ensures kept { (S.seen shelf.new).holds ≡ (S.seen shelf.old).holds }
    ensures said { IfOk result (λ o. IsSaid (S.seen shelf.old) (S.seen shelf.new)
        (Some (check file.now derivation.now)) (output_view o)) }
{
    let fetched = fetch(shelf, file)?;
    match begin_file(alloc, file, fetched)? {
        Begun::Said(output) => Ok(output),
        Begun::Program(program) => {
            let fetched = fetch(shelf, derivation)?;
            check_file(alloc, &program, derivation, fetched)
        }
    }
}

/// What is said of an outline: the files are read as those of a derivation that is judged.
fn outline_files<'a, S: Shelf>(
    alloc: Global,
    shelf: &mut S,
    file: &'a str,
    derivation: &'a str,
) -> Result<Output<'a>, AllocError>
    ensures kept { (S.seen shelf.new).holds ≡ (S.seen shelf.old).holds }
    ensures said { IfOk result (λ o. IsSaid (S.seen shelf.old) (S.seen shelf.new)
        (Some (outline file.now derivation.now)) (output_view o)) }
{
    let fetched = fetch(shelf, file)?;
    match begin_file(alloc, file, fetched)? {
        Begun::Said(output) => Ok(output),
        Begun::Program(program) => {
            let fetched = fetch(shelf, derivation)?;
            outline_file(alloc, &program, derivation, fetched)
        }
    }
}

/// What is said of the owners along a run: the program is read first, its derivation only where
/// that is one, and its schedule only where the derivation has lines.
fn owners_files<'a, S: Shelf>(
    alloc: Global,
    shelf: &mut S,
    file: &'a str,
    derivation: &'a str,
    schedule: &'a str,
) -> Result<Output<'a>, AllocError>
    ensures kept { (S.seen shelf.new).holds ≡ (S.seen shelf.old).holds }
    ensures said { IfOk result (λ o. IsSaid (S.seen shelf.old) (S.seen shelf.new)
        (Some (owners file.now derivation.now schedule.now)) (output_view o)) }
{
    let fetched = fetch(shelf, file)?;
    match begin_file(alloc, file, fetched)? {
        Begun::Said(output) => Ok(output),
        Begun::Program(program) => {
            let fetched = fetch(shelf, derivation)?;
            match list_file(alloc, derivation, fetched)? {
                Listed::Without(said) => Ok(said),
                Listed::Lines(lines) => {
                    let entries = fetch(shelf, schedule)?;
                    owners_file(alloc, &program, lines, schedule, entries)
                }
            }
        }
    }
}

/// What is said for these words: each file is read in the order of the words.
fn respond<'a, S: Shelf>(
    alloc: Global,
    words: &'a [String],
    shelf: &mut S,
) -> Result<Output<'a>, AllocError>
    ensures kept { (S.seen shelf.new).holds ≡ (S.seen shelf.old).holds }
    ensures said { IfOk result (λ o. IsSaid (S.seen shelf.old) (S.seen shelf.new)
        (meant_by words.entry.now) (output_view o)) }
{
    match read_command(alloc, words)? {
        Some(Command::Verify { file, budget }) => {
            let fetched = fetch(shelf, file)?;
            verify_file(alloc, file, fetched, budget)
        }
        Some(Command::Derive { file, budget }) => {
            let fetched = fetch(shelf, file)?;
            derive_file(alloc, file, fetched, budget)
        }
        Some(Command::Check { file, derivation }) => check_files(alloc, shelf, file, derivation),
        Some(Command::Show { file }) => {
            let fetched = fetch(shelf, file)?;
            show_file(alloc, file, fetched)
        }
        Some(Command::Replay { file, schedule }) => replay_files(alloc, shelf, file, schedule),
        Some(Command::Trial { number }) => trial(alloc, number),
        Some(Command::Outline { file, derivation }) => {
            outline_files(alloc, shelf, file, derivation)
        }
        Some(
            Command::Owners {
                file,
                derivation,
                schedule,
            },
        ) => { owners_files(alloc, shelf, file, derivation, schedule) }
        Some(
            Command::Stray {
                file,
                number,
                count,
            },
        ) => {
            let fetched = fetch(shelf, file)?;
            stray_file(alloc, file, fetched, number, count)
        }
        Some(Command::Core { file }) => {
            let fetched = fetch(shelf, file)?;
            core_file(alloc, file, fetched)
        }
        None => Ok(Output::Usage),
    }
}

/// Finds what is to be said, and says it.
fn perform<S: Shelf, K: Sink>(
    alloc: Global,
    words: &[String],
    shelf: &mut S,
    sink: &mut K,
) -> Status
    ensures kept { (S.seen shelf.new).holds ≡ (S.seen shelf.old).holds }
    ensures whole { IsRun (meant_by words.now)
        (S.seen shelf.old) (S.seen shelf.new) (K.seen sink.old) (K.seen sink.new) result }
{
    let Ok(output) = respond(alloc, words, shelf) else {
        return Status::NoMemory;
    };
    let status = output.status();
    let Ok(text) = output.into_text(alloc) else {
        return Status::NoMemory;
    };
    match sink.put(text.as_slice()) {
        Ok(()) => status,
        Err(_) => Status::WriteFault,
    }
}

/// Does all that the program does with the words after its name: reads the files that they name,
/// does what they ask with them, and writes what is found.
///
/// The order is: usage, read of a file, its text, the work, the write. The whole output is built
/// before the one put, so that after every status but `WriteFault` and `NoMemory` the sink has
/// gained the whole text, after `WriteFault` the first of it, and after `NoMemory` nothing.
pub fn run<S: Shelf, K: Sink>(
    alloc: Global,
    words: &[String],
    shelf: &mut S,
    sink: &mut K,
) -> Status
    // Where `verify` ends well, the bytes that the file gave are the text of a safe program.
    ensures good { (name : List ℕ) (budget : ℕ) → meant_by words.now ≡ Some (verify name budget)
        → result ≡ Good → VerifiesFile (S.seen shelf.old) (S.seen shelf.new) name }

    // All of that program is proved.
    ensures found { (name : List ℕ) (budget : ℕ) → meant_by words.now ≡ Some (verify name budget)
        → result ≡ Good → ProvesFile (S.seen shelf.old) (S.seen shelf.new) budget name }

    // Where a trial ends well, its text is that of a safe program, each unit of which is proved.
    ensures tried { (n : ℕ) → meant_by words.now ≡ Some (trial n) → result ≡ Good
        → IsProvedText default_budget (trial_text n) }

    // Where `verify` or `derive` ends with status 1, that answers the bytes that the file gave; and
    // where it says that the precondition of `main` is empty, they are the text of a program that
    // has no start.
    ensures empty { (name : List ℕ) (budget : ℕ) → meant_by words.now ≡ Some (verify name budget)
        → result ≡ Bad → FailsFile (IsVerified budget) (S.seen shelf.old) (S.seen shelf.new) name
        (K.seen sink.old) (K.seen sink.new) }
    ensures derive_empty { (name : List ℕ) (budget : ℕ)
        → meant_by words.now ≡ Some (derive name budget)
        → result ≡ Bad → FailsFile (IsDerived budget) (S.seen shelf.old) (S.seen shelf.new) name
        (K.seen sink.old) (K.seen sink.new) }

    // Where `derive` ends well, the sink has gained a derivation of the program whose text the file
    // gave, which `check` accepts.
    ensures derived { (name : List ℕ) (budget : ℕ) → meant_by words.now ≡ Some (derive name budget)
        → result ≡ Good → DerivesFile (S.seen shelf.old) (S.seen shelf.new) budget name
        (K.seen sink.old) (K.seen sink.new) }

    // Where `check` ends well, the derivation that was given is valid, and its program safe.
    ensures accepted { (file derivation : List ℕ)
        → meant_by words.now ≡ Some (check file derivation) → result ≡ Good
        → ChecksFiles (S.seen shelf.old) (S.seen shelf.new) file derivation }

    // Where `outline` ends well, the derivation that was given is valid, and the sink has gained its
    // outline. Each run of the program, from each start, of every length and along every schedule,
    // has accounts as those of a safe program, by which, whenever a thread comes to a statement,
    // one of the states at the statement holds of its frame.
    ensures outlined { (file derivation : List ℕ)
        → meant_by words.now ≡ Some (outline file derivation) → result ≡ Good
        → OutlinesFiles (S.seen shelf.old) (S.seen shelf.new) file derivation
        (K.seen sink.old) (K.seen sink.new) }

    // Where `owners` ends with the status of a run, the derivation that was given is valid, and the
    // sink has gained what the program's run along the schedule writes, with its accounts: the text
    // begins with the account of its start, unless a number is too wide there, and goes along the
    // machine's own run. No step is a fault. Behind each comes the account after it, which is
    // valid, has a track along the derivation, follows the one before by that step, and meets the
    // contract of a call, a fork or a return. With status 1 the derivation is not accepted, as
    // `check` says of it.
    ensures owned { (file derivation schedule : List ℕ)
        → meant_by words.now ≡ Some (owners file derivation schedule) → EndsRun result
        → OwnsFiles (S.seen shelf.old) (S.seen shelf.new) file derivation schedule
        (K.seen sink.old) (K.seen sink.new) result
        ⊎ RejectsFiles (S.seen shelf.old) (S.seen shelf.new) file derivation schedule
        (K.seen sink.old) (K.seen sink.new) result }

    // Where `show` ends well, the text that was given is shown: the canonical one of its tree.
    ensures shown { (name : List ℕ) → meant_by words.now ≡ Some (show name) → result ≡ Good
        → ShowsFile (S.seen shelf.old) (S.seen shelf.new) name
        (K.seen sink.old) (K.seen sink.new) }

    // Where a replay ends so, the sink has gained what the program's run along the schedule writes.
    ensures replayed { (file schedule : List ℕ) → meant_by words.now ≡ Some (replay file schedule)
        → EndsRun result → ReplaysFiles (S.seen shelf.old) (S.seen shelf.new) file schedule
        (K.seen sink.old) (K.seen sink.new) result }

    // Where `stray` ends with status 1, the sink has gained a schedule along which the program whose
    // text the file gave comes to a fault, and that program is not safe.
    ensures strays { (name : List ℕ) (number count : ℕ)
        → meant_by words.now ≡ Some (stray name number count)
        → result ≡ Bad → StraysFile (S.seen shelf.old) (S.seen shelf.new) name
        (K.seen sink.old) (K.seen sink.new) }

    // Where `core` ends with status 0 or 1, the sink has gained the report on the program whose text
    // the file gave, with a line for each proof; and the rows that a line names are needed.
    ensures cored { (name : List ℕ) → meant_by words.now ≡ Some (core name)
        → (result ≡ Good) ⊎ (result ≡ Bad)
        → CoresFile (S.seen shelf.old) (S.seen shelf.new) name
        (K.seen sink.old) (K.seen sink.new) result }

    // Whatever faults come, what is said is what follows from what the files gave that were read. A
    // second file gives bytes only where the first gave a program's text, and a third only where
    // the second gave a derivation's lines.
    ensures ends { Ends (meant_by words.now)
        (S.seen shelf.old) (S.seen shelf.new) (K.seen sink.old) (K.seen sink.new) result }

    // The shelf holds what it held.
    ensures kept { (S.seen shelf.new).holds ≡ (S.seen shelf.old).holds }

    // Where no fault comes the files give an output, the one that is said, and no other, unless
    // memory runs out: a program all of which is proved is told so, the text of a tree is shown, a
    // derivation that `check` accepts is accepted and has an outline, the run along a schedule is
    // told with its accounts by such a derivation unless its start is none, no schedule is found of
    // a safe program, and what is no text is refused.
    ensures answers { IfSome (S.seen shelf.old).holds (λ files.
        NoFault (S.seen shelf.old) (S.seen shelf.new) (K.seen sink.old) (K.seen sink.new)
        → AnswersFiles (meant_by words.now) files (K.seen sink.old) (K.seen sink.new) result) }
    ensures proved { IfSome (S.seen shelf.old).holds (λ files.
        NoFault (S.seen shelf.old) (S.seen shelf.new) (K.seen sink.old) (K.seen sink.new)
        → (name : List ℕ) (budget : ℕ) → meant_by words.now ≡ Some (verify name budget)
        → HoldsGood budget name files → (result ≡ Good) ⊎ (result ≡ NoMemory)) }
    ensures tries { ¬ Rose (K.seen sink.old).faults (K.seen sink.new).faults
        → (n : ℕ) → meant_by words.now ≡ Some (trial n)
        → IsProvedText default_budget (trial_text n) → (result ≡ Good) ⊎ (result ≡ NoMemory) }
    ensures shows { IfSome (S.seen shelf.old).holds (λ files.
        NoFault (S.seen shelf.old) (S.seen shelf.new) (K.seen sink.old) (K.seen sink.new)
        → (name text : List ℕ) → meant_by words.now ≡ Some (show name)
        → HoldsTree name text files → (result ≡ Good) ⊎ (result ≡ NoMemory)) }
    ensures accepts { IfSome (S.seen shelf.old).holds (λ files.
        NoFault (S.seen shelf.old) (S.seen shelf.new) (K.seen sink.old) (K.seen sink.new)
        → (file derivation : List ℕ) → meant_by words.now ≡ Some (check file derivation)
        → HoldAccepted file derivation files → (result ≡ Good) ⊎ (result ≡ NoMemory)) }
    ensures outlines { IfSome (S.seen shelf.old).holds (λ files.
        NoFault (S.seen shelf.old) (S.seen shelf.new) (K.seen sink.old) (K.seen sink.new)
        → (file derivation : List ℕ) → meant_by words.now ≡ Some (outline file derivation)
        → HoldAccepted file derivation files → (result ≡ Good) ⊎ (result ≡ NoMemory)) }
    ensures owns { IfSome (S.seen shelf.old).holds (λ files.
        NoFault (S.seen shelf.old) (S.seen shelf.new) (K.seen sink.old) (K.seen sink.new)
        → (file derivation schedule : List ℕ)
        → meant_by words.now ≡ Some (owners file derivation schedule)
        → (h : HoldRun file derivation schedule files)
        → EndsOwners h.accepted.program h.accepted.lines h.has.schedule result
        ⊎ (result ≡ NoMemory)) }
    ensures spares { IfSome (S.seen shelf.old).holds (λ files.
        NoFault (S.seen shelf.old) (S.seen shelf.new) (K.seen sink.old) (K.seen sink.new)
        → (name : List ℕ) (number count : ℕ)
        → meant_by words.now ≡ Some (stray name number count)
        → HoldsSafe name files → (result ≡ Good) ⊎ (result ≡ NoMemory)) }
    ensures refuses { IfSome (S.seen shelf.old).holds (λ files.
        NoFault (S.seen shelf.old) (S.seen shelf.new) (K.seen sink.old) (K.seen sink.new)
        → Refuses (meant_by words.now) files result) }

    // Each answer has its cause, and nothing is lost.
    ensures usage { result ≡ Usage → meant_by words.now ≡ None }
    ensures command { meant_by words.now ≡ None
        → (result ≡ Usage) ⊎ ((result ≡ WriteFault) ⊎ (result ≡ NoMemory)) }
    ensures read_fault { result ≡ ReadFault
        → ReadFails (meant_by words.now) (S.seen shelf.old) (S.seen shelf.new) }
    ensures write_fault { result ≡ WriteFault
        → Rose (K.seen sink.old).faults (K.seen sink.new).faults }
    ensures no_memory { result ≡ NoMemory
        → (K.seen sink.new).written ≡ (K.seen sink.old).written }
{
    good_answers_are_safe();
    good_trials_are_safe();
    derived_are_accepted();
    accepted_are_safe();
    empty_answers_have_no_start();
    strays_fault();
    safe_texts_have_no_stray();
    safe_programs_have_none();
    cores_are_told();
    outlines_are_told();
    checked_are_outlined();
    owners_are_told();
    accepted_have_trees();
    refused_starts_are_none();
    perform(alloc, words, shelf, sink)
}
