//! What a line is: the first one, that of a choice, or the last one.
ghost use Rattle.std.specs.Prelude.{◌≡◌, option_and_then};
ghost use Rattle.json.specs.Lex.{tokens};
ghost use Rattle.cap_deriv_choices.specs.Views.{Extracts, Takes};
ghost use Rattle.cap_deriv.specs.Reading.{json_of_bytes, opening_of_json};
ghost use Rattle.cap_deriv.specs.Taking.{take_version_and_trees, take_opening, take_closing};
ghost use Rattle.cap_deriv.specs.Taking.{take_line, if_alone};
ghost use Rattle.cap_deriv.specs.Told.{line_of_bytes};
ghost use Rattle.cap_deriv.specs.Views.{found_view};

use cap_deriv_choices::{Fault, choice, close, long, number, open, text};
use cap_goal::Choice;
use json::{Reader, Scratch};
use simdutf8::basic::from_utf8;
use std::alloc::Global;

/// A line behind the first.
#[derive(Drop)]
pub(crate) enum Found {
    Node(Choice),
    End(u64),
}

fn version_and_trees(reader: &mut Reader<'_>) -> Result<u32, Fault>
    ensures { Takes (λ n. n) result reader.new (take_version_and_trees reader.old) }
{
    if number(reader)? != 1 {
        return Err(Fault::Form);
    }
    let trees = number(reader)?;
    close(reader)?;
    Ok(trees)
}

fn opening_tokens(reader: &mut Reader<'_>) -> Result<u32, Fault>
    ensures { Takes (λ n. n) result reader.new (take_opening reader.old) }
{
    open(reader)?;
    match text(reader)? {
        "caper" => version_and_trees(reader),
        _ => Err(Fault::Form),
    }
}

// The number of nodes of a last line whose word was read.
fn closing(reader: &mut Reader<'_>) -> Result<u64, Fault>
    ensures { Takes (λ n. n) result reader.new (take_closing reader.old) }
{
    let nodes = long(reader)?;
    close(reader)?;
    Ok(nodes)
}

fn line_tokens(alloc: Global, reader: &mut Reader<'_>) -> Result<Found, Fault>
    ensures { Takes found_view result reader.new (take_line reader.old) }
{
    open(reader)?;
    let word = text(reader)?;
    match word {
        "end" => Ok(Found::End(closing(reader)?)),
        _ => Ok(Found::Node(choice(alloc, word, reader)?)),
    }
}

fn opening_of(text: &str, scratch: &mut Scratch) -> Result<u32, Fault>
    ensures { Extracts (λ n. n) result (if_alone (take_opening (tokens text.now))) }
{
    let mut reader = Reader::new(text, scratch)?;
    let trees = opening_tokens(&mut reader)?;
    match reader.next() {
        None => Ok(trees),
        Some(_) => Err(Fault::Form),
    }
}

/// The number of trees of a first line.
pub(crate) fn opening(bytes: &[u8], scratch: &mut Scratch) -> Result<u32, Fault>
    ensures { Extracts (λ n. n) result
        (option_and_then opening_of_json (json_of_bytes bytes.now)) }
{
    match from_utf8(bytes) {
        Ok(text) => opening_of(text, scratch),
        Err(_) => Err(Fault::Form),
    }
}

fn line_of(alloc: Global, text: &str, scratch: &mut Scratch) -> Result<Found, Fault>
    ensures { Extracts found_view result (if_alone (take_line (tokens text.now))) }
{
    let mut reader = Reader::new(text, scratch)?;
    let found = line_tokens(alloc, &mut reader)?;
    match reader.next() {
        None => Ok(found),
        Some(_) => {
            drop(found);
            Err(Fault::Form)
        }
    }
}

/// What a line behind the first is.
pub(crate) fn line(alloc: Global, bytes: &[u8], scratch: &mut Scratch) -> Result<Found, Fault>
    ensures { Extracts found_view result (line_of_bytes bytes.now) }
{
    match from_utf8(bytes) {
        Ok(text) => line_of(alloc, text, scratch),
        Err(_) => Err(Fault::Form),
    }
}
