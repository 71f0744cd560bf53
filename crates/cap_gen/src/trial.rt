//! The text of a trial: a program of many locks, each with a client that `main` calls.
ghost use Rattle.std.specs.Prelude.{◌≡◌, ◌++◌, IfOk, OnOk, map, string_bytes};
ghost use Rattle.std.specs.Fmt.{decimal};
ghost use Rattle.cap_gen.specs.Trial.{fragment_text, filled, numbered, trial_text as text_of};
ghost use Rattle.cap_gen.specs.Views.{fragment_view};

use std::alloc::{AllocError, Global};

// Some of a text that is the same for all numbers but for where the number stands.
enum Fragment {
    Fixed(&'static [u8]),
    Number,
}

// A spin lock with its client, line by line.
const LOCK_LINES: &[Fragment] = &[
    Fragment::Fixed(b"region SLock"),
    Fragment::Number,
    Fragment::Fixed(b"(r, x) {\n"),
    Fragment::Fixed(b"  guards %LOCK * UNLOCK;\n"),
    Fragment::Fixed(b"  interpretation {\n"),
    Fragment::Fixed(b"    0 : x |-> 0 &*& r@UNLOCK;\n"),
    Fragment::Fixed(b"    1 : x |-> 1;\n"),
    Fragment::Fixed(b"  }\n"),
    Fragment::Fixed(b"  actions {\n"),
    Fragment::Fixed(b"    LOCK[_] : 0 ~> 1;\n"),
    Fragment::Fixed(b"    UNLOCK : 1 ~> 0;\n"),
    Fragment::Fixed(b"  }\n"),
    Fragment::Fixed(b"}\n"),
    Fragment::Fixed(b"function makeLock"),
    Fragment::Number,
    Fragment::Fixed(b"()\n"),
    Fragment::Fixed(b"  ensures SLock"),
    Fragment::Number,
    Fragment::Fixed(b"(r, ret; 0) &*& r@LOCK[1p];\n"),
    Fragment::Fixed(b"{ v := alloc(1); [v] := 0; return v; }\n"),
    Fragment::Fixed(b"function lock"),
    Fragment::Number,
    Fragment::Fixed(b"(x)\n"),
    Fragment::Fixed(b"  requires SLock"),
    Fragment::Number,
    Fragment::Fixed(b"(r, x; _) &*& r@LOCK[p];\n"),
    Fragment::Fixed(b"  ensures SLock"),
    Fragment::Number,
    Fragment::Fixed(b"(r, x; 1) &*& r@(LOCK[p] * UNLOCK);\n"),
    Fragment::Fixed(b"{\n"),
    Fragment::Fixed(b"  b := CAS(x, 0, 1);\n"),
    Fragment::Fixed(b"  if (b = 0) { lock"),
    Fragment::Number,
    Fragment::Fixed(b"(x); }\n"),
    Fragment::Fixed(b"}\n"),
    Fragment::Fixed(b"function unlock"),
    Fragment::Number,
    Fragment::Fixed(b"(x)\n"),
    Fragment::Fixed(b"  requires SLock"),
    Fragment::Number,
    Fragment::Fixed(b"(r, x; 1) &*& r@UNLOCK;\n"),
    Fragment::Fixed(b"  ensures SLock"),
    Fragment::Number,
    Fragment::Fixed(b"(r, x; _);\n"),
    Fragment::Fixed(b"{ [x] := 0; }\n"),
    Fragment::Fixed(b"function worker"),
    Fragment::Number,
    Fragment::Fixed(b"(x)\n"),
    Fragment::Fixed(b"  requires SLock"),
    Fragment::Number,
    Fragment::Fixed(b"(r, x; _) &*& r@LOCK[p];\n"),
    Fragment::Fixed(b"{ lock"),
    Fragment::Number,
    Fragment::Fixed(b"(x); unlock"),
    Fragment::Number,
    Fragment::Fixed(b"(x); }\n"),
    Fragment::Fixed(b"function client"),
    Fragment::Number,
    Fragment::Fixed(b"() {\n"),
    Fragment::Fixed(b"  x := makeLock"),
    Fragment::Number,
    Fragment::Fixed(b"();\n"),
    Fragment::Fixed(b"  fork worker"),
    Fragment::Number,
    Fragment::Fixed(b"(x);\n"),
    Fragment::Fixed(b"  lock"),
    Fragment::Number,
    Fragment::Fixed(b"(x);\n"),
    Fragment::Fixed(b"  unlock"),
    Fragment::Number,
    Fragment::Fixed(b"(x);\n"),
    Fragment::Fixed(b"}\n"),
];

// The line of `main` that calls a client.
const CALL_LINE: &[Fragment] = &[
    Fragment::Fixed(b"  client"),
    Fragment::Number,
    Fragment::Fixed(b"();\n"),
];

fn digits(alloc: Global, number: u32) -> Result<String, AllocError>
    ensures { IfOk result (λ text. string_bytes text ≡ decimal number) }
{
    format!(in alloc; "{number}")
}

fn push_fragment(text: &mut Vec<u8>, fragment: &Fragment, number: &[u8]) -> Result<(), AllocError>
    ensures { OnOk result (text.new.items
        ≡ text.old.items ++ fragment_text number.now (fragment_view fragment.now)) }
{
    match fragment {
        Fragment::Fixed(bytes) => text.extend_from_slice(bytes),
        Fragment::Number => text.extend_from_slice(number),
    }
}

// Appends the fragments, with the digits of a number in its places.
fn push_filled(text: &mut Vec<u8>, fragments: &[Fragment], number: &[u8]) -> Result<(), AllocError>
    ensures { OnOk result (text.new.items
        ≡ text.old.items ++ filled number.now (map fragment_view fragments.now)) }
{
    for fragment in fragments {
        push_fragment(text, fragment, number)?;
    }
    Ok(())
}

// Appends the fragments for each number from 1 to the last.
fn push_numbered(
    alloc: Global,
    text: &mut Vec<u8>,
    fragments: &[Fragment],
    last: u32,
) -> Result<(), AllocError>
    ensures { OnOk result (text.new.items
        ≡ text.old.items ++ numbered (map fragment_view fragments.now) last) }
{
    for done in 0..last {
        let number = digits(alloc, done + 1)?;
        push_filled(text, fragments, number.as_bytes())?;
    }
    Ok(())
}

/// The text of the trial of a number: so many copies of a spin lock with a client, each with its
/// number, from 1 on, behind its names, and a `main` that calls each client. It is right for every
/// number; the trials that are run have from 1 to 50. Its length, and the time that it takes, grow
/// with the number alone. The only error is want of memory.
pub fn trial_text(alloc: Global, n: u32) -> Result<Vec<u8>, AllocError>
    ensures { IfOk result (λ text. text.items ≡ text_of n) }
{
    let mut text = Vec::new(alloc);
    push_numbered(alloc, &mut text, LOCK_LINES, n)?;
    text.extend_from_slice(b"function main() {\n")?;
    push_numbered(alloc, &mut text, CALL_LINE, n)?;
    text.extend_from_slice(b"}\n")?;
    Ok(text)
}
