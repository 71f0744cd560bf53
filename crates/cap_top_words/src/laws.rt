//! A law: each command can be written.
ghost use Rattle.std.specs.Prelude.{◌≡◌, ◌↔◌, List, Some};
ghost use Rattle.cap_top_words.specs.Meaning.{CommandWord, PlainCommand, command_of};
ghost use Rattle.cap_top_words.specs.Writing.{IsWritten};

/// A law: words are a command exactly where they write it. They are its name and then the operands
/// that it takes and, where it takes one, the option at most once; before the first `--` no operand
/// begins with `-`, and what stands after `--` is operands alone.
pub fn commands_are_written()
    ensures { (words : List CommandWord) (command : PlainCommand) →
        (command_of words ≡ Some command) ↔ IsWritten words command }
{}
