//! Laws over the definitions of what is answered, each the contract of a function that does nothing:
//! there is always an answer. It has no code.
#![tactic(auto)]

ghost use Rattle.cap_top_laws.specs.Laws.{BytesAreReadOrRefused, SchedulesAreAnswered};
ghost use Rattle.cap_top_laws.specs.Laws.{LinesAreAnswered, DecidedHaveLines};
ghost use Rattle.cap_top_laws.specs.Laws.{DerivationsAreAnswered, OutputsExist};

use cap_deriv_write::writings_are_lines;
use cap_parse_laws::texts_go_wrong_at_one_token;
use cap_rules::answers_are_one;
use cap_syntax::texts_are_read_or_refused;
use cap_top_accounts::judged_have_owners;
use cap_top_commands::checked_are_outlined;

/// Bytes spell a tree or none, for some cause; they are the text of a program, or refused.
pub fn bytes_are_read_or_refused()
    ensures { BytesAreReadOrRefused }
{
    texts_are_read_or_refused();
    texts_go_wrong_at_one_token();
}

/// Of each program, something is said of the bytes of a schedule.
pub fn schedules_are_answered()
    ensures { SchedulesAreAnswered }
{}

/// Of each program, something is said of the bytes of a derivation.
pub fn lines_are_answered()
    ensures { LinesAreAnswered }
{
    answers_are_one();
}

/// A certificate that elimination finds of rows, within its limits, has numbers and multipliers as
/// those of a line.
pub fn decided_have_lines()
    ensures { DecidedHaveLines }
{}

/// Something is said of the derivation of each program, where the choices that are found have
/// lines.
pub fn derivations_are_answered()
    ensures { DerivationsAreAnswered }
{
    writings_are_lines();
}

/// Over all files there is an output of each command; of `derive`, where the choices that are found
/// have lines.
pub fn outputs_exist()
    ensures { OutputsExist }
{
    bytes_are_read_or_refused();
    schedules_are_answered();
    lines_are_answered();
    derivations_are_answered();
    checked_are_outlined();
    judged_have_owners();
}
