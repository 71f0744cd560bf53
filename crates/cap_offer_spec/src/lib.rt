//! What a search for derivations may try, said by definitions: which choices are offered at a goal,
//! with their certificates, and what is noted while they are decided; and laws of them, each the
//! contract of a function that does nothing.
#![tactic(auto)]

ghost use Rattle.cap_offer_spec.specs.Laws.{OfferedAreProved, OfferedApply};

/// The rule of an offered choice comes to subgoals, each result on the way is within 128 bits, and
/// the choice has just the certificates that elimination finds of the lists of rows that are owed.
pub fn offered_choices_are_proved()
    ensures { OfferedAreProved }
{}

/// An offered choice applies, where the parts of the terms of these rows ascend.
pub fn offered_choices_apply()
    ensures { OfferedApply }
{}
