//! Commands, with their words.
/// A command, with the words and numbers that it was given.
///
/// A budget bounds the cost of the search for each unit's proof: it is from 1 to 1,000,000,000, and
/// 200,000 where the words give none.
#[derive(Clone, Copy, PartialEq, Eq)]
pub enum Command<'a> {
    /// Verifies the program in a file.
    Verify {
        file: &'a str,
        budget: u64,
    },
    /// Verifies the program in a file, and writes its derivation where all of it is proved.
    Derive {
        file: &'a str,
        budget: u64,
    },
    /// Judges the derivation in a file for the program in another.
    Check {
        file: &'a str,
        derivation: &'a str,
    },
    /// Runs the program in a file along the schedule in another.
    Replay {
        file: &'a str,
        schedule: &'a str,
    },
    /// Writes the program in a file in its canonical layout.
    Show {
        file: &'a str,
    },
    /// Verifies a large program that is made from the number, which is from 1 to 50.
    Trial {
        number: u32,
    },
    /// Judges the derivation in a file for the program in another and, where it is accepted, writes
    /// the states in which its proofs have the program at each statement.
    Outline {
        file: &'a str,
        derivation: &'a str,
    },
    /// Judges the derivation in a file for the program in another and, where it is accepted, runs
    /// the program along the schedule in a third, and writes who owns what at the start and after
    /// each step.
    Owners {
        file: &'a str,
        derivation: &'a str,
        schedule: &'a str,
    },
    /// Draws so many schedules of the program in a file from the number, and writes the first that
    /// ends in a fault. The number is from 0 to 18,446,744,073,709,551,615, and the count of the
    /// schedules from 1 to 1,000.
    Stray {
        file: &'a str,
        number: u64,
        count: u64,
    },
    /// Verifies the program in a file, and writes which rows each proof needs.
    Core {
        file: &'a str,
    },
}
