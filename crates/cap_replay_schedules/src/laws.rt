//! A law: what is written of a schedule is read as that schedule.
ghost use Rattle.cap_replay_schedules.specs.Writing.{SchedulesAreReadBack};

/// A law: a schedule whose numbers are within their bits, whose addresses ascend and which has no
/// more than 100,000 entries is what is read of its canonical text.
pub fn written_schedules_are_read_back()
    ensures { SchedulesAreReadBack }
{}
