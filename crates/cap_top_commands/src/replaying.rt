//! What is answered to `replay`.
ghost use Rattle.std.specs.Prelude.{IfOk};
ghost use Rattle.cap_prog.specs.Views.{program_view};
ghost use Rattle.cap_top_commands.specs.Answers.{IsOnly};
ghost use Rattle.cap_top_commands.specs.Schedules.{IsPlayed};
ghost use Rattle.cap_top_commands.specs.Views.{output_view};

use crate::output::Output;
use cap_prog::Program;
use cap_replay::replay as run_along;
use cap_replay_schedules::{ScheduleError, fits, read_schedule};
use std::alloc::{AllocError, Global};

/// What is said of a schedule of these bytes: what the run along it writes, or why it is none. The
/// only error is want of memory.
pub fn play<'a>(alloc: Global, program: &Program, bytes: &[u8]) -> Result<Output<'a>, AllocError>
    ensures { IfOk result (λ o.
        IsOnly (IsPlayed (program_view program.now) bytes.now) (output_view o)) }
{
    match read_schedule(alloc, bytes) {
        Ok(schedule) => {
            if fits(program, &schedule) {
                Ok(Output::Played(run_along(alloc, program, &schedule)?))
            } else {
                Ok(Output::BadSchedule(ScheduleError::BadLine(1)))
            }
        }
        Err(ScheduleError::BadLine(line)) => {
            Ok(Output::BadSchedule(ScheduleError::BadLine(line)))
        }
        Err(ScheduleError::TooMany) => Ok(Output::BadSchedule(ScheduleError::TooMany)),
        Err(ScheduleError::OutOfMemory) => Err(AllocError),
    }
}
