//! A schedule: the start of a run, and its entries.
ghost use Rattle.std.specs.Prelude.{◌≡◌, ◌↔◌, length, slice_get, IsSomeAnd, IsTrue};
ghost use Rattle.cap_prog.specs.Views.{program_view};

use cap_machine::Entry;
use cap_prog::Program;

/// A schedule: the arguments of `main`, the cells of the heap as pairs of an address and its value,
/// and the entries, one for each step.
#[derive(Drop)]
pub struct Schedule {
    pub args: Vec<i128>,
    pub heap: Vec<(i128, i128)>,
    pub entries: Vec<Entry>,
}

/// Whether a schedule has as many arguments as `main` has parameters.
pub fn fits(program: &Program, schedule: &Schedule) -> bool
    ensures { let p = program_view program.now in
        IsTrue result ↔ IsSomeAnd (slice_get p.functions p.main)
        (λ f. length schedule.now.args.items ≡ f.params) }
{
    let main = program.function(program.main());
    schedule.args.len() == main.params as usize
}
