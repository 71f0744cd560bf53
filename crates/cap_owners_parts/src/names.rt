//! Names of guards.
ghost use Rattle.std.specs.Prelude.{◌≡◌};
ghost use Rattle.cap_prog.specs.Views.{program_view};
ghost use Rattle.cap_outline_spec.specs.Texts.{atom_name as name_of_atom};

use cap_prog::Program;

/// The name of a guard of a region type, by their numbers, and no name where there is none.
pub(crate) fn atom_name<'a>(program: &'a Program, kind: u32, atom: u32) -> &'a [u8]
    ensures { result.now ≡ name_of_atom (program_view program.now) kind atom }
{
    match program.regions().get(kind as usize) {
        None => &[],
        Some(region) => match region.atoms.get(atom as usize) {
            None => &[],
            Some(name) => name.as_bytes(),
        },
    }
}
