//! Names of region types and of their guards.
ghost use Rattle.std.specs.Prelude.{◌≡◌};
ghost use Rattle.cap_prog.specs.Views.{program_view};
ghost use Rattle.cap_outline_spec.specs.Texts.{atom_name as name_of_atom, type_name as name_of_type};

use cap_prog::Program;

/// The name of a region type, by its number.
pub(crate) fn type_name<'a>(program: &'a Program, kind: u32) -> &'a [u8]
    ensures { result.now ≡ name_of_type (program_view program.now) kind }
{
    match program.regions().get(kind as usize) {
        None => &[],
        Some(region) => region.name.as_bytes(),
    }
}

/// The name of a guard of a region type, by their numbers.
pub(crate) fn atom_name<'a>(program: &'a Program, kind: u32, atom: u32) -> &'a [u8]
    ensures { result.now ≡ name_of_atom (program_view program.now) kind atom }
{
    match program.regions().get(kind as usize) {
        None => &[],
        Some(region) => match region.atoms.get(atom as usize) {
            None => &[],
            Some(name) => name.as_bytes(),
        },
    }
}
