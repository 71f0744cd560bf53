//! The guard algebra of a region type.
ghost use Rattle.std.specs.Prelude.{◌≡◌, IfOk};
ghost use Rattle.cap_galg.specs.Algebras as algebras;
ghost use Rattle.cap_galg.specs.Views.{algebra_view as seen};
ghost use Rattle.cap_parse_tree.specs.Views.{declared_view, joint_view, algebra_view};
ghost use Rattle.cap_resolve_spec.specs.Program.{declared_program, joint_program, algebra_program};

use cap_galg::Algebra;
use cap_parse_tree::{Algebra as AlgebraTree, Declared, Joint};
use std::alloc::{AllocError, Global};

fn pair(alloc: Global, first: Algebra, second: Algebra) -> Result<Algebra, AllocError>
    ensures { IfOk result (λ a. seen a ≡ algebras.product (seen first) (seen second)) }
{
    Ok(Algebra::Pair(Box::new(alloc, first)?, Box::new(alloc, second)?))
}

fn either(alloc: Global, first: Algebra, second: Algebra) -> Result<Algebra, AllocError>
    ensures { IfOk result (λ a. seen a ≡ algebras.sum (seen first) (seen second)) }
{
    Ok(Algebra::Either(Box::new(alloc, first)?, Box::new(alloc, second)?))
}

#[cycle(algebras)]
fn declared(alloc: Global, guard: &Declared) -> Result<Algebra, AllocError>
    ensures { IfOk result (λ a. seen a ≡ declared_program (declared_view guard.now)) }
{
    match guard {
        Declared::Unique(_) => Ok(Algebra::Unique),
        Declared::Divisible(_, _) => Ok(Algebra::Divisible),
        Declared::Counting(_, _, _) => Ok(Algebra::Counting),
        Declared::Indexed(_, _, _) => Ok(Algebra::Indexed),
        Declared::Bracketed(_, inner, _) => build_algebra(alloc, inner),
    }
}

#[cycle(algebras)]
fn joint(alloc: Global, guards: &Joint) -> Result<Algebra, AllocError>
    ensures { IfOk result (λ a. seen a ≡ joint_program (joint_view guards.now)) }
{
    let mut read = declared(alloc, &guards.first)?;
    for both in &guards.more {
        read = pair(alloc, read, declared(alloc, &both.declared)?)?;
    }
    Ok(read)
}

/// The algebra of a region type's guards: `*` and `+` associate to the left.
#[cycle(algebras)]
pub fn build_algebra(alloc: Global, guards: &AlgebraTree) -> Result<Algebra, AllocError>
    ensures { IfOk result (λ a. seen a ≡ algebra_program (algebra_view guards.now)) }
{
    let mut read = joint(alloc, &guards.first)?;
    for other in &guards.more {
        read = either(alloc, read, joint(alloc, &other.joint)?)?;
    }
    Ok(read)
}
