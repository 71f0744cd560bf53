//! A law: what is noted part by part are the findings of the function.
ghost use Rattle.std.specs.Prelude.{◌≡◌, List};
ghost use Rattle.cap_parse_tree.specs.Tree.{RegionTree, FunctionTree};
ghost use Rattle.cap_resolve_spec.specs.Parts.{parameters, clause_parts};
ghost use Rattle.cap_resolve_spec.specs.Functions.{statements, function_findings};
ghost use Rattle.cap_resolve_units.specs.Bodies.{function_part};

/// What is noted of the parts of a function is what is wrong in it.
pub fn functions_are_noted()
    ensures { (rs : List RegionTree) (fs : List FunctionTree) (f : FunctionTree)
        → function_part rs fs (parameters f) (clause_parts f.precondition) f.postcondition
        (statements f) ≡ function_findings rs fs f }
{}
