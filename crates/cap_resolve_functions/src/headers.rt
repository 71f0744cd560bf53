//! A function's name, parameters and fixed names.
ghost use Rattle.std.specs.Prelude.{◌≡◌, ◌+◌, ◌<◌, ◌^◌, [], ◌∷◌, ◌++◌, IfOk, length};
ghost use Rattle.cap_prog.specs.Views.{function_view as seen, assertion_view, items_view};
ghost use Rattle.cap_prog.specs.Views.{block_view as block_seen};
ghost use Rattle.cap_parse_tree.specs.Views.{function_view};
ghost use Rattle.cap_resolve_spec.specs.Parts.{block_parts};
ghost use Rattle.cap_resolve_spec.specs.Names.{whole_numbers, hidden};
ghost use Rattle.cap_resolve_spec.specs.Items.{scope_of};
ghost use Rattle.cap_resolve_spec.specs.Functions.{result_entry};
ghost use Rattle.cap_resolve_spec.specs.Program.{occurrence_sorts, clause_program, new_assertion, body_program};
ghost use Rattle.cap_resolve_parts.specs.Views.{clause_seen};
ghost use Rattle.cap_resolve_tables.specs.Tables.{regions_of, functions_of, typed_names};
ghost use Rattle.cap_resolve_functions.specs.Bodies.{context_seen};
ghost use Rattle.cap_resolve_functions.specs.Functions.{variables_of, function_in, function_built};
ghost use Rattle.cap_resolve_functions.specs.Names.{named_seen};
ghost use Rattle.cap_resolve_functions.specs.Narrow.{IsNarrowClause, IsNarrowNew, IsNarrowBlock};
ghost use Rattle.cap_resolve_functions.specs.Narrow.{IsNarrowFunction, IsNarrowBuilt};

use crate::acts::build_body;
use crate::assertions::{build_assertion, build_new, clause_of};
use crate::bodies::Body;
use crate::functions::variable_names;
use crate::lists::build_sorts;
use crate::reading::Reading;
use cap_lin::Sort;
use cap_parse_tree::{Clause, Function as FunctionTree, Word};
use cap_prog::{Assertion, Function, Name, Statement};
use cap_resolve_scopes::{body_scope, loop_scope, requires_scope, result_scope};
use cap_resolve_tables::{FunctionTable, Occurrence, RegionTable, TypedNames, Types};
use cap_resolve_terms::Scope;
use cap_syntax::Place;
use std::alloc::{AllocError, Global};

/// The names of a function, and a scope that knows its destinations.
#[derive(Clone, Copy)]
pub(crate) struct Named<'s, 'a> {
    pub(crate) parameters: &'s [&'a Word],
    pub(crate) locals: &'s [&'a Word],
    pub(crate) fixed: &'s [Occurrence<'a>],
    pub(crate) destinations: &'s Scope<'a>,
}

/// What stands at the head of a function.
struct Header {
    name: Name,
    params: u32,
    locals: u32,
    fixed: Vec<Sort>,
    variables: Vec<Name>,
    place: Place,
}

impl Drop for Header {
    fn drop(self) {
        let Header {
            name: _,
            params: _,
            locals: _,
            fixed: _,
            variables: _,
            place: _,
        } = self;
    }
}

fn build_header(
    alloc: Global,
    names: &Named<'_, '_>,
    function: &FunctionTree,
) -> Result<Header, AllocError>
    requires { length (named_seen names.now).parameters + length (named_seen names.now).locals
        < 2 ^ 32 }
    ensures name { IfOk result (λ h. h.name ≡ (function_view function.now).name.text) }
    ensures params { IfOk result (λ h. h.params ≡ length (named_seen names.now).parameters) }
    ensures locals { IfOk result (λ h. h.locals ≡ length (named_seen names.now).locals) }
    ensures fixed { IfOk result
        (λ h. h.fixed.items ≡ occurrence_sorts (named_seen names.now).fixed) }
    ensures variables { IfOk result (λ h. h.variables.items
        ≡ variables_of (named_seen names.now).parameters (named_seen names.now).locals
        (named_seen names.now).fixed) }
    ensures place { IfOk result (λ h. h.place ≡ (function_view function.now).key) }
{
    let name = function.name.text.copy()?;
    let params = names.parameters.len() as u32;
    let locals = names.locals.len() as u32;
    let fixed = build_sorts(alloc, names.fixed)?;
    let variables = variable_names(alloc, names.parameters, names.locals, names.fixed)?;
    Ok(Header {
        name,
        params,
        locals,
        fixed,
        variables,
        place: function.key,
    })
}

fn build_requires(
    alloc: Global,
    regions: &RegionTable<'_>,
    types: &TypedNames<'_, '_>,
    names: &Named<'_, '_>,
    clause: Option<&Clause>,
) -> Result<Assertion, AllocError>
    requires { IsNarrowClause (whole_numbers (named_seen names.now).parameters
        ++ (hidden (named_seen names.now).locals ++ scope_of (named_seen names.now).fixed))
        (clause_seen clause) }
    ensures { IfOk result (λ a. items_view a ≡ clause_program (regions_of regions.now)
        (typed_names types.now) (whole_numbers (named_seen names.now).parameters
        ++ (hidden (named_seen names.now).locals ++ scope_of (named_seen names.now).fixed))
        (clause_seen clause.entry)) }
{
    let scope = requires_scope(alloc, names.parameters, names.locals, names.fixed)?;
    let reading = Reading {
        regions,
        types: Types {
            outer: None,
            own: types,
        },
        scope: &scope,
    };
    build_assertion(alloc, &reading, Vec::new(alloc), clause)
}

fn build_ensures<'a>(
    alloc: Global,
    body: &Body<'_, '_, 'a>,
    names: &Named<'_, 'a>,
    clause: Option<&'a Clause>,
) -> Result<Assertion, AllocError>
    requires { IsNarrowNew (context_seen body.now)
        (whole_numbers (named_seen names.now).parameters ++ (hidden (named_seen names.now).locals
        ++ (scope_of (named_seen names.now).fixed ++ result_entry ∷ [])))
        (clause_seen clause) }
    ensures { IfOk result (λ a. assertion_view a ≡ new_assertion (context_seen body.now)
        (whole_numbers (named_seen names.now).parameters ++ (hidden (named_seen names.now).locals
        ++ (scope_of (named_seen names.now).fixed ++ result_entry ∷ [])))
        (clause_seen clause.entry)) }
{
    let known = result_scope(alloc, names.parameters, names.locals, names.fixed)?;
    build_new(alloc, body, &known, clause)
}

impl Header {
    // The function of this header.
    fn finish(self, requires_: Assertion, ensures_: Assertion, body: Vec<Statement>) -> Function
        ensures { seen result ≡ record {
          name = self.name;
          params = self.params;
          locals = self.locals;
          fixed = self.fixed.items;
          variables = self.variables.items;
          requires = items_view requires_;
          ensures = assertion_view ensures_;
          body = block_seen body.items;
          place = self.place;
        } }
    {
        let Header {
            name,
            params,
            locals,
            fixed,
            variables,
            place,
        } = self;
        Function {
            name,
            params,
            locals,
            fixed,
            variables,
            requires_,
            ensures_,
            body,
            place,
        }
    }
}

fn with_ensures<'a>(
    alloc: Global,
    body: &Body<'_, '_, 'a>,
    function: &'a FunctionTree,
    header: Header,
    requires_: Assertion,
    ensures_: Assertion,
) -> Result<Function, AllocError>
    requires narrow { IsNarrowBlock (context_seen body.now) (function_view function.now).body }
    requires counted { length (block_parts (function_view function.now).body) + 1 < 2 ^ 32 }
    ensures { IfOk result (λ f. seen f ≡ record {
      name = header.name;
      params = header.params;
      locals = header.locals;
      fixed = header.fixed.items;
      variables = header.variables.items;
      requires = items_view requires_;
      ensures = assertion_view ensures_;
      body = body_program (context_seen body.now) (function_view function.now).body;
      place = header.place;
    }) }
{
    let statements = build_body(alloc, &function.body, body)?;
    Ok(header.finish(requires_, ensures_, statements))
}

fn with_requires<'a>(
    alloc: Global,
    body: &Body<'_, '_, 'a>,
    names: &Named<'_, 'a>,
    function: &'a FunctionTree,
    header: Header,
    requires_: Assertion,
) -> Result<Function, AllocError>
    requires ensures_ { IsNarrowNew (context_seen body.now)
        (whole_numbers (named_seen names.now).parameters ++ (hidden (named_seen names.now).locals
        ++ (scope_of (named_seen names.now).fixed ++ result_entry ∷ [])))
        (function_view function.now).postcondition }
    requires body { IsNarrowBlock (context_seen body.now) (function_view function.now).body }
    requires counted { length (block_parts (function_view function.now).body) + 1 < 2 ^ 32 }
    ensures { IfOk result (λ f. seen f ≡ record {
      name = header.name;
      params = header.params;
      locals = header.locals;
      fixed = header.fixed.items;
      variables = header.variables.items;
      requires = items_view requires_;
      ensures = new_assertion (context_seen body.now)
          (whole_numbers (named_seen names.now).parameters
          ++ (hidden (named_seen names.now).locals
          ++ (scope_of (named_seen names.now).fixed ++ result_entry ∷ [])))
          (function_view function.now).postcondition;
      body = body_program (context_seen body.now) (function_view function.now).body;
      place = header.place;
    }) }
{
    let ensures_ = build_ensures(alloc, body, names, clause_of(&function.postcondition))?;
    with_ensures(alloc, body, function, header, requires_, ensures_)
}

fn with_body<'a>(
    alloc: Global,
    body: &Body<'_, '_, 'a>,
    names: &Named<'_, 'a>,
    function: &'a FunctionTree,
) -> Result<Function, AllocError>
    requires { IsNarrowFunction (context_seen body.now) (named_seen names.now)
        (function_view function.now) }
    ensures { IfOk result (λ f. seen f ≡ function_in (context_seen body.now)
        (named_seen names.now) (function_view function.now)) }
{
    let header = build_header(alloc, names, function)?;
    let clause = clause_of(&function.precondition);
    let requires_ = build_requires(alloc, body.regions, body.types, names, clause)?;
    with_requires(alloc, body, names, function, header, requires_)
}

/// The function of a tree, with these names.
pub(crate) fn build_named<'a>(
    alloc: Global,
    regions: &RegionTable<'a>,
    functions: &FunctionTable<'a>,
    types: &TypedNames<'_, 'a>,
    names: &Named<'_, 'a>,
    function: &'a FunctionTree,
) -> Result<Function, AllocError>
    requires { IsNarrowBuilt (regions_of regions.now) (functions_of functions.now)
        (typed_names types.now) (named_seen names.now) (function_view function.now) }
    ensures { IfOk result (λ f. seen f ≡ function_built (regions_of regions.now)
        (functions_of functions.now) (typed_names types.now) (named_seen names.now)
        (function_view function.now)) }
{
    let kept = loop_scope(alloc, names.parameters, names.locals, names.fixed)?;
    let scope = body_scope(
        alloc,
        names.parameters,
        names.locals,
        names.destinations,
        names.fixed,
    )?;
    let body = Body {
        regions,
        functions,
        types,
        kept: &kept,
        scope: &scope,
    };
    with_body(alloc, &body, names, function)
}
