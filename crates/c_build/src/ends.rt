// The functions that a program calls, behind those of the code.

ghost use Rattle.std.specs.Prelude.{◌≡◌, ◌++◌, IfOk, List, map, length};
ghost use Rattle.sample_core.specs.TypeTree.{TypeTree};
ghost use Rattle.sample_core.specs.TypeView.{type_of};
ghost use Rattle.leaf_code.specs.Fitting.{Bounds};
ghost use Rattle.code_fits.specs.Tables.{bound_of};
ghost use Rattle.c_text.specs.Meant.{command_meant, function_meant, structs_meant, type_meant};
ghost use Rattle.c_leaf.specs.Within.{within_body, within_function};
ghost use Rattle.c_forms.specs.Keeping.{Shape};
ghost use Rattle.c_forms.specs.Checked.{checked_body};
ghost use Rattle.c_file.specs.FunctionC.{Callee};
ghost use Rattle.c_file.specs.ProgramC.{checked_step, init_function, state_type, step_function};
ghost use Rattle.c_file.specs.Guarded.{and_guarded, guarded_step};
ghost use Rattle.c_build.specs.Scopes.{table};
ghost use Rattle.c_build.specs.Frames.{IsCallee, handed_rows};
ghost use Rattle.c_build.specs.LeafLines.{IsKnown};
ghost use Rattle.c_build.specs.Places.{HasMost};
ghost use Rattle.c_build.specs.Testing.{tested_by};
ghost use Rattle.c_build.specs.Growing.{IsWhole, ended, known_limits, known_structs};

use crate::checked::push_checked;
use crate::compared::add_type;
use crate::frame::Called;
use crate::machine::assemble;
use crate::plain::{push_init, push_plain};
use crate::same::{has_no_list, number_among};
use crate::scope::Scope;
use crate::sym::Sym;
use crate::table::{INTEGER, TRUTH};
use crate::types::Known;
use crate::unbuilt::Unbuilt;
use crate::within::{Tests, push_guarded, push_within_body};
use c_text::{CType, Command, Function, Param};
use sample_core::Ty;

/// The last function of the code, which is the whole network, the type of its input, and the struct of the
/// state.
#[derive(Drop)]
pub(crate) struct Whole {
    pub(crate) called: Called,
    pub(crate) input: Ty,
    pub(crate) state: CType,
}

/// Adds the functions that a program calls: `init`, and a step, unchecked or one that tests what it is given.
pub(crate) fn push_ends(
    scope: Scope<'_>,
    known: Known<'_>,
    whole: &Whole,
    unchecked: bool,
    functions: &mut Vec<Function>,
) -> Result<(), Unbuilt>
    ensures { IfOk result (λ _. (c : Callee) → IsKnown known.entry → scope.entry.table ≡ known.entry.table
        → IsWhole (table scope.entry) (known_limits known.entry) c whole.now
        → map (function_meant (table scope.entry)) functions.new.items
        ≡ ended unchecked (known_limits known.entry) c
        (map (function_meant (table scope.entry)) functions.old.items)) }
{
    let init = init_function(scope, whole.state)?;
    functions.push(init)?;
    if unchecked {
        let step = plain_step(scope, whole)?;
        functions.push(step)?;
        return Ok(());
    }
    let j = functions.len();
    let step = checked_step(scope, whole)?;
    functions.push(step)?;
    push_guards(scope, known, whole, j, functions)?;
    Ok(())
}

/// The lines of `init`.
fn init_lines(scope: Scope<'_>, state: CType) -> Result<Command, Unbuilt>
    ensures { IfOk result (λ b. (n : Bounds) (S : Shape) → type_meant (table scope.entry) state ≡ state_type n S
        → command_meant (table scope.entry) b ≡ (init_function n S).body) }
{
    let mut out = Vec::new(scope.alloc);
    push_init(scope, &mut out, state)?;
    let body = assemble(scope.alloc, out.as_slice())?;
    Ok(body)
}

/// `void init(struct state *state)`.
fn init_function(scope: Scope<'_>, state: CType) -> Result<Function, Unbuilt>
    ensures { IfOk result (λ f. (n : Bounds) (S : Shape) → type_meant (table scope.entry) state ≡ state_type n S
        → function_meant (table scope.entry) f ≡ init_function n S) }
{
    let params = Vec::from_array(scope.alloc, [Param::Pointer(state)])?;
    let result = scope.table.keeps_none()?;
    let body = init_lines(scope, state)?;
    Ok(Function {
        params,
        result,
        body,
    })
}

/// What a step is passed that is called from outside.
fn handed(scope: Scope<'_>, whole: &Whole) -> Result<Vec<Param>, Unbuilt>
    ensures { IfOk result (λ ps. ps.items ≡ handed_rows whole.now.state whole.now.called) }
{
    let params = Vec::from_array(
        scope.alloc,
        [
            Param::Pointer(whole.state),
            Param::Value(INTEGER),
            Param::Const(whole.called.input),
            Param::Pointer(whole.called.output),
        ],
    )?;
    Ok(params)
}

/// The lines of the plain step.
fn plain_lines(scope: Scope<'_>, called: Called) -> Result<Command, Unbuilt>
    ensures { IfOk result (λ b. (n : Bounds) (c : Callee) → IsCallee (table scope.entry) n c called
        → command_meant (table scope.entry) b ≡ (step_function n c).body) }
{
    let mut out = Vec::new(scope.alloc);
    push_plain(scope, &mut out, called)?;
    let body = assemble(scope.alloc, out.as_slice())?;
    Ok(body)
}

/// `void step(struct state *state, int64_t dt, const A *input, B *output)`.
fn plain_step(scope: Scope<'_>, whole: &Whole) -> Result<Function, Unbuilt>
    ensures { IfOk result (λ f. (n : Bounds) (c : Callee) → IsWhole (table scope.entry) n c whole.now
        → function_meant (table scope.entry) f ≡ step_function n c) }
{
    let params = handed(scope, whole)?;
    let result = scope.table.keeps_none()?;
    let body = plain_lines(scope, whole.called)?;
    Ok(Function {
        params,
        result,
        body,
    })
}

/// The lines of the checked step.
fn checked_lines(scope: Scope<'_>, called: Called) -> Result<Command, Unbuilt>
    ensures { IfOk result (λ b. (n : Bounds) (c : Callee) → IsCallee (table scope.entry) n c called
        → command_meant (table scope.entry) b ≡ (checked_step n c).body) }
{
    let mut out = Vec::new(scope.alloc);
    push_checked(scope, &mut out, called.output, called.number)?;
    let body = assemble(scope.alloc, out.as_slice())?;
    Ok(body)
}

/// `bool step(..)`, which refuses a `dt` below 1 after the first sample.
fn checked_step(scope: Scope<'_>, whole: &Whole) -> Result<Function, Unbuilt>
    ensures { IfOk result (λ f. (n : Bounds) (c : Callee) → IsWhole (table scope.entry) n c whole.now
        → function_meant (table scope.entry) f ≡ checked_step n c) }
{
    let params = handed(scope, whole)?;
    let body = checked_lines(scope, whole.called)?;
    Ok(Function {
        params,
        result: TRUTH,
        body,
    })
}

/// The lines of the guarded step: function t tests the input, and function j does the step.
fn guarded_lines(scope: Scope<'_>, t: usize, j: usize) -> Result<Command, Unbuilt>
    ensures { IfOk result (λ b. (n : Bounds) (c : Callee)
        → command_meant (table scope.entry) b ≡ (guarded_step n c t j).body) }
{
    let mut out = Vec::new(scope.alloc);
    push_guarded(scope, &mut out, t, j)?;
    let body = assemble(scope.alloc, out.as_slice())?;
    Ok(body)
}

/// `bool step(..)`, which also refuses an input with a list over its array.
fn guarded_step(scope: Scope<'_>, whole: &Whole, t: usize, j: usize) -> Result<Function, Unbuilt>
    ensures { IfOk result (λ f. (n : Bounds) (c : Callee) → IsWhole (table scope.entry) n c whole.now
        → function_meant (table scope.entry) f ≡ guarded_step n c t j) }
{
    let params = handed(scope, whole)?;
    let body = guarded_lines(scope, t, j)?;
    Ok(Function {
        params,
        result: TRUTH,
        body,
    })
}

/// The lines of the function that tests values of a type, of which lists have room for so many elements.
fn within_lines(scope: Scope<'_>, tests: Tests<'_>, ty: &Ty, most: u32) -> Result<Command, Unbuilt>
    ensures { IfOk result (λ b. (n : Bounds) → HasMost n (type_of ty.now) most
        → command_meant (table scope.entry) b ≡ within_body n (tested_by tests.entry) (type_of ty.now)) }
{
    let mut out = Vec::new(scope.alloc);
    push_within_body(scope, &mut out, tests, ty, most)?;
    let body = assemble(scope.alloc, out.as_slice())?;
    Ok(body)
}

/// `bool within(const T *v)`.
fn within_function(
    scope: Scope<'_>,
    known: Known<'_>,
    tests: Tests<'_>,
    ty: &Ty,
) -> Result<Function, Unbuilt>
    ensures { IfOk result (λ f. IsKnown known.entry → scope.entry.table ≡ known.entry.table
        → function_meant (table scope.entry) f
        ≡ within_function (known_limits known.entry) (tested_by tests.entry)
        (type_of ty.now)) }
{
    let param = known.type_of(ty)?;
    let most = known.most_in(ty)?;
    let params = Vec::from_array(scope.alloc, [Param::Const(param)])?;
    let body = within_lines(scope, tests, ty, most)?;
    Ok(Function {
        params,
        result: TRUTH,
        body,
    })
}

/// Adds the functions that test types.
fn push_tests(
    scope: Scope<'_>,
    known: Known<'_>,
    tests: Tests<'_>,
    functions: &mut Vec<Function>,
) -> Result<(), Unbuilt>
    ensures { IfOk result (λ _. IsKnown known.entry → scope.entry.table ≡ known.entry.table
        → map (function_meant (table scope.entry)) functions.new.items
        ≡ map (function_meant (table scope.entry)) functions.old.items
        ++ map (within_function (known_limits known.entry) (tested_by tests.entry))
        (map type_of tests.entry.types.now)) }
{
    let types = tests.types;
    for ty in types {
        let function = within_function(scope, known, tests, ty)?;
        functions.push(function)?;
    }
    Ok(())
}

/// Adds the functions that test an input with lists, and the guarded step; function j is the checked one.
fn push_guards(
    scope: Scope<'_>,
    known: Known<'_>,
    whole: &Whole,
    j: usize,
    functions: &mut Vec<Function>,
) -> Result<(), Unbuilt>
    ensures { IfOk result (λ _. (c : Callee) → IsKnown known.entry → scope.entry.table ≡ known.entry.table
        → IsWhole (table scope.entry) (known_limits known.entry) c whole.now
        → map (function_meant (table scope.entry)) functions.new.items
        ≡ and_guarded (known_limits known.entry) c j
        (map (function_meant (table scope.entry)) functions.old.items)) }
{
    if has_no_list(&whole.input) {
        return Ok(());
    }
    let mut tested = Vec::new(scope.alloc);
    add_type(scope.alloc, &whole.input, &mut tested)?;
    let tests = Tests {
        types: tested.as_slice(),
        first: functions.len(),
    };
    let number = number_among(tests.types, &whole.input);
    let Some(t) = tests.first.checked_add(number) else {
        return Err(Unbuilt::Missing);
    };
    push_tests(scope, known, tests, functions)?;
    let step = guarded_step(scope, whole, t, j)?;
    functions.push(step)?;
    Ok(())
}
