// The C functions of expressions, and those that compare values.

ghost use Rattle.std.specs.Prelude.{◌≡◌, ◌++◌, List, IfOk, map, pos};
ghost use Rattle.sample_core.specs.TypeTree.{TypeTree, unit_ty};
ghost use Rattle.sample_core.specs.TypeView.{type_of};
ghost use Rattle.leaf_code.specs.Fitting.{Bounds};
ghost use Rattle.leaf_code.specs.CodeView.{steps_in};
ghost use Rattle.code_fits.specs.Tables.{bound_of};
ghost use Rattle.c_text.specs.Meant.{command_meant, function_meant, structs_meant, type_meant};
ghost use Rattle.c_leaf.specs.Representing.{c_type};
ghost use Rattle.c_leaf.specs.LeafC.{constant_function, leaf_function, same_body, same_function};
ghost use Rattle.c_meaning.specs.Object.{number_type, u8};
ghost use Rattle.c_meaning.specs.Syntax.{define, literal, sequence};
ghost use Rattle.c_file.specs.Compared.{number_among};
ghost use Rattle.c_file.specs.FunctionC.{leaf_c};
ghost use Rattle.c_build.specs.Scopes.{IsType, table};
ghost use Rattle.c_build.specs.Frames.{bounds_in, const_rows};
ghost use Rattle.c_build.specs.LeafLines.{IsKnown, IsTyped, compared_in, leaf_at, register_at};
ghost use Rattle.c_build.specs.Places.{HasMost};
ghost use Rattle.c_build.specs.Leaves.{leaf_in};

use crate::frame::Frame;
use crate::leaf::{push_constant, push_leaf};
use crate::leaves::{Leaf, code_of_leaf, input_of};
use crate::machine::assemble;
use crate::operation::Lines;
use crate::same::push_same_body;
use crate::scope::Scope;
use crate::table::TRUTH;
use crate::types::Known;
use crate::unbuilt::Unbuilt;
use c_text::{CType, Command, Function, Param};
use sample_core::Ty;
use std::alloc::Global;

/// The lines of the function that compares values of a type, of which lists have so many elements at most.
fn same_lines(scope: Scope<'_>, compared: &[Ty], ty: &Ty, most: u32) -> Result<Command, Unbuilt>
    ensures { IfOk result (λ b. (n : Bounds) → HasMost n (type_of ty.now) most
        → command_meant (table scope.entry) b
        ≡ same_body n (number_among (map type_of compared.now)) (type_of ty.now)) }
{
    let mut out = Vec::new(scope.alloc);
    push_same_body(scope, &mut out, compared, ty, most)?;
    let body = assemble(scope.alloc, out.as_slice())?;
    Ok(body)
}

/// `bool same(const T *v, const T *w)`, which compares values of a type by those of other types.
pub(crate) fn same_function(
    alloc: Global,
    known: Known<'_>,
    compared: &[Ty],
    ty: &Ty,
) -> Result<Function, Unbuilt>
    ensures { IfOk result (λ f. IsKnown known.entry
        → function_meant (structs_meant known.entry.table.structs.now) f
        ≡ same_function (bound_of known.entry.types.now known.entry.bounds.now)
        (number_among (map type_of compared.now)) (type_of ty.now)) }
{
    let scope = Scope::new(alloc, known.table, &[], &[])?;
    let param = known.type_of(ty)?;
    let most = known.most_in(ty)?;
    let mut params = Vec::new(alloc);
    push_consts(&mut params, &[param, param])?;
    let body = same_lines(scope, compared, ty, most)?;
    Ok(Function {
        params,
        result: TRUTH,
        body,
    })
}

/// The lines of an expression's function, which answers a register.
fn leaf_lines(lines: Lines<'_>, answer: usize) -> Result<Command, Unbuilt>
    ensures { IfOk result (λ b. IsTyped lines.entry.frame
        → command_meant (table lines.entry.frame.scope) b ≡ leaf_at lines.entry answer) }
{
    let mut out = Vec::new(lines.frame.scope.alloc);
    push_leaf(lines, &mut out, answer)?;
    let body = assemble(lines.frame.scope.alloc, out.as_slice())?;
    Ok(body)
}

/// The lines of a constant's function, which answers a register.
fn constant_lines(lines: Lines<'_>, answer: usize) -> Result<Command, Unbuilt>
    ensures { IfOk result (λ b. IsTyped lines.entry.frame
        → command_meant (table lines.entry.frame.scope) b
        ≡ sequence (define (number_type u8) (literal u8 (pos 0))) (leaf_at lines.entry answer)) }
{
    let mut out = Vec::new(lines.frame.scope.alloc);
    push_constant(lines, &mut out, answer)?;
    let body = assemble(lines.frame.scope.alloc, out.as_slice())?;
    Ok(body)
}

/// The type of C of a register.
fn type_at(lines: Lines<'_>, k: usize) -> Result<CType, Unbuilt>
    ensures { IfOk result (λ T. IsTyped lines.entry.frame
        → IsType lines.entry.frame.scope (bounds_in lines.entry.frame) T (register_at lines.entry k)) }
{
    let ty = lines.type_at(k)?;
    lines.frame.type_of(ty)
}

/// `B leaf(const P *p0, .., const A *x)`, which answers a register.
fn leaf_function(lines: Lines<'_>, answer: usize) -> Result<Function, Unbuilt>
    ensures { IfOk result (λ f. (Ps : List TypeTree) → IsTyped lines.entry.frame
        → map (type_meant (table lines.entry.frame.scope)) lines.entry.frame.scope.params.now
        ≡ map (c_type (bounds_in lines.entry.frame)) Ps
        → function_meant (table lines.entry.frame.scope) f
        ≡ leaf_function (bounds_in lines.entry.frame) (compared_in lines.entry) Ps
        (type_of lines.entry.input.now) (steps_in lines.entry.steps.now, answer)) }
{
    let input = lines.frame.type_of(lines.input)?;
    let result = type_at(lines, answer)?;
    let mut params = Vec::new(lines.frame.scope.alloc);
    push_consts(&mut params, lines.frame.scope.params)?;
    push_consts(&mut params, &[input])?;
    let body = leaf_lines(lines, answer)?;
    Ok(Function {
        params,
        result,
        body,
    })
}

/// `B constant(const P *p0, ..)`, which answers a register.
fn constant_function(lines: Lines<'_>, answer: usize) -> Result<Function, Unbuilt>
    ensures { IfOk result (λ f. (Ps : List TypeTree) → IsTyped lines.entry.frame
        → type_of lines.entry.input.now ≡ unit_ty
        → map (type_meant (table lines.entry.frame.scope)) lines.entry.frame.scope.params.now
        ≡ map (c_type (bounds_in lines.entry.frame)) Ps
        → function_meant (table lines.entry.frame.scope) f
        ≡ constant_function (bounds_in lines.entry.frame) (compared_in lines.entry) Ps
        (steps_in lines.entry.steps.now, answer)) }
{
    let result = type_at(lines, answer)?;
    let mut params = Vec::new(lines.frame.scope.alloc);
    push_consts(&mut params, lines.frame.scope.params)?;
    let body = constant_lines(lines, answer)?;
    Ok(Function {
        params,
        result,
        body,
    })
}

/// The C function of an expression, under parameters of these types.
pub(crate) fn function_of_leaf(
    frame: Frame<'_>,
    compared: &[Ty],
    params: &[Ty],
    leaf: &Leaf<'_>,
) -> Result<Function, Unbuilt>
    ensures { IfOk result (λ f. IsTyped frame.entry
        → map (type_meant (table frame.entry.scope)) frame.entry.scope.params.now
        ≡ map (c_type (bounds_in frame.entry)) (map type_of params.now)
        → function_meant (table frame.entry.scope) f
        ≡ leaf_c (bounds_in frame.entry) (number_among (map type_of compared.now)) (map type_of params.now)
        (leaf_in leaf.now)) }
{
    let alloc = frame.scope.alloc;
    let input = input_of(alloc, leaf)?;
    let code = code_of_leaf(alloc, params, leaf)?;
    let lines = Lines {
        frame,
        compared,
        input: &input,
        steps: code.steps.as_slice(),
    };
    match leaf {
        Leaf::Constant(_) => {
            let function = constant_function(lines, code.answer)?;
            Ok(function)
        }
        Leaf::AtInput(..) => {
            let function = leaf_function(lines, code.answer)?;
            Ok(function)
        }
    }
}

/// Adds parameters by pointer.
pub(crate) fn push_consts(params: &mut Vec<Param>, types: &[CType]) -> Result<(), Unbuilt>
    ensures { IfOk result (λ _. params.new.items ≡ params.old.items ++ const_rows types.now) }
{
    for ty in types {
        params.push(Param::Const(*ty))?;
    }
    Ok(())
}
