// The expressions of functions, and their code.

ghost use Rattle.std.specs.Prelude.{◌≡◌, IfOk, MatchOption, map};
ghost use Rattle.sample_core.specs.TypeTree.{unit_ty, pair_ty};
ghost use Rattle.sample_core.specs.TypeView.{type_of};
ghost use Rattle.leaf_code.specs.CodeOf.{carried_type, right_type, type_at};
ghost use Rattle.leaf_code.specs.CodeView.{leaf_of, steps_in};
ghost use Rattle.code_fits.specs.Tables.{layout_of, tree_at, tree_if, trees_at};
ghost use Rattle.code_fits.specs.Layouts.{kept_type, type_or_unit};
ghost use Rattle.c_file.specs.Compared.{code_of_leaf, input_of, leaves_of};
ghost use Rattle.c_build.specs.Leaves.{leaf_in};

use code_fits::{Layout, Types};
use leaf_code::{LeafCode, Step, compile_expr};
use leaf_core::Expr;
use net_code::Function;
use sample_core::{Memory, Ty, TyChild};
use std::alloc::Global;

/// An expression of a function.
#[derive(Drop)]
pub(crate) enum Leaf<'a> {
    /// A constant.
    Constant(&'a Expr),
    /// One at an input of a type.
    AtInput(Ty, &'a Expr),
}

/// The type of a number in a table, `Unit` where it isn't there.
pub(crate) fn tree_at(alloc: Global, types: &Types, k: usize) -> Result<Ty, Memory>
    ensures { IfOk result (λ t. type_of t ≡ tree_at types.now k) }
{
    match types.trees.get(k) {
        Some(tree) => tree.try_copy(alloc),
        None => Ok(Ty::Unit),
    }
}

/// The types of numbers.
pub(crate) fn trees_at(alloc: Global, types: &Types, numbers: &[usize]) -> Result<Vec<Ty>, Memory>
    ensures { IfOk result (λ all. map type_of all.items ≡ trees_at types.now numbers.now) }
{
    let mut all = Vec::new(alloc);
    for number in numbers {
        all.push(tree_at(alloc, types, *number)?)?;
    }
    Ok(all)
}

/// The type of what an event carries; a type that is no event's is its own.
pub(crate) fn carried(alloc: Global, ty: Ty) -> Result<Ty, Memory>
    ensures { IfOk result (λ t. type_of t ≡ carried_type (type_of ty)) }
{
    match ty {
        Ty::Event(a) => a.get().try_copy(alloc),
        Ty::Unit | Ty::Bool | Ty::Int | Ty::Pair(..) | Ty::List(_) => Ok(ty),
    }
}

/// The type of a pair's right part; a type that is no pair's is its own.
pub(crate) fn right(alloc: Global, ty: Ty) -> Result<Ty, Memory>
    ensures { IfOk result (λ t. type_of t ≡ right_type (type_of ty)) }
{
    match ty {
        Ty::Pair(_, b) => b.get().try_copy(alloc),
        Ty::Unit | Ty::Bool | Ty::Int | Ty::Event(_) | Ty::List(_) => Ok(ty),
    }
}

/// The type of pairs.
fn pair(alloc: Global, a: Ty, b: Ty) -> Result<Ty, Memory>
    ensures { IfOk result (λ t. type_of t ≡ pair_ty (type_of a) (type_of b)) }
{
    let a = TyChild::new(alloc, a)?;
    let b = TyChild::new(alloc, b)?;
    Ok(Ty::Pair(a, b))
}

/// The type of the value that a function keeps itself, `Unit` where it keeps none.
fn kept(alloc: Global, types: &Types, kept: Option<usize>) -> Result<Ty, Memory>
    ensures { IfOk result (λ t. type_of t ≡ type_or_unit (tree_if types.now kept)) }
{
    match kept {
        Some(k) => tree_at(alloc, types, k),
        None => Ok(Ty::Unit),
    }
}

/// The expressions of a function, in the order of their C functions.
pub(crate) fn leaves_of<'a>(
    alloc: Global,
    types: &Types,
    layout: &Layout,
    function: &'a Function,
) -> Result<Vec<Leaf<'a>>, Memory>
    ensures { IfOk result (λ all. map leaf_in all.items
        ≡ leaves_of (layout_of types.now layout.now) function.now) }
{
    match function {
        Function::Arr(e) => {
            let input = tree_at(alloc, types, layout.input)?;
            Ok(Vec::from_array(alloc, [Leaf::AtInput(input, e)])?)
        }
        Function::Loop(c, _)
        | Function::Cell(_, c)
        | Function::InitialOut(c, _)
        | Function::InitialIn(c, _) => Ok(Vec::from_array(alloc, [Leaf::Constant(c)])?),
        Function::Accum(g, z) => {
            let input = accum_input(alloc, types, layout)?;
            Ok(Vec::from_array(alloc, [Leaf::Constant(z), Leaf::AtInput(input, g)])?)
        }
        Function::PSwitch(r, ..) => {
            let input = tree_at(alloc, types, layout.input)?;
            let input = pair(alloc, input, Ty::Int)?;
            Ok(Vec::from_array(alloc, [Leaf::AtInput(input, r)])?)
        }
        Function::Collection(_, m, _) => {
            let input = tree_at(alloc, types, layout.input)?;
            let event = right(alloc, input)?;
            let input = carried(alloc, event)?;
            Ok(Vec::from_array(alloc, [Leaf::AtInput(input, m)])?)
        }
        _ => Ok(Vec::new(alloc)),
    }
}

/// The type of what the step of an `accumBy` gets.
fn accum_input(alloc: Global, types: &Types, layout: &Layout) -> Result<Ty, Memory>
    ensures { IfOk result (λ t. type_of t
        ≡ pair_ty (kept_type (layout_of types.now layout.now))
        (carried_type (tree_at types.now layout.now.input))) }
{
    let value = kept(alloc, types, layout.kept)?;
    let event = tree_at(alloc, types, layout.input)?;
    let input = carried(alloc, event)?;
    pair(alloc, value, input)
}

/// The type of an expression's input: a constant's is a unit.
pub(crate) fn input_of(alloc: Global, leaf: &Leaf<'_>) -> Result<Ty, Memory>
    ensures { IfOk result (λ t. type_of t ≡ input_of (leaf_in leaf.now)) }
{
    match leaf {
        Leaf::Constant(_) => Ok(Ty::Unit),
        Leaf::AtInput(input, _) => input.try_copy(alloc),
    }
}

/// The code of an expression, under parameters of these types.
pub(crate) fn code_of_leaf(
    alloc: Global,
    params: &[Ty],
    leaf: &Leaf<'_>,
) -> Result<LeafCode, Memory>
    ensures { IfOk result (λ code. leaf_of code
        ≡ code_of_leaf (map type_of params.now) (leaf_in leaf.now)) }
{
    match leaf {
        Leaf::Constant(e) => compile_expr(alloc, params, &Ty::Unit, *e),
        Leaf::AtInput(input, e) => compile_expr(alloc, params, input, *e),
    }
}

/// The type of register k of code at an input, if there is such a register.
pub(crate) fn register_type<'a>(input: &'a Ty, steps: &'a [Step], k: usize) -> Option<&'a Ty>
    ensures { MatchOption result (type_at (type_of input.now) (steps_in steps.now) k ≡ unit_ty)
        (λ t. type_of t.now ≡ type_at (type_of input.now) (steps_in steps.now) k) }
{
    if k == 0 {
        return Some(input);
    }
    match steps.get(k - 1) {
        Some(step) => Some(&step.ty),
        None => None,
    }
}
