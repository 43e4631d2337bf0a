// Small tests of a function's layout: of types, of its statements' values, of what it calls, of its
// expressions. Each refuses by `Untyped`.

ghost use Rattle.std.specs.Prelude.{◌≡◌, ◌≤◌, ◌++◌, IfOk, None, Some, map, slice_get};
ghost use Rattle.sample_core.specs.TypeTree.{pair_ty};
ghost use Rattle.sample_core.specs.TypeView.{type_of};
ghost use Rattle.leaf_core.specs.ExpressionView.{expression_of};
ghost use Rattle.leaf_core.specs.ExpressionTyping.{ExpressionTyped};
ghost use Rattle.leaf_code.specs.CodeOf.{leaf_code};
ghost use Rattle.leaf_code.specs.CodeView.{operation_of, steps_in};
ghost use Rattle.leaf_code.specs.Fitting.{ListsWithin};
ghost use Rattle.code_fits.specs.Rules.{AllGo, LeafTyped};
ghost use Rattle.code_fits.specs.Parts.{GoesHere, TakesOver};
ghost use Rattle.code_fits.specs.Tables.{beside, bound_of, elements_in, layout_of, tree_at, trees_at};

use crate::layout::Layout;
use crate::types::Types;
use crate::walk::{Unlaid, trees};
use leaf_code::{Operation, Step, compile_expr};
use leaf_core::{Expr, ExprFault, type_of_expr};
use sample_core::{Ty, TyChild, same_type};
use std::alloc::Global;

/// A function's layout, behind those of earlier functions.
#[derive(Clone, Copy)]
pub(crate) struct Around<'a> {
    pub(crate) alloc: Global,
    pub(crate) types: &'a Types,
    pub(crate) bounds: &'a [usize],
    pub(crate) earlier: &'a [Layout],
    pub(crate) layout: &'a Layout,
}

/// Two types of the table are the same.
pub(crate) fn same(a: usize, b: usize) -> Result<(), Unlaid>
    ensures { IfOk result (λ _. a ≡ b) }
{
    if a == b { Ok(()) } else { Err(Unlaid::Untyped) }
}

/// The numbers are the same.
pub(crate) fn equal(a: &[usize], b: &[usize]) -> Result<(), Unlaid>
    ensures { IfOk result (λ _. a.now ≡ b.now) }
{
    if a == b { Ok(()) } else { Err(Unlaid::Untyped) }
}

/// The numbers are some at the front and others behind.
pub(crate) fn joined(all: &[usize], front: &[usize], back: &[usize]) -> Result<(), Unlaid>
    ensures { IfOk result (λ _. all.now ≡ front.now ++ back.now) }
{
    if all.len() < front.len() {
        return Err(Unlaid::Untyped);
    }
    let (first, others) = all.split_at(front.len());
    equal(first, front)?;
    equal(others, back)
}

/// The values of the function's statements have these types.
pub(crate) fn has(around: Around<'_>, values: &[usize]) -> Result<(), Unlaid>
    ensures { IfOk result (λ _. around.entry.layout.now.values.items ≡ values.now) }
{
    equal(around.layout.values.as_slice(), values)
}

/// The function keeps no value itself.
pub(crate) fn keeps_none(around: Around<'_>) -> Result<(), Unlaid>
    ensures { IfOk result (λ _. around.entry.layout.now.kept ≡ None) }
{
    match around.layout.kept {
        None => Ok(()),
        Some(_) => Err(Unlaid::Untyped),
    }
}

/// The type of the value that the function keeps itself.
pub(crate) fn kept(around: Around<'_>) -> Result<usize, Unlaid>
    ensures { IfOk result (λ v. around.entry.layout.now.kept ≡ Some v) }
{
    match around.layout.kept {
        Some(v) => Ok(v),
        None => Err(Unlaid::Untyped),
    }
}

/// Number k of these.
pub(crate) fn number_at(all: &[usize], k: usize) -> Result<usize, Unlaid>
    ensures { IfOk result (λ n. slice_get all.now k ≡ Some n) }
{
    match all.get(k) {
        Some(number) => Ok(*number),
        None => Err(Unlaid::Untyped),
    }
}

/// The type of a number.
pub(crate) fn type_at(types: &Types, k: usize) -> Result<&Ty, Unlaid>
    ensures { IfOk result (λ t. type_of t.now ≡ tree_at types.now k) }
{
    match types.trees.get(k) {
        Some(ty) => Ok(ty),
        None => Err(Unlaid::Untyped),
    }
}

/// The layout of function j.
pub(crate) fn layout_at(layouts: &[Layout], j: usize) -> Result<&Layout, Unlaid>
    ensures { IfOk result (λ l. slice_get layouts.now j ≡ Some l.now) }
{
    match layouts.get(j) {
        Some(layout) => Ok(layout),
        None => Err(Unlaid::Untyped),
    }
}

/// Function j goes from a to b, with the same in scope.
pub(crate) fn goes(around: Around<'_>, j: usize, a: usize, b: usize) -> Result<(), Unlaid>
    ensures { IfOk result (λ _. GoesHere around.entry.types.now around.entry.earlier.now
        around.entry.layout.now j a b) }
{
    let callee = layout_at(around.earlier, j)?;
    same(callee.input, a)?;
    same(callee.output, b)?;
    equal(callee.params.as_slice(), around.layout.params.as_slice())?;
    equal(callee.olds.as_slice(), around.layout.olds.as_slice())?;
    Ok(())
}

/// Function t goes from a to b, with one parameter more, and these frozen networks more.
pub(crate) fn resumes(
    around: Around<'_>,
    t: usize,
    by: usize,
    frozen: &[usize],
    a: usize,
    b: usize,
) -> Result<(), Unlaid>
    ensures { IfOk result (λ _. TakesOver around.entry.types.now around.entry.earlier.now
        around.entry.layout.now (around.entry.layout.now.olds.items ++ frozen.now) t by a b) }
{
    let callee = layout_at(around.earlier, t)?;
    same(callee.input, a)?;
    same(callee.output, b)?;
    joined(
        callee.params.as_slice(),
        around.layout.params.as_slice(),
        &[by],
    )?;
    joined(
        callee.olds.as_slice(),
        around.layout.olds.as_slice(),
        frozen,
    )?;
    Ok(())
}

/// Function t goes from a to b, with one parameter more.
pub(crate) fn takes_over(
    around: Around<'_>,
    t: usize,
    by: usize,
    a: usize,
    b: usize,
) -> Result<(), Unlaid>
    ensures { IfOk result (λ _. TakesOver around.entry.types.now around.entry.earlier.now
        around.entry.layout.now around.entry.layout.now.olds.items t by a b) }
{
    resumes(around, t, by, &[], a, b)
}

/// Each of these functions goes from a to b, with the same in scope.
pub(crate) fn all_go(around: Around<'_>, fs: &[usize], a: usize, b: usize) -> Result<(), Unlaid>
    ensures { IfOk result (λ _. AllGo (map (layout_of around.entry.types.now) around.entry.earlier.now)
        (trees_at around.entry.types.now around.entry.layout.now.params.items)
        around.entry.layout.now.olds.items
        (tree_at around.entry.types.now a) (tree_at around.entry.types.now b) fs.now) }
{
    for f in fs {
        goes(around, *f, a, b)?;
    }
    Ok(())
}

/// How many elements lists of a type may have: the number beside the first of some types that is it.
pub(crate) fn most_of(known: &[Ty], bounds: &[usize], list: &Ty) -> Result<usize, Unlaid>
    ensures { IfOk result
        (λ most. most ≡ beside (type_of list.now) (map type_of known.now) bounds.now) }
{
    for (i, ty) in known.iter().enumerate() {
        let most = number_at(bounds, i)?;
        if same_type(ty, list) {
            return Ok(most);
        }
    }
    Err(Unlaid::Untyped)
}

/// Lists of a type may have so many elements.
pub(crate) fn may_have(known: &[Ty], bounds: &[usize], list: &Ty, many: usize) -> Result<(), Unlaid>
    ensures { IfOk result
        (λ _. many ≤ beside (type_of list.now) (map type_of known.now) bounds.now) }
{
    if many <= most_of(known, bounds, list)? {
        Ok(())
    } else {
        Err(Unlaid::Untyped)
    }
}

/// The type of the function's answer is one of lists, which may have so many elements.
pub(crate) fn answers_many(around: Around<'_>, list: usize, many: usize) -> Result<(), Unlaid>
    ensures { IfOk result (λ _. many ≤ beside (tree_at around.entry.types.now list)
        (map type_of around.entry.types.now.trees.items) around.entry.bounds.now) }
{
    match around.types.trees.get(list) {
        Some(ty) => may_have(around.types.trees.as_slice(), around.bounds, ty, many),
        None => Err(Unlaid::Untyped),
    }
}

/// How many registers a step makes a list of.
fn elements(operation: &Operation) -> usize
    ensures { result ≡ elements_in (operation_of operation.now) }
{
    match operation {
        Operation::List(all) => all.len(),
        _ => 0,
    }
}

/// The list that a step makes is within its bound.
fn step_within(known: &[Ty], bounds: &[usize], step: &Step) -> Result<(), Unlaid>
    ensures { IfOk result (λ _. elements_in (operation_of step.now.operation)
        ≤ beside (type_of step.now.ty) (map type_of known.now) bounds.now) }
{
    let many = elements(&step.operation);
    if many == 0 {
        return Ok(());
    }
    may_have(known, bounds, &step.ty, many)
}

/// The lists that steps make are within their bounds.
fn steps_within(types: &Types, bounds: &[usize], steps: &[Step]) -> Result<(), Unlaid>
    ensures { IfOk result (λ _. ListsWithin (bound_of types.now bounds.now) (steps_in steps.now)) }
{
    for step in steps {
        step_within(types.trees.as_slice(), bounds, step)?;
    }
    Ok(())
}

/// An expression goes from one type to another.
fn is_typed(alloc: Global, params: &[Ty], input: &Ty, e: &Expr, output: &Ty) -> Result<(), Unlaid>
    ensures { IfOk result (λ _. ExpressionTyped (expression_of e.now) (map type_of params.now)
        (type_of input.now) (type_of output.now)) }
{
    match type_of_expr(alloc, params, input, e) {
        Ok(found) => {
            if same_type(&found, output) {
                Ok(())
            } else {
                Err(Unlaid::Untyped)
            }
        }
        Err(ExprFault::Memory) => Err(Unlaid::Memory),
        Err(_) => Err(Unlaid::Untyped),
    }
}

/// The lists that an expression's code makes are within their bounds.
fn lists_within(around: Around<'_>, params: &[Ty], input: &Ty, e: &Expr) -> Result<(), Unlaid>
    ensures { IfOk result
        (λ _. ListsWithin (bound_of around.entry.types.now around.entry.bounds.now)
        (leaf_code (map type_of params.now) (type_of input.now) (expression_of e.now)).0) }
{
    let code = compile_expr(around.alloc, params, input, e)?;
    steps_within(around.types, around.bounds, code.steps.as_slice())
}

/// An expression goes from a type to another, and the lists that it makes are within their bounds.
pub(crate) fn leaf_to(around: Around<'_>, e: &Expr, input: &Ty, output: &Ty) -> Result<(), Unlaid>
    ensures { IfOk result (λ _. LeafTyped (bound_of around.entry.types.now around.entry.bounds.now)
        (trees_at around.entry.types.now around.entry.layout.now.params.items) e.now
        (type_of input.now) (type_of output.now)) }
{
    let params = trees(around.alloc, around.layout.params.as_slice(), around.types)?;
    is_typed(around.alloc, params.as_slice(), input, e, output)?;
    lists_within(around, params.as_slice(), input, e)
}

/// The same to b.
pub(crate) fn leaf_at(around: Around<'_>, e: &Expr, input: &Ty, b: usize) -> Result<(), Unlaid>
    ensures { IfOk result (λ _. LeafTyped (bound_of around.entry.types.now around.entry.bounds.now)
        (trees_at around.entry.types.now around.entry.layout.now.params.items) e.now
        (type_of input.now) (tree_at around.entry.types.now b)) }
{
    let output = around.types.tree(around.alloc, b)?;
    leaf_to(around, e, input, &output)
}

/// The same from a to b.
pub(crate) fn leaf(around: Around<'_>, e: &Expr, a: usize, b: usize) -> Result<(), Unlaid>
    ensures { IfOk result (λ _. LeafTyped (bound_of around.entry.types.now around.entry.bounds.now)
        (trees_at around.entry.types.now around.entry.layout.now.params.items) e.now
        (tree_at around.entry.types.now a) (tree_at around.entry.types.now b)) }
{
    let input = around.types.tree(around.alloc, a)?;
    leaf_at(around, e, &input, b)
}

/// The same from pairs of a type of the table and another to b.
pub(crate) fn leaf_beside(
    around: Around<'_>,
    e: &Expr,
    a: usize,
    other: Ty,
    b: usize,
) -> Result<(), Unlaid>
    ensures { IfOk result (λ _. LeafTyped (bound_of around.entry.types.now around.entry.bounds.now)
        (trees_at around.entry.types.now around.entry.layout.now.params.items) e.now
        (pair_ty (tree_at around.entry.types.now a) (type_of other))
        (tree_at around.entry.types.now b)) }
{
    let first = TyChild::new(around.alloc, around.types.tree(around.alloc, a)?)?;
    let second = TyChild::new(around.alloc, other)?;
    let input = Ty::Pair(first, second);
    leaf_at(around, e, &input, b)
}
