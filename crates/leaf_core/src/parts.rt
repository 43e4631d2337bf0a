// The parts of an expression by their numbers, and the expression with another part.

ghost use Rattle.std.specs.Prelude.{◌≡◌, ◌<◌, IfOk, length, option_map, set};
ghost use Rattle.sample_core.specs.TypeView.{type_of};
ghost use Rattle.leaf_core.specs.{ExpressionView.expression_of, Inside.one, Inside.two, Inside.three, Inside.many, Inside.inside_of};
ghost use Rattle.leaf_core.specs.Expression.{expressions_of, list_expr};
ghost use Rattle.leaf_core.specs.Parts.{inside_with, part, part_at, refilled, with_part, with_part_at};

use crate::contents::{Contents, inside};
use crate::expr::{Expr, ExprChild, Exprs, with_one_part, with_three_parts, with_two_parts};
use sample_core::{Memory, Ty};
use std::alloc::Global;
use std::mem::replace;

/// Part k of the expression, from 0, in written order. Types and numbers are no parts.
pub fn part(expr: &Expr, k: u32) -> Option<&Expr>
    ensures { option_map (λ e. expression_of e.now) result ≡ part (expression_of expr.now) k }
{
    match inside(expr) {
        Contents::One(a) => match k {
            0 => Some(a.get()),
            _ => None,
        },
        Contents::Two(a, b) => match k {
            0 => Some(a.get()),
            1 => Some(b.get()),
            _ => None,
        },
        Contents::Three(a, b, c) => match k {
            0 => Some(a.get()),
            1 => Some(b.get()),
            2 => Some(c.get()),
            _ => None,
        },
        Contents::Elements(_, all) => all.as_slice().get(k as usize),
        _ => None,
    }
}

/// What stands in the expression at the path of part numbers.
pub fn part_at<'e>(expr: &'e Expr, path: &[u32]) -> Option<&'e Expr>
    ensures { option_map (λ e. expression_of e.now) result
        ≡ part_at (expression_of expr.now) path.now }
{
    let mut found = expr;
    for k in path {
        found = part(found, *k)?;
    }
    Some(found)
}

/// The expression with the other one at the path of part numbers; `None` if the path leads to no
/// part. `Memory` if allocation fails.
pub fn with_part_at(
    alloc: Global,
    expr: &Expr,
    path: &[u32],
    other: &Expr,
) -> Result<Option<Expr>, Memory>
    ensures { IfOk result (λ found. option_map expression_of found
        ≡ with_part_at (expression_of expr.now) path.now (expression_of other.now)) }
{
    let Some((k, rest)) = path.split_first() else {
        let copy = other.try_copy(alloc)?;
        return Ok(Some(copy));
    };
    let Some(inner) = part(expr, *k) else {
        return Ok(None);
    };
    match with_part_at(alloc, inner, rest, other) {
        Ok(Some(changed)) => with_part(alloc, expr, *k, changed),
        Ok(None) => Ok(None),
        Err(refused) => Err(refused),
    }
}

/// The expression with the other one as part k; `None` if it has no such part.
fn with_part(alloc: Global, expr: &Expr, k: u32, other: Expr) -> Result<Option<Expr>, Memory>
    ensures { IfOk result (λ found. option_map expression_of found
        ≡ with_part (expression_of expr.now) k (expression_of other)) }
{
    match inside(expr) {
        Contents::One(a) => with_part_of_one(alloc, expr, a, k, other),
        Contents::Two(a, b) => with_part_of_two(alloc, expr, a, b, k, other),
        Contents::Three(a, b, c) => with_part_of_three(alloc, expr, (a, b, c), k, other),
        Contents::Elements(element, all) => with_element(alloc, element, all, k, other),
        _ => {
            drop(other);
            Ok(None)
        }
    }
}

/// A form of one part, with the other one as part k.
fn with_part_of_one(
    alloc: Global,
    form: &Expr,
    a: &ExprChild,
    k: u32,
    other: Expr,
) -> Result<Option<Expr>, Memory>
    requires { inside_of (expression_of form.now) ≡ one a.now }
    ensures { IfOk result (λ found. option_map expression_of found
        ≡ with_part (expression_of form.now) k (expression_of other)) }
{
    if k != 0 {
        drop(other);
        return Ok(None);
    }
    let other = ExprChild::new(alloc, other)?;
    Ok(Some(with_one_part(form, other)))
}

/// A form of two parts, with the other one as part k.
fn with_part_of_two(
    alloc: Global,
    form: &Expr,
    a: &ExprChild,
    b: &ExprChild,
    k: u32,
    other: Expr,
) -> Result<Option<Expr>, Memory>
    requires { inside_of (expression_of form.now) ≡ two a.now b.now }
    ensures { IfOk result (λ found. option_map expression_of found
        ≡ with_part (expression_of form.now) k (expression_of other)) }
{
    if k >= 2 {
        drop(other);
        return Ok(None);
    }
    let other = ExprChild::new(alloc, other)?;
    if k == 0 {
        let b = b.try_copy()?;
        Ok(Some(with_two_parts(form, other, b)))
    } else {
        let a = a.try_copy()?;
        Ok(Some(with_two_parts(form, a, other)))
    }
}

/// A form of three parts, with the other one as part k.
fn with_part_of_three(
    alloc: Global,
    form: &Expr,
    parts: (&ExprChild, &ExprChild, &ExprChild),
    k: u32,
    other: Expr,
) -> Result<Option<Expr>, Memory>
    requires { inside_of (expression_of form.now) ≡ three parts.0.now parts.1.now parts.2.now }
    ensures { IfOk result (λ found. option_map expression_of found
        ≡ with_part (expression_of form.now) k (expression_of other)) }
{
    if k >= 3 {
        drop(other);
        return Ok(None);
    }
    let (a, b, c) = parts;
    let other = ExprChild::new(alloc, other)?;
    let a = a.try_copy()?;
    let b = b.try_copy()?;
    let c = c.try_copy()?;
    match k {
        0 => Ok(Some(with_three_parts(form, other, b, c))),
        1 => Ok(Some(with_three_parts(form, a, other, c))),
        _ => Ok(Some(with_three_parts(form, a, b, other))),
    }
}

/// A list of elements of the type, with the other one as element k.
fn with_element(
    alloc: Global,
    element: &Ty,
    all: &Exprs,
    k: u32,
    other: Expr,
) -> Result<Option<Expr>, Memory>
    ensures { IfOk result (λ found. option_map expression_of found
        ≡ option_map (refilled (list_expr (type_of element.now) (expressions_of all.now)))
        (inside_with (many (type_of element.now) (expressions_of all.now)) k
        (expression_of other))) }
{
    let elements = all.as_slice();
    if k as usize >= elements.len() {
        drop(other);
        return Ok(None);
    }
    let changed = changed_elements(alloc, elements, k as usize, other)?;
    let changed = Exprs::new(alloc, changed)?;
    let element = element.try_copy(alloc)?;
    Ok(Some(Expr::List(element, changed)))
}

/// Copies of the expressions, in order, with the other one in place of expression k.
fn changed_elements(
    alloc: Global,
    elements: &[Expr],
    k: usize,
    other: Expr,
) -> Result<Vec<Expr>, Memory>
    requires { k < length elements.now }
    ensures { IfOk result (λ changed. changed.items ≡ set elements.now k other) }
{
    match copied_elements(alloc, elements) {
        Ok(mut changed) => {
            drop(replace(&mut changed[k], other));
            Ok(changed)
        }
        Err(refused) => {
            drop(other);
            Err(refused)
        }
    }
}

/// Copies of the expressions, in order.
fn copied_elements(alloc: Global, elements: &[Expr]) -> Result<Vec<Expr>, Memory>
    ensures { IfOk result (λ copied. copied.items ≡ elements.now) }
{
    let mut copied = Vec::with_capacity(alloc, elements.len())?;
    for element in elements {
        let copy = element.try_copy(alloc)?;
        copied.push(copy)?;
    }
    Ok(copied)
}
