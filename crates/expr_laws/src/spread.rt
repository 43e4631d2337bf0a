// `then` before an operator goes before each of its parts.

ghost use Rattle.std.specs.Prelude.{◌≡◌, IfOk, Some, map, option_map};
ghost use Rattle.sample_core.specs.TypeView.{type_of};
ghost use Rattle.leaf_core.specs.Expression.{expressions_of, then_expr, list_expr};
ghost use Rattle.leaf_core.specs.ExpressionView.{expression_of};
ghost use Rattle.leaf_core.specs.Inside.{with_one, with_two, with_three};
ghost use Rattle.expr_laws.specs.Direct.{law4, spread};

use leaf_core::{
    Contents, Expr, ExprChild, Exprs, inside, with_one_part, with_three_parts, with_two_parts,
};
use sample_core::{Memory, Ty};
use std::alloc::Global;

/// The operator that `then` leads to, with each of its parts behind the first; nothing where it
/// leads to no operator, or the expression is no `then`.
pub fn spread_then(alloc: Global, expr: &Expr) -> Result<Option<Expr>, Memory>
    ensures { IfOk result (λ o. option_map expression_of o ≡ law4 (expression_of expr.now)) }
{
    match expr {
        Expr::Then(f, operator) => spread_parts(alloc, f, operator.get()),
        _ => Ok(None),
    }
}

/// The operator with each of its parts behind f; nothing where it is none.
fn spread_parts(alloc: Global, f: &ExprChild, operator: &Expr) -> Result<Option<Expr>, Memory>
    ensures { IfOk result
        (λ o. option_map expression_of o ≡ spread f.now (expression_of operator.now)) }
{
    match (operator, inside(operator)) {
        (Expr::Then(..) | Expr::On(..), _) => Ok(None),
        (_, Contents::One(a)) => spread_one(alloc, f, operator, a),
        (_, Contents::Two(a, b)) => spread_two(alloc, f, operator, a, b),
        (_, Contents::Three(a, b, c)) => spread_three(alloc, f, operator, a, b, c),
        (_, Contents::Elements(element, all)) => spread_list(alloc, f, element, all),
        _ => Ok(None),
    }
}

/// `(then f a)`.
fn behind(alloc: Global, f: &ExprChild, a: &ExprChild) -> Result<ExprChild, Memory>
    ensures { IfOk result (λ p. p ≡ then_expr f.now a.now) }
{
    let f = f.try_copy()?;
    let a = a.try_copy()?;
    ExprChild::new(alloc, Expr::Then(f, a))
}

/// The form with its one part behind f.
fn spread_one(
    alloc: Global,
    f: &ExprChild,
    form: &Expr,
    a: &ExprChild,
) -> Result<Option<Expr>, Memory>
    ensures { IfOk result
        (λ o. option_map expression_of o
        ≡ Some (expression_of (with_one form.now (then_expr f.now a.now)))) }
{
    let a = behind(alloc, f, a)?;
    Ok(Some(with_one_part(form, a)))
}

/// The form with its two parts behind f.
fn spread_two(
    alloc: Global,
    f: &ExprChild,
    form: &Expr,
    a: &ExprChild,
    b: &ExprChild,
) -> Result<Option<Expr>, Memory>
    ensures { IfOk result
        (λ o. option_map expression_of o
        ≡ Some (expression_of (with_two form.now (then_expr f.now a.now)
        (then_expr f.now b.now)))) }
{
    let a = behind(alloc, f, a)?;
    let b = behind(alloc, f, b)?;
    Ok(Some(with_two_parts(form, a, b)))
}

/// The form with its three parts behind f.
fn spread_three(
    alloc: Global,
    f: &ExprChild,
    form: &Expr,
    a: &ExprChild,
    b: &ExprChild,
    c: &ExprChild,
) -> Result<Option<Expr>, Memory>
    ensures { IfOk result
        (λ o. option_map expression_of o
        ≡ Some (expression_of (with_three form.now (then_expr f.now a.now)
        (then_expr f.now b.now) (then_expr f.now c.now)))) }
{
    let a = behind(alloc, f, a)?;
    let b = behind(alloc, f, b)?;
    let c = behind(alloc, f, c)?;
    Ok(Some(with_three_parts(form, a, b, c)))
}

/// The list of its elements behind f; nothing where it has none.
fn spread_list(
    alloc: Global,
    f: &ExprChild,
    element: &Ty,
    all: &Exprs,
) -> Result<Option<Expr>, Memory>
    ensures { IfOk result
        (λ o. option_map expression_of o
        ≡ spread f.now (list_expr (type_of element.now) (expressions_of all.now))) }
{
    let all = all.as_slice();
    if all.len() == 0 {
        return Ok(None);
    }
    let all = spread_elements(alloc, f, all)?;
    let all = Exprs::new(alloc, all)?;
    let element = element.try_copy(alloc)?;
    Ok(Some(Expr::List(element, all)))
}

/// The elements, each behind f.
fn spread_elements(alloc: Global, f: &ExprChild, all: &[Expr]) -> Result<Vec<Expr>, Memory>
    ensures { IfOk result
        (λ v. map expression_of v.items ≡ map (then_expr f.now) (map expression_of all.now)) }
{
    let mut behind = Vec::new(alloc);
    for element in all {
        let part = element.try_copy(alloc)?;
        let part = ExprChild::new(alloc, part)?;
        let first = f.try_copy()?;
        behind.push(Expr::Then(first, part))?;
    }
    Ok(behind)
}
