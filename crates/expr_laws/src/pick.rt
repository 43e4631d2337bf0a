// An element of a list at a number literal is that element.

ghost use Rattle.std.specs.Prelude.{◌≡◌, IfOk, map, option_map};
ghost use Rattle.leaf_core.specs.Expression.{expressions_of};
ghost use Rattle.leaf_core.specs.ExpressionView.{expression_of};
ghost use Rattle.expr_laws.specs.ExpressionLaw.{picked};
ghost use Rattle.expr_laws.specs.Direct.{law18, picked_from, picked_in};

use leaf_core::{Expr, ExprChild, Exprs, Literal};
use sample_core::Memory;
use std::alloc::Global;

/// The element at a number literal of a list expression that isn't empty; `d` outside.
pub fn pick_element(alloc: Global, expr: &Expr) -> Result<Option<Expr>, Memory>
    ensures { IfOk result (λ o. option_map expression_of o ≡ law18 (expression_of expr.now)) }
{
    match expr {
        Expr::Nth(list, at, default) => pick_from(alloc, list.get(), at.get(), default),
        _ => Ok(None),
    }
}

/// The element that the parts of `nth` pick.
fn pick_from(
    alloc: Global,
    list: &Expr,
    at: &Expr,
    default: &ExprChild,
) -> Result<Option<Expr>, Memory>
    ensures { IfOk result
        (λ o. option_map expression_of o
        ≡ picked_from (expression_of list.now) (expression_of at.now) default.now) }
{
    match (list, at) {
        (Expr::List(_, all), Expr::Literal(Literal::Int(at))) => pick_at(
            alloc,
            all,
            *at,
            default.get(),
        ),
        _ => Ok(None),
    }
}

/// The element at a place; nothing where there are no elements.
fn pick_at(alloc: Global, all: &Exprs, at: i64, default: &Expr) -> Result<Option<Expr>, Memory>
    ensures { IfOk result
        (λ o. option_map expression_of o
        ≡ picked_in (expressions_of all.now) at (expression_of default.now)) }
{
    let all = all.as_slice();
    if all.len() == 0 {
        return Ok(None);
    }
    let element = element_or(all, at, default).try_copy(alloc)?;
    Ok(Some(element))
}

/// The element at a place, from 0; `default` outside.
fn element_or<'a>(all: &'a [Expr], at: i64, default: &'a Expr) -> &'a Expr
    ensures { expression_of result.now
        ≡ picked (expressions_of (map expression_of all.now)) at (expression_of default.now) }
{
    let Ok(at) = usize::try_from(at) else {
        return default;
    };
    match all.get(at) {
        Some(found) => found,
        None => default,
    }
}
