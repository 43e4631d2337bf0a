// Applying a law at an expression.

ghost use Rattle.std.specs.Prelude.{◌≡◌, IfOk, MatchOption};
ghost use Rattle.leaf_core.specs.ExpressionView.{expression_of};
ghost use Rattle.expr_laws.specs.ExpressionLaw.{ExpressionLaw};
ghost use Rattle.law_patterns.specs.Matching.{held_expression};
ghost use Rattle.expr_laws.specs.Answer.{IsExpressionAnswer, IsRightSide};

use crate::compare::compared;
use crate::constant::constant_behind;
use crate::lift::lifted;
use crate::literals::computed;
use crate::pick::pick_element;
use crate::spread::spread_then;
use crate::table::{Rule, law_rule};
use crate::turn::turned;
use law_patterns::rewrite_expr;
use leaf_core::{Expr, same_expr};
use net_tree::{Direction, Law};
use sample_core::Memory;
use std::alloc::Global;

/// What a law answers at an expression: forward, with none given, the law's right side where the
/// expression is its left side; backward the expression that is given, where the law leads from it forward to exactly the one at hand; else `None`. Types don't matter. `Memory` if
/// allocation fails.
pub fn apply_expr(
    alloc: Global,
    law: Law,
    direction: Direction,
    expr: &Expr,
    given: Option<&Expr>,
) -> Result<Option<Expr>, Memory>
    ensures { IfOk result
        (IsExpressionAnswer law direction (expression_of expr.now) (held_expression given.entry)) }
{
    let Law::E(number) = law else {
        return Ok(None);
    };
    match (direction, given) {
        (Direction::Forward, None) => forward(alloc, number, expr),
        (Direction::Backward, Some(given)) => backward(alloc, number, expr, given),
        _ => Ok(None),
    }
}

/// What law E`number` makes of the expression, read from left to right.
fn forward(alloc: Global, number: u8, expr: &Expr) -> Result<Option<Expr>, Memory>
    ensures { IfOk result (IsRightSide number (expression_of expr.now)) }
{
    let (rule, left, right) = law_rule(number);
    match rule {
        Rule::Nothing => Ok(None),
        Rule::Sides => rewrite_expr(alloc, left, right, expr),
        Rule::Spread => spread_then(alloc, expr),
        Rule::Constant => constant_behind(alloc, expr),
        Rule::Compute => computed(alloc, expr),
        Rule::Pick => pick_element(alloc, expr),
        Rule::Turn => turned(alloc, expr),
        Rule::Compare => compared(expr),
        Rule::Lift => lifted(alloc, expr),
    }
}

/// The expression that is given, where the law leads from it forward to exactly the one at hand.
fn backward(alloc: Global, number: u8, expr: &Expr, given: &Expr) -> Result<Option<Expr>, Memory>
    ensures { IfOk result (λ o. MatchOption o
        (ExpressionLaw number (expression_of given.now) (expression_of expr.now) → ⊥)
        (λ r. ExpressionLaw number (expression_of given.now) (expression_of expr.now)
        × (expression_of r ≡ expression_of given.now))) }
{
    let Some(right) = forward(alloc, number, given)? else {
        return Ok(None);
    };
    let same = same_expr(&right, expr);
    drop(right);
    if !same {
        return Ok(None);
    }
    let copy = given.try_copy(alloc)?;
    Ok(Some(copy))
}
