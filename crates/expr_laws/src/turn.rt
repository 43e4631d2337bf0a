// `and` and `or` absorb a literal that is their first part, and have no order.

ghost use Rattle.std.specs.Prelude.{◌≡◌, IfOk, Some, option_map};
ghost use Rattle.leaf_core.specs.ExpressionView.{expression_of};
ghost use Rattle.leaf_core.specs.Inside.{with_two};
ghost use Rattle.expr_laws.specs.Direct.{law23, turned_by};

use leaf_core::{Expr, ExprChild, Literal, with_two_parts};
use sample_core::Memory;
use std::alloc::Global;

/// What an `and` or an `or` is where its first part is a literal, else the same with its parts
/// exchanged; nothing where the expression is neither.
pub fn turned(alloc: Global, expr: &Expr) -> Result<Option<Expr>, Memory>
    ensures { IfOk result (λ o. option_map expression_of o ≡ law23 (expression_of expr.now)) }
{
    match expr {
        Expr::And(a, b) => turned_by(alloc, true, expr, a, b),
        Expr::Or(a, b) => turned_by(alloc, false, expr, a, b),
        _ => Ok(None),
    }
}

/// The operator on a and b: where a is a literal, b if the literal is the operator's neutral one,
/// else the literal; with another a the operator with its parts exchanged.
fn turned_by(
    alloc: Global,
    neutral: bool,
    operator: &Expr,
    a: &ExprChild,
    b: &ExprChild,
) -> Result<Option<Expr>, Memory>
    ensures { IfOk result (λ o. option_map expression_of o
        ≡ Some (turned_by neutral (expression_of (with_two operator.now b.now a.now)) a.now b.now)) }
{
    match a.get() {
        Expr::Literal(Literal::Bool(true)) => {
            if neutral {
                copy_of(alloc, b)
            } else {
                Ok(Some(Expr::Literal(Literal::Bool(true))))
            }
        }
        Expr::Literal(Literal::Bool(false)) => {
            if neutral {
                Ok(Some(Expr::Literal(Literal::Bool(false))))
            } else {
                copy_of(alloc, b)
            }
        }
        _ => {
            let first = b.try_copy()?;
            let second = a.try_copy()?;
            Ok(Some(with_two_parts(operator, first, second)))
        }
    }
}

/// A copy of a part.
fn copy_of(alloc: Global, part: &ExprChild) -> Result<Option<Expr>, Memory>
    ensures { IfOk result (λ o. option_map expression_of o ≡ Some part.now) }
{
    let copy = part.get().try_copy(alloc)?;
    Ok(Some(copy))
}
