// `equal` of one expression is `true`, and `equal` has no order.

ghost use Rattle.std.specs.Prelude.{◌≡◌, IfOk, Some, option_map};
ghost use Rattle.leaf_core.specs.ExpressionView.{expression_of};
ghost use Rattle.expr_laws.specs.Direct.{law26, turned_equal};

use leaf_core::{Expr, ExprChild, Literal, same_expr};
use sample_core::Memory;

/// `true` where an `equal` has twice the same part, else the `equal` with its parts exchanged;
/// nothing where the expression is no `equal`.
pub fn compared(expr: &Expr) -> Result<Option<Expr>, Memory>
    ensures { IfOk result (λ o. option_map expression_of o ≡ law26 (expression_of expr.now)) }
{
    match expr {
        Expr::Equal(a, b) => turned_equal(a, b),
        _ => Ok(None),
    }
}

/// `true` where both are the same, else `(equal b a)`.
fn turned_equal(a: &ExprChild, b: &ExprChild) -> Result<Option<Expr>, Memory>
    ensures { IfOk result (λ o. option_map expression_of o ≡ Some (turned_equal a.now b.now)) }
{
    if same_expr(a.get(), b.get()) {
        return Ok(Some(Expr::Literal(Literal::Bool(true))));
    }
    let first = b.try_copy()?;
    let second = a.try_copy()?;
    Ok(Some(Expr::Equal(first, second)))
}
