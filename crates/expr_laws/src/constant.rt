// What doesn't see the input is the same behind another expression.

ghost use Rattle.std.specs.Prelude.{◌≡◌, IfOk, option_map};
ghost use Rattle.leaf_core.specs.ExpressionView.{expression_of};
ghost use Rattle.expr_laws.specs.Direct.{is_constant, law6};

use leaf_core::Expr;
use sample_core::Memory;
use std::alloc::Global;

/// The second part of `then`, where it is a literal, a parameter, no event or the empty list.
pub fn constant_behind(alloc: Global, expr: &Expr) -> Result<Option<Expr>, Memory>
    ensures { IfOk result (λ o. option_map expression_of o ≡ law6 (expression_of expr.now)) }
{
    match expr {
        Expr::Then(_, constant) if is_constant(constant.get()) => {
            let copy = constant.get().try_copy(alloc)?;
            Ok(Some(copy))
        }
        _ => Ok(None),
    }
}

/// Whether the expression is a literal, a parameter, no event or the empty list.
fn is_constant(expr: &Expr) -> bool
    ensures { result ≡ is_constant (expression_of expr.now) }
{
    match expr {
        Expr::Param(_) | Expr::Literal(_) | Expr::NoEvent(_) => true,
        Expr::List(_, elements) => elements.as_slice().is_empty(),
        _ => false,
    }
}
