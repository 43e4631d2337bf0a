// What stands inside an expression, apart from its form.

ghost use Rattle.std.specs.Prelude.{◌≡◌};
ghost use Rattle.leaf_core.specs.{Inside.inside_of, Inside.rebuild, Inside.inside_in, ExpressionView.expression_of};

use crate::expr::{Expr, ExprChild, Exprs};
use crate::literal::Literal;
use sample_core::Ty;

/// What stands inside an expression. With the number of its form it is the expression: what is
/// done alike at many forms goes by this, and has an arm for each of these in place of one for
/// each form.
#[derive(Clone, Copy)]
pub enum Contents<'e> {
    /// Nothing.
    Nothing,
    /// The number of a parameter.
    Index(u32),
    /// The number of a literal.
    Number(i64),
    /// A part.
    One(&'e ExprChild),
    /// Two parts, in their order.
    Two(&'e ExprChild, &'e ExprChild),
    /// Three parts, in their order.
    Three(&'e ExprChild, &'e ExprChild, &'e ExprChild),
    /// What no event carries.
    Type(&'e Ty),
    /// What a list has elements of, and the elements.
    Elements(&'e Ty, &'e Exprs),
}

/// What stands inside the expression.
pub fn inside(expr: &Expr) -> Contents<'_>
    ensures seen { inside_in result ≡ inside_of (expression_of expr.now) }
    // With the form it is the expression.
    ensures whole { rebuild expr.now result ≡ expr.now }
{
    match expr {
        Expr::Input | Expr::Literal(Literal::Unit | Literal::Bool(_)) => Contents::Nothing,
        Expr::Param(k) => Contents::Index(*k),
        Expr::Literal(Literal::Int(n)) => Contents::Number(*n),
        Expr::Fst(a) | Expr::Snd(a) | Expr::Neg(a) | Expr::Not(a) | Expr::Event(a) | Expr::Len(a) =>
            Contents::One(a),
        Expr::Pair(a, b)
        | Expr::Then(a, b)
        | Expr::Add(a, b)
        | Expr::Sub(a, b)
        | Expr::Mul(a, b)
        | Expr::Less(a, b)
        | Expr::Equal(a, b)
        | Expr::And(a, b)
        | Expr::Or(a, b) => Contents::Two(a, b),
        Expr::If(a, b, c) | Expr::On(a, b, c) | Expr::Nth(a, b, c) => Contents::Three(a, b, c),
        Expr::NoEvent(t) => Contents::Type(t),
        Expr::List(t, all) => Contents::Elements(t, all),
    }
}
