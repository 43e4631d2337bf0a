// The shapes of the expressions that have code of their own.

ghost use Rattle.std.specs.Prelude.{◌≡◌};
ghost use Rattle.leaf_core.specs.{ExpressionView.expression_of, Shape.shape, Shape.ShapeValueLaw};

use crate::expr::Expr;
use crate::literal::Literal;

/// What an expression is, where it is one of the few that a closure of its own computes.
#[derive(Clone, Copy)]
pub enum Shape {
    /// `x`.
    Identity,
    /// A literal.
    Constant {
        /// The literal.
        c: Literal,
    },
    /// `(add x b)` with a = 1, `(mul x a)` with b = 0, or `(add (mul x a) b)`, a and b number
    /// literals.
    Affine {
        /// What the input is multiplied by.
        a: i64,
        /// What is added to the product.
        b: i64,
    },
    /// `(pair (snd x) (fst x))`.
    Swap,
    /// `(fst x)`.
    Left,
    /// `(snd x)`.
    Right,
    /// `(less x k)`, k a number literal.
    Below {
        /// What the input is compared with.
        k: i64,
    },
    /// `(event x)`.
    Wrap,
    /// Every other expression.
    General,
}

/// The expression's shape; `General` where no other fits. It takes no memory.
pub fn shape_of(expr: &Expr) -> Shape
    ensures { result ≡ shape (expression_of expr.now) }
{
    match expr {
        Expr::Input => Shape::Identity,
        Expr::Literal(c) => Shape::Constant { c: *c },
        Expr::Add(l, r) => match (l.get(), r.get()) {
            (Expr::Input, Expr::Literal(Literal::Int(b))) => Shape::Affine { a: 1, b: *b },
            (Expr::Mul(x, a), Expr::Literal(Literal::Int(b))) => match (x.get(), a.get()) {
                (Expr::Input, Expr::Literal(Literal::Int(a))) => Shape::Affine { a: *a, b: *b },
                _ => Shape::General,
            },
            _ => Shape::General,
        },
        Expr::Mul(x, a) => match (x.get(), a.get()) {
            (Expr::Input, Expr::Literal(Literal::Int(a))) => Shape::Affine { a: *a, b: 0 },
            _ => Shape::General,
        },
        Expr::Pair(l, r) => match (l.get(), r.get()) {
            (Expr::Snd(x), Expr::Fst(y)) => match (x.get(), y.get()) {
                (Expr::Input, Expr::Input) => Shape::Swap,
                _ => Shape::General,
            },
            _ => Shape::General,
        },
        Expr::Fst(x) => match x.get() {
            Expr::Input => Shape::Left,
            _ => Shape::General,
        },
        Expr::Snd(x) => match x.get() {
            Expr::Input => Shape::Right,
            _ => Shape::General,
        },
        Expr::Less(x, k) => match (x.get(), k.get()) {
            (Expr::Input, Expr::Literal(Literal::Int(k))) => Shape::Below { k: *k },
            _ => Shape::General,
        },
        Expr::Event(x) => match x.get() {
            Expr::Input => Shape::Wrap,
            _ => Shape::General,
        },
        _ => Shape::General,
    }
}

/// Each shape but `General` tells its expression's value, by its name and its parts.
pub fn shape_laws()
    ensures { ShapeValueLaw }
{}
