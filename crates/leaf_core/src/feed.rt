// What a hasher is fed at a type and at an expression.

ghost use Rattle.std.specs.Prelude.{◌≡◌, ◌++◌, fold};
ghost use Rattle.std.specs.Hash.{u8};
ghost use Rattle.sample_core.specs.TypeView.{type_of};
ghost use Rattle.leaf_core.specs.{ExpressionView.expression_of, Inside.inside_of, Inside.inside_fed};
ghost use Rattle.leaf_core.specs.Expression.{expressions_of};
ghost use Rattle.leaf_core.specs.HashWrites.{tag_of, type_writes, expression_writes, expressions_writes};

use crate::contents::{Contents, inside};
use crate::expr::{Expr, Exprs};
use crate::literal::Literal;
use sample_core::Ty;
use std::hash::Hasher;

/// Feeds the type's forms to the hasher, a byte each, a form before its parts.
pub fn feed_type<H: Hasher>(ty: &Ty, state: &mut H)
    ensures { state.new ≡ fold H.write state.old (type_writes (type_of ty.now)) }
{
    match ty {
        Ty::Unit => state.write_u8(0),
        Ty::Bool => state.write_u8(1),
        Ty::Int => state.write_u8(2),
        Ty::Pair(a, b) => {
            state.write_u8(3);
            feed_type(a.get(), state);
            feed_type(b.get(), state);
        }
        Ty::Event(a) => {
            state.write_u8(4);
            feed_type(a.get(), state);
        }
        Ty::List(a) => {
            state.write_u8(5);
            feed_type(a.get(), state);
        }
    }
}

/// The number of the expression's form.
pub fn tag(expr: &Expr) -> u8
    ensures { result ≡ tag_of (expression_of expr.now) }
{
    match expr {
        Expr::Input => 0,
        Expr::Param(_) => 1,
        Expr::Literal(Literal::Unit) => 2,
        Expr::Literal(Literal::Bool(false)) => 3,
        Expr::Literal(Literal::Bool(true)) => 25,
        Expr::Literal(Literal::Int(_)) => 4,
        Expr::Pair(..) => 5,
        Expr::Fst(_) => 6,
        Expr::Snd(_) => 7,
        Expr::Then(..) => 8,
        Expr::Neg(_) => 9,
        Expr::Add(..) => 10,
        Expr::Sub(..) => 11,
        Expr::Mul(..) => 12,
        Expr::Less(..) => 13,
        Expr::Equal(..) => 14,
        Expr::Not(_) => 15,
        Expr::And(..) => 16,
        Expr::Or(..) => 17,
        Expr::If(..) => 18,
        Expr::NoEvent(_) => 19,
        Expr::Event(_) => 20,
        Expr::On(..) => 21,
        Expr::List(..) => 22,
        Expr::Nth(..) => 23,
        Expr::Len(_) => 24,
    }
}

/// Feeds the expression's forms to the hasher, a byte each, a form before its parts. A parameter's
/// number and a literal's number follow their form, and a byte ends each list.
#[cycle(feed)]
#[tactic(auto, using(crate::proofs::InsideLaws::fed_inside))]
pub fn feed_expr<H: Hasher>(expr: &Expr, state: &mut H)
    ensures { state.new ≡ fold H.write state.old (expression_writes (expression_of expr.now)) }
{
    state.write_u8(tag(expr));
    feed_inside(expr, state)
}

/// Feeds what stands inside the expression to the hasher.
#[cycle(feed)]
#[tactic(auto, using(std::proofs::lemmas::Grind::common_steps, crate::proofs::InsideLaws::nodes_inside))]
fn feed_inside<H: Hasher>(expr: &Expr, state: &mut H)
    ensures { state.new ≡ fold H.write state.old (inside_fed (inside_of (expression_of expr.now))) }
{
    match inside(expr) {
        Contents::Nothing => {}
        Contents::Index(k) => state.write_u32(k),
        Contents::Number(n) => state.write_i64(n),
        Contents::One(a) => feed_expr(a.get(), state),
        Contents::Two(a, b) => {
            feed_expr(a.get(), state);
            feed_expr(b.get(), state);
        }
        Contents::Three(a, b, c) => {
            feed_expr(a.get(), state);
            feed_expr(b.get(), state);
            feed_expr(c.get(), state);
        }
        Contents::Type(t) => feed_type(t, state),
        Contents::Elements(t, all) => feed_list(t, all, state),
    }
}

/// Feeds the type and the elements of a list expression to the hasher, and the byte behind them.
#[cycle(feed)]
fn feed_list<H: Hasher>(t: &Ty, all: &Exprs, state: &mut H)
    ensures { state.new ≡ fold H.write state.old
        (type_writes (type_of t.now) ++ (expressions_writes (expressions_of all.now) ++ u8 26)) }
{
    feed_type(t, state);
    feed_all(all, state);
    state.write_u8(26);
}

/// Feeds the elements of a list expression to the hasher, one after another.
#[cycle(feed)]
#[tactic(auto, using(std::proofs::lemmas::Grind::common_steps, crate::proofs::Places::element_smaller))]
fn feed_all<H: Hasher>(all: &Exprs, state: &mut H)
    ensures { state.new ≡ fold H.write state.old (expressions_writes (expressions_of all.now)) }
{
    for e in all.as_slice() {
        feed_expr(e, state);
    }
}
