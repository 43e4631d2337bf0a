// When two expressions are the same.

ghost use Rattle.std.specs.Prelude.{◌≡◌, ◌↔◌, IsTrue};
ghost use Rattle.sample_core.specs.TypeView.{type_of};
ghost use Rattle.leaf_core.specs.{Expression.expressions_of, Inside.inside_of, ExpressionView.expression_of};

use crate::contents::{Contents, inside};
use crate::expr::{Expr, ExprChild, Exprs};
use crate::feed::tag;
use sample_core::{Ty, same_type};

/// Whether the two expressions are equal, all their parts and types included. It takes no memory.
#[cycle(same)]
#[tactic(auto, using(crate::proofs::InsideLaws::same_inside_is))]
pub fn same_expr(a: &Expr, b: &Expr) -> bool
    ensures { IsTrue result ↔ (expression_of a.now ≡ expression_of b.now) }
{
    tag(a) == tag(b) && same_inside(a, b)
}

/// Whether the same stands inside the two expressions, whatever their forms.
#[cycle(same)]
#[tactic(auto, using(std::proofs::lemmas::Grind::common_steps, crate::proofs::InsideLaws::nodes_inside))]
fn same_inside(a: &Expr, b: &Expr) -> bool
    ensures { IsTrue result ↔ (inside_of (expression_of a.now) ≡ inside_of (expression_of b.now)) }
{
    match (inside(a), inside(b)) {
        (Contents::Nothing, Contents::Nothing) => true,
        (Contents::Index(j), Contents::Index(k)) => j == k,
        (Contents::Number(m), Contents::Number(n)) => m == n,
        (Contents::One(a), Contents::One(b)) => same_part(a, b),
        (Contents::Two(a, b), Contents::Two(c, d)) => same_two(a, b, c, d),
        (Contents::Three(a, b, c), Contents::Three(d, e, f)) => same_three(a, b, c, d, e, f),
        (Contents::Type(t), Contents::Type(u)) => same_type(t, u),
        (Contents::Elements(t, all), Contents::Elements(u, others)) => same_list(t, all, u, others),
        _ => false,
    }
}

/// Whether two parts are equal.
#[cycle(same)]
fn same_part(a: &ExprChild, b: &ExprChild) -> bool
    ensures { IsTrue result ↔ (a.now ≡ b.now) }
{
    same_expr(a.get(), b.get())
}

/// Whether two parts are equal to two others.
#[cycle(same)]
fn same_two(a: &ExprChild, b: &ExprChild, c: &ExprChild, d: &ExprChild) -> bool
    ensures { IsTrue result ↔ ((a.now ≡ c.now) × (b.now ≡ d.now)) }
{
    same_part(a, c) && same_part(b, d)
}

/// Whether three parts are equal to three others.
#[cycle(same)]
fn same_three(
    a: &ExprChild,
    b: &ExprChild,
    c: &ExprChild,
    d: &ExprChild,
    e: &ExprChild,
    f: &ExprChild,
) -> bool
    ensures { IsTrue result ↔ ((a.now ≡ d.now) × (b.now ≡ e.now) × (c.now ≡ f.now)) }
{
    same_part(a, d) && same_two(b, c, e, f)
}

/// Whether the types and the elements of two list expressions are equal.
#[cycle(same)]
fn same_list(t: &Ty, all: &Exprs, u: &Ty, others: &Exprs) -> bool
    ensures { IsTrue result
        ↔ ((type_of t.now ≡ type_of u.now) × (expressions_of all.now ≡ expressions_of others.now)) }
{
    same_type(t, u) && same_parts(all, others)
}

/// Whether the elements of two list expressions are equal.
#[cycle(same)]
#[tactic(auto, using(std::proofs::lemmas::Grind::common_steps, crate::proofs::Places::element_smaller, crate::proofs::Places::same_length))]
fn same_parts(all: &Exprs, others: &Exprs) -> bool
    ensures { IsTrue result ↔ (expressions_of all.now ≡ expressions_of others.now) }
{
    let all = all.as_slice();
    let others = others.as_slice();
    if all.len() != others.len() {
        return false;
    }
    for i in 0..all.len() {
        if !same_expr(&all[i], &others[i]) {
            return false;
        }
    }
    true
}
