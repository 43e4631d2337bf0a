// Shapes of expressions.

use crate::found::{Probe, all_are_found};
use leaf_expr::{Literal, Shape, shape_of};
use row_texts::texts::{expr_in, say, say_signed};
use std::alloc::Global;

/// Says the expression's shape.
pub fn shape_told(alloc: Global, text: &str, out: &mut String) {
    match expr_in(alloc, text) {
        Some(expr) => told(shape_of(&expr), out),
        None => say(out, "no expression"),
    }
}

fn told(shape: Shape, out: &mut String) {
    match shape {
        Shape::Identity => say(out, "identity"),
        Shape::Constant { c } => literal_told(c, out),
        Shape::Affine { a, b } => {
            say_signed(out, "affine", a);
            say_signed(out, "", b)
        }
        Shape::Swap => say(out, "swap"),
        Shape::Left => say(out, "left"),
        Shape::Right => say(out, "right"),
        Shape::Below { k } => say_signed(out, "below", k),
        Shape::Wrap => say(out, "wrap"),
        Shape::General => say(out, "general"),
    }
}

fn literal_told(literal: Literal, out: &mut String) {
    match literal {
        Literal::Unit => say(out, "constant unit"),
        Literal::Bool(true) => say(out, "constant true"),
        Literal::Bool(false) => say(out, "constant false"),
        Literal::Int(n) => say_signed(out, "constant", n),
    }
}

/// Expressions and their shapes: some that have one, and some that are near one.
static SHAPES: &str = "
§ Shapes.
x => identity
unit => constant unit
true => constant true
-7 => constant -7
(add x 5) => affine 1 5
(mul x 5) => affine 5 0
(add (mul x 2) 3) => affine 2 3
(pair (snd x) (fst x)) => swap
(fst x) => left
(snd x) => right
(less x 6) => below 6
(event x) => wrap
(p 0) => general
(add 5 x) => general
(mul 5 x) => general
(add x x) => general
(add x (p 0)) => general
(add (mul 2 x) 3) => general
(add (add x 2) 3) => general
(mul (add x 2) 3) => general
(pair (fst x) (snd x)) => general
(pair (snd x) (snd x)) => general
(fst (pair x 1)) => general
(less 6 x) => general
(less x true) => general
(event 5) => general
(sub x 5) => general
";

#[test]
fn shapes_are_found(rt: HostRuntime) {
    all_are_found(&rt, rt.alloc(), Probe::Shape, SHAPES);
}
