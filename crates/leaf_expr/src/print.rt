// The one printed form of expressions: core forms, one space between tokens, none inside a
// parenthesis' edges.
#![tactic(auto, using(crate::proofs::Printed::printing))]

ghost use Rattle.std.specs.Prelude.{◌≡◌, ◌++◌, ◌∷◌, [], IfOk, string_bytes};
ghost use Rattle.sample_core.specs.{Adding.Adds, TypeView.type_of};
ghost use Rattle.leaf_core.specs.Expression.{param, no_event_expr, list_expr, expressions_of};
ghost use Rattle.leaf_expr.specs.Sexpr.{more, last, sexpr_spelling, sexprs_spelling};
ghost use Rattle.leaf_expr.specs.Printing.{expression_sexpr, expression_sexprs, type_sexpr, one, two, three};
ghost use Rattle.leaf_core.specs.ExpressionView.{expression_of, literal_of};

use itoa::Buffer;
use leaf_core::{Expr, ExprChild, Exprs, Literal};
use sample_core::{Memory, Ty, push_type, push_word};
use std::alloc::Global;

/// The expression's one printed form, as a new text. Where its numbers and its depth are within the
/// limits of texts, it is read back to the same expression. `Memory` if allocation fails.
pub fn print_expr(alloc: Global, expr: &Expr) -> Result<String, Memory>
    ensures { IfOk result
        (λ text. string_bytes text ≡ sexpr_spelling (expression_sexpr (expression_of expr.now))) }
{
    let mut text = String::new(alloc);
    push_expr(&mut text, expr)?;
    Ok(text)
}

/// Adds the expression's one printed form to the end of the text. `Memory` if allocation fails; the
/// text may then end with a part of it.
#[cycle(push_expr)]
pub fn push_expr(text: &mut String, expr: &Expr) -> Result<(), Memory>
    ensures { Adds result (string_bytes text.old) (string_bytes text.new)
        (sexpr_spelling (expression_sexpr (expression_of expr.now))) }
{
    match expr {
        Expr::Input => push_word(text, "x"),
        Expr::Param(k) => push_param(text, *k),
        Expr::Literal(literal) => push_literal(text, *literal),
        Expr::Pair(a, b) => push_two(text, "pair", a, b),
        Expr::Fst(a) => push_one(text, "fst", a),
        Expr::Snd(a) => push_one(text, "snd", a),
        Expr::Then(a, b) => push_two(text, "then", a, b),
        Expr::Neg(a) => push_one(text, "neg", a),
        Expr::Add(a, b) => push_two(text, "add", a, b),
        Expr::Sub(a, b) => push_two(text, "sub", a, b),
        Expr::Mul(a, b) => push_two(text, "mul", a, b),
        Expr::Less(a, b) => push_two(text, "less", a, b),
        Expr::Equal(a, b) => push_two(text, "equal", a, b),
        Expr::Not(a) => push_one(text, "not", a),
        Expr::And(a, b) => push_two(text, "and", a, b),
        Expr::Or(a, b) => push_two(text, "or", a, b),
        Expr::If(a, b, c) => push_three(text, "if", a, b, c),
        Expr::NoEvent(ty) => push_no_event(text, ty),
        Expr::Event(a) => push_one(text, "event", a),
        Expr::On(a, b, c) => push_three(text, "on", a, b, c),
        Expr::List(ty, all) => push_list(text, ty, all),
        Expr::Nth(a, b, c) => push_three(text, "nth", a, b, c),
        Expr::Len(a) => push_one(text, "len", a),
    }
}

/// A literal.
fn push_literal(text: &mut String, literal: Literal) -> Result<(), Memory>
    ensures { Adds result (string_bytes text.old) (string_bytes text.new)
        (sexpr_spelling (expression_sexpr (literal_of literal))) }
{
    match literal {
        Literal::Unit => push_word(text, "unit"),
        Literal::Bool(true) => push_word(text, "true"),
        Literal::Bool(false) => push_word(text, "false"),
        Literal::Int(n) => push_word(text, Buffer::new().format(n)),
    }
}

/// A parameter.
fn push_param(text: &mut String, k: u32) -> Result<(), Memory>
    ensures { Adds result (string_bytes text.old) (string_bytes text.new)
        (sexpr_spelling (expression_sexpr (param k))) }
{
    push_word(text, "(p ")?;
    push_word(text, Buffer::new().format(k))?;
    push_word(text, ")")
}

/// The beginning of a form: `(` and its name. `Memory` if allocation fails.
pub fn push_open(text: &mut String, name: &str) -> Result<(), Memory>
    ensures { Adds result (string_bytes text.old) (string_bytes text.new) (40 ∷ name.now) }
{
    push_word(text, "(")?;
    push_word(text, name)
}

/// A type as the next part of a form.
fn push_next_type(text: &mut String, ty: &Ty) -> Result<(), Memory>
    ensures { Adds result (string_bytes text.old) (string_bytes text.new)
        (32 ∷ sexpr_spelling (type_sexpr (type_of ty.now))) }
{
    push_word(text, " ")?;
    push_type(text, ty)
}

/// No event of a type.
fn push_no_event(text: &mut String, ty: &Ty) -> Result<(), Memory>
    ensures { Adds result (string_bytes text.old) (string_bytes text.new)
        (sexpr_spelling (expression_sexpr (no_event_expr (type_of ty.now)))) }
{
    push_word(text, "(none")?;
    push_next_type(text, ty)?;
    push_word(text, ")")
}

/// An expression as the next part of a form. `Memory` if allocation fails.
#[cycle(push_expr)]
pub fn push_next_expr(text: &mut String, expr: &Expr) -> Result<(), Memory>
    ensures { Adds result (string_bytes text.old) (string_bytes text.new)
        (32 ∷ sexpr_spelling (expression_sexpr (expression_of expr.now))) }
{
    push_word(text, " ")?;
    push_expr(text, expr)
}

/// An expression as the last part of a form, and the form's end. `Memory` if allocation fails.
#[cycle(push_expr)]
pub fn push_last_expr(text: &mut String, expr: &Expr) -> Result<(), Memory>
    ensures { Adds result (string_bytes text.old) (string_bytes text.new)
        (sexprs_spelling (more (expression_sexpr (expression_of expr.now)) last) ++ (41 ∷ [])) }
{
    push_next_expr(text, expr)?;
    push_word(text, ")")
}

/// A form of one expression.
#[cycle(push_expr)]
fn push_one(text: &mut String, name: &str, a: &ExprChild) -> Result<(), Memory>
    ensures { Adds result (string_bytes text.old) (string_bytes text.new)
        (sexpr_spelling (one name.now (expression_sexpr a.now))) }
{
    push_open(text, name)?;
    push_last_expr(text, a.get())
}

/// A form of two expressions.
#[cycle(push_expr)]
fn push_two(text: &mut String, name: &str, a: &ExprChild, b: &ExprChild) -> Result<(), Memory>
    ensures { Adds result (string_bytes text.old) (string_bytes text.new)
        (sexpr_spelling (two name.now (expression_sexpr a.now) (expression_sexpr b.now))) }
{
    push_open(text, name)?;
    push_next_expr(text, a.get())?;
    push_last_expr(text, b.get())
}

/// A form of three expressions.
#[cycle(push_expr)]
fn push_three(
    text: &mut String,
    name: &str,
    a: &ExprChild,
    b: &ExprChild,
    c: &ExprChild,
) -> Result<(), Memory>
    ensures { Adds result (string_bytes text.old) (string_bytes text.new)
        (sexpr_spelling
        (three name.now (expression_sexpr a.now) (expression_sexpr b.now)
        (expression_sexpr c.now))) }
{
    push_open(text, name)?;
    push_next_expr(text, a.get())?;
    push_next_expr(text, b.get())?;
    push_last_expr(text, c.get())
}

/// A list expression.
#[cycle(push_expr)]
fn push_list(text: &mut String, ty: &Ty, all: &Exprs) -> Result<(), Memory>
    ensures { Adds result (string_bytes text.old) (string_bytes text.new)
        (sexpr_spelling (expression_sexpr (list_expr (type_of ty.now) (expressions_of all.now)))) }
{
    push_word(text, "(list")?;
    push_next_type(text, ty)?;
    push_elements(text, all)
}

/// The elements of a list expression, each as the next part, and the form's end.
#[cycle(push_expr)]
fn push_elements(text: &mut String, all: &Exprs) -> Result<(), Memory>
    ensures { Adds result (string_bytes text.old) (string_bytes text.new)
        (sexprs_spelling (expression_sexprs (expressions_of all.now)) ++ (41 ∷ [])) }
{
    for e in all.as_slice() {
        push_next_expr(text, e)?;
    }
    push_word(text, ")")
}
