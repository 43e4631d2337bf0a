// An operator at an `if` is an `if` between operators.

ghost use Rattle.std.specs.Prelude.{◌≡◌, ◌<◌, IfOk, Some, length, map, option_map, set};
ghost use Rattle.sample_core.specs.TypeView.{type_of};
ghost use Rattle.leaf_core.specs.Expression.{expressions_of, if_expr, list_expr};
ghost use Rattle.leaf_core.specs.ExpressionView.{expression_of};
ghost use Rattle.leaf_core.specs.Inside.{with_one, with_two, with_three};
ghost use Rattle.expr_laws.specs.Direct.{law49, lift_all, lift_one, lift_three, lift_two};

use leaf_core::{
    Contents, Expr, ExprChild, Exprs, inside, with_one_part, with_three_parts, with_two_parts,
};
use sample_core::{Memory, Ty};
use std::alloc::Global;
use std::mem::replace;

/// The `if` between the operators with the parts of an `if` in its place, the first among the
/// operator's parts that have its input; nothing where there is none.
pub fn lifted(alloc: Global, expr: &Expr) -> Result<Option<Expr>, Memory>
    ensures { IfOk result (λ o. option_map expression_of o ≡ law49 (expression_of expr.now)) }
{
    match (expr, inside(expr)) {
        (Expr::Then(f, g), _) => lift_then(alloc, expr, f, g),
        (Expr::On(e, d, b), _) => lift_on(alloc, expr, e, d, b),
        (_, Contents::One(a)) => lift_one(alloc, expr, a),
        (_, Contents::Two(a, b)) => lift_two(alloc, expr, a, b),
        (_, Contents::Three(a, b, c)) => lift_three(alloc, expr, a, b, c),
        (_, Contents::Elements(element, all)) => lift_all(alloc, element, all.as_slice()),
        _ => Ok(None),
    }
}

/// `(if c first second)`.
fn choice(c: &ExprChild, first: ExprChild, second: ExprChild) -> Result<Option<Expr>, Memory>
    ensures { IfOk result (λ o. option_map expression_of o ≡ Some (if_expr c.now first second)) }
{
    let c = c.try_copy()?;
    Ok(Some(Expr::If(c, first, second)))
}

/// The form with this part.
fn one(alloc: Global, form: &Expr, a: &ExprChild) -> Result<ExprChild, Memory>
    ensures { IfOk result (λ p. p ≡ expression_of (with_one form.now a.now)) }
{
    let a = a.try_copy()?;
    ExprChild::new(alloc, with_one_part(form, a))
}

/// The form with these two parts.
fn two(alloc: Global, form: &Expr, a: &ExprChild, b: &ExprChild) -> Result<ExprChild, Memory>
    ensures { IfOk result (λ p. p ≡ expression_of (with_two form.now a.now b.now)) }
{
    let a = a.try_copy()?;
    let b = b.try_copy()?;
    ExprChild::new(alloc, with_two_parts(form, a, b))
}

/// The form with these three parts.
fn three(
    alloc: Global,
    form: &Expr,
    a: &ExprChild,
    b: &ExprChild,
    c: &ExprChild,
) -> Result<ExprChild, Memory>
    ensures { IfOk result (λ p. p ≡ expression_of (with_three form.now a.now b.now c.now)) }
{
    let a = a.try_copy()?;
    let b = b.try_copy()?;
    let c = c.try_copy()?;
    ExprChild::new(alloc, with_three_parts(form, a, b, c))
}

/// The form at its part, where that is an `if`.
fn lift_one(alloc: Global, form: &Expr, part: &ExprChild) -> Result<Option<Expr>, Memory>
    ensures { IfOk result (λ o. option_map expression_of o
        ≡ lift_one (λ d. expression_of (with_one form.now d)) part.now) }
{
    match part.get() {
        Expr::If(c, a, b) => {
            let first = one(alloc, form, a)?;
            let second = one(alloc, form, b)?;
            choice(c, first, second)
        }
        _ => Ok(None),
    }
}

/// `then` at its first part, where that is an `if`.
fn lift_then(
    alloc: Global,
    form: &Expr,
    f: &ExprChild,
    g: &ExprChild,
) -> Result<Option<Expr>, Memory>
    ensures { IfOk result (λ o. option_map expression_of o
        ≡ lift_one (λ d. expression_of (with_two form.now d g.now)) f.now) }
{
    match f.get() {
        Expr::If(c, a, b) => {
            let first = two(alloc, form, a, g)?;
            let second = two(alloc, form, b, g)?;
            choice(c, first, second)
        }
        _ => Ok(None),
    }
}

/// The form at the first of its two parts that is an `if`.
fn lift_two(
    alloc: Global,
    form: &Expr,
    d: &ExprChild,
    e: &ExprChild,
) -> Result<Option<Expr>, Memory>
    ensures { IfOk result (λ o. option_map expression_of o
        ≡ lift_two (λ m n. expression_of (with_two form.now m n)) d.now e.now) }
{
    match (d.get(), e.get()) {
        (Expr::If(c, a, b), _) => {
            let first = two(alloc, form, a, e)?;
            let second = two(alloc, form, b, e)?;
            choice(c, first, second)
        }
        (_, Expr::If(c, a, b)) => {
            let first = two(alloc, form, d, a)?;
            let second = two(alloc, form, d, b)?;
            choice(c, first, second)
        }
        _ => Ok(None),
    }
}

/// `on` at the first of its first two parts that is an `if`.
fn lift_on(
    alloc: Global,
    form: &Expr,
    e: &ExprChild,
    d: &ExprChild,
    f: &ExprChild,
) -> Result<Option<Expr>, Memory>
    ensures { IfOk result (λ o. option_map expression_of o
        ≡ lift_two (λ m n. expression_of (with_three form.now m n f.now)) e.now d.now) }
{
    match (e.get(), d.get()) {
        (Expr::If(c, a, b), _) => {
            let first = three(alloc, form, a, d, f)?;
            let second = three(alloc, form, b, d, f)?;
            choice(c, first, second)
        }
        (_, Expr::If(c, a, b)) => {
            let first = three(alloc, form, e, a, f)?;
            let second = three(alloc, form, e, b, f)?;
            choice(c, first, second)
        }
        _ => Ok(None),
    }
}

/// The form at the first of its three parts that is an `if`.
fn lift_three(
    alloc: Global,
    form: &Expr,
    d: &ExprChild,
    e: &ExprChild,
    f: &ExprChild,
) -> Result<Option<Expr>, Memory>
    ensures { IfOk result (λ o. option_map expression_of o
        ≡ lift_three (λ l m n. expression_of (with_three form.now l m n)) d.now e.now f.now) }
{
    match d.get() {
        Expr::If(c, a, b) => {
            let first = three(alloc, form, a, e, f)?;
            let second = three(alloc, form, b, e, f)?;
            choice(c, first, second)
        }
        _ => lift_later(alloc, form, d, e, f),
    }
}

/// The form at the first of its last two parts that is an `if`.
fn lift_later(
    alloc: Global,
    form: &Expr,
    d: &ExprChild,
    e: &ExprChild,
    f: &ExprChild,
) -> Result<Option<Expr>, Memory>
    ensures { IfOk result (λ o. option_map expression_of o
        ≡ lift_two (λ m n. expression_of (with_three form.now d.now m n)) e.now f.now) }
{
    match (e.get(), f.get()) {
        (Expr::If(c, a, b), _) => {
            let first = three(alloc, form, d, a, f)?;
            let second = three(alloc, form, d, b, f)?;
            choice(c, first, second)
        }
        (_, Expr::If(c, a, b)) => {
            let first = three(alloc, form, d, e, a)?;
            let second = three(alloc, form, d, e, b)?;
            choice(c, first, second)
        }
        _ => Ok(None),
    }
}

/// The list at its first element that is an `if`.
fn lift_all(alloc: Global, element: &Ty, all: &[Expr]) -> Result<Option<Expr>, Memory>
    ensures { IfOk result (λ o. option_map expression_of o
        ≡ lift_all (list_expr (type_of element.now)) (expressions_of (map expression_of all.now))) }
{
    let mut k = 0;
    while k < all.len() {
        if let Expr::If(c, a, b) = &all[k] {
            let first = list_with(alloc, element, all, k, a)?;
            let second = list_with(alloc, element, all, k, b)?;
            return choice(c, first, second);
        }
        k += 1;
    }
    Ok(None)
}

/// The list of these elements, with the part in place of element k.
fn list_with(
    alloc: Global,
    element: &Ty,
    all: &[Expr],
    k: usize,
    part: &ExprChild,
) -> Result<ExprChild, Memory>
    requires { k < length all.now }
    ensures { IfOk result (λ p. p ≡ list_expr (type_of element.now)
        (expressions_of (set (map expression_of all.now) k part.now))) }
{
    let part = part.get().try_copy(alloc)?;
    let changed = changed(alloc, all, k, part)?;
    let changed = Exprs::new(alloc, changed)?;
    let element = element.try_copy(alloc)?;
    ExprChild::new(alloc, Expr::List(element, changed))
}

/// Copies of the expressions, in order, with the other one in place of expression k.
fn changed(alloc: Global, all: &[Expr], k: usize, other: Expr) -> Result<Vec<Expr>, Memory>
    requires { k < length all.now }
    ensures { IfOk result (λ changed. changed.items ≡ set all.now k other) }
{
    match copies(alloc, all) {
        Ok(mut changed) => {
            drop(replace(&mut changed[k], other));
            Ok(changed)
        }
        Err(refused) => {
            drop(other);
            Err(refused)
        }
    }
}

/// Copies of the expressions, in order.
fn copies(alloc: Global, all: &[Expr]) -> Result<Vec<Expr>, Memory>
    ensures { IfOk result (λ copied. copied.items ≡ all.now) }
{
    let mut copied = Vec::with_capacity(alloc, all.len())?;
    for element in all {
        let copy = element.try_copy(alloc)?;
        copied.push(copy)?;
    }
    Ok(copied)
}
