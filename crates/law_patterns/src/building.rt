// Building the expression that a pattern stands for.

ghost use Rattle.std.specs.Prelude.{◌≡◌, IfOk, MatchOption, ◌∷◌, [], Some, None};
ghost use Rattle.leaf_core.specs.ExpressionView.{expression_of};
ghost use Rattle.law_patterns.specs.Pattern.{around_one, around_two, around_three, put_before, filled};
ghost use Rattle.law_patterns.specs.Matching.{completed, found_of};
ghost use Rattle.law_patterns.specs.Building.{there, one_form, two_form, three_form};

use crate::letters::Letters;
use crate::stack::Stack;
use crate::sym::Sym;
use leaf_core::{Expr, ExprChild, Literal};
use sample_core::Memory;
use std::alloc::Global;

/// The expression that the pattern is with these trees for its letters, whose parts it shares;
/// `None` if it isn't one expression. `Memory` if allocation fails.
pub(crate) fn build(
    alloc: Global,
    pattern: &[Sym],
    letters: &Letters,
) -> Result<Option<Expr>, Memory>
    ensures { IfOk result (λ o. MatchOption o
        (filled (completed (found_of letters.now)) pattern.now ≡ None)
        (λ e. filled (completed (found_of letters.now)) pattern.now ≡ Some (expression_of e))) }
{
    let mut stack = Stack::new(alloc);
    let mut left = pattern.len();
    while left > 0 {
        left -= 1;
        if !make(alloc, pattern[left], letters, &mut stack)? {
            return Ok(None);
        }
    }
    taken(alloc, stack.only())
}

/// The expression of the part, if there is one. `Memory` if a count of references is full.
fn taken(alloc: Global, part: Option<ExprChild>) -> Result<Option<Expr>, Memory>
    ensures { IfOk result (λ o. MatchOption o (part ≡ None) (λ e. part ≡ Some (expression_of e))) }
{
    match part {
        None => Ok(None),
        Some(part) => {
            let copy = part.get().try_copy(alloc);
            drop(part);
            Ok(Some(copy?))
        }
    }
}

/// Takes the expression on top of the stack off, if there is one.
pub(crate) fn pop_expr(alloc: Global, stack: &mut Stack<ExprChild>) -> Result<Option<Expr>, Memory>
    ensures { IfOk result (λ o. MatchOption o ((stack.old ≡ []) × (stack.new ≡ []))
        (λ e. stack.old ≡ expression_of e ∷ stack.new)) }
{
    taken(alloc, stack.pop())
}

/// Puts on the stack what the symbol makes: a letter's expression, or the form with the parts that
/// it takes off. Whether they were there.
pub(crate) fn make(
    alloc: Global,
    sym: Sym,
    letters: &Letters,
    stack: &mut Stack<ExprChild>,
) -> Result<bool, Memory>
    ensures { IfOk result (λ b. there b stack.new ≡ put_before (completed (found_of letters.now)) sym stack.old) }
{
    match sym {
        Sym::Letter(k) => {
            let expr = letters.copy_of(alloc, k)?;
            put(alloc, expr, stack)
        }
        Sym::Input => put(alloc, Expr::Input, stack),
        Sym::Unit => put(alloc, Expr::Literal(Literal::Unit), stack),
        Sym::Truth(b) => put(alloc, Expr::Literal(Literal::Bool(b)), stack),
        Sym::Number(n) => put(alloc, Expr::Literal(Literal::Int(n)), stack),
        Sym::NoEvent => {
            let carried = letters.copy_of_type(alloc)?;
            put(alloc, Expr::NoEvent(carried), stack)
        }
        Sym::Fst | Sym::Snd | Sym::Event | Sym::Neg | Sym::Not => make_one(alloc, sym, stack),
        Sym::Pair | Sym::Then | Sym::Add | Sym::Sub | Sym::Mul | Sym::Less | Sym::And | Sym::Or =>
            make_two(alloc, sym, stack),
        Sym::If | Sym::On => make_three(alloc, sym, stack),
    }
}

/// Puts the expression on the stack, and answers true.
fn put(alloc: Global, expr: Expr, stack: &mut Stack<ExprChild>) -> Result<bool, Memory>
    ensures { IfOk result (λ b. there b stack.new ≡ Some (expression_of expr ∷ stack.old)) }
{
    let part = ExprChild::new(alloc, expr)?;
    stack.put(part)
}

/// Puts the form around the part on top of the stack. Whether it was there.
fn make_one(alloc: Global, form: Sym, stack: &mut Stack<ExprChild>) -> Result<bool, Memory>
    ensures { IfOk result (λ b. there b stack.new ≡ around_one (one_form form) stack.old) }
{
    match stack.pop() {
        None => Ok(false),
        Some(a) => put(alloc, one(form, a), stack),
    }
}

/// Puts a form of two parts around the two on top of the stack. Whether they were there.
fn make_two(alloc: Global, form: Sym, stack: &mut Stack<ExprChild>) -> Result<bool, Memory>
    ensures { IfOk result (λ b. there b stack.new ≡ around_two (two_form form) stack.old) }
{
    match stack.pop_two() {
        None => Ok(false),
        Some((a, b)) => put(alloc, two(form, a, b), stack),
    }
}

/// Puts a form of three parts around the three on top of the stack. Whether they were there.
fn make_three(alloc: Global, form: Sym, stack: &mut Stack<ExprChild>) -> Result<bool, Memory>
    ensures { IfOk result (λ b. there b stack.new ≡ around_three (three_form form) stack.old) }
{
    let Some((a, b)) = stack.pop_two() else {
        return Ok(false);
    };
    match stack.pop() {
        None => {
            drop(a);
            drop(b);
            Ok(false)
        }
        Some(c) => put(alloc, three(form, a, b, c), stack),
    }
}

/// The form around its part.
fn one(form: Sym, a: ExprChild) -> Expr
    ensures { expression_of result ≡ one_form form a }
{
    match form {
        Sym::Fst => Expr::Fst(a),
        Sym::Snd => Expr::Snd(a),
        Sym::Neg => Expr::Neg(a),
        Sym::Not => Expr::Not(a),
        _ => Expr::Event(a),
    }
}

/// The form around its two parts.
fn two(form: Sym, a: ExprChild, b: ExprChild) -> Expr
    ensures { expression_of result ≡ two_form form a b }
{
    match form {
        Sym::Pair => Expr::Pair(a, b),
        Sym::Then => Expr::Then(a, b),
        Sym::Sub => Expr::Sub(a, b),
        Sym::Mul => Expr::Mul(a, b),
        Sym::Less => Expr::Less(a, b),
        Sym::And => Expr::And(a, b),
        Sym::Or => Expr::Or(a, b),
        _ => Expr::Add(a, b),
    }
}

/// The form around its three parts.
fn three(form: Sym, a: ExprChild, b: ExprChild, c: ExprChild) -> Expr
    ensures { expression_of result ≡ three_form form a b c }
{
    match form {
        Sym::If => Expr::If(a, b, c),
        _ => Expr::On(a, b, c),
    }
}
