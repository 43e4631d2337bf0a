// Matching an expression against a pattern.

ghost use Rattle.std.specs.Prelude.{◌≡◌, IfOk, MatchOption, ◌∷◌, [], Some, None};
ghost use Rattle.leaf_core.specs.ExpressionView.{expression_of};
ghost use Rattle.law_patterns.specs.Matching.{going, matching, met, step, fitted, found_of, todo_of};

use crate::letters::Letters;
use crate::stack::Stack;
use crate::sym::Sym;
use leaf_core::{Expr, Literal};
use sample_core::Memory;
use std::alloc::Global;

/// Whether the pattern fits the expression; its letters then stand for what they are at. `Memory`
/// if allocation fails.
pub(crate) fn fit<'t>(
    alloc: Global,
    pattern: &[Sym],
    expr: &'t Expr,
    mut letters: Letters<'t>,
) -> Result<Option<Letters<'t>>, Memory>
    ensures { IfOk result (λ o. MatchOption o
        (fitted pattern.now (expression_of expr.now ∷ []) (found_of letters.entry) ≡ None)
        (λ s. fitted pattern.now (expression_of expr.now ∷ []) (found_of letters.entry) ≡ Some (found_of s))) }
{
    let mut todo = Stack::new(alloc);
    todo.put(expr)?;
    for sym in pattern {
        if !meet(*sym, &mut todo, &mut letters)? {
            return Ok(None);
        }
    }
    match todo.pop() {
        None => Ok(Some(letters)),
        Some(_) => Ok(None),
    }
}

/// Matches the next expression against the symbol: whether they agree.
pub(crate) fn meet<'t>(
    sym: Sym,
    todo: &mut Stack<&'t Expr>,
    letters: &mut Letters<'t>,
) -> Result<bool, Memory>
    ensures { IfOk result (λ b. going b (todo_of todo.new) (found_of letters.new) ≡ step sym (matching (todo_of todo.old) (found_of letters.old))) }
{
    match todo.pop() {
        None => Ok(false),
        Some(expr) => meet_expr(sym, expr, todo, letters),
    }
}

/// Matches this expression against the symbol: whether they agree.
fn meet_expr<'t>(
    sym: Sym,
    expr: &'t Expr,
    todo: &mut Stack<&'t Expr>,
    letters: &mut Letters<'t>,
) -> Result<bool, Memory>
    ensures { IfOk result (λ b. going b (todo_of todo.new) (found_of letters.new) ≡ met sym (expression_of expr.now) (todo_of todo.old) (found_of letters.old)) }
{
    match (sym, expr) {
        (Sym::Letter(k), _) => Ok(letters.bind(k, expr)),
        (Sym::Input, Expr::Input) => Ok(true),
        (Sym::Unit, Expr::Literal(Literal::Unit)) => Ok(true),
        (Sym::Truth(b), Expr::Literal(Literal::Bool(c))) => Ok(b == *c),
        (Sym::Number(n), Expr::Literal(Literal::Int(m))) => Ok(n == *m),
        (Sym::NoEvent, Expr::NoEvent(t)) => Ok(letters.bind_type(t)),
        (Sym::Fst, Expr::Fst(a)) => todo.put(a.get()),
        (Sym::Snd, Expr::Snd(a)) => todo.put(a.get()),
        (Sym::Event, Expr::Event(a)) => todo.put(a.get()),
        (Sym::Pair, Expr::Pair(a, b)) => todo.put_two(a.get(), b.get()),
        (Sym::Then, Expr::Then(a, b)) => todo.put_two(a.get(), b.get()),
        (Sym::Neg, Expr::Neg(a)) => todo.put(a.get()),
        (Sym::Not, Expr::Not(a)) => todo.put(a.get()),
        (Sym::Add, Expr::Add(a, b)) => todo.put_two(a.get(), b.get()),
        (Sym::Sub, Expr::Sub(a, b)) => todo.put_two(a.get(), b.get()),
        (Sym::Mul, Expr::Mul(a, b)) => todo.put_two(a.get(), b.get()),
        (Sym::Less, Expr::Less(a, b)) => todo.put_two(a.get(), b.get()),
        (Sym::And, Expr::And(a, b)) => todo.put_two(a.get(), b.get()),
        (Sym::Or, Expr::Or(a, b)) => todo.put_two(a.get(), b.get()),
        (Sym::If, Expr::If(a, b, c)) => todo.put_three(a.get(), b.get(), c.get()),
        (Sym::On, Expr::On(a, b, c)) => todo.put_three(a.get(), b.get(), c.get()),
        _ => Ok(false),
    }
}
