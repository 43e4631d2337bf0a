// An operator on literals is the literal of its value.

ghost use Rattle.std.specs.Prelude.{◌≡◌, IfOk, [], option_map};
ghost use Rattle.sample_core.specs.Datum.{unit};
ghost use Rattle.sample_core.specs.ValueView.{datum_of};
ghost use Rattle.leaf_core.specs.ExpressionValue.{value_of};
ghost use Rattle.leaf_core.specs.ExpressionView.{expression_of, literal_of};
ghost use Rattle.expr_laws.specs.ExpressionLaw.{is_bool, literal_for};
ghost use Rattle.expr_laws.specs.Direct.{are_alike, is_int, law15, on_literals};

use leaf_core::{Expr, ExprChild, Literal, eval};
use sample_core::{Memory, Sample};
use std::alloc::Global;

/// The literal of an operator's value, where its parts are literals of the types that it takes.
pub fn computed(alloc: Global, expr: &Expr) -> Result<Option<Expr>, Memory>
    ensures { IfOk result (λ o. option_map expression_of o ≡ law15 (expression_of expr.now)) }
{
    if !on_literals(expr) {
        return Ok(None);
    }
    let literal = literal_of_value(alloc, expr)?;
    Ok(Some(Expr::Literal(literal)))
}

/// The literal of the expression's value under no parameters; `unit` where no literal has it.
fn literal_of_value(alloc: Global, expr: &Expr) -> Result<Literal, Memory>
    ensures { IfOk result
        (λ c. literal_of c ≡ literal_for (value_of (expression_of expr.now) [] unit)) }
{
    let value = eval(alloc, expr, &[], &Sample::Unit)?;
    let literal = literal_for(&value);
    drop(value);
    Ok(literal)
}

/// The literal of a value; `unit` where no literal has it.
fn literal_for(value: &Sample) -> Literal
    ensures { literal_of result ≡ literal_for (datum_of value.now) }
{
    match value {
        Sample::Bool(b) => Literal::Bool(*b),
        Sample::Int(n) => Literal::Int(*n),
        _ => Literal::Unit,
    }
}

/// Whether the expression is an operator on literals of the types that it takes.
fn on_literals(expr: &Expr) -> bool
    ensures { result ≡ on_literals (expression_of expr.now) }
{
    match expr {
        Expr::Neg(a) => is_int(a),
        Expr::Add(a, b) | Expr::Sub(a, b) | Expr::Mul(a, b) | Expr::Less(a, b) => is_int(a)
            && is_int(b),
        Expr::Equal(a, b) => are_alike(a.get(), b.get()),
        Expr::Not(a) => is_bool(a),
        Expr::And(a, b) | Expr::Or(a, b) => is_bool(a) && is_bool(b),
        _ => false,
    }
}

/// Whether the part is a number literal.
fn is_int(part: &ExprChild) -> bool
    ensures { result ≡ is_int part.now }
{
    matches!(part.get(), Expr::Literal(Literal::Int(_)))
}

/// Whether the part is `true` or `false`.
fn is_bool(part: &ExprChild) -> bool
    ensures { result ≡ is_bool part.now }
{
    matches!(part.get(), Expr::Literal(Literal::Bool(_)))
}

/// Whether the two are literals of one type.
fn are_alike(a: &Expr, b: &Expr) -> bool
    ensures { result ≡ are_alike (expression_of a.now) (expression_of b.now) }
{
    match (a, b) {
        (Expr::Literal(a), Expr::Literal(b)) => are_of_one_type(*a, *b),
        _ => false,
    }
}

/// Whether the two literals are of one type.
fn are_of_one_type(a: Literal, b: Literal) -> bool
    ensures { result ≡ are_alike (literal_of a) (literal_of b) }
{
    match (a, b) {
        (Literal::Unit, Literal::Unit)
        | (Literal::Bool(_), Literal::Bool(_))
        | (Literal::Int(_), Literal::Int(_)) => true,
        _ => false,
    }
}
