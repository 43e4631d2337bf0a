// What the function of `delay` does, over its ring.

ghost use Rattle.std.specs.Prelude.{◌≡◌, ℕ, List, IfOk};
ghost use Rattle.sample_core.specs.TypeTree.{TypeTree};
ghost use Rattle.leaf_code.specs.Fitting.{Bounds};
ghost use Rattle.c_meaning.specs.Object.{number_type, u32};
ghost use Rattle.c_meaning.specs.Syntax.{define, loop};
ghost use Rattle.c_forms.specs.Keeping.{Shape};
ghost use Rattle.c_forms.specs.Cells.{at_first, register};
ghost use Rattle.c_forms.specs.Delay.{emptied, go_later, due_test, leave_body, place_term, join_body, delay_function};
ghost use Rattle.c_build.specs.Scopes.{Counts, IsType};
ghost use Rattle.c_build.specs.Making.{Adds};

use crate::lines::{behind, push_constant_call};
use crate::scope::Scope;
use crate::sym::Sym;
use crate::unbuilt::Unbuilt;
use c_text::{Base, CType, Literal, Operator, Scalar};

/// What `(delay q c)` does: function c answers the constant. `Missing` if q is too large.
pub(crate) fn push_delay(
    scope: Scope<'_>,
    out: &mut Vec<Sym>,
    kept: CType,
    q: u64,
    c: usize,
) -> Result<(), Unbuilt>
    ensures { IfOk result (λ _. (n : Bounds) (Ps : List TypeTree) (Os : List Shape) (V : TypeTree)
        → Counts scope.entry Ps Os → IsType scope.entry n kept V
        → Adds scope.entry out.old.items out.new.items (delay_function n Ps Os q V c).body) }
{
    let most = room(q)?;
    push_constant_call(scope, out, kept, c)?;
    push_emptied(scope, out)?;
    push_later(scope, out)?;
    push_leaving(scope, out, most)?;
    push_place(scope, out, most)?;
    push_join(scope, out)?;
    scope.add(
        out,
        &[Sym::Local(0), Sym::Dot(1), Sym::Answer, Sym::Block(7)],
    )?;
    Ok(())
}

/// So many elements. `Missing` if there are too many.
fn room(q: u64) -> Result<u32, Unbuilt>
    ensures { IfOk result (λ r. r ≡ q) }
{
    match u32::try_from(q) {
        Ok(q) => Ok(q),
        Err(_) => Err(Unbuilt::Missing),
    }
}

/// At the first sample: nothing waits, and the answer is register 0.
fn push_emptied(scope: Scope<'_>, out: &mut Vec<Sym>) -> Result<(), Unbuilt>
    ensures { IfOk result (λ _. (n : Bounds) (Ps : List TypeTree) (Os : List Shape) → Counts scope.entry Ps Os
        → Adds scope.entry out.old.items out.new.items (at_first (emptied (register n Ps Os 0)))) }
{
    scope.add(
        out,
        &[
            Sym::Local(1),
            Sym::Literal(Literal::Int64(0)),
            Sym::Binary(Operator::Equals, Scalar::Int64),
            Sym::Local(0),
            Sym::Dot(0),
            Sym::Literal(Literal::Uint64(0)),
            Sym::Assign,
            Sym::Local(0),
            Sym::Dot(2),
            Sym::Literal(Literal::Uint32(0)),
            Sym::Assign,
            Sym::Local(0),
            Sym::Dot(3),
            Sym::Literal(Literal::Uint32(0)),
            Sym::Assign,
            Sym::Local(0),
            Sym::Dot(1),
            Sym::Local(behind(scope, 0)),
            Sym::Assign,
            Sym::Block(4),
            Sym::Skip,
            Sym::Branch,
        ],
    )?;
    Ok(())
}

/// Time goes on.
fn push_later(scope: Scope<'_>, out: &mut Vec<Sym>) -> Result<(), Unbuilt>
    ensures { IfOk result (λ _. Adds scope.entry out.old.items out.new.items go_later) }
{
    scope.add(
        out,
        &[
            Sym::Local(0),
            Sym::Dot(0),
            Sym::Local(0),
            Sym::Dot(0),
            Sym::Local(1),
            Sym::Cast(Scalar::Uint64),
            Sym::Binary(Operator::Plus, Scalar::Uint64),
            Sym::Assign,
        ],
    )?;
    Ok(())
}

/// Samples that are due leave the ring, one by one.
fn push_leaving(scope: Scope<'_>, out: &mut Vec<Sym>, q: u32) -> Result<(), Unbuilt>
    ensures { IfOk result (λ _. Adds scope.entry out.old.items out.new.items
        (loop q (due_test q) (leave_body q))) }
{
    scope.add(
        out,
        &[
            Sym::Literal(Literal::Uint32(0)),
            Sym::Local(0),
            Sym::Dot(3),
            Sym::Binary(Operator::Less, Scalar::Uint32),
            Sym::Literal(Literal::Uint64(q as u64)),
            Sym::Local(0),
            Sym::Dot(0),
            Sym::Local(0),
            Sym::Dot(4),
            Sym::Local(0),
            Sym::Dot(2),
            Sym::At,
            Sym::Binary(Operator::Minus, Scalar::Uint64),
            Sym::Binary(Operator::AtMost, Scalar::Uint64),
            Sym::Both,
        ],
    )?;
    push_leave(scope, out, q)?;
    scope.add(out, &[Sym::Loop(q)])?;
    Ok(())
}

/// A sample leaves the ring, and is the answer.
fn push_leave(scope: Scope<'_>, out: &mut Vec<Sym>, q: u32) -> Result<(), Unbuilt>
    ensures { IfOk result (λ _. Adds scope.entry out.old.items out.new.items (leave_body q)) }
{
    scope.add(
        out,
        &[
            Sym::Local(0),
            Sym::Dot(1),
            Sym::Local(0),
            Sym::Dot(5),
            Sym::Local(0),
            Sym::Dot(2),
            Sym::At,
            Sym::Assign,
            Sym::Local(0),
            Sym::Dot(2),
            Sym::Local(0),
            Sym::Dot(2),
            Sym::Literal(Literal::Uint32(1)),
            Sym::Binary(Operator::Plus, Scalar::Uint32),
            Sym::Literal(Literal::Uint32(q)),
            Sym::Binary(Operator::Equals, Scalar::Uint32),
            Sym::Literal(Literal::Uint32(0)),
            Sym::Local(0),
            Sym::Dot(2),
            Sym::Literal(Literal::Uint32(1)),
            Sym::Binary(Operator::Plus, Scalar::Uint32),
            Sym::Choice,
            Sym::Assign,
            Sym::Local(0),
            Sym::Dot(3),
            Sym::Local(0),
            Sym::Dot(3),
            Sym::Literal(Literal::Uint32(1)),
            Sym::Binary(Operator::Minus, Scalar::Uint32),
            Sym::Assign,
            Sym::Block(3),
        ],
    )?;
    Ok(())
}

/// The place of the next sample.
fn push_place(scope: Scope<'_>, out: &mut Vec<Sym>, q: u32) -> Result<(), Unbuilt>
    ensures { IfOk result (λ _. Adds scope.entry out.old.items out.new.items
        (define (number_type u32) (place_term q))) }
{
    scope.add(
        out,
        &[
            Sym::Literal(Literal::Uint32(q)),
            Sym::Local(0),
            Sym::Dot(2),
            Sym::Local(0),
            Sym::Dot(3),
            Sym::Binary(Operator::Plus, Scalar::Uint32),
            Sym::Binary(Operator::AtMost, Scalar::Uint32),
            Sym::Local(0),
            Sym::Dot(2),
            Sym::Local(0),
            Sym::Dot(3),
            Sym::Binary(Operator::Plus, Scalar::Uint32),
            Sym::Literal(Literal::Uint32(q)),
            Sym::Binary(Operator::Minus, Scalar::Uint32),
            Sym::Local(0),
            Sym::Dot(2),
            Sym::Local(0),
            Sym::Dot(3),
            Sym::Binary(Operator::Plus, Scalar::Uint32),
            Sym::Choice,
            Sym::Define(CType::One(Base::Number(Scalar::Uint32))),
        ],
    )?;
    Ok(())
}

/// The sample joins the ring, at the place in register 1.
fn push_join(scope: Scope<'_>, out: &mut Vec<Sym>) -> Result<(), Unbuilt>
    ensures { IfOk result (λ _. (n : Bounds) (Ps : List TypeTree) (Os : List Shape) → Counts scope.entry Ps Os
        → Adds scope.entry out.old.items out.new.items (join_body (register n Ps Os 1))) }
{
    scope.add(
        out,
        &[
            Sym::Local(0),
            Sym::Dot(4),
            Sym::Local(behind(scope, 1)),
            Sym::At,
            Sym::Local(0),
            Sym::Dot(0),
            Sym::Assign,
            Sym::Local(0),
            Sym::Dot(5),
            Sym::Local(behind(scope, 1)),
            Sym::At,
            Sym::Local(2),
            Sym::Assign,
            Sym::Local(0),
            Sym::Dot(3),
            Sym::Local(0),
            Sym::Dot(3),
            Sym::Literal(Literal::Uint32(1)),
            Sym::Binary(Operator::Plus, Scalar::Uint32),
            Sym::Assign,
            Sym::Block(3),
        ],
    )?;
    Ok(())
}
