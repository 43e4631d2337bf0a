// What the functions of cells do.

ghost use Rattle.std.specs.Prelude.{◌≡◌, ℕ, List, IfOk, true, false};
ghost use Rattle.sample_core.specs.TypeTree.{TypeTree, pair_ty, event_ty};
ghost use Rattle.leaf_code.specs.Fitting.{Bounds};
ghost use Rattle.c_meaning.specs.Object.{i64};
ghost use Rattle.c_meaning.specs.Syntax.{minus, remainder, at_most, Term, local, boolean, binary, skip, sequence, assign, branch, answer};
ghost use Rattle.c_text.specs.Meant.{literal_meant};
ghost use Rattle.c_forms.specs.Keeping.{Shape};
ghost use Rattle.c_forms.specs.Cells.{kept_at, event_of, at_first, register, i_pre_function, hold_function, accum_function, after_function, repeatedly_function, time_function, integral_function};
ghost use Rattle.c_build.specs.Scopes.{Counts, IsType};
ghost use Rattle.c_build.specs.Making.{Adds};

use crate::forms::Inner;
use crate::lines::{behind, number, push_constant_call, push_leaf_call, push_modular};
use crate::scope::Scope;
use crate::sym::Sym;
use crate::unbuilt::Unbuilt;
use c_text::{CType, Literal, Operator, Scalar};

/// What `(iPre c)` does: function c answers the constant.
pub(crate) fn push_i_pre(
    scope: Scope<'_>,
    out: &mut Vec<Sym>,
    kept: CType,
    c: usize,
) -> Result<(), Unbuilt>
    ensures { IfOk result (λ _. (n : Bounds) (Ps : List TypeTree) (Os : List Shape) (V : TypeTree)
        → Counts scope.entry Ps Os → IsType scope.entry n kept V
        → Adds scope.entry out.old.items out.new.items (i_pre_function n Ps Os V c).body) }
{
    push_constant_call(scope, out, kept, c)?;
    scope.add(
        out,
        &[
            Sym::Local(1),
            Sym::Literal(Literal::Int64(0)),
            Sym::Binary(Operator::Equals, Scalar::Int64),
            Sym::Local(behind(scope, 0)),
            Sym::Local(0),
            Sym::Dot(0),
            Sym::Choice,
            Sym::Define(kept),
            Sym::Local(0),
            Sym::Dot(0),
            Sym::Local(2),
            Sym::Assign,
            Sym::Local(behind(scope, 1)),
            Sym::Answer,
            Sym::Block(4),
        ],
    )?;
    Ok(())
}

/// `if (dt == 0) { s->kept = c; }`: register 0 is c.
fn push_first_kept(scope: Scope<'_>, out: &mut Vec<Sym>) -> Result<(), Unbuilt>
    ensures { IfOk result (λ _. (n : Bounds) (Ps : List TypeTree) (Os : List Shape) → Counts scope.entry Ps Os
        → Adds scope.entry out.old.items out.new.items (at_first (assign (kept_at 0) (register n Ps Os 0)))) }
{
    scope.add(
        out,
        &[
            Sym::Local(1),
            Sym::Literal(Literal::Int64(0)),
            Sym::Binary(Operator::Equals, Scalar::Int64),
            Sym::Local(0),
            Sym::Dot(0),
            Sym::Local(behind(scope, 0)),
            Sym::Assign,
            Sym::Skip,
            Sym::Branch,
        ],
    )?;
    Ok(())
}

/// What `(hold c)` does: function c answers the constant.
pub(crate) fn push_hold(
    scope: Scope<'_>,
    out: &mut Vec<Sym>,
    kept: CType,
    c: usize,
) -> Result<(), Unbuilt>
    ensures { IfOk result (λ _. (n : Bounds) (Ps : List TypeTree) (Os : List Shape) (V : TypeTree)
        → Counts scope.entry Ps Os → IsType scope.entry n kept V
        → Adds scope.entry out.old.items out.new.items (hold_function n Ps Os V c).body) }
{
    push_constant_call(scope, out, kept, c)?;
    push_first_kept(scope, out)?;
    scope.add(
        out,
        &[
            Sym::Local(2),
            Sym::Dot(0),
            Sym::Local(0),
            Sym::Dot(0),
            Sym::Local(2),
            Sym::Dot(1),
            Sym::Assign,
            Sym::Skip,
            Sym::Branch,
            Sym::Local(0),
            Sym::Dot(0),
            Sym::Answer,
            Sym::Block(4),
        ],
    )?;
    Ok(())
}

/// What `(accumBy g z)` does: function c answers z, function j computes g of a pair.
pub(crate) fn push_accum(
    scope: Scope<'_>,
    out: &mut Vec<Sym>,
    types: Inner,
    c: usize,
    j: usize,
) -> Result<(), Unbuilt>
    ensures { IfOk result (λ _. (n : Bounds) (Ps : List TypeTree) (Os : List Shape) (U V : TypeTree)
        → Counts scope.entry Ps Os → IsType scope.entry n types.kept V
        → IsType scope.entry n types.passed (pair_ty V U) → IsType scope.entry n types.answer (event_ty V)
        → Adds scope.entry out.old.items out.new.items (accum_function n Ps Os U V c j).body) }
{
    push_constant_call(scope, out, types.kept, c)?;
    push_first_kept(scope, out)?;
    scope.add(
        out,
        &[
            Sym::Local(2),
            Sym::Dot(0),
            Sym::Skip,
            Sym::Zeroed(types.answer),
            Sym::Answer,
            Sym::Branch,
            Sym::Local(0),
            Sym::Dot(0),
            Sym::Local(2),
            Sym::Dot(1),
            Sym::Braced(2, None),
            Sym::Define(types.passed),
        ],
    )?;
    push_leaf_call(scope, out, types.kept, j, &[Sym::Local(behind(scope, 1))])?;
    scope.add(
        out,
        &[
            Sym::Local(0),
            Sym::Dot(0),
            Sym::Local(behind(scope, 2)),
            Sym::Assign,
            Sym::Literal(Literal::Bool(true)),
            Sym::Local(behind(scope, 2)),
            Sym::Braced(2, None),
            Sym::Answer,
            Sym::Block(7),
        ],
    )?;
    Ok(())
}

/// What `(after q c)` does, whose answer is of this type: function c answers the constant. `Missing` if q is
/// too large.
pub(crate) fn push_after(
    scope: Scope<'_>,
    out: &mut Vec<Sym>,
    kept: CType,
    answer: CType,
    q: u64,
    c: usize,
) -> Result<(), Unbuilt>
    ensures { IfOk result (λ _. (n : Bounds) (Ps : List TypeTree) (Os : List Shape) (V A : TypeTree)
        → Counts scope.entry Ps Os → IsType scope.entry n kept V → IsType scope.entry n answer (event_ty V)
        → Adds scope.entry out.old.items out.new.items (after_function n Ps Os q V A c).body) }
{
    push_constant_call(scope, out, kept, c)?;
    let wait = number(q)?;
    push_wait(scope, out, wait)?;
    scope.add(
        out,
        &[
            Sym::Local(0),
            Sym::Dot(0),
            Sym::Inverse,
            Sym::Local(0),
            Sym::Dot(1),
            Sym::Local(1),
            Sym::Binary(Operator::AtMost, Scalar::Int64),
            Sym::Both,
            Sym::Local(0),
            Sym::Dot(0),
            Sym::Literal(Literal::Bool(true)),
            Sym::Assign,
            Sym::Literal(Literal::Bool(true)),
            Sym::Local(0),
            Sym::Dot(2),
            Sym::Braced(2, None),
            Sym::Answer,
            Sym::Block(2),
            Sym::Skip,
            Sym::Branch,
        ],
    )?;
    scope.add(
        out,
        &[
            Sym::Local(0),
            Sym::Dot(0),
            Sym::Skip,
            Sym::Local(0),
            Sym::Dot(1),
            Sym::Local(0),
            Sym::Dot(1),
            Sym::Local(1),
            Sym::Binary(Operator::Minus, Scalar::Int64),
            Sym::Assign,
            Sym::Branch,
            Sym::Zeroed(answer),
            Sym::Answer,
            Sym::Block(5),
        ],
    )?;
    Ok(())
}

/// `if (dt == 0) { s->over = false; s->left = q; s->value = c; }`: register 0 is c.
fn push_wait(scope: Scope<'_>, out: &mut Vec<Sym>, q: Literal) -> Result<(), Unbuilt>
    ensures { IfOk result (λ _. (n : Bounds) (Ps : List TypeTree) (Os : List Shape) (e : Term)
        → Counts scope.entry Ps Os → literal_meant q ≡ e
        → Adds scope.entry out.old.items out.new.items
        (at_first
        (sequence (assign (kept_at 0) (boolean false))
        (sequence (assign (kept_at 1) e) (assign (kept_at 2) (register n Ps Os 0)))))) }
{
    scope.add(
        out,
        &[
            Sym::Local(1),
            Sym::Literal(Literal::Int64(0)),
            Sym::Binary(Operator::Equals, Scalar::Int64),
            Sym::Local(0),
            Sym::Dot(0),
            Sym::Literal(Literal::Bool(false)),
            Sym::Assign,
            Sym::Local(0),
            Sym::Dot(1),
            Sym::Literal(q),
            Sym::Assign,
            Sym::Local(0),
            Sym::Dot(2),
            Sym::Local(behind(scope, 0)),
            Sym::Assign,
            Sym::Block(3),
            Sym::Skip,
            Sym::Branch,
        ],
    )?;
    Ok(())
}

/// What `(repeatedly q c)` does, whose answer is of this type: function c answers the constant. `Missing` if q
/// is too large.
pub(crate) fn push_repeatedly(
    scope: Scope<'_>,
    out: &mut Vec<Sym>,
    kept: CType,
    answer: CType,
    q: u64,
    c: usize,
) -> Result<(), Unbuilt>
    ensures { IfOk result (λ _. (n : Bounds) (Ps : List TypeTree) (Os : List Shape) (V A : TypeTree)
        → Counts scope.entry Ps Os → IsType scope.entry n kept V → IsType scope.entry n answer (event_ty V)
        → Adds scope.entry out.old.items out.new.items (repeatedly_function n Ps Os q V A c).body) }
{
    push_constant_call(scope, out, kept, c)?;
    let gap = number(q)?;
    scope.add(
        out,
        &[
            Sym::Local(1),
            Sym::Literal(Literal::Int64(0)),
            Sym::Binary(Operator::Equals, Scalar::Int64),
            Sym::Local(0),
            Sym::Dot(0),
            Sym::Literal(gap),
            Sym::Assign,
            Sym::Local(0),
            Sym::Dot(1),
            Sym::Local(behind(scope, 0)),
            Sym::Assign,
            Sym::Block(2),
            Sym::Skip,
            Sym::Branch,
        ],
    )?;
    push_again(scope, out, gap)?;
    scope.add(
        out,
        &[
            Sym::Local(0),
            Sym::Dot(0),
            Sym::Local(0),
            Sym::Dot(0),
            Sym::Local(1),
            Sym::Binary(Operator::Minus, Scalar::Int64),
            Sym::Assign,
            Sym::Zeroed(answer),
            Sym::Answer,
            Sym::Block(5),
        ],
    )?;
    Ok(())
}

/// `if (s->left <= dt) { s->left = q - (dt - s->left) % q; return {true, s->value}; }`.
fn push_again(scope: Scope<'_>, out: &mut Vec<Sym>, q: Literal) -> Result<(), Unbuilt>
    ensures { IfOk result (λ _. (e : Term) → literal_meant q ≡ e
        → Adds scope.entry out.old.items out.new.items
        (branch (binary at_most i64 (kept_at 0) (local 1))
        (sequence
        (assign (kept_at 0)
        (binary minus i64 e (binary remainder i64 (binary minus i64 (local 1) (kept_at 0)) e)))
        (answer (event_of (kept_at 1)))) skip)) }
{
    scope.add(
        out,
        &[
            Sym::Local(0),
            Sym::Dot(0),
            Sym::Local(1),
            Sym::Binary(Operator::AtMost, Scalar::Int64),
            Sym::Local(0),
            Sym::Dot(0),
            Sym::Literal(q),
            Sym::Local(1),
            Sym::Local(0),
            Sym::Dot(0),
            Sym::Binary(Operator::Minus, Scalar::Int64),
            Sym::Literal(q),
            Sym::Binary(Operator::Remainder, Scalar::Int64),
            Sym::Binary(Operator::Minus, Scalar::Int64),
            Sym::Assign,
            Sym::Literal(Literal::Bool(true)),
            Sym::Local(0),
            Sym::Dot(1),
            Sym::Braced(2, None),
            Sym::Answer,
            Sym::Block(2),
            Sym::Skip,
            Sym::Branch,
        ],
    )?;
    Ok(())
}

/// What `time` does.
pub(crate) fn push_time(scope: Scope<'_>, out: &mut Vec<Sym>) -> Result<(), Unbuilt>
    ensures { IfOk result (λ _. (n : Bounds) (Ps : List TypeTree) (Os : List Shape) (V A : TypeTree)
        → Adds scope.entry out.old.items out.new.items (time_function n Ps Os V A).body) }
{
    scope.add(
        out,
        &[
            Sym::Local(0),
            Sym::Dot(0),
            Sym::Local(1),
            Sym::Literal(Literal::Int64(0)),
            Sym::Binary(Operator::Equals, Scalar::Int64),
            Sym::Literal(Literal::Int64(0)),
        ],
    )?;
    let kept = [Sym::Local(0), Sym::Dot(0)];
    push_modular(scope, out, Operator::Plus, &kept, &[Sym::Local(1)])?;
    scope.add(
        out,
        &[
            Sym::Choice,
            Sym::Assign,
            Sym::Local(0),
            Sym::Dot(0),
            Sym::Answer,
            Sym::Block(2),
        ],
    )?;
    Ok(())
}

/// What `integral` does.
pub(crate) fn push_integral(scope: Scope<'_>, out: &mut Vec<Sym>) -> Result<(), Unbuilt>
    ensures { IfOk result (λ _. (n : Bounds) (Ps : List TypeTree) (Os : List Shape) (V : TypeTree)
        → Adds scope.entry out.old.items out.new.items (integral_function n Ps Os V).body) }
{
    let mut more = Vec::new(scope.alloc);
    let before = [Sym::Local(0), Sym::Dot(1)];
    push_modular(scope, &mut more, Operator::Times, &[Sym::Local(1)], &before)?;
    scope.add(
        out,
        &[
            Sym::Local(0),
            Sym::Dot(0),
            Sym::Local(1),
            Sym::Literal(Literal::Int64(0)),
            Sym::Binary(Operator::Equals, Scalar::Int64),
            Sym::Literal(Literal::Int64(0)),
        ],
    )?;
    let sum = [Sym::Local(0), Sym::Dot(0)];
    push_modular(scope, out, Operator::Plus, &sum, more.as_slice())?;
    scope.add(
        out,
        &[
            Sym::Choice,
            Sym::Assign,
            Sym::Local(0),
            Sym::Dot(1),
            Sym::Local(2),
            Sym::Assign,
            Sym::Local(0),
            Sym::Dot(0),
            Sym::Answer,
            Sym::Block(3),
        ],
    )?;
    Ok(())
}
