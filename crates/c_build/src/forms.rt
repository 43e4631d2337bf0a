// What the functions of forms that keep nothing of their own do, and of those that feed back.

ghost use Rattle.std.specs.Prelude.{◌≡◌, ℕ, List, IfOk};
ghost use Rattle.sample_core.specs.TypeTree.{TypeTree, pair_ty};
ghost use Rattle.leaf_code.specs.Fitting.{Bounds};
ghost use Rattle.c_forms.specs.Keeping.{Shape};
ghost use Rattle.c_forms.specs.Forms.{arr_function, same_function, seq_function, first_function, loop_function, out_function, in_function};
ghost use Rattle.c_build.specs.Scopes.{Counts, IsType};
ghost use Rattle.c_build.specs.Making.{Adds};

use crate::lines::{behind, push_constant_call, push_leaf_call, push_part_call};
use crate::scope::Scope;
use crate::sym::Sym;
use crate::unbuilt::Unbuilt;
use c_text::{CType, Literal, Operator, Scalar};

/// Types of a form: of what it keeps of its own, of what it passes to the function that it calls, and of the
/// answer.
#[derive(Clone, Copy)]
pub(crate) struct Inner {
    pub(crate) kept: CType,
    pub(crate) passed: CType,
    pub(crate) answer: CType,
}

/// What a function that computes an expression does: function j computes it.
pub(crate) fn push_arr(
    scope: Scope<'_>,
    out: &mut Vec<Sym>,
    answer: CType,
    j: usize,
) -> Result<(), Unbuilt>
    ensures { IfOk result (λ _. (n : Bounds) (Ps : List TypeTree) (Os : List Shape) (A B : TypeTree)
        → Counts scope.entry Ps Os → IsType scope.entry n answer B
        → Adds scope.entry out.old.items out.new.items (arr_function n Ps Os A B j).body) }
{
    push_leaf_call(scope, out, answer, j, &[Sym::Local(2)])?;
    scope.add(
        out,
        &[Sym::Local(behind(scope, 0)), Sym::Answer, Sym::Block(2)],
    )?;
    Ok(())
}

/// What a function that answers its input does.
pub(crate) fn push_same(scope: Scope<'_>, out: &mut Vec<Sym>) -> Result<(), Unbuilt>
    ensures { IfOk result (λ _. (n : Bounds) (Ps : List TypeTree) (Os : List Shape) (A : TypeTree)
        → Adds scope.entry out.old.items out.new.items (same_function n Ps Os A).body) }
{
    scope.add(out, &[Sym::Local(2), Sym::Answer])?;
    Ok(())
}

/// What `(>>> f g)` does: functions j and k are the parts.
pub(crate) fn push_seq(
    scope: Scope<'_>,
    out: &mut Vec<Sym>,
    between: CType,
    answer: CType,
    j: usize,
    k: usize,
) -> Result<(), Unbuilt>
    ensures { IfOk result (λ _. (n : Bounds) (Ps : List TypeTree) (Os : List Shape) (S T : Shape)
        (A B D : TypeTree) → Counts scope.entry Ps Os → IsType scope.entry n between B → IsType scope.entry n answer D
        → Adds scope.entry out.old.items out.new.items (seq_function n Ps Os S T A B D j k).body) }
{
    let part = [Sym::Local(0), Sym::Dot(0)];
    push_part_call(scope, out, between, j, &part, &[Sym::Local(2)])?;
    let part = [Sym::Local(0), Sym::Dot(1)];
    push_part_call(
        scope,
        out,
        answer,
        k,
        &part,
        &[Sym::Local(behind(scope, 0))],
    )?;
    scope.add(
        out,
        &[Sym::Local(behind(scope, 1)), Sym::Answer, Sym::Block(3)],
    )?;
    Ok(())
}

/// What `(first f)` does: function j is the part, which answers a part of the answer.
pub(crate) fn push_first(
    scope: Scope<'_>,
    out: &mut Vec<Sym>,
    part: CType,
    answer: CType,
    j: usize,
) -> Result<(), Unbuilt>
    ensures { IfOk result (λ _. (n : Bounds) (Ps : List TypeTree) (Os : List Shape) (S : Shape)
        (A B D : TypeTree) → Counts scope.entry Ps Os
        → IsType scope.entry n part B → IsType scope.entry n answer (pair_ty B D)
        → Adds scope.entry out.old.items out.new.items (first_function n Ps Os S A B D j).body) }
{
    let left = [Sym::Local(2), Sym::Dot(0)];
    push_part_call(scope, out, part, j, &[Sym::Local(0)], &left)?;
    scope.add(
        out,
        &[
            Sym::Local(behind(scope, 0)),
            Sym::Local(2),
            Sym::Dot(1),
            Sym::Braced(2, None),
            Sym::Define(answer),
            Sym::Local(behind(scope, 1)),
            Sym::Answer,
            Sym::Block(3),
        ],
    )?;
    Ok(())
}

/// What `(loop c f)` does: function c answers the constant, function j is the part.
pub(crate) fn push_loop(
    scope: Scope<'_>,
    out: &mut Vec<Sym>,
    types: Inner,
    c: usize,
    j: usize,
) -> Result<(), Unbuilt>
    ensures { IfOk result (λ _. (n : Bounds) (Ps : List TypeTree) (Os : List Shape) (S : Shape)
        (A B V : TypeTree) → Counts scope.entry Ps Os → IsType scope.entry n types.kept V
        → IsType scope.entry n types.passed (pair_ty A V) → IsType scope.entry n types.answer (pair_ty B V)
        → Adds scope.entry out.old.items out.new.items (loop_function n Ps Os S A B V c j).body) }
{
    push_constant_call(scope, out, types.kept, c)?;
    scope.add(
        out,
        &[
            Sym::Local(1),
            Sym::Literal(Literal::Int64(0)),
            Sym::Binary(Operator::Equals, Scalar::Int64),
            Sym::Local(behind(scope, 0)),
            Sym::Local(0),
            Sym::Dot(0),
            Sym::Choice,
            Sym::Define(types.kept),
            Sym::Local(2),
            Sym::Local(behind(scope, 1)),
            Sym::Braced(2, None),
            Sym::Define(types.passed),
        ],
    )?;
    let part = [Sym::Local(0), Sym::Dot(1)];
    let input = [Sym::Local(behind(scope, 2))];
    push_part_call(scope, out, types.answer, j, &part, &input)?;
    scope.add(
        out,
        &[
            Sym::Local(0),
            Sym::Dot(0),
            Sym::Local(behind(scope, 3)),
            Sym::Dot(1),
            Sym::Assign,
            Sym::Local(behind(scope, 3)),
            Sym::Dot(0),
            Sym::Answer,
            Sym::Block(6),
        ],
    )?;
    Ok(())
}

/// What `(--> c f)` does: function c answers the constant, function j is the part.
pub(crate) fn push_initial_out(
    scope: Scope<'_>,
    out: &mut Vec<Sym>,
    answer: CType,
    c: usize,
    j: usize,
) -> Result<(), Unbuilt>
    ensures { IfOk result (λ _. (n : Bounds) (Ps : List TypeTree) (Os : List Shape) (S : Shape) (A B : TypeTree)
        → Counts scope.entry Ps Os → IsType scope.entry n answer B
        → Adds scope.entry out.old.items out.new.items (out_function n Ps Os S A B c j).body) }
{
    push_constant_call(scope, out, answer, c)?;
    push_part_call(scope, out, answer, j, &[Sym::Local(0)], &[Sym::Local(2)])?;
    scope.add(
        out,
        &[
            Sym::Local(1),
            Sym::Literal(Literal::Int64(0)),
            Sym::Binary(Operator::Equals, Scalar::Int64),
            Sym::Local(behind(scope, 0)),
            Sym::Local(behind(scope, 1)),
            Sym::Choice,
            Sym::Answer,
            Sym::Block(3),
        ],
    )?;
    Ok(())
}

/// What `(>-- c f)` does: function c answers the constant, function j is the part.
pub(crate) fn push_initial_in(
    scope: Scope<'_>,
    out: &mut Vec<Sym>,
    input: CType,
    answer: CType,
    c: usize,
    j: usize,
) -> Result<(), Unbuilt>
    ensures { IfOk result (λ _. (n : Bounds) (Ps : List TypeTree) (Os : List Shape) (S : Shape) (A B : TypeTree)
        → Counts scope.entry Ps Os → IsType scope.entry n input A → IsType scope.entry n answer B
        → Adds scope.entry out.old.items out.new.items (in_function n Ps Os S A B c j).body) }
{
    push_constant_call(scope, out, input, c)?;
    scope.add(
        out,
        &[
            Sym::Local(1),
            Sym::Literal(Literal::Int64(0)),
            Sym::Binary(Operator::Equals, Scalar::Int64),
            Sym::Local(behind(scope, 0)),
            Sym::Local(2),
            Sym::Choice,
            Sym::Define(input),
        ],
    )?;
    let passed = [Sym::Local(behind(scope, 1))];
    push_part_call(scope, out, answer, j, &[Sym::Local(0)], &passed)?;
    scope.add(
        out,
        &[Sym::Local(behind(scope, 2)), Sym::Answer, Sym::Block(4)],
    )?;
    Ok(())
}
