// Lines that several forms have: calls, and numbers that wrap.

ghost use Rattle.std.specs.Prelude.{◌≡◌, ◌+◌, ◌*◌, ◌<◌, ◌^◌, ℕ, List, IfOk, length};
ghost use Rattle.sample_core.specs.TypeTree.{TypeTree};
ghost use Rattle.leaf_code.specs.Fitting.{Bounds};
ghost use Rattle.c_meaning.specs.Syntax.{Term};
ghost use Rattle.c_meaning.specs.Wrapping.{modular};
ghost use Rattle.c_text.specs.Meant.{operator_meant, literal_meant};
ghost use Rattle.c_forms.specs.Keeping.{Shape};
ghost use Rattle.c_forms.specs.Standing.{part_call, leaf_call, constant_call};
ghost use Rattle.c_forms.specs.Cells.{number_term};
ghost use Rattle.c_build.specs.Scopes.{Counts, IsType};
ghost use Rattle.c_build.specs.Making.{Makes, AddsTerm, Adds, Joins};

use crate::scope::Scope;
use crate::sym::Sym;
use crate::unbuilt::Unbuilt;
use c_text::{CType, Literal, Operator, Scalar};

/// The number of register k: the local behind what is passed, and k others.
pub(crate) fn behind(scope: Scope<'_>, k: usize) -> usize
    requires { k < 2 ^ 32 }
    ensures { result ≡ 3 + (length scope.entry.params.now + 2 * length scope.entry.olds.now) + k }
{
    scope.first + k
}

/// `(int64_t)q`. `Missing` if it is too large.
pub(crate) fn number(q: u64) -> Result<Literal, Unbuilt>
    ensures { IfOk result (λ l. literal_meant l ≡ number_term q) }
{
    match i64::try_from(q) {
        Ok(q) => Ok(Literal::Int64(q)),
        Err(_) => Err(Unbuilt::Missing),
    }
}

/// `const T r = f(&part, dt, &x, ..);`: symbols make the part, and x.
pub(crate) fn push_part_call(
    scope: Scope<'_>,
    out: &mut Vec<Sym>,
    answer: CType,
    j: usize,
    part: &[Sym],
    x: &[Sym],
) -> Result<(), Unbuilt>
    ensures { IfOk result (λ _. (n : Bounds) (Ps : List TypeTree) (Os : List Shape) (T : TypeTree) (p e : Term)
        → Counts scope.entry Ps Os → IsType scope.entry n answer T
        → Makes scope.entry part.now p → Makes scope.entry x.now e
        → Adds scope.entry out.old.items out.new.items (part_call n Ps Os T j p e)) }
{
    scope.add(out, &[Sym::Open])?;
    scope.add(out, part)?;
    scope.add(out, &[Sym::Pointer, Sym::Local(1), Sym::Value])?;
    scope.add(out, x)?;
    scope.add(out, &[Sym::Const])?;
    scope.push_scope(out)?;
    scope.add(out, &[Sym::Call(answer, j)])?;
    Ok(())
}

/// `const T r = leaf(.., &x);`: symbols make x.
pub(crate) fn push_leaf_call(
    scope: Scope<'_>,
    out: &mut Vec<Sym>,
    answer: CType,
    j: usize,
    x: &[Sym],
) -> Result<(), Unbuilt>
    ensures { IfOk result (λ _. (n : Bounds) (Ps : List TypeTree) (Os : List Shape) (T : TypeTree) (e : Term)
        → Counts scope.entry Ps Os → IsType scope.entry n answer T → Makes scope.entry x.now e
        → Adds scope.entry out.old.items out.new.items (leaf_call n Ps Os T j e)) }
{
    scope.add(out, &[Sym::Open])?;
    scope.push_params(out)?;
    scope.add(out, x)?;
    scope.add(out, &[Sym::Const, Sym::Call(answer, j)])?;
    Ok(())
}

/// `const T r = constant(..);`.
pub(crate) fn push_constant_call(
    scope: Scope<'_>,
    out: &mut Vec<Sym>,
    answer: CType,
    j: usize,
) -> Result<(), Unbuilt>
    ensures { IfOk result (λ _. (n : Bounds) (Ps : List TypeTree) (Os : List Shape) (T : TypeTree)
        → Counts scope.entry Ps Os → IsType scope.entry n answer T
        → Adds scope.entry out.old.items out.new.items (constant_call n Ps Os T j)) }
{
    scope.add(out, &[Sym::Open])?;
    scope.push_params(out)?;
    scope.add(out, &[Sym::Call(answer, j)])?;
    Ok(())
}

/// Adds symbols.
fn push_all(out: &mut Vec<Sym>, syms: &[Sym]) -> Result<(), Unbuilt>
    ensures { IfOk result (λ _. Joins out.old.items syms.now out.new.items) }
{
    out.extend_from_slice(syms)?;
    Ok(())
}

/// `a o b` of two `int64_t`, which wraps: symbols make a and b.
pub(crate) fn push_modular(
    scope: Scope<'_>,
    out: &mut Vec<Sym>,
    o: Operator,
    a: &[Sym],
    b: &[Sym],
) -> Result<(), Unbuilt>
    ensures { IfOk result (λ _. (d e : Term) → Makes scope.entry a.now d → Makes scope.entry b.now e
        → AddsTerm scope.entry out.old.items out.new.items (modular (operator_meant o) d e)) }
{
    push_all(out, a)?;
    push_all(out, &[Sym::Cast(Scalar::Uint64)])?;
    push_all(out, b)?;
    push_all(
        out,
        &[
            Sym::Cast(Scalar::Uint64),
            Sym::Binary(o, Scalar::Uint64),
            Sym::Signed,
        ],
    )?;
    Ok(())
}
