// What the function of `parB` does.

ghost use Rattle.std.specs.Prelude.{◌≡◌, ℕ, List, IfOk, length, pos, ◌-◌};
ghost use Rattle.sample_core.specs.TypeTree.{TypeTree, list_ty};
ghost use Rattle.leaf_code.specs.Fitting.{Bounds};
ghost use Rattle.c_meaning.specs.Object.{u32};
ghost use Rattle.c_meaning.specs.Syntax.{literal, define, answer};
ghost use Rattle.c_leaf.specs.Representing.{c_type};
ghost use Rattle.c_leaf.specs.LeafC.{pair_of};
ghost use Rattle.c_forms.specs.Keeping.{Shape};
ghost use Rattle.c_forms.specs.Standing.{behind};
ghost use Rattle.c_forms.specs.Members.{answers_term, par_function};
ghost use Rattle.c_build.specs.Symbols.{and_term, and_command};
ghost use Rattle.c_build.specs.Scopes.{Counts, IsType, made};
ghost use Rattle.c_build.specs.Making.{Adds, and_commands, and_terms, calls_from, registers_from};

use crate::lines::{behind, push_part_call};
use crate::scope::Scope;
use crate::sym::Sym;
use crate::unbuilt::Unbuilt;
use c_text::{Base, CType, Literal};

/// What `(parB ..)` does, whose answer is a list with room for so many elements of a type: functions js are
/// the members. `Missing` if there are too many.
pub(crate) fn push_par(
    scope: Scope<'_>,
    out: &mut Vec<Sym>,
    element: Base,
    list: CType,
    room: usize,
    js: &[usize],
) -> Result<(), Unbuilt>
    ensures { IfOk result (λ _. (n : Bounds) (Ps : List TypeTree) (Os : List Shape) (Ss : List Shape)
        (A B : TypeTree) → Counts scope.entry Ps Os → IsType scope.entry n (CType.One element) B
        → IsType scope.entry n list (list_ty B) → room ≡ n B
        → Adds scope.entry out.old.items out.new.items (par_function n Ps Os Ss A B js.now).body) }
{
    push_members(scope, out, CType::One(element), js)?;
    push_list(scope, out, element, list, room, js.len())?;
    scope.add(out, &[Sym::Block(js.len() + 2)])?;
    Ok(())
}

/// The members' calls.
fn push_members(
    scope: Scope<'_>,
    out: &mut Vec<Sym>,
    element: CType,
    js: &[usize],
) -> Result<(), Unbuilt>
    ensures { IfOk result (λ _. (n : Bounds) (Ps : List TypeTree) (Os : List Shape) (B : TypeTree)
        → Counts scope.entry Ps Os → IsType scope.entry n element B
        → made scope.entry out.new.items
        ≡ and_commands (calls_from n Ps Os B 0 js.now) (made scope.entry out.old.items)) }
{
    for i in 0..js.len() {
        let part = [Sym::Local(0), Sym::Dot(i)];
        push_part_call(scope, out, element, js[i], &part, &[Sym::Local(2)])?;
    }
    Ok(())
}

/// The list of so many registers, which is answered. `Missing` if there are more than the room.
fn push_list(
    scope: Scope<'_>,
    out: &mut Vec<Sym>,
    element: Base,
    list: CType,
    room: usize,
    count: usize,
) -> Result<(), Unbuilt>
    ensures { IfOk result (λ _. (n : Bounds) (Ps : List TypeTree) (Os : List Shape) (B : TypeTree)
        → Counts scope.entry Ps Os → IsType scope.entry n (CType.One element) B
        → IsType scope.entry n list (list_ty B) → room ≡ n B
        → made scope.entry out.new.items
        ≡ and_command (answer (behind n Ps Os count))
        (and_command
        (define (c_type n (list_ty B))
        (pair_of (literal u32 (pos count)) (answers_term n Ps Os B 0 count (n B - count))))
        (made scope.entry out.old.items))) }
{
    let Ok(size) = u32::try_from(count) else {
        return Err(Unbuilt::Missing);
    };
    let Some(left) = room.checked_sub(count) else {
        return Err(Unbuilt::Missing);
    };
    scope.add(out, &[Sym::Literal(Literal::Uint32(size))])?;
    push_answers(scope, out, element, size, left)?;
    scope.add(
        out,
        &[
            Sym::Braced(2, None),
            Sym::Define(list),
            Sym::Local(behind(scope, count)),
            Sym::Answer,
        ],
    )?;
    Ok(())
}

/// So many registers, and so many zeros of a type behind them, in braces.
fn push_answers(
    scope: Scope<'_>,
    out: &mut Vec<Sym>,
    element: Base,
    count: u32,
    left: usize,
) -> Result<(), Unbuilt>
    ensures { IfOk result (λ _. (n : Bounds) (Ps : List TypeTree) (Os : List Shape) (B : TypeTree)
        → Counts scope.entry Ps Os → IsType scope.entry n (CType.One element) B
        → made scope.entry out.new.items
        ≡ and_term (answers_term n Ps Os B 0 count left) (made scope.entry out.old.items)) }
{
    push_registers(scope, out, count)?;
    scope.add(
        out,
        &[Sym::Braced(count as usize, Some(CType::Array(left, element)))],
    )?;
    Ok(())
}

/// So many registers.
fn push_registers(scope: Scope<'_>, out: &mut Vec<Sym>, count: u32) -> Result<(), Unbuilt>
    ensures { IfOk result (λ _. (n : Bounds) (Ps : List TypeTree) (Os : List Shape) → Counts scope.entry Ps Os
        → made scope.entry out.new.items
        ≡ and_terms (registers_from n Ps Os 0 count) (made scope.entry out.old.items)) }
{
    for i in 0..count {
        scope.add(out, &[Sym::Local(behind(scope, i as usize))])?;
    }
    Ok(())
}
