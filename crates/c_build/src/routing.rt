// What the functions of a `pSwitch`'s members do.

ghost use Rattle.std.specs.Prelude.{◌≡◌, ℕ, List, IfOk};
ghost use Rattle.sample_core.specs.TypeTree.{TypeTree, int_ty, pair_ty};
ghost use Rattle.leaf_code.specs.Fitting.{Bounds};
ghost use Rattle.c_forms.specs.Keeping.{Shape};
ghost use Rattle.c_forms.specs.Routing.{routed_function};
ghost use Rattle.c_build.specs.Scopes.{Counts, IsType};
ghost use Rattle.c_build.specs.Making.{Adds};

use crate::lines::{behind, number, push_leaf_call, push_part_call};
use crate::scope::Scope;
use crate::sym::Sym;
use crate::unbuilt::Unbuilt;
use c_text::CType;

/// Types of a member behind a route: of what the route gets, of what it gives, and of the answer.
#[derive(Clone, Copy)]
pub(crate) struct Routed {
    pub(crate) numbered: CType,
    pub(crate) given: CType,
    pub(crate) answer: CType,
}

/// What member i does, function j, behind a route, function r. `Missing` if i is too large.
pub(crate) fn push_routed(
    scope: Scope<'_>,
    out: &mut Vec<Sym>,
    types: Routed,
    i: usize,
    r: usize,
    j: usize,
) -> Result<(), Unbuilt>
    ensures { IfOk result (λ _. (n : Bounds) (Ps : List TypeTree) (Os : List Shape) (S : Shape) (A D B : TypeTree)
        → Counts scope.entry Ps Os → IsType scope.entry n types.numbered (pair_ty A int_ty)
        → IsType scope.entry n types.given D → IsType scope.entry n types.answer B
        → Adds scope.entry out.old.items out.new.items (routed_function n Ps Os S A D B i r j).body) }
{
    let place = number(i as u64)?;
    scope.add(
        out,
        &[
            Sym::Local(2),
            Sym::Literal(place),
            Sym::Braced(2, None),
            Sym::Define(types.numbered),
        ],
    )?;
    let numbered = [Sym::Local(behind(scope, 0))];
    push_leaf_call(scope, out, types.given, r, &numbered)?;
    let given = [Sym::Local(behind(scope, 1))];
    push_part_call(scope, out, types.answer, j, &[Sym::Local(0)], &given)?;
    scope.add(
        out,
        &[Sym::Local(behind(scope, 2)), Sym::Answer, Sym::Block(4)],
    )?;
    Ok(())
}
