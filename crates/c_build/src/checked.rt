// What the function does that refuses a wrong `dt`.

ghost use Rattle.std.specs.Prelude.{◌≡◌, IfOk};
ghost use Rattle.sample_core.specs.TypeTree.{TypeTree};
ghost use Rattle.leaf_code.specs.Fitting.{Bounds};
ghost use Rattle.c_forms.specs.Checked.{checked_body};
ghost use Rattle.c_build.specs.Scopes.{IsType};
ghost use Rattle.c_build.specs.Making.{Adds};

use crate::scope::Scope;
use crate::sym::Sym;
use crate::unbuilt::Unbuilt;
use c_text::{Base, CType, Literal, Operator, Scalar};

/// What a step does that refuses a wrong `dt`: function j does the step.
pub(crate) fn push_checked(
    scope: Scope<'_>,
    out: &mut Vec<Sym>,
    answer: CType,
    j: usize,
) -> Result<(), Unbuilt>
    ensures { IfOk result (λ _. (n : Bounds) (B : TypeTree) → IsType scope.entry n answer B
        → Adds scope.entry out.old.items out.new.items (checked_body n B j)) }
{
    scope.add(
        out,
        &[
            Sym::Local(0),
            Sym::Dot(0),
            Sym::Local(1),
            Sym::Literal(Literal::Int64(1)),
            Sym::Binary(Operator::Less, Scalar::Int64),
            Sym::Both,
            Sym::Literal(Literal::Bool(false)),
            Sym::Answer,
            Sym::Skip,
            Sym::Branch,
            Sym::Local(0),
            Sym::Dot(0),
            Sym::Local(1),
            Sym::Literal(Literal::Int64(0)),
            Sym::Choice,
            Sym::Define(CType::One(Base::Number(Scalar::Int64))),
            Sym::Local(0),
            Sym::Dot(0),
            Sym::Literal(Literal::Bool(true)),
            Sym::Assign,
        ],
    )?;
    scope.add(
        out,
        &[
            Sym::Open,
            Sym::Local(0),
            Sym::Dot(1),
            Sym::Pointer,
            Sym::Local(4),
            Sym::Value,
            Sym::Local(2),
            Sym::Const,
            Sym::Call(answer, j),
            Sym::Local(3),
            Sym::Local(5),
            Sym::Assign,
            Sym::Literal(Literal::Bool(true)),
            Sym::Answer,
            Sym::Block(6),
        ],
    )?;
    Ok(())
}
