// What `init` and the unchecked step do.

ghost use Rattle.std.specs.Prelude.{◌≡◌, IfOk};
ghost use Rattle.leaf_code.specs.Fitting.{Bounds};
ghost use Rattle.c_text.specs.Meant.{type_meant};
ghost use Rattle.c_forms.specs.Keeping.{Shape};
ghost use Rattle.c_file.specs.FunctionC.{Callee};
ghost use Rattle.c_file.specs.ProgramC.{init_function, state_type, step_function};
ghost use Rattle.c_build.specs.Scopes.{table};
ghost use Rattle.c_build.specs.Frames.{IsCallee};
ghost use Rattle.c_build.specs.Making.{Adds};

use crate::frame::Called;
use crate::scope::Scope;
use crate::sym::Sym;
use crate::table::INTEGER;
use crate::unbuilt::Unbuilt;
use c_text::{CType, Literal};

/// What `init` does, whose state is of this type.
pub(crate) fn push_init(scope: Scope<'_>, out: &mut Vec<Sym>, state: CType) -> Result<(), Unbuilt>
    ensures { IfOk result (λ _. (n : Bounds) (S : Shape)
        → type_meant (table scope.entry) state ≡ state_type n S
        → Adds scope.entry out.old.items out.new.items (init_function n S).body) }
{
    scope.add(
        out,
        &[
            Sym::Local(0),
            Sym::Zeroed(state),
            Sym::Assign,
            Sym::Braced(0, None),
            Sym::Answer,
            Sym::Block(2),
        ],
    )?;
    Ok(())
}

/// What the unchecked step does, which calls a function of the code.
pub(crate) fn push_plain(
    scope: Scope<'_>,
    out: &mut Vec<Sym>,
    called: Called,
) -> Result<(), Unbuilt>
    ensures { IfOk result (λ _. (n : Bounds) (c : Callee) → IsCallee (table scope.entry) n c called
        → Adds scope.entry out.old.items out.new.items (step_function n c).body) }
{
    scope.add(
        out,
        &[
            Sym::Local(0),
            Sym::Dot(0),
            Sym::Local(1),
            Sym::Literal(Literal::Int64(0)),
            Sym::Choice,
            Sym::Define(INTEGER),
            Sym::Local(0),
            Sym::Dot(0),
            Sym::Literal(Literal::Bool(true)),
            Sym::Assign,
        ],
    )?;
    scope.add(
        out,
        &[
            Sym::Open,
            Sym::Local(0),
            Sym::Dot(1),
            Sym::Pointer,
            Sym::Local(4),
            Sym::Value,
            Sym::Local(2),
            Sym::Const,
            Sym::Call(called.output, called.number),
            Sym::Local(3),
            Sym::Local(5),
            Sym::Assign,
            Sym::Braced(0, None),
            Sym::Answer,
            Sym::Block(5),
        ],
    )?;
    Ok(())
}
