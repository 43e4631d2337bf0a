// What the functions of switches do.

ghost use Rattle.std.specs.Prelude.{◌≡◌, [], ◌∷◌, List, IfOk, true, false};
ghost use Rattle.sample_core.specs.TypeTree.{TypeTree, pair_ty, event_ty};
ghost use Rattle.leaf_code.specs.Fitting.{Bounds};
ghost use Rattle.net_tree.specs.Network.{at_once, delayed};
ghost use Rattle.c_meaning.specs.Syntax.{Term, local, dot, boolean, assign};
ghost use Rattle.c_leaf.specs.LeafC.{part_command, is_struct as struct_of};
ghost use Rattle.c_forms.specs.Keeping.{Shape};
ghost use Rattle.c_forms.specs.Cells.{at_first, number_term};
ghost use Rattle.c_forms.specs.Switches.{taken_of, by_of, leave_if, value_args, value_beside, taker_call, heard_term, switch_function, late_lines, r_switch_lines, r_switch_function};
ghost use Rattle.c_build.specs.Scopes.{Counts, IsType, made};
ghost use Rattle.c_build.specs.Symbols.{and_arguments, and_command, and_term};
ghost use Rattle.c_build.specs.Making.{Makes, Adds};
ghost use Rattle.c_build.specs.Timings.{timing_of};

use crate::lines::{behind, push_part_call};
use crate::scope::Scope;
use crate::sym::Sym;
use crate::unbuilt::Unbuilt;
use c_text::{CType, Literal, Operator, Scalar};

/// Types of a switch: of what its part answers, an answer beside an event, and of the answer.
#[derive(Clone, Copy)]
pub(crate) struct Switched {
    pub(crate) beside: CType,
    pub(crate) answer: CType,
}

/// Types of a switch that starts anew: of its input's left part, whether that is a struct, and of the answer.
#[derive(Clone, Copy)]
pub(crate) struct Restarted {
    pub(crate) left: CType,
    pub(crate) is_struct: bool,
    pub(crate) answer: CType,
}

/// When what takes over is heard.
#[derive(Clone, Copy)]
pub(crate) enum Timing {
    /// At the event's sample: `switch`, `rSwitch`.
    AtOnce,
    /// A sample later: `dSwitch`, `drSwitch`.
    Delayed,
}

/// Passes what is in scope, with the value by which something has taken over.
pub(crate) fn push_value_scope(scope: Scope<'_>, out: &mut Vec<Sym>) -> Result<(), Unbuilt>
    ensures { IfOk result (λ _. (n : Bounds) (Ps : List TypeTree) (Os : List Shape) → Counts scope.entry Ps Os
        → made scope.entry out.new.items ≡ and_arguments (value_args n Ps Os) (made scope.entry out.old.items)) }
{
    scope.push_params(out)?;
    scope.add(out, &[Sym::Local(0), Sym::Dot(1), Sym::Const])?;
    scope.push_olds(out)
}

/// `const T r = t(&s->taker, e, &x, .., &s->by, ..);`: a symbol makes the step e, and x is a local.
fn push_taker_call(
    scope: Scope<'_>,
    out: &mut Vec<Sym>,
    answer: CType,
    k: usize,
    step: Sym,
    x: usize,
) -> Result<(), Unbuilt>
    ensures { IfOk result (λ _. (n : Bounds) (Ps : List TypeTree) (Os : List Shape) (B : TypeTree) (e : Term)
        → Counts scope.entry Ps Os → IsType scope.entry n answer B → Makes scope.entry (step ∷ []) e
        → Adds scope.entry out.old.items out.new.items (taker_call n Ps Os B k e (local x))) }
{
    scope.add(
        out,
        &[
            Sym::Open,
            Sym::Local(0),
            Sym::Dot(3),
            Sym::Pointer,
            step,
            Sym::Value,
            Sym::Local(x),
            Sym::Const,
        ],
    )?;
    push_value_scope(scope, out)?;
    scope.add(out, &[Sym::Call(answer, k)])
}

/// `if (dt == 0) { s->taken = false; }`.
pub(crate) fn push_untaken(scope: Scope<'_>, out: &mut Vec<Sym>) -> Result<(), Unbuilt>
    ensures { IfOk result (λ _. Adds scope.entry out.old.items out.new.items
        (at_first (assign taken_of (boolean false)))) }
{
    scope.add(
        out,
        &[
            Sym::Local(1),
            Sym::Literal(Literal::Int64(0)),
            Sym::Binary(Operator::Equals, Scalar::Int64),
            Sym::Local(0),
            Sym::Dot(0),
            Sym::Literal(Literal::Bool(false)),
            Sym::Assign,
            Sym::Skip,
            Sym::Branch,
        ],
    )
}

/// `if (s->taken) { const T r = t(..); return r; }`: function k is called on local x, and r is local
/// `answered`.
fn push_taken(
    scope: Scope<'_>,
    out: &mut Vec<Sym>,
    answer: CType,
    k: usize,
    x: usize,
    answered: usize,
) -> Result<(), Unbuilt>
    ensures { IfOk result (λ _. (n : Bounds) (Ps : List TypeTree) (Os : List Shape) (B : TypeTree)
        → Counts scope.entry Ps Os → IsType scope.entry n answer B
        → Adds scope.entry out.old.items out.new.items
        (leave_if taken_of (taker_call n Ps Os B k (local 1) (local x)) (local answered))) }
{
    push_taker_call(scope, out, answer, k, Sym::Local(1), x)?;
    scope.add(
        out,
        &[
            Sym::Local(answered),
            Sym::Answer,
            Sym::Block(2),
            Sym::Skip,
            Sym::Local(0),
            Sym::Dot(0),
            Sym::Branch,
        ],
    )
}

/// The value of the event beside a local takes over, and function k starts on local x.
fn push_start(
    scope: Scope<'_>,
    out: &mut Vec<Sym>,
    answer: CType,
    k: usize,
    beside: usize,
    x: usize,
) -> Result<(), Unbuilt>
    ensures { IfOk result (λ _. (n : Bounds) (Ps : List TypeTree) (Os : List Shape) (B : TypeTree)
        → Counts scope.entry Ps Os → IsType scope.entry n answer B
        → made scope.entry out.new.items
        ≡ and_command (taker_call n Ps Os B k (number_term 0) (local x))
        (and_command (assign by_of (value_beside n Ps Os (local beside)))
        (and_command (assign taken_of (boolean true)) (made scope.entry out.old.items)))) }
{
    scope.add(
        out,
        &[
            Sym::Local(0),
            Sym::Dot(0),
            Sym::Literal(Literal::Bool(true)),
            Sym::Assign,
            Sym::Local(0),
            Sym::Dot(1),
            Sym::Local(beside),
            Sym::Dot(1),
            Sym::Dot(1),
            Sym::Assign,
        ],
    )?;
    push_taker_call(scope, out, answer, k, Sym::Literal(Literal::Int64(0)), x)
}

/// What is heard of a switch at the event's sample.
fn push_heard(scope: Scope<'_>, out: &mut Vec<Sym>, timing: Timing) -> Result<(), Unbuilt>
    ensures { IfOk result (λ _. (n : Bounds) (Ps : List TypeTree) (Os : List Shape) → Counts scope.entry Ps Os
        → made scope.entry out.new.items
        ≡ and_term (heard_term n Ps Os (timing_of timing)) (made scope.entry out.old.items)) }
{
    match timing {
        Timing::AtOnce => scope.add(out, &[Sym::Local(behind(scope, 1))]),
        Timing::Delayed => scope.add(out, &[Sym::Local(behind(scope, 0)), Sym::Dot(0)]),
    }
}

/// What `switch` and `dSwitch` do: function j runs, until by its event function k takes over.
pub(crate) fn push_switch(
    scope: Scope<'_>,
    out: &mut Vec<Sym>,
    timing: Timing,
    types: Switched,
    j: usize,
    k: usize,
) -> Result<(), Unbuilt>
    ensures { IfOk result (λ _. (n : Bounds) (Ps : List TypeTree) (Os : List Shape) (S T : Shape)
        (A B V : TypeTree) → Counts scope.entry Ps Os
        → IsType scope.entry n types.beside (pair_ty B (event_ty V)) → IsType scope.entry n types.answer B
        → Adds scope.entry out.old.items out.new.items
        (switch_function n Ps Os (timing_of timing) S T A B V j k).body) }
{
    let first = behind(scope, 0);
    let front = [Sym::Local(0), Sym::Dot(2)];
    let leave = [
        Sym::Local(first),
        Sym::Dot(1),
        Sym::Dot(0),
        Sym::Skip,
        Sym::Local(first),
        Sym::Dot(0),
        Sym::Answer,
        Sym::Branch,
    ];
    push_untaken(scope, out)?;
    push_taken(scope, out, types.answer, k, 2, first)?;
    push_part_call(scope, out, types.beside, j, &front, &[Sym::Local(2)])?;
    scope.add(out, &leave)?;
    push_start(scope, out, types.answer, k, first, 2)?;
    push_heard(scope, out, timing)?;
    scope.add(out, &[Sym::Answer, Sym::Block(8)])
}

/// At an event function k starts anew, but register 1 is the answer.
fn push_late(scope: Scope<'_>, out: &mut Vec<Sym>, answer: CType, k: usize) -> Result<(), Unbuilt>
    ensures { IfOk result (λ _. (n : Bounds) (Ps : List TypeTree) (Os : List Shape) (B : TypeTree)
        → Counts scope.entry Ps Os → IsType scope.entry n answer B
        → Adds scope.entry out.old.items out.new.items (late_lines n Ps Os B k)) }
{
    push_start(scope, out, answer, k, 2, behind(scope, 0))?;
    scope.add(
        out,
        &[
            Sym::Skip,
            Sym::Block(4),
            Sym::Skip,
            Sym::Local(2),
            Sym::Dot(1),
            Sym::Dot(0),
            Sym::Branch,
            Sym::Local(behind(scope, 1)),
            Sym::Answer,
            Sym::Block(2),
        ],
    )
}

/// The input's left part, as register 0.
fn push_left(
    scope: Scope<'_>,
    out: &mut Vec<Sym>,
    left: CType,
    is_struct: bool,
) -> Result<(), Unbuilt>
    ensures { IfOk result (λ _. (n : Bounds) (A : TypeTree) → IsType scope.entry n left A → is_struct ≡ struct_of A
        → Adds scope.entry out.old.items out.new.items (part_command n A (dot (local 2) 0))) }
{
    if is_struct {
        scope.add(out, &[Sym::Local(2), Sym::Dot(0), Sym::Refer(left)])
    } else {
        scope.add(out, &[Sym::Local(2), Sym::Dot(0), Sym::Define(left)])
    }
}

/// What `rSwitch` does with its input's left part, register 0: at an event function k starts anew, and is heard.
fn push_anew(
    scope: Scope<'_>,
    out: &mut Vec<Sym>,
    answer: CType,
    j: usize,
    k: usize,
) -> Result<(), Unbuilt>
    ensures { IfOk result (λ _. (n : Bounds) (Ps : List TypeTree) (Os : List Shape) (B : TypeTree)
        → Counts scope.entry Ps Os → IsType scope.entry n answer B
        → Adds scope.entry out.old.items out.new.items (r_switch_lines n Ps Os at_once B j k)) }
{
    let input = behind(scope, 0);
    let answered = behind(scope, 1);
    let front = [Sym::Local(0), Sym::Dot(2)];
    let end = [
        Sym::Local(answered),
        Sym::Answer,
        Sym::Block(4),
        Sym::Skip,
        Sym::Local(2),
        Sym::Dot(1),
        Sym::Dot(0),
        Sym::Branch,
    ];
    push_start(scope, out, answer, k, 2, input)?;
    scope.add(out, &end)?;
    push_taken(scope, out, answer, k, input, answered)?;
    push_part_call(scope, out, answer, j, &front, &[Sym::Local(input)])?;
    scope.add(out, &[Sym::Local(answered), Sym::Answer, Sym::Block(4)])
}

/// What `drSwitch` does with it: the same, but what ran before is heard at the event's sample.
fn push_anew_later(
    scope: Scope<'_>,
    out: &mut Vec<Sym>,
    answer: CType,
    j: usize,
    k: usize,
) -> Result<(), Unbuilt>
    ensures { IfOk result (λ _. (n : Bounds) (Ps : List TypeTree) (Os : List Shape) (B : TypeTree)
        → Counts scope.entry Ps Os → IsType scope.entry n answer B
        → Adds scope.entry out.old.items out.new.items (r_switch_lines n Ps Os delayed B j k)) }
{
    let input = behind(scope, 0);
    let front = [Sym::Local(0), Sym::Dot(2)];
    let end = [
        Sym::Block(2),
        Sym::Skip,
        Sym::Local(0),
        Sym::Dot(0),
        Sym::Branch,
    ];
    push_taker_call(scope, out, answer, k, Sym::Local(1), input)?;
    push_late(scope, out, answer, k)?;
    scope.add(out, &end)?;
    push_part_call(scope, out, answer, j, &front, &[Sym::Local(input)])?;
    push_late(scope, out, answer, k)?;
    scope.add(out, &[Sym::Block(3)])
}

/// One of both, by the timing.
fn push_anew_at(
    scope: Scope<'_>,
    out: &mut Vec<Sym>,
    timing: Timing,
    answer: CType,
    j: usize,
    k: usize,
) -> Result<(), Unbuilt>
    ensures { IfOk result (λ _. (n : Bounds) (Ps : List TypeTree) (Os : List Shape) (B : TypeTree)
        → Counts scope.entry Ps Os → IsType scope.entry n answer B
        → Adds scope.entry out.old.items out.new.items (r_switch_lines n Ps Os (timing_of timing) B j k)) }
{
    match timing {
        Timing::AtOnce => push_anew(scope, out, answer, j, k),
        Timing::Delayed => push_anew_later(scope, out, answer, j, k),
    }
}

/// What `rSwitch` and `drSwitch` do: function j runs on the left part, or function k by the value that has
/// taken over.
pub(crate) fn push_r_switch(
    scope: Scope<'_>,
    out: &mut Vec<Sym>,
    timing: Timing,
    types: Restarted,
    j: usize,
    k: usize,
) -> Result<(), Unbuilt>
    ensures { IfOk result (λ _. (n : Bounds) (Ps : List TypeTree) (Os : List Shape) (S T : Shape)
        (A B V : TypeTree) → Counts scope.entry Ps Os → IsType scope.entry n types.left A
        → types.is_struct ≡ struct_of A → IsType scope.entry n types.answer B
        → Adds scope.entry out.old.items out.new.items
        (r_switch_function n Ps Os (timing_of timing) S T A B V j k).body) }
{
    push_untaken(scope, out)?;
    push_left(scope, out, types.left, types.is_struct)?;
    push_anew_at(scope, out, timing, types.answer, j, k)?;
    scope.add(out, &[Sym::Block(3)])
}
