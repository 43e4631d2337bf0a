// What the functions of switches that freeze, and of frozen networks, do.

ghost use Rattle.std.specs.Prelude.{◌≡◌, [], ◌∷◌, ◌++◌, List, IfOk, length, true, false};
ghost use Rattle.sample_core.specs.TypeTree.{TypeTree, pair_ty, event_ty};
ghost use Rattle.leaf_code.specs.Fitting.{Bounds};
ghost use Rattle.c_meaning.specs.Syntax.{Term, assign, boolean, dot, local};
ghost use Rattle.c_forms.specs.Keeping.{Shape};
ghost use Rattle.c_forms.specs.Cells.{at_first, number_term};
ghost use Rattle.c_forms.specs.Switches.{by_of, leave_if, leave_unless, taken_of};
ghost use Rattle.c_forms.specs.Freezing.{freezing_function, frozen_members, old_function, register, resumer_call};
ghost use Rattle.c_build.specs.Symbols.{and_arguments, and_command};
ghost use Rattle.c_build.specs.Scopes.{Counts, IsType, made};
ghost use Rattle.c_build.specs.Making.{Adds, Makes};
ghost use Rattle.c_build.specs.Frozen.{frozen_as};

use crate::lines::{behind, push_part_call};
use crate::scope::Scope;
use crate::switches::{push_untaken, push_value_scope};
use crate::sym::Sym;
use crate::table::INTEGER;
use crate::unbuilt::Unbuilt;
use c_text::{CType, Literal, Operator, Scalar};

/// A switch that freezes: the types of C of its answer, of pairs of its input and answer, and of the
/// watcher's events; the functions of what is watched, of the watcher, and of what takes over; and how many
/// members are frozen, unless it is one network.
#[derive(Clone, Copy)]
pub(crate) struct Freezing {
    pub(crate) answer: CType,
    pub(crate) both: CType,
    pub(crate) event: CType,
    pub(crate) front: usize,
    pub(crate) watcher: usize,
    pub(crate) taker: usize,
    pub(crate) members: Option<usize>,
}

/// Passes so many frozen members, each with the moment.
fn push_frozen_members(scope: Scope<'_>, out: &mut Vec<Sym>, count: usize) -> Result<(), Unbuilt>
    ensures { IfOk result (λ _. made scope.entry out.new.items
        ≡ and_arguments (frozen_members 0 count) (made scope.entry out.old.items)) }
{
    for i in 0..count {
        scope.add(
            out,
            &[
                Sym::Local(0),
                Sym::Dot(3),
                Sym::Dot(1),
                Sym::Dot(i),
                Sym::Const,
                Sym::Local(0),
                Sym::Dot(3),
                Sym::Dot(0),
                Sym::Value,
            ],
        )?;
    }
    Ok(())
}

/// Passes what is frozen, with the moment: one network, or so many members.
fn push_frozen(scope: Scope<'_>, out: &mut Vec<Sym>, members: Option<usize>) -> Result<(), Unbuilt>
    ensures { IfOk result (λ _. made scope.entry out.new.items
        ≡ and_arguments (frozen_as members) (made scope.entry out.old.items)) }
{
    match members {
        Some(count) => push_frozen_members(scope, out, count),
        None => scope.add(
            out,
            &[
                Sym::Local(0),
                Sym::Dot(3),
                Sym::Dot(1),
                Sym::Const,
                Sym::Local(0),
                Sym::Dot(3),
                Sym::Dot(0),
                Sym::Value,
            ],
        ),
    }
}

/// The call of what has taken over, with what is frozen: a symbol makes the step.
fn push_resumer_call(
    scope: Scope<'_>,
    out: &mut Vec<Sym>,
    answer: CType,
    k: usize,
    members: Option<usize>,
    step: Sym,
) -> Result<(), Unbuilt>
    ensures { IfOk result (λ _. (n : Bounds) (Ps : List TypeTree) (Os : List Shape) (B : TypeTree) (e : Term)
        → Counts scope.entry Ps Os → IsType scope.entry n answer B → Makes scope.entry (step ∷ []) e
        → Adds scope.entry out.old.items out.new.items (resumer_call n Ps Os (frozen_as members) B k e)) }
{
    scope.add(
        out,
        &[
            Sym::Open,
            Sym::Local(0),
            Sym::Dot(3),
            Sym::Dot(2),
            Sym::Pointer,
            step,
            Sym::Value,
            Sym::Local(2),
            Sym::Const,
        ],
    )?;
    push_value_scope(scope, out)?;
    push_frozen(scope, out, members)?;
    scope.add(out, &[Sym::Call(answer, k)])
}

/// What has taken over runs, where something has.
fn push_gone(scope: Scope<'_>, out: &mut Vec<Sym>, switch: Freezing) -> Result<(), Unbuilt>
    ensures { IfOk result (λ _. (n : Bounds) (Ps : List TypeTree) (Os : List Shape) (B : TypeTree)
        → Counts scope.entry Ps Os → IsType scope.entry n switch.answer B
        → made scope.entry out.new.items
        ≡ and_command (leave_if taken_of
        (resumer_call n Ps Os (frozen_as switch.members) B switch.taker (local 1)) (register n Ps Os 0))
        (and_command (at_first (assign taken_of (boolean false))) (made scope.entry out.old.items))) }
{
    let (answer, taker) = (switch.answer, switch.taker);
    push_untaken(scope, out)?;
    push_resumer_call(scope, out, answer, taker, switch.members, Sym::Local(1))?;
    scope.add(
        out,
        &[
            Sym::Local(behind(scope, 0)),
            Sym::Answer,
            Sym::Block(2),
            Sym::Skip,
            Sym::Local(0),
            Sym::Dot(0),
            Sym::Branch,
        ],
    )
}

/// What a switch that freezes does.
pub(crate) fn push_freezing(
    scope: Scope<'_>,
    out: &mut Vec<Sym>,
    switch: Freezing,
) -> Result<(), Unbuilt>
    ensures { IfOk result (λ _. (n : Bounds) (Ps : List TypeTree) (Os : List Shape) (S W T : Shape)
        (A B V : TypeTree) → Counts scope.entry Ps Os → IsType scope.entry n switch.answer B
        → IsType scope.entry n switch.both (pair_ty A B) → IsType scope.entry n switch.event (event_ty V)
        → Adds scope.entry out.old.items out.new.items
        (freezing_function n Ps Os (frozen_as switch.members) S W T A B V switch.front switch.watcher
        switch.taker).body) }
{
    let first = behind(scope, 0);
    let second = behind(scope, 1);
    let watched = [Sym::Local(0), Sym::Dot(2), Sym::Dot(0)];
    let watcher = [Sym::Local(0), Sym::Dot(2), Sym::Dot(1)];
    push_gone(scope, out, switch)?;
    scope.add(
        out,
        &[
            Sym::Local(0),
            Sym::Dot(3),
            Sym::Dot(0),
            Sym::Local(1),
            Sym::Assign,
            Sym::Local(0),
            Sym::Dot(3),
            Sym::Dot(1),
            Sym::Local(0),
            Sym::Dot(2),
            Sym::Dot(0),
            Sym::Assign,
        ],
    )?;
    push_part_call(
        scope,
        out,
        switch.answer,
        switch.front,
        &watched,
        &[Sym::Local(2)],
    )?;
    scope.add(
        out,
        &[
            Sym::Local(2),
            Sym::Local(first),
            Sym::Braced(2, None),
            Sym::Define(switch.both),
        ],
    )?;
    push_part_call(
        scope,
        out,
        switch.event,
        switch.watcher,
        &watcher,
        &[Sym::Local(second)],
    )?;
    push_over(scope, out, switch)?;
    let fourth = behind(scope, 3);
    scope.add(out, &[Sym::Local(fourth), Sym::Answer, Sym::Block(12)])
}

/// What takes over starts at the watcher's event.
fn push_over(scope: Scope<'_>, out: &mut Vec<Sym>, switch: Freezing) -> Result<(), Unbuilt>
    ensures { IfOk result (λ _. (n : Bounds) (Ps : List TypeTree) (Os : List Shape) (B : TypeTree)
        → Counts scope.entry Ps Os → IsType scope.entry n switch.answer B
        → made scope.entry out.new.items
        ≡ and_command (resumer_call n Ps Os (frozen_as switch.members) B switch.taker (number_term 0))
        (and_command (assign by_of (dot (register n Ps Os 2) 1))
        (and_command (assign taken_of (boolean true))
        (and_command (leave_unless (dot (register n Ps Os 2) 0) (register n Ps Os 0))
        (made scope.entry out.old.items))))) }
{
    let first = behind(scope, 0);
    let third = behind(scope, 2);
    let zero = Sym::Literal(Literal::Int64(0));
    let (answer, taker) = (switch.answer, switch.taker);
    scope.add(
        out,
        &[
            Sym::Local(third),
            Sym::Dot(0),
            Sym::Skip,
            Sym::Local(first),
            Sym::Answer,
            Sym::Branch,
            Sym::Local(0),
            Sym::Dot(0),
            Sym::Literal(Literal::Bool(true)),
            Sym::Assign,
            Sym::Local(0),
            Sym::Dot(1),
            Sym::Local(third),
            Sym::Dot(1),
            Sym::Assign,
        ],
    )?;
    push_resumer_call(scope, out, answer, taker, switch.members, zero)
}

/// A frozen network that goes on: its number, its function, and how many parameters and frozen networks that
/// has in scope.
#[derive(Clone, Copy)]
pub(crate) struct Resumed {
    pub(crate) old: usize,
    pub(crate) function: usize,
    pub(crate) params: usize,
    pub(crate) olds: usize,
}

/// What a frozen network does.
pub(crate) fn push_old(
    scope: Scope<'_>,
    out: &mut Vec<Sym>,
    answer: CType,
    from: Resumed,
) -> Result<(), Unbuilt>
    ensures { IfOk result (λ _. (n : Bounds) (Qs Qs' : List TypeTree) (Rs Rs' : List Shape) (S : Shape)
        (A B : TypeTree) → Counts scope.entry (Qs ++ Qs') (Rs ++ Rs') → IsType scope.entry n answer B
        → length Qs ≡ from.params → length Rs ≡ from.olds
        → Adds scope.entry out.old.items out.new.items
        (old_function n Qs Qs' Rs Rs' S A B from.old from.function).body) }
{
    const MOST: usize = 1_000_000_000;
    if from.old > MOST {
        return Err(Unbuilt::Missing);
    }
    let behind_params = 3 + scope.params.len();
    let network = behind_params + 2 * from.old;
    let moment = behind_params + (2 * from.old + 1);
    let dt = behind(scope, 0);
    let given = behind(scope, 1);
    let zero = Sym::Literal(Literal::Int64(0));
    let equals = Sym::Binary(Operator::Equals, Scalar::Int64);
    let begin = [
        Sym::Local(1),
        zero,
        equals,
        Sym::Local(moment),
        Sym::Local(1),
        Sym::Choice,
        Sym::Define(INTEGER),
        Sym::Local(1),
        zero,
        equals,
        Sym::Local(0),
        Sym::Local(network),
        Sym::Assign,
        Sym::Skip,
        Sym::Branch,
        Sym::Open,
        Sym::Local(0),
        Sym::Pointer,
        Sym::Local(dt),
        Sym::Value,
        Sym::Local(2),
        Sym::Const,
    ];
    let end = [
        Sym::Call(answer, from.function),
        Sym::Local(given),
        Sym::Answer,
        Sym::Block(4),
    ];
    scope.add(out, &begin)?;
    scope.push_locals(out, 3, from.params)?;
    scope.push_pairs(out, behind_params, from.olds)?;
    scope.add(out, &end)
}
