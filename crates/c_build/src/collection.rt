// What the function of `rpSwitchB` does.

ghost use Rattle.std.specs.Prelude.{◌≡◌, [], ◌∷◌, ℕ, List, IfOk, length};
ghost use Rattle.sample_core.specs.TypeTree.{TypeTree, int_ty, list_ty, pair_ty};
ghost use Rattle.leaf_code.specs.Fitting.{Bounds};
ghost use Rattle.c_meaning.specs.Syntax.{Term, assign, by_const, by_pointer, by_value, call, dot, local, sequence};
ghost use Rattle.c_text.specs.Meant.{type_meant};
ghost use Rattle.c_forms.specs.Keeping.{Shape};
ghost use Rattle.c_forms.specs.Standing.{behind as register, scope_args};
ghost use Rattle.c_forms.specs.Collection.{all_local, answers_local, beginning, choice_lines, collection_function, count_of, element, name_lines, origins, other_side, running_of, side_of, spare_of, started_args, started_of, turn_call, turn_cases, turn_index, turn_lines, turn_moment, turn_of, value_lines, written_of};
ghost use Rattle.c_build.specs.Symbols.{and_arguments, and_command, and_term};
ghost use Rattle.c_build.specs.Scopes.{Counts, IsType, made, table};
ghost use Rattle.c_build.specs.Making.{Adds};
ghost use Rattle.c_build.specs.Frozen.{passing};

use crate::lines::{behind, push_leaf_call};
use crate::scope::Scope;
use crate::sym::Sym;
use crate::table::{COUNT, INTEGER};
use crate::unbuilt::Unbuilt;
use c_text::{CType, Literal, Operator, Scalar};

/// How many members may run at once.
const MOST_MEMBERS: u32 = 64;

/// A collection: the types of C of what is chosen, of a member's answer, and of the list of answers; the
/// functions that choose, and of what a value starts; and how many members may be named at most, and how many
/// values given.
#[derive(Clone, Copy)]
pub(crate) struct Gathering {
    pub(crate) chosen: CType,
    pub(crate) answer: CType,
    pub(crate) answers: CType,
    pub(crate) chooser: usize,
    pub(crate) taker: usize,
    pub(crate) named: u32,
    pub(crate) values: u32,
}

/// `s->m[s->side]`.
fn push_running(scope: Scope<'_>, out: &mut Vec<Sym>) -> Result<(), Unbuilt>
    ensures { IfOk result (λ _. made scope.entry out.new.items
        ≡ and_term running_of (made scope.entry out.old.items)) }
{
    scope.add(
        out,
        &[
            Sym::Local(0),
            Sym::Dot(2),
            Sym::Local(0),
            Sym::Dot(1),
            Sym::At,
        ],
    )
}

/// `s->m[1 - s->side]`.
fn push_spare(scope: Scope<'_>, out: &mut Vec<Sym>) -> Result<(), Unbuilt>
    ensures { IfOk result (λ _. made scope.entry out.new.items
        ≡ and_term spare_of (made scope.entry out.old.items)) }
{
    scope.add(
        out,
        &[
            Sym::Local(0),
            Sym::Dot(2),
            Sym::Literal(Literal::Uint32(1)),
            Sym::Local(0),
            Sym::Dot(1),
            Sym::Binary(Operator::Minus, Scalar::Uint32),
            Sym::At,
        ],
    )
}

/// The numbers of members that are written, from i on: as many as there are here.
fn push_origins(
    scope: Scope<'_>,
    out: &mut Vec<Sym>,
    i: u32,
    members: &[usize],
) -> Result<(), Unbuilt>
    ensures { IfOk result (λ _. Adds scope.entry out.old.items out.new.items (origins i (length members.now))) }
{
    let Some((_, others)) = members.split_first() else {
        return scope.add(out, &[Sym::Skip]);
    };
    let Some(next) = i.checked_add(1) else {
        return Err(Unbuilt::Missing);
    };
    let number = Sym::Literal(Literal::Uint32(i));
    push_running(scope, out)?;
    scope.add(out, &[number, Sym::At, Sym::Dot(0), number, Sym::Assign])?;
    push_origins(scope, out, next, others)?;
    scope.add(out, &[Sym::Block(2)])
}

/// At the first sample the written members run.
fn push_beginning(
    scope: Scope<'_>,
    out: &mut Vec<Sym>,
    count: u32,
    members: &[usize],
) -> Result<(), Unbuilt>
    ensures { IfOk result (λ _. length members.now ≡ count
        → Adds scope.entry out.old.items out.new.items (beginning (length members.now))) }
{
    scope.add(
        out,
        &[
            Sym::Local(0),
            Sym::Dot(0),
            Sym::Literal(Literal::Uint32(count)),
            Sym::Assign,
            Sym::Local(0),
            Sym::Dot(1),
            Sym::Literal(Literal::Uint32(0)),
            Sym::Assign,
        ],
    )?;
    push_origins(scope, out, 0, members)?;
    scope.add(out, &[Sym::Block(3)])
}

/// The member that is named goes on, on the other side, if there is one.
fn push_name(scope: Scope<'_>, out: &mut Vec<Sym>) -> Result<(), Unbuilt>
    ensures { IfOk result (λ _. (n : Bounds) (Ps : List TypeTree) (Os : List Shape) → Counts scope.entry Ps Os
        → Adds scope.entry out.old.items out.new.items (name_lines n Ps Os)) }
{
    let kept = Sym::Local(behind(scope, 0));
    let chosen = Sym::Local(behind(scope, 1));
    let index = Sym::Local(behind(scope, 2));
    let names = Sym::Dot(1);
    let cast = Sym::Cast(Scalar::Uint64);
    let one = Sym::Literal(Literal::Uint32(1));
    let plus = Sym::Binary(Operator::Plus, Scalar::Uint32);
    let less = Sym::Binary(Operator::Less, Scalar::Uint64);
    push_spare(scope, out)?;
    scope.add(out, &[kept, Sym::At])?;
    push_running(scope, out)?;
    scope.add(
        out,
        &[
            chosen,
            Sym::Dot(0),
            names,
            index,
            Sym::At,
            Sym::At,
            Sym::Assign,
            kept,
            kept,
            one,
            plus,
            Sym::Assign,
            Sym::Block(2),
            Sym::Skip,
        ],
    )?;
    scope.add(out, &[chosen, Sym::Dot(0), names, index, Sym::At, cast])?;
    scope.add(out, &[Sym::Local(0), Sym::Dot(0), cast, less, Sym::Branch])
}

/// A value starts a member, behind those that go on; so many are written.
fn push_value(scope: Scope<'_>, out: &mut Vec<Sym>, count: u32) -> Result<(), Unbuilt>
    ensures { IfOk result (λ _. (n : Bounds) (Ps : List TypeTree) (Os : List Shape) → Counts scope.entry Ps Os
        → Adds scope.entry out.old.items out.new.items (value_lines n Ps Os count)) }
{
    let chosen = Sym::Local(behind(scope, 1));
    let all = Sym::Local(behind(scope, 2));
    let index = Sym::Local(behind(scope, 3));
    let count = Sym::Literal(Literal::Uint32(count));
    let one = Sym::Literal(Literal::Uint32(1));
    let plus = Sym::Binary(Operator::Plus, Scalar::Uint32);
    push_spare(scope, out)?;
    scope.add(out, &[all, Sym::At, Sym::Dot(0), count, Sym::Assign])?;
    push_spare(scope, out)?;
    scope.add(
        out,
        &[
            all,
            Sym::At,
            Sym::Dot(1),
            chosen,
            Sym::Dot(1),
            Sym::Dot(1),
            index,
            Sym::At,
            Sym::Assign,
            all,
            all,
            one,
            plus,
            Sym::Assign,
            Sym::Block(3),
        ],
    )
}

/// What the event's value chooses runs from now on; so many members are written.
fn push_chosen(
    scope: Scope<'_>,
    out: &mut Vec<Sym>,
    all: Gathering,
    count: u32,
) -> Result<(), Unbuilt>
    ensures { IfOk result (λ _. (n : Bounds) (Ps : List TypeTree) (Os : List Shape) (V : TypeTree)
        → Counts scope.entry Ps Os → IsType scope.entry n all.chosen (pair_ty (list_ty int_ty) (list_ty V))
        → n int_ty ≡ all.named → n V ≡ all.values
        → Adds scope.entry out.old.items out.new.items (choice_lines n Ps Os V all.chooser count)) }
{
    let kept = Sym::Local(behind(scope, 0));
    let chosen = Sym::Local(behind(scope, 1));
    let third = Sym::Local(behind(scope, 2));
    let fourth = Sym::Local(behind(scope, 3));
    let less = Sym::Binary(Operator::Less, Scalar::Uint32);
    let most = Sym::Literal(Literal::Uint32(MOST_MEMBERS));
    let zero = Sym::Literal(Literal::Uint32(0));
    let left = Sym::Dot(0);
    let right = Sym::Dot(1);
    let named = [
        third,
        chosen,
        left,
        left,
        less,
        kept,
        most,
        less,
        Sym::Both,
        Sym::Loop(all.named),
        Sym::Declare(COUNT),
        third,
        kept,
        Sym::Assign,
    ];
    let values = [
        fourth,
        chosen,
        right,
        left,
        less,
        third,
        most,
        less,
        Sym::Both,
        Sym::Loop(all.values),
    ];
    let event = [Sym::Local(2), right, right];
    push_leaf_call(scope, out, all.chosen, all.chooser, &event)?;
    scope.add(out, &[kept, zero, Sym::Assign])?;
    push_name(scope, out)?;
    scope.add(out, &named)?;
    push_value(scope, out, count)?;
    scope.add(out, &values)?;
    push_turned(scope, out)?;
    scope.add(out, &[Sym::Block(8)])
}

/// From now on those on the other side run.
fn push_turned(scope: Scope<'_>, out: &mut Vec<Sym>) -> Result<(), Unbuilt>
    ensures { IfOk result (λ _. (n : Bounds) (Ps : List TypeTree) (Os : List Shape) → Counts scope.entry Ps Os
        → made scope.entry out.new.items
        ≡ and_command (assign side_of other_side)
        (and_command (assign count_of (all_local n Ps Os)) (made scope.entry out.old.items))) }
{
    let third = behind(scope, 2);
    scope.add(
        out,
        &[
            Sym::Local(0),
            Sym::Dot(0),
            Sym::Local(third),
            Sym::Assign,
            Sym::Local(0),
            Sym::Dot(1),
            Sym::Literal(Literal::Uint32(1)),
            Sym::Local(0),
            Sym::Dot(1),
            Sym::Binary(Operator::Minus, Scalar::Uint32),
            Sym::Assign,
        ],
    )
}

/// Begins the call of a member's function: on part k of the member, at its moment, on the input.
fn push_turn(scope: Scope<'_>, out: &mut Vec<Sym>, k: usize) -> Result<(), Unbuilt>
    ensures { IfOk result (λ _. (n : Bounds) (Ps : List TypeTree) (Os : List Shape) → Counts scope.entry Ps Os
        → made scope.entry out.new.items
        ≡ passing (by_pointer (dot (turn_of n Ps Os) k) ∷ by_value (turn_moment n Ps Os)
        ∷ by_const (dot (local 2) 0) ∷ []) (made scope.entry out.old.items)) }
{
    let third = behind(scope, 2);
    let fourth = behind(scope, 3);
    push_running(scope, out)?;
    scope.add(
        out,
        &[
            Sym::Open,
            Sym::Local(third),
            Sym::At,
            Sym::Dot(k),
            Sym::Pointer,
            Sym::Local(fourth),
            Sym::Value,
            Sym::Local(2),
            Sym::Dot(0),
            Sym::Const,
        ],
    )
}

/// Ends the call of a member's function: its answer is an element of the answers.
fn push_turn_end(
    scope: Scope<'_>,
    out: &mut Vec<Sym>,
    answer: CType,
    j: usize,
) -> Result<(), Unbuilt>
    ensures { IfOk result (λ _. (n : Bounds) (Ps : List TypeTree) (Os : List Shape) → Counts scope.entry Ps Os
        → made scope.entry out.new.items
        ≡ and_command (sequence
        (call (type_meant (table scope.entry) answer) j (made scope.entry out.old.items).arguments)
        (assign (element (answers_local n Ps Os) (turn_index n Ps Os)) (register n Ps Os 4)))
        (made scope.entry out.old.items)) }
{
    let second = behind(scope, 1);
    let third = behind(scope, 2);
    let fifth = behind(scope, 4);
    scope.add(
        out,
        &[
            Sym::Call(answer, j),
            Sym::Local(second),
            Sym::Dot(1),
            Sym::Local(third),
            Sym::At,
            Sym::Local(fifth),
            Sym::Assign,
            Sym::Block(2),
        ],
    )
}

/// Written member i, which function j steps.
fn push_written(
    scope: Scope<'_>,
    out: &mut Vec<Sym>,
    answer: CType,
    i: u32,
    j: usize,
) -> Result<(), Unbuilt>
    ensures { IfOk result (λ _. (n : Bounds) (Ps : List TypeTree) (Os : List Shape) (B : TypeTree)
        → Counts scope.entry Ps Os → IsType scope.entry n answer B
        → Adds scope.entry out.old.items out.new.items
        (turn_call n Ps Os B j (written_of i (turn_of n Ps Os)) (scope_args n Ps Os))) }
{
    push_turn(scope, out, 3 + i as usize)?;
    scope.push_scope(out)?;
    push_turn_end(scope, out, answer, j)
}

/// A member that a value started, which function k steps.
fn push_started(
    scope: Scope<'_>,
    out: &mut Vec<Sym>,
    answer: CType,
    k: usize,
) -> Result<(), Unbuilt>
    ensures { IfOk result (λ _. (n : Bounds) (Ps : List TypeTree) (Os : List Shape) (B : TypeTree)
        → Counts scope.entry Ps Os → IsType scope.entry n answer B
        → Adds scope.entry out.old.items out.new.items
        (turn_call n Ps Os B k (started_of (turn_of n Ps Os)) (started_args n Ps Os))) }
{
    let third = behind(scope, 2);
    push_turn(scope, out, 2)?;
    scope.push_params(out)?;
    push_running(scope, out)?;
    scope.add(out, &[Sym::Local(third), Sym::At, Sym::Dot(1), Sym::Const])?;
    scope.push_olds(out)?;
    push_turn_end(scope, out, answer, k)
}

/// The member's function runs: of a written one, from number i on, one of these; else function k.
fn push_cases(
    scope: Scope<'_>,
    out: &mut Vec<Sym>,
    answer: CType,
    i: u32,
    members: &[usize],
    k: usize,
) -> Result<(), Unbuilt>
    ensures { IfOk result (λ _. (n : Bounds) (Ps : List TypeTree) (Os : List Shape) (B : TypeTree)
        → Counts scope.entry Ps Os → IsType scope.entry n answer B
        → Adds scope.entry out.old.items out.new.items (turn_cases n Ps Os B i members.now k)) }
{
    let Some((j, others)) = members.split_first() else {
        return push_started(scope, out, answer, k);
    };
    let Some(next) = i.checked_add(1) else {
        return Err(Unbuilt::Missing);
    };
    let third = behind(scope, 2);
    push_written(scope, out, answer, i, *j)?;
    push_cases(scope, out, answer, next, others, k)?;
    push_running(scope, out)?;
    scope.add(
        out,
        &[
            Sym::Local(third),
            Sym::At,
            Sym::Dot(0),
            Sym::Literal(Literal::Uint32(i)),
            Sym::Binary(Operator::Equals, Scalar::Uint32),
            Sym::Branch,
        ],
    )
}

/// The turn of a member.
fn push_turn_lines(
    scope: Scope<'_>,
    out: &mut Vec<Sym>,
    all: Gathering,
    members: &[usize],
) -> Result<(), Unbuilt>
    ensures { IfOk result (λ _. (n : Bounds) (Ps : List TypeTree) (Os : List Shape) (B : TypeTree)
        → Counts scope.entry Ps Os → IsType scope.entry n all.answer B
        → Adds scope.entry out.old.items out.new.items (turn_lines n Ps Os B members.now all.taker)) }
{
    let kept = behind(scope, 0);
    let third = behind(scope, 2);
    scope.add(
        out,
        &[
            Sym::Local(third),
            Sym::Local(kept),
            Sym::Binary(Operator::Less, Scalar::Uint32),
            Sym::Local(1),
            Sym::Literal(Literal::Int64(0)),
            Sym::Choice,
            Sym::Define(INTEGER),
        ],
    )?;
    push_cases(scope, out, all.answer, 0, members, all.taker)?;
    scope.add(out, &[Sym::Block(2)])
}

/// What a collection does.
pub(crate) fn push_collection(
    scope: Scope<'_>,
    out: &mut Vec<Sym>,
    all: Gathering,
    members: &[usize],
) -> Result<(), Unbuilt>
    ensures { IfOk result (λ _. (n : Bounds) (Ps : List TypeTree) (Os Ss : List Shape) (T : Shape)
        (A B V C : TypeTree) → Counts scope.entry Ps Os → IsType scope.entry n all.answer B
        → IsType scope.entry n all.answers (list_ty B)
        → IsType scope.entry n all.chosen (pair_ty (list_ty int_ty) (list_ty V))
        → n int_ty ≡ all.named → n V ≡ all.values
        → Adds scope.entry out.old.items out.new.items
        (collection_function n Ps Os Ss T A B V C members.now all.chooser all.taker).body) }
{
    let Ok(count) = u32::try_from(members.len()) else {
        return Err(Unbuilt::Missing);
    };
    let kept = behind(scope, 0);
    let second = behind(scope, 1);
    let third = behind(scope, 2);
    push_beginning(scope, out, count, members)?;
    scope.add(
        out,
        &[
            Sym::Skip,
            Sym::Local(1),
            Sym::Literal(Literal::Int64(0)),
            Sym::Binary(Operator::Equals, Scalar::Int64),
            Sym::Branch,
            Sym::Declare(COUNT),
            Sym::Local(kept),
            Sym::Local(0),
            Sym::Dot(0),
            Sym::Assign,
        ],
    )?;
    push_chosen(scope, out, all, count)?;
    scope.add(
        out,
        &[
            Sym::Skip,
            Sym::Local(2),
            Sym::Dot(1),
            Sym::Dot(0),
            Sym::Branch,
            Sym::Declare(all.answers),
            Sym::Local(second),
            Sym::Dot(0),
            Sym::Local(0),
            Sym::Dot(0),
            Sym::Assign,
        ],
    )?;
    push_turn_lines(scope, out, all, members)?;
    scope.add(
        out,
        &[
            Sym::Local(third),
            Sym::Local(0),
            Sym::Dot(0),
            Sym::Binary(Operator::Less, Scalar::Uint32),
            Sym::Loop(MOST_MEMBERS),
            Sym::Local(second),
            Sym::Answer,
            Sym::Block(8),
        ],
    )
}
