// The C functions of the steps of functions of the code.

ghost use Rattle.std.specs.Prelude.{◌≡◌, ℕ, ◌∷◌, ◌++◌, List, IfOk, map};
ghost use Rattle.sample_core.specs.TypeTree.{TypeTree};
ghost use Rattle.leaf_core.specs.declared.expr.Expr.{Expr};
ghost use Rattle.net_code.specs.declared.statement.Function.TheVariants as F;
ghost use Rattle.c_meaning.specs.Syntax as C;
ghost use Rattle.c_text.specs.declared.tree.Param.TheVariants as Q;
ghost use Rattle.c_forms.specs.Keeping.{Shape};
ghost use Rattle.c_forms.specs.Members.{par_function};
ghost use Rattle.c_forms.specs.Standing.{stepping};
ghost use Rattle.c_file.specs.FunctionC.{Callee, element_type, number_at, olds, shape_at};
ghost use Rattle.c_build.specs.declared.sym.Sym.{Sym};
ghost use Rattle.c_build.specs.Frames.{Stands, bounds_in, const_rows, layout_in, old_rows};
ghost use Rattle.c_build.specs.Functions.{KeptIn, TypeIn, function_in, step_in};
ghost use Rattle.c_build.specs.Making.{Adds};

use crate::cell_steps::{accum_step, cell_step, clock_step};
use crate::forms::{
    Inner, push_arr, push_first, push_initial_in, push_initial_out, push_loop, push_same, push_seq,
};
use crate::frame::Frame;
use crate::keeping::{kept_both, kept_fed, kept_members, kept_none, kept_same};
use crate::leaf_function::push_consts;
use crate::machine::assemble;
use crate::members::push_par;
use crate::switch_steps::{
    collection_step, k_switch_step, old_step, p_switch_step, r_switch_step, switch_step,
};
use crate::switches::Timing;
use crate::sym::Sym;
use crate::table::INTEGER;
use crate::unbuilt::Unbuilt;
use c_text::{CType, Function, Param};
use net_code::Function as Coded;

/// The C function of a function's step. Its expressions are the C functions from this number on.
pub(crate) fn step_of(frame: Frame<'_>, first: usize, f: &Coded) -> Result<Function, Unbuilt>
    ensures { IfOk result (λ r. (cs : List Callee) → Stands frame.entry cs
        → function_in frame.entry r ≡ step_in frame.entry cs first f.now) }
{
    match f {
        Coded::Arr(_) => arr_step(frame, first),
        Coded::Seq(f, g) => seq_step(frame, *f, *g),
        Coded::First(f) => first_step(frame, *f),
        Coded::Par(fs) => par_step(frame, fs.as_slice()),
        Coded::Loop(_, f) => loop_step(frame, first, *f),
        Coded::Cell(form, _) => cell_step(frame, first, *form),
        Coded::Clock(form) => clock_step(frame, *form),
        Coded::Accum(..) => accum_step(frame, first),
        Coded::Switch(f, t) => switch_step(frame, Timing::AtOnce, *f, *t),
        Coded::DSwitch(f, t) => switch_step(frame, Timing::Delayed, *f, *t),
        Coded::RSwitch(f, t) => r_switch_step(frame, Timing::AtOnce, *f, *t),
        Coded::DrSwitch(f, t) => r_switch_step(frame, Timing::Delayed, *f, *t),
        Coded::KSwitch(f, e, t) => k_switch_step(frame, *f, *e, *t),
        Coded::PSwitch(_, fs, e, t) => p_switch_step(frame, first, fs.as_slice(), *e, *t),
        Coded::Old(i, f, a, b) => old_step(frame, *i, *f, *a, *b),
        Coded::Same => same_step(frame),
        Coded::InitialOut(_, f) => out_step(frame, first, *f),
        Coded::InitialIn(_, f) => in_step(frame, first, *f),
        Coded::Collection(fs, _, t) => collection_step(frame, first, fs.as_slice(), *t),
    }
}

/// Adds frozen networks, each with its moment, as parameters.
fn push_frozen(params: &mut Vec<Param>, types: &[CType]) -> Result<(), Unbuilt>
    ensures { IfOk result (λ _. params.new.items ≡ params.old.items ++ old_rows types.now) }
{
    for ty in types {
        params.push(Param::Const(*ty))?;
        params.push(Param::Value(INTEGER))?;
    }
    Ok(())
}

/// The parameters of a step: what it keeps, its moment, its input, and what is in scope.
fn step_params(frame: Frame<'_>, kept: CType, input: CType) -> Result<Vec<Param>, Unbuilt>
    ensures { IfOk result (λ ps. ps.items
        ≡ Q.Pointer kept ∷ Q.Value INTEGER ∷ Q.Const input
        ∷ const_rows frame.entry.scope.params.now ++ old_rows frame.entry.scope.olds.now) }
{
    let first = [
        Param::Pointer(kept),
        Param::Value(INTEGER),
        Param::Const(input),
    ];
    let mut params = Vec::from_array(frame.scope.alloc, first)?;
    push_consts(&mut params, frame.scope.params)?;
    push_frozen(&mut params, frame.scope.olds)?;
    Ok(params)
}

/// The C function of a step, with these lines.
pub(crate) fn stepping(
    frame: Frame<'_>,
    kept: CType,
    input: CType,
    answer: CType,
    lines: Vec<Sym>,
) -> Result<Function, Unbuilt>
    ensures { IfOk result (λ r. (cs : List Callee) (S : Shape) (A B : TypeTree) (xs : List Sym) (c : C.Command)
        → Stands frame.entry cs → KeptIn frame.entry kept S
        → TypeIn frame.entry input A → TypeIn frame.entry answer B
        → Adds frame.entry.scope xs lines.items c
        → function_in frame.entry r
        ≡ stepping (bounds_in frame.entry) (layout_in frame.entry).params (olds cs (layout_in frame.entry)) S A B c) }
{
    let params = step_params(frame, kept, input)?;
    let body = assemble(frame.scope.alloc, lines.as_slice())?;
    Ok(Function {
        params,
        result: answer,
        body,
    })
}

/// The step of `arr`, whose expression is function k.
fn arr_step(frame: Frame<'_>, k: usize) -> Result<Function, Unbuilt>
    ensures { IfOk result (λ r. (cs : List Callee) (e : Expr) → Stands frame.entry cs
        → function_in frame.entry r ≡ step_in frame.entry cs k (F.Arr e)) }
{
    let kept = kept_none(frame)?;
    let input = frame.input()?;
    let answer = frame.output()?;
    let mut lines = Vec::new(frame.scope.alloc);
    push_arr(frame.scope, &mut lines, answer, k)?;
    let step = stepping(frame, kept, input, answer, lines)?;
    Ok(step)
}

/// The step of a frozen network that is not there.
fn same_step(frame: Frame<'_>) -> Result<Function, Unbuilt>
    ensures { IfOk result (λ r. (cs : List Callee) (k : ℕ) → Stands frame.entry cs
        → function_in frame.entry r ≡ step_in frame.entry cs k F.Same) }
{
    let kept = kept_none(frame)?;
    let input = frame.input()?;
    let mut lines = Vec::new(frame.scope.alloc);
    push_same(frame.scope, &mut lines)?;
    let step = stepping(frame, kept, input, input, lines)?;
    Ok(step)
}

/// The step of `>>>`.
fn seq_step(frame: Frame<'_>, f: usize, g: usize) -> Result<Function, Unbuilt>
    ensures { IfOk result (λ r. (cs : List Callee) (k : ℕ) → Stands frame.entry cs
        → function_in frame.entry r ≡ step_in frame.entry cs k (F.Seq f g)) }
{
    let kept = kept_both(frame, f, g)?;
    let one = frame.callee(f)?;
    let other = frame.callee(g)?;
    let input = frame.input()?;
    let between = frame.value(0)?;
    let answer = frame.output()?;
    let mut lines = Vec::new(frame.scope.alloc);
    push_seq(
        frame.scope,
        &mut lines,
        between,
        answer,
        one.number,
        other.number,
    )?;
    let step = stepping(frame, kept, input, answer, lines)?;
    Ok(step)
}

/// The step of `first`.
fn first_step(frame: Frame<'_>, f: usize) -> Result<Function, Unbuilt>
    ensures { IfOk result (λ r. (cs : List Callee) (k : ℕ) → Stands frame.entry cs
        → function_in frame.entry r ≡ step_in frame.entry cs k (F.First f)) }
{
    let kept = kept_same(frame, f)?;
    let part = frame.callee(f)?;
    let left = frame.value(0)?;
    let made = frame.value(1)?;
    let right = frame.value(2)?;
    let input = frame.pair(left, right)?;
    let answer = frame.pair(made, right)?;
    let mut lines = Vec::new(frame.scope.alloc);
    push_first(frame.scope, &mut lines, made, answer, part.number)?;
    let step = stepping(frame, kept, input, answer, lines)?;
    Ok(step)
}

/// The step of `parB`.
fn par_step(frame: Frame<'_>, fs: &[usize]) -> Result<Function, Unbuilt>
    ensures { IfOk result (λ r. (cs : List Callee) → Stands frame.entry cs
        → function_in frame.entry r
        ≡ par_function (bounds_in frame.entry) (layout_in frame.entry).params (olds cs (layout_in frame.entry))
        (map (shape_at cs) fs.now) (layout_in frame.entry).input (element_type (layout_in frame.entry).output)
        (map (number_at cs) fs.now)) }
{
    let js = frame.numbers(fs)?;
    let step = members_step(frame, fs, js.as_slice())?;
    Ok(step)
}

/// The step of members, which functions js step.
pub(crate) fn members_step(
    frame: Frame<'_>,
    fs: &[usize],
    js: &[usize],
) -> Result<Function, Unbuilt>
    ensures { IfOk result (λ r. (cs : List Callee) → Stands frame.entry cs
        → function_in frame.entry r
        ≡ par_function (bounds_in frame.entry) (layout_in frame.entry).params (olds cs (layout_in frame.entry))
        (map (shape_at cs) fs.now) (layout_in frame.entry).input (element_type (layout_in frame.entry).output)
        js.now) }
{
    let kept = kept_members(frame, fs)?;
    let input = frame.input()?;
    let all = frame.answers()?;
    let mut lines = Vec::new(frame.scope.alloc);
    push_par(frame.scope, &mut lines, all.element, all.list, all.room, js)?;
    let step = stepping(frame, kept, input, all.list, lines)?;
    Ok(step)
}

/// The step of `loopPre`, whose constant is function k.
fn loop_step(frame: Frame<'_>, k: usize, f: usize) -> Result<Function, Unbuilt>
    ensures { IfOk result (λ r. (cs : List Callee) (e : Expr) → Stands frame.entry cs
        → function_in frame.entry r ≡ step_in frame.entry cs k (F.Loop e f)) }
{
    let kept = kept_fed(frame, f)?;
    let part = frame.callee(f)?;
    let input = frame.input()?;
    let answer = frame.output()?;
    let value = frame.kept()?;
    let types = Inner {
        kept: value,
        passed: frame.pair(input, value)?,
        answer: frame.pair(answer, value)?,
    };
    let mut lines = Vec::new(frame.scope.alloc);
    push_loop(frame.scope, &mut lines, types, k, part.number)?;
    let step = stepping(frame, kept, input, answer, lines)?;
    Ok(step)
}

/// The step of `-->`, whose constant is function k.
fn out_step(frame: Frame<'_>, k: usize, f: usize) -> Result<Function, Unbuilt>
    ensures { IfOk result (λ r. (cs : List Callee) (e : Expr) → Stands frame.entry cs
        → function_in frame.entry r ≡ step_in frame.entry cs k (F.InitialOut e f)) }
{
    let kept = kept_same(frame, f)?;
    let part = frame.callee(f)?;
    let input = frame.input()?;
    let answer = frame.output()?;
    let mut lines = Vec::new(frame.scope.alloc);
    push_initial_out(frame.scope, &mut lines, answer, k, part.number)?;
    let step = stepping(frame, kept, input, answer, lines)?;
    Ok(step)
}

/// The step of `>--`, whose constant is function k.
fn in_step(frame: Frame<'_>, k: usize, f: usize) -> Result<Function, Unbuilt>
    ensures { IfOk result (λ r. (cs : List Callee) (e : Expr) → Stands frame.entry cs
        → function_in frame.entry r ≡ step_in frame.entry cs k (F.InitialIn e f)) }
{
    let kept = kept_same(frame, f)?;
    let part = frame.callee(f)?;
    let input = frame.input()?;
    let answer = frame.output()?;
    let mut lines = Vec::new(frame.scope.alloc);
    push_initial_in(frame.scope, &mut lines, input, answer, k, part.number)?;
    let step = stepping(frame, kept, input, answer, lines)?;
    Ok(step)
}
