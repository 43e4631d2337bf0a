// The C functions of cells' steps.

ghost use Rattle.std.specs.Prelude.{◌≡◌, ℕ, List, IfOk};
ghost use Rattle.leaf_core.specs.declared.expr.Expr.{Expr};
ghost use Rattle.net_code.specs.declared.statement.Function.TheVariants as F;
ghost use Rattle.cell_core.specs.declared.form.Form.TheVariants as M;
ghost use Rattle.c_file.specs.FunctionC.{Callee};
ghost use Rattle.c_build.specs.Frames.{Stands};
ghost use Rattle.c_build.specs.Functions.{function_in, step_in};

use crate::cells::{
    push_accum, push_after, push_hold, push_i_pre, push_integral, push_repeatedly, push_time,
};
use crate::delay::push_delay;
use crate::forms::Inner;
use crate::frame::Frame;
use crate::keeping::{kept_cell, kept_clock};
use crate::steps::stepping;
use crate::table::INTEGER;
use crate::unbuilt::Unbuilt;
use c_text::Function;
use cell_core::Form;

/// The step of a cell, whose constant is function k.
pub(crate) fn cell_step(frame: Frame<'_>, k: usize, form: Form) -> Result<Function, Unbuilt>
    ensures { IfOk result (λ r. (cs : List Callee) (e : Expr) → Stands frame.entry cs
        → function_in frame.entry r ≡ step_in frame.entry cs k (F.Cell form e)) }
{
    match form {
        Form::IPre => i_pre_step(frame, k),
        Form::Delay(q) => delay_step(frame, k, q),
        Form::Hold => hold_step(frame, k),
        Form::After(q) => after_step(frame, k, q),
        Form::Repeatedly(q) => repeatedly_step(frame, k, q),
        Form::AccumBy | Form::Time | Form::Integral => Err(Unbuilt::Missing),
    }
}

/// The step of `iPre`.
fn i_pre_step(frame: Frame<'_>, k: usize) -> Result<Function, Unbuilt>
    ensures { IfOk result (λ r. (cs : List Callee) (e : Expr) → Stands frame.entry cs
        → function_in frame.entry r ≡ step_in frame.entry cs k (F.Cell M.IPre e)) }
{
    let kept = kept_cell(frame, Form::IPre)?;
    let value = frame.kept()?;
    let mut lines = Vec::new(frame.scope.alloc);
    push_i_pre(frame.scope, &mut lines, value, k)?;
    let step = stepping(frame, kept, value, value, lines)?;
    Ok(step)
}

/// The step of `delay`.
fn delay_step(frame: Frame<'_>, k: usize, q: u64) -> Result<Function, Unbuilt>
    ensures { IfOk result (λ r. (cs : List Callee) (e : Expr) → Stands frame.entry cs
        → function_in frame.entry r ≡ step_in frame.entry cs k (F.Cell (M.Delay q) e)) }
{
    let kept = kept_cell(frame, Form::Delay(q))?;
    let value = frame.kept()?;
    let mut lines = Vec::new(frame.scope.alloc);
    push_delay(frame.scope, &mut lines, value, q, k)?;
    let step = stepping(frame, kept, value, value, lines)?;
    Ok(step)
}

/// The step of `hold`.
fn hold_step(frame: Frame<'_>, k: usize) -> Result<Function, Unbuilt>
    ensures { IfOk result (λ r. (cs : List Callee) (e : Expr) → Stands frame.entry cs
        → function_in frame.entry r ≡ step_in frame.entry cs k (F.Cell M.Hold e)) }
{
    let kept = kept_cell(frame, Form::Hold)?;
    let value = frame.kept()?;
    let input = frame.kept_event()?;
    let mut lines = Vec::new(frame.scope.alloc);
    push_hold(frame.scope, &mut lines, value, k)?;
    let step = stepping(frame, kept, input, value, lines)?;
    Ok(step)
}

/// The step of `after`.
fn after_step(frame: Frame<'_>, k: usize, q: u64) -> Result<Function, Unbuilt>
    ensures { IfOk result (λ r. (cs : List Callee) (e : Expr) → Stands frame.entry cs
        → function_in frame.entry r ≡ step_in frame.entry cs k (F.Cell (M.After q) e)) }
{
    let kept = kept_cell(frame, Form::After(q))?;
    let value = frame.kept()?;
    let input = frame.input()?;
    let answer = frame.kept_event()?;
    let mut lines = Vec::new(frame.scope.alloc);
    push_after(frame.scope, &mut lines, value, answer, q, k)?;
    let step = stepping(frame, kept, input, answer, lines)?;
    Ok(step)
}

/// The step of `repeatedly`.
fn repeatedly_step(frame: Frame<'_>, k: usize, q: u64) -> Result<Function, Unbuilt>
    ensures { IfOk result (λ r. (cs : List Callee) (e : Expr) → Stands frame.entry cs
        → function_in frame.entry r ≡ step_in frame.entry cs k (F.Cell (M.Repeatedly q) e)) }
{
    let kept = kept_cell(frame, Form::Repeatedly(q))?;
    let value = frame.kept()?;
    let input = frame.input()?;
    let answer = frame.kept_event()?;
    let mut lines = Vec::new(frame.scope.alloc);
    push_repeatedly(frame.scope, &mut lines, value, answer, q, k)?;
    let step = stepping(frame, kept, input, answer, lines)?;
    Ok(step)
}

/// The step of a cell without a constant.
pub(crate) fn clock_step(frame: Frame<'_>, form: Form) -> Result<Function, Unbuilt>
    ensures { IfOk result (λ r. (cs : List Callee) (k : ℕ) → Stands frame.entry cs
        → function_in frame.entry r ≡ step_in frame.entry cs k (F.Clock form)) }
{
    match form {
        Form::Time => time_step(frame),
        Form::Integral => integral_step(frame),
        _ => Err(Unbuilt::Missing),
    }
}

/// The step of `time`.
fn time_step(frame: Frame<'_>) -> Result<Function, Unbuilt>
    ensures { IfOk result (λ r. (cs : List Callee) (k : ℕ) → Stands frame.entry cs
        → function_in frame.entry r ≡ step_in frame.entry cs k (F.Clock M.Time)) }
{
    let kept = kept_clock(frame, Form::Time)?;
    let input = frame.input()?;
    let mut lines = Vec::new(frame.scope.alloc);
    push_time(frame.scope, &mut lines)?;
    let step = stepping(frame, kept, input, INTEGER, lines)?;
    Ok(step)
}

/// The step of `integral`.
fn integral_step(frame: Frame<'_>) -> Result<Function, Unbuilt>
    ensures { IfOk result (λ r. (cs : List Callee) (k : ℕ) → Stands frame.entry cs
        → function_in frame.entry r ≡ step_in frame.entry cs k (F.Clock M.Integral)) }
{
    let kept = kept_clock(frame, Form::Integral)?;
    let mut lines = Vec::new(frame.scope.alloc);
    push_integral(frame.scope, &mut lines)?;
    let step = stepping(frame, kept, INTEGER, INTEGER, lines)?;
    Ok(step)
}

/// The step of `accumBy`, whose constant is function k, and whose expression the next.
pub(crate) fn accum_step(frame: Frame<'_>, k: usize) -> Result<Function, Unbuilt>
    ensures { IfOk result (λ r. (cs : List Callee) (e z : Expr) → Stands frame.entry cs
        → function_in frame.entry r ≡ step_in frame.entry cs k (F.Accum e z)) }
{
    let Some(next) = k.checked_add(1) else {
        return Err(Unbuilt::Missing);
    };
    let kept = kept_cell(frame, Form::AccumBy)?;
    let value = frame.kept()?;
    let carried = frame.carried_input()?;
    let input = frame.event(carried)?;
    let passed = frame.pair(value, carried)?;
    let answer = frame.kept_event()?;
    let types = Inner {
        kept: value,
        passed,
        answer,
    };
    let mut lines = Vec::new(frame.scope.alloc);
    push_accum(frame.scope, &mut lines, types, k, next)?;
    let step = stepping(frame, kept, input, answer, lines)?;
    Ok(step)
}
