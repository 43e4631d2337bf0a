// The C functions of the steps of switches, of frozen networks and of collections.

ghost use Rattle.std.specs.Prelude.{◌≡◌, ℕ, ◌+◌, suc, List, IfOk, length, map};
ghost use Rattle.net_code.specs.declared.statement.Function.TheVariants as F;
ghost use Rattle.leaf_code.specs.CodeOf.{carried_type, left_type, right_type};
ghost use Rattle.code_fits.specs.Layouts.{kept_type};
ghost use Rattle.c_forms.specs.Freezing.{p_switch_function};
ghost use Rattle.c_forms.specs.Collection.{collection_function};
ghost use Rattle.c_file.specs.FunctionC.{Callee, element_type, number_at, olds, r_switch_c, shape_at, switch_c};
ghost use Rattle.c_build.specs.Frames.{Stands, bounds_in, layout_in};
ghost use Rattle.c_build.specs.Functions.{IsFreezing, IsGathered, IsSwitched, function_in, step_in};
ghost use Rattle.c_build.specs.Timings.{timing_of};

use crate::collection::{Gathering, push_collection};
use crate::frame::Frame;
use crate::freezing::{Freezing, Resumed, push_freezing, push_old};
use crate::keeping::{kept_collection, kept_frozen, kept_mode, kept_parallel, kept_same};
use crate::steps::stepping;
use crate::switches::{Switched, Timing, push_r_switch, push_switch};
use crate::unbuilt::Unbuilt;
use c_text::{CType, Function};

/// The types of a switch.
fn switched(frame: Frame<'_>) -> Result<Switched, Unbuilt>
    ensures { IfOk result (λ t. (cs : List Callee) → Stands frame.entry cs → IsSwitched frame.entry t) }
{
    let answer = frame.output()?;
    let event = frame.kept_event()?;
    let beside = frame.pair(answer, event)?;
    Ok(Switched { beside, answer })
}

/// The step of `switch` and `dSwitch`.
pub(crate) fn switch_step(
    frame: Frame<'_>,
    timing: Timing,
    f: usize,
    t: usize,
) -> Result<Function, Unbuilt>
    ensures { IfOk result (λ r. (cs : List Callee) → Stands frame.entry cs
        → function_in frame.entry r
        ≡ switch_c cs (layout_in frame.entry) (bounds_in frame.entry) (timing_of timing) f t) }
{
    let kept = kept_mode(frame, f, t)?;
    let front = frame.callee(f)?;
    let taker = frame.callee(t)?;
    let input = frame.input()?;
    let types = switched(frame)?;
    let (j, k) = (front.number, taker.number);
    let mut lines = Vec::new(frame.scope.alloc);
    push_switch(frame.scope, &mut lines, timing, types, j, k)?;
    let step = stepping(frame, kept, input, types.answer, lines)?;
    Ok(step)
}

/// The step of `rSwitch` and `drSwitch`.
pub(crate) fn r_switch_step(
    frame: Frame<'_>,
    timing: Timing,
    f: usize,
    t: usize,
) -> Result<Function, Unbuilt>
    ensures { IfOk result (λ r. (cs : List Callee) → Stands frame.entry cs
        → function_in frame.entry r
        ≡ r_switch_c cs (layout_in frame.entry) (bounds_in frame.entry) (timing_of timing) f t) }
{
    let kept = kept_mode(frame, f, t)?;
    let front = frame.callee(f)?;
    let taker = frame.callee(t)?;
    let types = frame.restarted()?;
    let event = frame.kept_event()?;
    let input = frame.pair(types.left, event)?;
    let (j, k) = (front.number, taker.number);
    let mut lines = Vec::new(frame.scope.alloc);
    push_r_switch(frame.scope, &mut lines, timing, types, j, k)?;
    let step = stepping(frame, kept, input, types.answer, lines)?;
    Ok(step)
}

/// A switch that freezes function j, until by an event of function e function t takes over: so many members,
/// or one network.
fn freezing(
    frame: Frame<'_>,
    j: usize,
    e: usize,
    t: usize,
    members: Option<usize>,
) -> Result<Freezing, Unbuilt>
    ensures numbers { IfOk result (λ s. (cs : List Callee) → Stands frame.entry cs
        → IsFreezing frame.entry cs j e t s) }
    ensures members { IfOk result (λ s. s.members ≡ members) }
{
    let watcher = frame.callee(e)?;
    let taker = frame.callee(t)?;
    let input = frame.input()?;
    let answer = frame.output()?;
    let both = frame.pair(input, answer)?;
    let event = frame.kept_event()?;
    Ok(Freezing {
        answer,
        both,
        event,
        front: j,
        watcher: watcher.number,
        taker: taker.number,
        members,
    })
}

/// The step of `kSwitch`.
pub(crate) fn k_switch_step(
    frame: Frame<'_>,
    f: usize,
    e: usize,
    t: usize,
) -> Result<Function, Unbuilt>
    ensures { IfOk result (λ r. (cs : List Callee) (k : ℕ) → Stands frame.entry cs
        → function_in frame.entry r ≡ step_in frame.entry cs k (F.KSwitch f e t)) }
{
    let kept = kept_frozen(frame, f, e, t)?;
    let front = frame.callee(f)?;
    let input = frame.input()?;
    let switch = freezing(frame, front.number, e, t, None)?;
    let mut lines = Vec::new(frame.scope.alloc);
    push_freezing(frame.scope, &mut lines, switch)?;
    let step = stepping(frame, kept, input, switch.answer, lines)?;
    Ok(step)
}

/// The step of `pSwitch`, whose route is function k, its members the next ones, and all of them the one
/// behind. `Missing` if a number is too large.
pub(crate) fn p_switch_step(
    frame: Frame<'_>,
    k: usize,
    fs: &[usize],
    e: usize,
    t: usize,
) -> Result<Function, Unbuilt>
    ensures { IfOk result (λ r. (cs : List Callee) → Stands frame.entry cs
        → function_in frame.entry r
        ≡ p_switch_function (bounds_in frame.entry) (layout_in frame.entry).params (olds cs (layout_in frame.entry))
        (map (shape_at cs) fs.now) (shape_at cs e) (shape_at cs t) (layout_in frame.entry).input
        (layout_in frame.entry).output (kept_type (layout_in frame.entry)) (suc (k + length fs.now))
        (number_at cs e) (number_at cs t)) }
{
    const MOST: usize = 1_000_000_000;
    if k > MOST || fs.len() > MOST {
        return Err(Unbuilt::Missing);
    }
    let kept = kept_parallel(frame, fs, e, t)?;
    let input = frame.input()?;
    let switch = freezing(frame, k + fs.len() + 1, e, t, Some(fs.len()))?;
    let mut lines = Vec::new(frame.scope.alloc);
    push_freezing(frame.scope, &mut lines, switch)?;
    let step = stepping(frame, kept, input, switch.answer, lines)?;
    Ok(step)
}

/// The step of a frozen network, of function f, with the first a parameters and b frozen networks in scope.
/// `Missing` where there are fewer.
pub(crate) fn old_step(
    frame: Frame<'_>,
    i: usize,
    f: usize,
    a: usize,
    b: usize,
) -> Result<Function, Unbuilt>
    ensures { IfOk result (λ r. (cs : List Callee) (k : ℕ) → Stands frame.entry cs
        → function_in frame.entry r ≡ step_in frame.entry cs k (F.Old i f a b)) }
{
    if a > frame.scope.params.len() || b > frame.scope.olds.len() {
        return Err(Unbuilt::Missing);
    }
    let kept = kept_same(frame, f)?;
    let part = frame.callee(f)?;
    let input = frame.input()?;
    let answer = frame.output()?;
    let from = Resumed {
        old: i,
        function: part.number,
        params: a,
        olds: b,
    };
    let mut lines = Vec::new(frame.scope.alloc);
    push_old(frame.scope, &mut lines, answer, from)?;
    let step = stepping(frame, kept, input, answer, lines)?;
    Ok(step)
}

/// A collection, whose choice is function k: the types and functions of its step.
fn gathered(frame: Frame<'_>, k: usize, t: usize) -> Result<Gathering, Unbuilt>
    ensures { IfOk result (λ g. (cs : List Callee) → Stands frame.entry cs → IsGathered frame.entry cs k t g) }
{
    let taker = frame.callee(t)?;
    let answers = frame.answers()?;
    let (names, named) = frame.numbers_list()?;
    let (kept, values) = frame.kept_list()?;
    let chosen = frame.pair(names, kept)?;
    Ok(Gathering {
        chosen,
        answer: CType::One(answers.element),
        answers: answers.list,
        chooser: k,
        taker: taker.number,
        named,
        values,
    })
}

/// The step of `rpSwitchB`, whose choice is function k.
pub(crate) fn collection_step(
    frame: Frame<'_>,
    k: usize,
    fs: &[usize],
    t: usize,
) -> Result<Function, Unbuilt>
    ensures { IfOk result (λ r. (cs : List Callee) → Stands frame.entry cs
        → function_in frame.entry r
        ≡ collection_function (bounds_in frame.entry) (layout_in frame.entry).params (olds cs (layout_in frame.entry))
        (map (shape_at cs) fs.now) (shape_at cs t) (left_type (layout_in frame.entry).input)
        (element_type (layout_in frame.entry).output) (kept_type (layout_in frame.entry))
        (carried_type (right_type (layout_in frame.entry).input)) (map (number_at cs) fs.now) k (number_at cs t)) }
{
    let kept = kept_collection(frame, fs, t)?;
    let input = frame.chosen_input()?;
    let all = gathered(frame, k, t)?;
    let js = frame.numbers(fs)?;
    let mut lines = Vec::new(frame.scope.alloc);
    push_collection(frame.scope, &mut lines, all, js.as_slice())?;
    let step = stepping(frame, kept, input, all.answers, lines)?;
    Ok(step)
}
