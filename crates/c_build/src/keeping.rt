// What the functions of the code keep, as types of C.

ghost use Rattle.std.specs.Prelude.{List, IfOk, map};
ghost use Rattle.sample_core.specs.TypeTree.{int_ty};
ghost use Rattle.code_fits.specs.Layouts.{kept_type};
ghost use Rattle.c_forms.specs.Keeping.{Shape, keeps_both, keeps_cell, keeps_collection, keeps_fed, keeps_frozen, keeps_mode, keeps_none};
ghost use Rattle.c_forms.specs.Members.{members_shape};
ghost use Rattle.c_file.specs.FunctionC.{Callee, shape_at, shape_of};
ghost use Rattle.c_build.specs.Frames.{Stands, layout_in};
ghost use Rattle.c_build.specs.Functions.{KeptIn};

use crate::frame::Frame;
use crate::table::INTEGER;
use crate::unbuilt::Unbuilt;
use c_text::CType;
use cell_core::Form;
use net_code::Function;

/// What a function of the code keeps. `Missing` if its struct isn't in the table.
pub(crate) fn kept_type_of(frame: Frame<'_>, f: &Function) -> Result<CType, Unbuilt>
    ensures { IfOk result (λ A. (cs : List Callee) → Stands frame.entry cs
        → KeptIn frame.entry A (shape_of cs (layout_in frame.entry) f.now)) }
{
    match f {
        Function::Arr(_) | Function::Same => kept_none(frame),
        Function::Seq(f, g) => kept_both(frame, *f, *g),
        Function::First(f)
        | Function::Old(_, f, _, _)
        | Function::InitialOut(_, f)
        | Function::InitialIn(_, f) => kept_same(frame, *f),
        Function::Par(fs) => kept_members(frame, fs.as_slice()),
        Function::Loop(_, f) => kept_fed(frame, *f),
        Function::Cell(form, _) => kept_cell(frame, *form),
        Function::Clock(form) => kept_clock(frame, *form),
        Function::Accum(..) => kept_cell(frame, Form::AccumBy),
        Function::Switch(f, t)
        | Function::DSwitch(f, t)
        | Function::RSwitch(f, t)
        | Function::DrSwitch(f, t) => kept_mode(frame, *f, *t),
        Function::KSwitch(f, e, t) => kept_frozen(frame, *f, *e, *t),
        Function::PSwitch(_, fs, e, t) => kept_parallel(frame, fs.as_slice(), *e, *t),
        Function::Collection(fs, _, t) => kept_collection(frame, fs.as_slice(), *t),
    }
}

/// What keeps nothing.
pub(crate) fn kept_none(frame: Frame<'_>) -> Result<CType, Unbuilt>
    ensures { IfOk result (λ A. (cs : List Callee) → Stands frame.entry cs → KeptIn frame.entry A keeps_none) }
{
    let kept = frame.scope.table.keeps_none()?;
    Ok(kept)
}

/// What function f keeps.
pub(crate) fn kept_same(frame: Frame<'_>, f: usize) -> Result<CType, Unbuilt>
    ensures { IfOk result (λ A. (cs : List Callee) → Stands frame.entry cs → KeptIn frame.entry A (shape_at cs f)) }
{
    let part = frame.callee(f)?;
    Ok(part.kept)
}

/// What functions f and g keep.
pub(crate) fn kept_both(frame: Frame<'_>, f: usize, g: usize) -> Result<CType, Unbuilt>
    ensures { IfOk result (λ A. (cs : List Callee) → Stands frame.entry cs
        → KeptIn frame.entry A (keeps_both (shape_at cs f) (shape_at cs g))) }
{
    let one = frame.callee(f)?;
    let other = frame.callee(g)?;
    let kept = frame.scope.table.keeps_both(one.kept, other.kept)?;
    Ok(kept)
}

/// What members keep.
pub(crate) fn kept_members(frame: Frame<'_>, fs: &[usize]) -> Result<CType, Unbuilt>
    ensures { IfOk result (λ A. (cs : List Callee) → Stands frame.entry cs
        → KeptIn frame.entry A (members_shape (map (shape_at cs) fs.now))) }
{
    let all = frame.kepts(fs)?;
    let kept = frame.scope.table.keeps_members(all.as_slice())?;
    Ok(kept)
}

/// What is fed back, and what function f keeps.
pub(crate) fn kept_fed(frame: Frame<'_>, f: usize) -> Result<CType, Unbuilt>
    ensures { IfOk result (λ A. (cs : List Callee) → Stands frame.entry cs
        → KeptIn frame.entry A (keeps_fed (kept_type (layout_in frame.entry)) (shape_at cs f))) }
{
    let value = frame.kept()?;
    let part = frame.callee(f)?;
    let kept = frame.scope.table.keeps_fed(value, part.kept)?;
    Ok(kept)
}

/// What a cell keeps.
pub(crate) fn kept_cell(frame: Frame<'_>, form: Form) -> Result<CType, Unbuilt>
    ensures { IfOk result (λ A. (cs : List Callee) → Stands frame.entry cs
        → KeptIn frame.entry A (keeps_cell form (kept_type (layout_in frame.entry)))) }
{
    let value = frame.kept()?;
    let kept = frame.scope.table.keeps_cell(form, value)?;
    Ok(kept)
}

/// What a cell without a constant keeps.
pub(crate) fn kept_clock(frame: Frame<'_>, form: Form) -> Result<CType, Unbuilt>
    ensures { IfOk result (λ A. (cs : List Callee) → Stands frame.entry cs
        → KeptIn frame.entry A (keeps_cell form int_ty)) }
{
    let kept = frame.scope.table.keeps_cell(form, INTEGER)?;
    Ok(kept)
}

/// What a switch keeps, of function f until function t takes over.
pub(crate) fn kept_mode(frame: Frame<'_>, f: usize, t: usize) -> Result<CType, Unbuilt>
    ensures { IfOk result (λ A. (cs : List Callee) → Stands frame.entry cs
        → KeptIn frame.entry A (keeps_mode (kept_type (layout_in frame.entry)) (shape_at cs f) (shape_at cs t))) }
{
    let value = frame.kept()?;
    let front = frame.callee(f)?;
    let taker = frame.callee(t)?;
    let kept = frame.scope.table.keeps_mode(value, front.kept, taker.kept)?;
    Ok(kept)
}

/// What a switch keeps that freezes function f, which e watches, and resumes it in t.
pub(crate) fn kept_frozen(frame: Frame<'_>, f: usize, e: usize, t: usize) -> Result<CType, Unbuilt>
    ensures { IfOk result (λ A. (cs : List Callee) → Stands frame.entry cs
        → KeptIn frame.entry A (keeps_mode (kept_type (layout_in frame.entry)) (keeps_both (shape_at cs f) (shape_at cs e))
        (keeps_frozen (shape_at cs f) (shape_at cs t)))) }
{
    let part = frame.callee(f)?;
    let kept = kept_freezing(frame, part.kept, e, t)?;
    Ok(kept)
}

/// The same of members.
pub(crate) fn kept_parallel(
    frame: Frame<'_>,
    fs: &[usize],
    e: usize,
    t: usize,
) -> Result<CType, Unbuilt>
    ensures { IfOk result (λ A. (cs : List Callee) → Stands frame.entry cs
        → KeptIn frame.entry A (keeps_mode (kept_type (layout_in frame.entry))
        (keeps_both (members_shape (map (shape_at cs) fs.now)) (shape_at cs e))
        (keeps_frozen (members_shape (map (shape_at cs) fs.now)) (shape_at cs t)))) }
{
    let members = kept_members(frame, fs)?;
    let kept = kept_freezing(frame, members, e, t)?;
    Ok(kept)
}

/// The same of what keeps this.
fn kept_freezing(frame: Frame<'_>, part: CType, e: usize, t: usize) -> Result<CType, Unbuilt>
    ensures { IfOk result (λ A. (cs : List Callee) (S : Shape) → Stands frame.entry cs → KeptIn frame.entry part S
        → KeptIn frame.entry A (keeps_mode (kept_type (layout_in frame.entry)) (keeps_both S (shape_at cs e))
        (keeps_frozen S (shape_at cs t)))) }
{
    let value = frame.kept()?;
    let watcher = frame.callee(e)?;
    let taker = frame.callee(t)?;
    let front = frame.scope.table.keeps_both(part, watcher.kept)?;
    let frozen = frame.scope.table.keeps_frozen(part, taker.kept)?;
    let kept = frame.scope.table.keeps_mode(value, front, frozen)?;
    Ok(kept)
}

/// What a collection keeps, whose members that a value starts are function t.
pub(crate) fn kept_collection(frame: Frame<'_>, fs: &[usize], t: usize) -> Result<CType, Unbuilt>
    ensures { IfOk result (λ A. (cs : List Callee) → Stands frame.entry cs
        → KeptIn frame.entry A (keeps_collection (kept_type (layout_in frame.entry))
        (members_shape (map (shape_at cs) fs.now)) (shape_at cs t))) }
{
    let value = frame.kept()?;
    let members = frame.kepts(fs)?;
    let started = frame.callee(t)?;
    let alloc = frame.scope.alloc;
    let table = frame.scope.table;
    let kept = table.keeps_collection(alloc, value, members.as_slice(), started.kept)?;
    Ok(kept)
}
