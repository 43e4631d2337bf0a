// Whether a function fits its layout: a test a form, as `specs/Rules` has a rule a form.

ghost use Rattle.std.specs.Prelude.{◌≡◌, ◌≤◌, IfOk, Some, slice_get, take};
ghost use Rattle.sample_core.specs.TypeTree.{int_ty, list_ty, pair_ty};
ghost use Rattle.cell_core.specs.declared.form.Form.TheVariants as C;
ghost use Rattle.net_code.specs.declared.statement.Function.TheVariants as F;
ghost use Rattle.code_fits.specs.declared.types.TypeEntry.TheVariants as R;
ghost use Rattle.code_fits.specs.Rules.{CellTyped, LeafTyped};
ghost use Rattle.code_fits.specs.Parts.{Freezes, IsEvent, IsPair, Restarts, Watches};
ghost use Rattle.code_fits.specs.Tables.{FitsOver, TableHolds, bound_of, tree_at, trees_at};

use crate::around::{
    Around, all_go, answers_many, equal, goes, has, keeps_none, kept, layout_at, leaf, leaf_at,
    leaf_beside, leaf_to, number_at, resumes, same, takes_over,
};
use crate::types::TypeEntry;
use crate::walk::Unlaid;
use cell_core::Form;
use leaf_core::Expr;
use net_code::Function;
use net_tree::{MOST_DELAY, MOST_MEMBERS, MOST_WAIT};
use sample_core::{Ty, TyChild};

/// The function fits its layout, over those of earlier functions.
pub(crate) fn function_fits(around: Around<'_>, function: &Function) -> Result<(), Unlaid>
    ensures { IfOk result (λ _. FitsOver around.entry.types.now around.entry.bounds.now
        around.entry.earlier.now around.entry.layout.now function.now) }
{
    match function {
        Function::Arr(e) => arr(around, e),
        Function::Seq(f, g) => seq(around, *f, *g),
        Function::First(f) => first(around, *f),
        Function::Par(fs) => par(around, fs),
        Function::Loop(c, f) => loop_pre(around, c, *f),
        Function::Cell(form, c) => cell(around, *form, c),
        Function::Clock(form) => clock(around, *form),
        Function::Accum(g, z) => accum(around, g, z),
        Function::Switch(f, t) => switch(around, *f, *t),
        Function::DSwitch(f, t) => d_switch(around, *f, *t),
        Function::RSwitch(f, t) => r_switch(around, *f, *t),
        Function::DrSwitch(f, t) => dr_switch(around, *f, *t),
        Function::KSwitch(f, e, t) => k_switch(around, *f, *e, *t),
        Function::PSwitch(r, fs, e, t) => p_switch(around, r, fs, *e, *t),
        Function::Old(k, f, params, olds) => old(around, *k, *f, *params, *olds),
        Function::Same => identity(around),
        Function::InitialOut(c, f) => initial_out(around, c, *f),
        Function::InitialIn(c, f) => initial_in(around, c, *f),
        Function::Collection(fs, m, t) => collection(around, fs, m, *t),
    }
}

/// `arr`.
fn arr(around: Around<'_>, e: &Expr) -> Result<(), Unlaid>
    ensures { IfOk result (λ _. FitsOver around.entry.types.now around.entry.bounds.now
        around.entry.earlier.now around.entry.layout.now (F.Arr e.now)) }
{
    leaf(around, e, around.layout.input, around.layout.output)?;
    has(around, &[around.layout.output])?;
    keeps_none(around)
}

/// `>>>`.
fn seq(around: Around<'_>, f: usize, g: usize) -> Result<(), Unlaid>
    ensures { IfOk result (λ _. FitsOver around.entry.types.now around.entry.bounds.now
        around.entry.earlier.now around.entry.layout.now (F.Seq f g)) }
{
    let b = layout_at(around.earlier, f)?.output;
    goes(around, f, around.layout.input, b)?;
    goes(around, g, b, around.layout.output)?;
    has(around, &[b, around.layout.output])?;
    keeps_none(around)
}

/// `first`.
fn first(around: Around<'_>, f: usize) -> Result<(), Unlaid>
    ensures { IfOk result (λ _. FitsOver around.entry.types.now around.entry.bounds.now
        around.entry.earlier.now around.entry.layout.now (F.First f)) }
{
    let (a, d) = around.types.parts(around.layout.input)?;
    let (b, e) = around.types.parts(around.layout.output)?;
    same(d, e)?;
    goes(around, f, a, b)?;
    has(around, &[a, b, d, around.layout.output])?;
    keeps_none(around)
}

/// `parB`.
fn par(around: Around<'_>, fs: &Vec<usize>) -> Result<(), Unlaid>
    ensures { IfOk result (λ _. FitsOver around.entry.types.now around.entry.bounds.now
        around.entry.earlier.now around.entry.layout.now (F.Par fs.now)) }
{
    let b = around.types.element(around.layout.output)?;
    let members = fs.as_slice();
    all_go(around, members, around.layout.input, b)?;
    answers_many(around, around.layout.output, members.len())?;
    has(around, &[around.layout.output])?;
    keeps_none(around)
}

/// `loopPre`.
fn loop_pre(around: Around<'_>, c: &Expr, f: usize) -> Result<(), Unlaid>
    ensures { IfOk result (λ _. FitsOver around.entry.types.now around.entry.bounds.now
        around.entry.earlier.now around.entry.layout.now (F.Loop c.now f)) }
{
    let v = kept(around)?;
    let callee = layout_at(around.earlier, f)?;
    let (from, to) = (callee.input, callee.output);
    leaf_at(around, c, &Ty::Unit, v)?;
    goes(around, f, from, to)?;
    pairs(around, from, around.layout.input, v)?;
    pairs(around, to, around.layout.output, v)?;
    has(around, &[v, v, from, to, v, around.layout.output])
}

/// A type of the table is that of pairs of a and b.
fn pairs(around: Around<'_>, k: usize, a: usize, b: usize) -> Result<(), Unlaid>
    ensures { IfOk result (λ _. IsPair around.entry.types.now k a b) }
{
    let (first, second) = around.types.parts(k)?;
    same(first, a)?;
    same(second, b)
}

/// A type of the table is that of events of a.
fn events(around: Around<'_>, k: usize, a: usize) -> Result<(), Unlaid>
    ensures { IfOk result (λ _. IsEvent around.entry.types.now k a) }
{
    let carried = around.types.carried(k)?;
    same(carried, a)
}

/// A cell with a constant.
fn cell(around: Around<'_>, form: Form, c: &Expr) -> Result<(), Unlaid>
    ensures { IfOk result (λ _. FitsOver around.entry.types.now around.entry.bounds.now
        around.entry.earlier.now around.entry.layout.now (F.Cell form c.now)) }
{
    let v = kept(around)?;
    leaf_at(around, c, &Ty::Unit, v)?;
    cell_typed(around, form, v)?;
    has(around, &[v, around.layout.output])
}

/// A cell of the form that keeps values of type v goes from the input's type to the answer's.
fn cell_typed(around: Around<'_>, form: Form, v: usize) -> Result<(), Unlaid>
    ensures { IfOk result (λ _. TableHolds around.entry.types.now → CellTyped form
        (tree_at around.entry.types.now v)
        (tree_at around.entry.types.now around.entry.layout.now.input)
        (tree_at around.entry.types.now around.entry.layout.now.output)) }
{
    match form {
        Form::IPre => previous(around, v),
        Form::Delay(q) => delay(around, q, v),
        Form::Hold => hold(around, v),
        Form::After(q) => after(around, q, v),
        Form::Repeatedly(q) => repeatedly(around, q, v),
        Form::AccumBy | Form::Time | Form::Integral => Err(Unlaid::Untyped),
    }
}

/// `iPre`.
fn previous(around: Around<'_>, v: usize) -> Result<(), Unlaid>
    ensures { IfOk result (λ _. TableHolds around.entry.types.now → CellTyped C.IPre
        (tree_at around.entry.types.now v)
        (tree_at around.entry.types.now around.entry.layout.now.input)
        (tree_at around.entry.types.now around.entry.layout.now.output)) }
{
    same(around.layout.input, v)?;
    same(around.layout.output, v)
}

/// `delay`.
fn delay(around: Around<'_>, q: u64, v: usize) -> Result<(), Unlaid>
    ensures { IfOk result (λ _. TableHolds around.entry.types.now → CellTyped (C.Delay q)
        (tree_at around.entry.types.now v)
        (tree_at around.entry.types.now around.entry.layout.now.input)
        (tree_at around.entry.types.now around.entry.layout.now.output)) }
{
    if q < 1 || q > MOST_DELAY {
        return Err(Unlaid::Untyped);
    }
    same(around.layout.input, v)?;
    same(around.layout.output, v)
}

/// `hold`.
fn hold(around: Around<'_>, v: usize) -> Result<(), Unlaid>
    ensures { IfOk result (λ _. TableHolds around.entry.types.now → CellTyped C.Hold
        (tree_at around.entry.types.now v)
        (tree_at around.entry.types.now around.entry.layout.now.input)
        (tree_at around.entry.types.now around.entry.layout.now.output)) }
{
    events(around, around.layout.input, v)?;
    same(around.layout.output, v)
}

/// `after`.
fn after(around: Around<'_>, q: u64, v: usize) -> Result<(), Unlaid>
    ensures { IfOk result (λ _. TableHolds around.entry.types.now → CellTyped (C.After q)
        (tree_at around.entry.types.now v)
        (tree_at around.entry.types.now around.entry.layout.now.input)
        (tree_at around.entry.types.now around.entry.layout.now.output)) }
{
    if q > MOST_WAIT {
        return Err(Unlaid::Untyped);
    }
    events(around, around.layout.output, v)
}

/// `repeatedly`.
fn repeatedly(around: Around<'_>, q: u64, v: usize) -> Result<(), Unlaid>
    ensures { IfOk result (λ _. TableHolds around.entry.types.now → CellTyped (C.Repeatedly q)
        (tree_at around.entry.types.now v)
        (tree_at around.entry.types.now around.entry.layout.now.input)
        (tree_at around.entry.types.now around.entry.layout.now.output)) }
{
    if q < 1 || q > MOST_WAIT {
        return Err(Unlaid::Untyped);
    }
    events(around, around.layout.output, v)
}

/// A type of the table is that of numbers.
fn is_int(around: Around<'_>, k: usize) -> Result<(), Unlaid>
    ensures { IfOk result (λ _. slice_get around.entry.types.now.entries.items k ≡ Some R.Int) }
{
    match around.types.entries.get(k) {
        Some(TypeEntry::Int) => Ok(()),
        _ => Err(Unlaid::Untyped),
    }
}

/// A cell without a constant.
fn clock(around: Around<'_>, form: Form) -> Result<(), Unlaid>
    ensures { IfOk result (λ _. FitsOver around.entry.types.now around.entry.bounds.now
        around.entry.earlier.now around.entry.layout.now (F.Clock form)) }
{
    match form {
        Form::Time => time(around),
        Form::Integral => integral(around),
        _ => Err(Unlaid::Untyped),
    }
}

/// `time`.
fn time(around: Around<'_>) -> Result<(), Unlaid>
    ensures { IfOk result (λ _. FitsOver around.entry.types.now around.entry.bounds.now
        around.entry.earlier.now around.entry.layout.now (F.Clock C.Time)) }
{
    is_int(around, around.layout.output)?;
    has(around, &[around.layout.output])?;
    keeps_none(around)
}

/// `integral`.
fn integral(around: Around<'_>) -> Result<(), Unlaid>
    ensures { IfOk result (λ _. FitsOver around.entry.types.now around.entry.bounds.now
        around.entry.earlier.now around.entry.layout.now (F.Clock C.Integral)) }
{
    is_int(around, around.layout.output)?;
    is_int(around, around.layout.input)?;
    has(around, &[around.layout.output])?;
    keeps_none(around)
}

/// `accumBy`.
fn accum(around: Around<'_>, g: &Expr, z: &Expr) -> Result<(), Unlaid>
    ensures { IfOk result (λ _. FitsOver around.entry.types.now around.entry.bounds.now
        around.entry.earlier.now around.entry.layout.now (F.Accum g.now z.now)) }
{
    let v = kept(around)?;
    let u = around.types.carried(around.layout.input)?;
    events(around, around.layout.output, v)?;
    leaf_at(around, z, &Ty::Unit, v)?;
    let value = around.types.tree(around.alloc, u)?;
    leaf_beside(around, g, v, value, v)?;
    has(around, &[v, around.layout.output])
}

/// The parts of a switch whose event stands beside what f answers: the types of that answer, of the
/// event, and of what the event carries.
fn watched(around: Around<'_>, f: usize, t: usize) -> Result<(usize, usize, usize), Unlaid>
    ensures { IfOk result (λ w. Watches around.entry.types.now around.entry.earlier.now
        around.entry.layout.now f t w.0 w.1 w.2) }
{
    let by = kept(around)?;
    let answer = layout_at(around.earlier, f)?.output;
    let (b, event) = around.types.parts(answer)?;
    same(b, around.layout.output)?;
    events(around, event, by)?;
    goes(around, f, around.layout.input, answer)?;
    takes_over(around, t, by, around.layout.input, around.layout.output)?;
    Ok((answer, event, by))
}

/// `switch`.
fn switch(around: Around<'_>, f: usize, t: usize) -> Result<(), Unlaid>
    ensures { IfOk result (λ _. FitsOver around.entry.types.now around.entry.bounds.now
        around.entry.earlier.now around.entry.layout.now (F.Switch f t)) }
{
    let (answer, event, _) = watched(around, f, t)?;
    let b = around.layout.output;
    has(around, &[b, answer, b, event, b, b])
}

/// `dSwitch`.
fn d_switch(around: Around<'_>, f: usize, t: usize) -> Result<(), Unlaid>
    ensures { IfOk result (λ _. FitsOver around.entry.types.now around.entry.bounds.now
        around.entry.earlier.now around.entry.layout.now (F.DSwitch f t)) }
{
    let (answer, event, _) = watched(around, f, t)?;
    let b = around.layout.output;
    has(around, &[b, answer, b, event, b, b, b])
}

/// The parts of a switch that restarts, whose event stands beside its input: the types of that
/// input, of the event, and of what the event carries.
fn restarted(around: Around<'_>, f: usize, t: usize) -> Result<(usize, usize, usize), Unlaid>
    ensures { IfOk result (λ w. Restarts around.entry.types.now around.entry.earlier.now
        around.entry.layout.now f t w.0 w.1 w.2) }
{
    let by = kept(around)?;
    let (a, event) = around.types.parts(around.layout.input)?;
    events(around, event, by)?;
    goes(around, f, a, around.layout.output)?;
    takes_over(around, t, by, a, around.layout.output)?;
    Ok((a, event, by))
}

/// `rSwitch`.
fn r_switch(around: Around<'_>, f: usize, t: usize) -> Result<(), Unlaid>
    ensures { IfOk result (λ _. FitsOver around.entry.types.now around.entry.bounds.now
        around.entry.earlier.now around.entry.layout.now (F.RSwitch f t)) }
{
    let (a, event, _) = restarted(around, f, t)?;
    let b = around.layout.output;
    has(around, &[a, event, b, b])
}

/// `drSwitch`.
fn dr_switch(around: Around<'_>, f: usize, t: usize) -> Result<(), Unlaid>
    ensures { IfOk result (λ _. FitsOver around.entry.types.now around.entry.bounds.now
        around.entry.earlier.now around.entry.layout.now (F.DrSwitch f t)) }
{
    let (a, event, _) = restarted(around, f, t)?;
    let b = around.layout.output;
    has(around, &[a, event, b, b, b, b])
}

/// The parts of a switch that freezes these functions: the types of what e gets, of the event, and of
/// what the event carries.
fn frozen(
    around: Around<'_>,
    fs: &[usize],
    e: usize,
    t: usize,
) -> Result<(usize, usize, usize), Unlaid>
    ensures { IfOk result (λ w. Freezes around.entry.types.now around.entry.earlier.now
        around.entry.layout.now fs.now e t w.0 w.1 w.2) }
{
    let by = kept(around)?;
    let (a, b) = (around.layout.input, around.layout.output);
    let callee = layout_at(around.earlier, e)?;
    let (both, event) = (callee.input, callee.output);
    pairs(around, both, a, b)?;
    events(around, event, by)?;
    goes(around, e, both, event)?;
    resumes(around, t, by, fs, a, b)?;
    has(around, &[b, b, both, event, b, b])?;
    Ok((both, event, by))
}

/// `kSwitch`.
fn k_switch(around: Around<'_>, f: usize, e: usize, t: usize) -> Result<(), Unlaid>
    ensures { IfOk result (λ _. FitsOver around.entry.types.now around.entry.bounds.now
        around.entry.earlier.now around.entry.layout.now (F.KSwitch f e t)) }
{
    goes(around, f, around.layout.input, around.layout.output)?;
    frozen(around, &[f], e, t)?;
    Ok(())
}

/// `pSwitch`.
fn p_switch(around: Around<'_>, r: &Expr, fs: &Vec<usize>, e: usize, t: usize) -> Result<(), Unlaid>
    ensures { IfOk result (λ _. FitsOver around.entry.types.now around.entry.bounds.now
        around.entry.earlier.now around.entry.layout.now (F.PSwitch r.now fs.now e t)) }
{
    let b = around.types.element(around.layout.output)?;
    let members = fs.as_slice();
    let d = first_input(around, members)?;
    leaf_beside(around, r, around.layout.input, Ty::Int, d)?;
    all_go(around, members, d, b)?;
    few(members.len())?;
    answers_many(around, around.layout.output, members.len())?;
    frozen(around, members, e, t)?;
    Ok(())
}

/// The input's type of the first of some functions.
fn first_input(around: Around<'_>, fs: &[usize]) -> Result<usize, Unlaid> {
    match fs.first() {
        Some(f) => Ok(layout_at(around.earlier, *f)?.input),
        None => Err(Unlaid::Untyped),
    }
}

/// There are no more members than an `rpSwitchB` may have.
fn few(many: usize) -> Result<(), Unlaid>
    ensures { IfOk result (λ _. many ≤ 64) }
{
    if many <= MOST_MEMBERS {
        Ok(())
    } else {
        Err(Unlaid::Untyped)
    }
}

/// `old` of frozen network k, whose function f has these many parameters and frozen networks in
/// scope.
fn old(around: Around<'_>, k: usize, f: usize, params: usize, olds: usize) -> Result<(), Unlaid>
    ensures { IfOk result (λ _. FitsOver around.entry.types.now around.entry.bounds.now
        around.entry.earlier.now around.entry.layout.now (F.Old k f params olds)) }
{
    let callee = layout_at(around.earlier, f)?;
    same(callee.input, around.layout.input)?;
    same(callee.output, around.layout.output)?;
    starts(
        callee.params.as_slice(),
        around.layout.params.as_slice(),
        params,
    )?;
    starts(callee.olds.as_slice(), around.layout.olds.as_slice(), olds)?;
    stands_at(around.layout.olds.as_slice(), k, f)?;
    has(around, &[around.layout.output])?;
    keeps_none(around)
}

/// Number k of these is f.
fn stands_at(all: &[usize], k: usize, f: usize) -> Result<(), Unlaid>
    ensures { IfOk result (λ _. slice_get all.now k ≡ Some f) }
{
    let known = number_at(all, k)?;
    same(known, f)
}

/// Numbers are the first n of others.
fn starts(front: &[usize], all: &[usize], n: usize) -> Result<(), Unlaid>
    ensures { IfOk result (λ _. front.now ≡ take n all.now) }
{
    if n > all.len() {
        return Err(Unlaid::Untyped);
    }
    equal(front, &all[..n])
}

/// `old` of a frozen network that isn't there.
fn identity(around: Around<'_>) -> Result<(), Unlaid>
    ensures { IfOk result (λ _. FitsOver around.entry.types.now around.entry.bounds.now
        around.entry.earlier.now around.entry.layout.now F.Same) }
{
    same(around.layout.input, around.layout.output)?;
    has(around, &[around.layout.output])?;
    keeps_none(around)
}

/// `-->`.
fn initial_out(around: Around<'_>, c: &Expr, f: usize) -> Result<(), Unlaid>
    ensures { IfOk result (λ _. FitsOver around.entry.types.now around.entry.bounds.now
        around.entry.earlier.now around.entry.layout.now (F.InitialOut c.now f)) }
{
    let b = around.layout.output;
    leaf_at(around, c, &Ty::Unit, b)?;
    goes(around, f, around.layout.input, b)?;
    has(around, &[b, b, b])?;
    keeps_none(around)
}

/// `>--`.
fn initial_in(around: Around<'_>, c: &Expr, f: usize) -> Result<(), Unlaid>
    ensures { IfOk result (λ _. FitsOver around.entry.types.now around.entry.bounds.now
        around.entry.earlier.now around.entry.layout.now (F.InitialIn c.now f)) }
{
    let a = around.layout.input;
    leaf_at(around, c, &Ty::Unit, a)?;
    goes(around, f, a, around.layout.output)?;
    has(around, &[a, a, around.layout.output])?;
    keeps_none(around)
}

/// `rpSwitchB`.
fn collection(around: Around<'_>, fs: &Vec<usize>, m: &Expr, t: usize) -> Result<(), Unlaid>
    ensures { IfOk result (λ _. FitsOver around.entry.types.now around.entry.bounds.now
        around.entry.earlier.now around.entry.layout.now (F.Collection fs.now m.now t)) }
{
    let by = kept(around)?;
    let b = around.types.element(around.layout.output)?;
    let (a, event) = around.types.parts(around.layout.input)?;
    let u = around.types.carried(event)?;
    let members = fs.as_slice();
    all_go(around, members, a, b)?;
    few(members.len())?;
    answers_many(around, around.layout.output, MOST_MEMBERS)?;
    chooses(around, m, u, by)?;
    takes_over(around, t, by, a, b)?;
    has(around, &[around.layout.output])
}

/// The choice of an `rpSwitchB` goes from u to the members that stay, beside what new ones start
/// with.
fn chooses(around: Around<'_>, m: &Expr, u: usize, by: usize) -> Result<(), Unlaid>
    ensures { IfOk result (λ _. LeafTyped (bound_of around.entry.types.now around.entry.bounds.now)
        (trees_at around.entry.types.now around.entry.layout.now.params.items) m.now
        (tree_at around.entry.types.now u)
        (pair_ty (list_ty int_ty) (list_ty (tree_at around.entry.types.now by)))) }
{
    let by = around.types.tree(around.alloc, by)?;
    let stay = Ty::List(TyChild::new(around.alloc, Ty::Int)?);
    let start = Ty::List(TyChild::new(around.alloc, by)?);
    let stay = TyChild::new(around.alloc, stay)?;
    let start = TyChild::new(around.alloc, start)?;
    let input = around.types.tree(around.alloc, u)?;
    leaf_to(around, m, &input, &Ty::Pair(stay, start))
}
