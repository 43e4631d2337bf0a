// The statements of each function.

ghost use Rattle.std.specs.Prelude.{◌≡◌, ◌++◌, IfOk};
ghost use Rattle.net_code.specs.Bodies.{
  accum_body,
  arr_body,
  cell_body,
  clock_body,
  collection_body,
  first_body,
  freezing_body,
  in_body,
  k_switch_body,
  loop_body,
  member_statements,
  old_body,
  out_body,
  p_switch_body,
  par_body,
  r_switch_body,
  same_body,
  seq_body,
  switch_body,
};
ghost use Rattle.net_tree.specs.Network.{at_once, delayed};
ghost use Rattle.net_code.specs.CodeView.{body_of};

use crate::statement::{Action, Effect, Function, Guard, Part, Scope, Statement, When};
use cell_core::Form;
use leaf_core::Expr;
use sample_core::Memory;
use std::alloc::Global;

impl Function {
    /// The function's statements, in order. `Memory` if allocation fails.
    pub fn body(&self, alloc: Global) -> Result<Vec<Statement>, Memory>
        ensures { IfOk result (λ body. body.items ≡ body_of self.now) }
    {
        match self {
            Function::Arr(e) => arr_body(alloc, e),
            Function::Seq(f, g) => seq_body(alloc, *f, *g),
            Function::First(f) => first_body(alloc, *f),
            Function::Par(fs) => par_body(alloc, fs.as_slice()),
            Function::Loop(c, f) => loop_body(alloc, c, *f),
            Function::Cell(form, c) => cell_body(alloc, *form, c),
            Function::Clock(form) => clock_body(alloc, *form),
            Function::Accum(g, z) => accum_body(alloc, g, z),
            Function::Switch(f, t) => switch_body(alloc, *f, *t),
            Function::DSwitch(f, t) => late_switch_body(alloc, *f, *t),
            Function::RSwitch(f, t) => restart_body(alloc, *f, *t),
            Function::DrSwitch(f, t) => late_restart_body(alloc, *f, *t),
            Function::KSwitch(f, e, t) => k_switch_body(alloc, *f, *e, *t),
            Function::PSwitch(r, fs, e, t) => p_switch_body(alloc, r, fs.as_slice(), *e, *t),
            Function::Old(k, f, params, olds) => old_body(alloc, *k, *f, *params, *olds),
            Function::Same => same_body(alloc),
            Function::InitialOut(c, f) => out_body(alloc, c, *f),
            Function::InitialIn(c, f) => in_body(alloc, c, *f),
            Function::Collection(fs, m, t) => collection_body(alloc, fs.as_slice(), m, *t),
        }
    }
}

/// `arr`.
fn arr_body(alloc: Global, e: &Expr) -> Result<Vec<Statement>, Memory>
    ensures { IfOk result (λ body. body.items ≡ arr_body e.now) }
{
    let e = e.try_copy(alloc)?;
    let body = vec![in alloc; Statement::Exit(Guard::Always, Action::Leaf(e, 0))]?;
    Ok(body)
}

/// `>>>` of functions f and g.
fn seq_body(alloc: Global, f: usize, g: usize) -> Result<Vec<Statement>, Memory>
    ensures { IfOk result (λ body. body.items ≡ seq_body f g) }
{
    let body = vec![in alloc;
        Statement::Set(Action::Call(f, Scope::Same, Part::One, When::Now, 0)),
        Statement::Exit(
            Guard::Always,
            Action::Call(g, Scope::Same, Part::Other, When::Now, 1)
        ),
    ]?;
    Ok(body)
}

/// `loopPre`.
fn loop_body(alloc: Global, c: &Expr, f: usize) -> Result<Vec<Statement>, Memory>
    ensures { IfOk result (λ body. body.items ≡ loop_body c.now f) }
{
    let c = c.try_copy(alloc)?;
    let body = vec![in alloc;
        Statement::Set(Action::Constant(c)),
        Statement::Set(Action::FedOr(1)),
        Statement::Set(Action::Pair(0, 2)),
        Statement::Set(Action::Call(f, Scope::Same, Part::Looped, When::Now, 3)),
        Statement::Set(Action::Right(4)),
        Statement::Do(Effect::Feed(5)),
        Statement::Exit(Guard::Always, Action::Left(4)),
    ]?;
    Ok(body)
}

/// `first`.
fn first_body(alloc: Global, f: usize) -> Result<Vec<Statement>, Memory>
    ensures { IfOk result (λ body. body.items ≡ first_body f) }
{
    let body = vec![in alloc;
        Statement::Set(Action::Left(0)),
        Statement::Set(Action::Call(f, Scope::Same, Part::Whole, When::Now, 1)),
        Statement::Set(Action::Right(0)),
        Statement::Exit(Guard::Always, Action::Pair(2, 3)),
    ]?;
    Ok(body)
}

/// A cell with a constant.
fn cell_body(alloc: Global, form: Form, c: &Expr) -> Result<Vec<Statement>, Memory>
    ensures { IfOk result (λ body. body.items ≡ cell_body form c.now) }
{
    let c = c.try_copy(alloc)?;
    let body = vec![in alloc;
        Statement::Set(Action::Constant(c)),
        Statement::Exit(Guard::Always, Action::Cell(form, 1, 0)),
    ]?;
    Ok(body)
}

/// A cell without one.
fn clock_body(alloc: Global, form: Form) -> Result<Vec<Statement>, Memory>
    ensures { IfOk result (λ body. body.items ≡ clock_body form) }
{
    let body = vec![in alloc; Statement::Exit(Guard::Always, Action::Cell(form, 0, 0))]?;
    Ok(body)
}

/// `accumBy`.
fn accum_body(alloc: Global, next: &Expr, first: &Expr) -> Result<Vec<Statement>, Memory>
    ensures { IfOk result (λ body. body.items ≡ accum_body next.now first.now) }
{
    let first = first.try_copy(alloc)?;
    let next = next.try_copy(alloc)?;
    let body = vec![in alloc;
        Statement::Set(Action::Constant(first)),
        Statement::Exit(Guard::Always, Action::Accumulate(next, 1, 0)),
    ]?;
    Ok(body)
}

/// `switch`.
fn switch_body(alloc: Global, f: usize, t: usize) -> Result<Vec<Statement>, Memory>
    ensures { IfOk result (λ body. body.items ≡ switch_body at_once f t) }
{
    let body = vec![in alloc;
        Statement::Do(Effect::Clear),
        Statement::Exit(
            Guard::Taken,
            Action::Call(t, Scope::Value, Part::Taker, When::Now, 0)
        ),
        Statement::Set(Action::Call(f, Scope::Same, Part::Front, When::Now, 0)),
        Statement::Set(Action::Left(1)),
        Statement::Set(Action::Right(1)),
        Statement::Exit(Guard::NoEvent(3), Action::Register(2)),
        Statement::Do(Effect::Take(3)),
        Statement::Exit(
            Guard::Always,
            Action::Call(t, Scope::Value, Part::Taker, When::Start, 0)
        ),
    ]?;
    Ok(body)
}

/// `dSwitch`.
fn late_switch_body(alloc: Global, f: usize, t: usize) -> Result<Vec<Statement>, Memory>
    ensures { IfOk result (λ body. body.items ≡ switch_body delayed f t) }
{
    let body = vec![in alloc;
        Statement::Do(Effect::Clear),
        Statement::Exit(
            Guard::Taken,
            Action::Call(t, Scope::Value, Part::Taker, When::Now, 0)
        ),
        Statement::Set(Action::Call(f, Scope::Same, Part::Front, When::Now, 0)),
        Statement::Set(Action::Left(1)),
        Statement::Set(Action::Right(1)),
        Statement::Exit(Guard::NoEvent(3), Action::Register(2)),
        Statement::Do(Effect::Take(3)),
        Statement::Set(Action::Call(t, Scope::Value, Part::Taker, When::Start, 0)),
        Statement::Exit(Guard::Always, Action::Register(2)),
    ]?;
    Ok(body)
}

/// `rSwitch`.
fn restart_body(alloc: Global, f: usize, t: usize) -> Result<Vec<Statement>, Memory>
    ensures { IfOk result (λ body. body.items ≡ r_switch_body at_once f t) }
{
    let body = vec![in alloc;
        Statement::Do(Effect::Clear),
        Statement::Set(Action::Left(0)),
        Statement::Set(Action::Beside(0)),
        Statement::Exit(Guard::NoEvent(2), Action::GoesOn(f, t, 1)),
        Statement::Do(Effect::Take(2)),
        Statement::Exit(
            Guard::Always,
            Action::Call(t, Scope::Value, Part::Taker, When::Start, 1)
        ),
    ]?;
    Ok(body)
}

/// `drSwitch`.
fn late_restart_body(alloc: Global, f: usize, t: usize) -> Result<Vec<Statement>, Memory>
    ensures { IfOk result (λ body. body.items ≡ r_switch_body delayed f t) }
{
    let body = vec![in alloc;
        Statement::Do(Effect::Clear),
        Statement::Set(Action::Left(0)),
        Statement::Set(Action::Beside(0)),
        Statement::Set(Action::GoesOn(f, t, 1)),
        Statement::Exit(Guard::NoEvent(2), Action::Register(3)),
        Statement::Do(Effect::Take(2)),
        Statement::Set(Action::Call(t, Scope::Value, Part::Taker, When::Start, 1)),
        Statement::Exit(Guard::Always, Action::Register(3)),
    ]?;
    Ok(body)
}

/// The statements of a switch that freezes what it watches, which answers by an action.
fn freezing_body(
    alloc: Global,
    watch: Action,
    scope: Scope,
    e: usize,
    t: usize,
) -> Result<Vec<Statement>, Memory>
    ensures { IfOk result (λ body. body.items ≡ freezing_body watch scope e t) }
{
    let body = vec![in alloc;
        Statement::Do(Effect::Clear),
        Statement::Exit(
            Guard::Taken,
            Action::Call(t, scope, Part::Resumer, When::Now, 0)
        ),
        Statement::Do(Effect::Freeze),
        Statement::Set(watch),
        Statement::Set(Action::Pair(0, 1)),
        Statement::Set(Action::Call(e, Scope::Same, Part::Watcher, When::Now, 2)),
        Statement::Exit(Guard::NoEvent(3), Action::Register(1)),
        Statement::Do(Effect::Take(3)),
        Statement::Exit(
            Guard::Always,
            Action::Call(t, scope, Part::Resumer, When::Start, 0)
        ),
    ]?;
    Ok(body)
}

/// `kSwitch`.
fn k_switch_body(alloc: Global, f: usize, e: usize, t: usize) -> Result<Vec<Statement>, Memory>
    ensures { IfOk result (λ body. body.items ≡ k_switch_body f e t) }
{
    let watch = Action::Call(f, Scope::Same, Part::Watched, When::Now, 0);
    freezing_body(alloc, watch, Scope::Frozen, e, t)
}

/// The statements of members, and others behind them.
fn with_members(
    alloc: Global,
    members: &[usize],
    body: Vec<Statement>,
) -> Result<Vec<Statement>, Memory>
    ensures { IfOk result (λ all. all.items ≡ member_statements members.now ++ body.items) }
{
    let mut body = body;
    let mut all = Vec::new(alloc);
    for member in members.iter() {
        all.push(Statement::Do(Effect::Member(*member)))?;
    }
    all.append(&mut body)?;
    Ok(all)
}

/// `parB`.
fn par_body(alloc: Global, members: &[usize]) -> Result<Vec<Statement>, Memory>
    ensures { IfOk result (λ body. body.items ≡ par_body members.now) }
{
    let body = vec![in alloc; Statement::Exit(Guard::Always, Action::Each(Part::Whole, 0))]?;
    with_members(alloc, members, body)
}

/// `pSwitch`.
fn p_switch_body(
    alloc: Global,
    route: &Expr,
    members: &[usize],
    e: usize,
    t: usize,
) -> Result<Vec<Statement>, Memory>
    ensures { IfOk result (λ body. body.items ≡ p_switch_body route.now members.now e t) }
{
    let route = route.try_copy(alloc)?;
    let watch = Action::Routed(route, Part::Watched, 0);
    let body = freezing_body(alloc, watch, Scope::Members(members.len()), e, t)?;
    with_members(alloc, members, body)
}

/// `rpSwitchB`.
fn collection_body(
    alloc: Global,
    members: &[usize],
    choose: &Expr,
    t: usize,
) -> Result<Vec<Statement>, Memory>
    ensures { IfOk result (λ body. body.items ≡ collection_body members.now choose.now t) }
{
    let choose = choose.try_copy(alloc)?;
    let body = vec![in alloc; Statement::Exit(Guard::Always, Action::Collect(choose, t, 0))]?;
    with_members(alloc, members, body)
}

/// `old` of frozen network k, whose function has so much in scope.
fn old_body(
    alloc: Global,
    k: usize,
    f: usize,
    params: usize,
    olds: usize,
) -> Result<Vec<Statement>, Memory>
    ensures { IfOk result (λ body. body.items ≡ old_body k f params olds) }
{
    let scope = Scope::First(params, olds);
    let body = vec![in alloc;
        Statement::Do(Effect::Resume(k)),
        Statement::Exit(
            Guard::Always,
            Action::Call(f, scope, Part::Whole, When::Now, 0)
        ),
    ]?;
    Ok(body)
}

/// `old` of a frozen network that is not there.
fn same_body(alloc: Global) -> Result<Vec<Statement>, Memory>
    ensures { IfOk result (λ body. body.items ≡ same_body) }
{
    let body = vec![in alloc; Statement::Exit(Guard::Always, Action::Register(0))]?;
    Ok(body)
}

/// `-->`.
fn out_body(alloc: Global, c: &Expr, f: usize) -> Result<Vec<Statement>, Memory>
    ensures { IfOk result (λ body. body.items ≡ out_body c.now f) }
{
    let c = c.try_copy(alloc)?;
    let body = vec![in alloc;
        Statement::Set(Action::Constant(c)),
        Statement::Set(Action::Call(f, Scope::Same, Part::Whole, When::Now, 0)),
        Statement::Exit(Guard::Always, Action::FirstOr(1, 2)),
    ]?;
    Ok(body)
}

/// `>--`.
fn in_body(alloc: Global, c: &Expr, f: usize) -> Result<Vec<Statement>, Memory>
    ensures { IfOk result (λ body. body.items ≡ in_body c.now f) }
{
    let c = c.try_copy(alloc)?;
    let body = vec![in alloc;
        Statement::Set(Action::Constant(c)),
        Statement::Set(Action::FirstOr(1, 0)),
        Statement::Exit(
            Guard::Always,
            Action::Call(f, Scope::Same, Part::Whole, When::Now, 2)
        ),
    ]?;
    Ok(body)
}
