// The code of a network: a function a node, parts before what they are parts of.

ghost use Rattle.std.specs.Prelude.{
  ◌≡◌,
  ◌++◌,
  IfOk,
  MatchOption,
  None,
  Some,
  length,
  map,
  slice_get,
  suc,
};
ghost use Rattle.net_code.specs.CodeOf.{and_body, body_of_old, code_of, emit, emit_all, freezable};
ghost use Rattle.net_code.specs.CodeView.{AddsFunctions, code_in, body_of};
ghost use Rattle.net_code.specs.Bodies.{accum_body, cell_body};
ghost use Rattle.net_code.specs.Running.{latest};
ghost use Rattle.net_tree.specs.Network.{
  at_once,
  delayed,
  first,
  initial_in,
  initial_out,
  k_switch,
  loop_pre,
  p_switch,
  par,
  r_switch,
  rp_switch,
  seq,
  switch,
};
ghost use Rattle.net_tree.specs.NetworkView.{members_of, network_of};

use crate::freezable::Freezable;
use crate::statement::Function;
use cell_core::Form;
use leaf_core::Expr;
use net_tree::{Members, Net, NetChild};
use sample_core::Memory;
use std::alloc::Global;

/// What a network has in scope: so many parameters, and what may be frozen.
#[derive(Clone, Copy)]
pub(crate) struct Around<'a> {
    pub(crate) alloc: Global,
    pub(crate) params: usize,
    pub(crate) freezables: &'a [Freezable],
}

/// The code of a network with nothing in scope. `Memory` if allocation fails, or where more
/// parameters are in scope than can be counted.
pub fn compile(alloc: Global, net: &Net<Expr>) -> Result<Vec<Function>, Memory>
    ensures { IfOk result (λ code. code_in code.items ≡ code_of (network_of net.now)) }
{
    let mut code = Vec::new(alloc);
    let freezables = Vec::new(alloc);
    let around = Around {
        alloc,
        params: 0,
        freezables: freezables.as_slice(),
    };
    emit_net(net, around, &mut code)?;
    Ok(code)
}

/// Adds a function.
fn push_function(code: &mut Vec<Function>, function: Function) -> Result<(), Memory>
    ensures { IfOk result (λ _. code_in code.new.items
        ≡ and_body (code_in code.old.items) (body_of function)) }
{
    code.push(function)?;
    Ok(())
}

/// The number of the last function.
fn latest_of(code: &Vec<Function>) -> usize
    ensures { result ≡ latest (code_in code.now.items) }
{
    code.len().saturating_sub(1)
}

/// Adds the code of a network.
#[cycle(emit)]
fn emit_net(net: &Net<Expr>, around: Around<'_>, code: &mut Vec<Function>) -> Result<(), Memory>
    ensures { IfOk result (λ _. code_in code.new.items
        ≡ emit (network_of net.now) around.entry.params around.entry.freezables.now
        (code_in code.old.items)) }
{
    let alloc = around.alloc;
    match net {
        Net::Arr(e) => push_function(code, Function::Arr(e.try_copy(alloc)?)),
        Net::IPre(c) => push_cell(around, Form::IPre, c, code),
        Net::Delay(q, c) => push_cell(around, Form::Delay(*q), c, code),
        Net::Hold(c) => push_cell(around, Form::Hold, c, code),
        Net::After(q, c) => push_cell(around, Form::After(*q), c, code),
        Net::Repeatedly(q, c) => push_cell(around, Form::Repeatedly(*q), c, code),
        Net::AccumBy(g, z) => push_accum(around, g, z, code),
        Net::Time => push_function(code, Function::Clock(Form::Time)),
        Net::Integral => push_function(code, Function::Clock(Form::Integral)),
        Net::Old(k) => push_old(around, *k, code),
        Net::First(f) => emit_first(f, around, code),
        Net::Par(fs) => emit_par(fs, around, code),
        Net::LoopPre(c, f) => emit_loop(c, f, around, code),
        Net::InitialOut(c, f) => emit_out(c, f, around, code),
        Net::InitialIn(c, f) => emit_in(c, f, around, code),
        Net::Seq(f, g) => emit_seq(f, g, around, code),
        Net::Switch(f, t) => emit_switch(f, t, around, code),
        Net::DSwitch(f, t) => emit_late_switch(f, t, around, code),
        Net::RSwitch(f, t) => emit_restart(f, t, around, code),
        Net::DrSwitch(f, t) => emit_late_restart(f, t, around, code),
        Net::KSwitch(f, e, t) => emit_k_switch(f, e, t, around, code),
        Net::PSwitch(r, fs, e, t) => emit_p_switch(r, fs, e, t, around, code),
        Net::RpSwitch(fs, m, t) => emit_collection(fs, m, t, around, code),
    }
}

/// Adds a cell with a constant.
fn push_cell(
    around: Around<'_>,
    form: Form,
    c: &Expr,
    code: &mut Vec<Function>,
) -> Result<(), Memory>
    ensures { IfOk result (λ _. code_in code.new.items
        ≡ and_body (code_in code.old.items) (cell_body form c.now)) }
{
    let c = c.try_copy(around.alloc)?;
    push_function(code, Function::Cell(form, c))
}

/// Adds an `accumBy`.
fn push_accum(
    around: Around<'_>,
    g: &Expr,
    z: &Expr,
    code: &mut Vec<Function>,
) -> Result<(), Memory>
    ensures { IfOk result (λ _. code_in code.new.items
        ≡ and_body (code_in code.old.items) (accum_body g.now z.now)) }
{
    let z = z.try_copy(around.alloc)?;
    let g = g.try_copy(around.alloc)?;
    push_function(code, Function::Accum(g, z))
}

/// The k-th network that may be frozen, if there is one.
fn freezable_at(freezables: &[Freezable], k: usize) -> Option<Freezable>
    ensures { MatchOption result (slice_get freezables.now k ≡ None)
        (λ p. slice_get freezables.now k ≡ Some p) }
{
    match freezables.get(k) {
        Some(freezable) => Some(*freezable),
        None => None,
    }
}

/// What resumes the frozen network k, or the identity if there is none.
#[tactic(auto, using(crate::proofs::Olds::found, crate::proofs::Olds::absent))]
fn old_or_same(around: Around<'_>, k: usize) -> Function
    ensures { body_of result ≡ body_of_old around.entry.freezables.now k k }
{
    match freezable_at(around.freezables, k) {
        Some(p) => Function::Old(k, p.function, p.params, p.olds),
        None => Function::Same,
    }
}

/// Adds what resumes the frozen network k, or the identity if there is none.
fn push_old(around: Around<'_>, k: u32, code: &mut Vec<Function>) -> Result<(), Memory>
    ensures { IfOk result (λ _. code_in code.new.items
        ≡ and_body (code_in code.old.items) (body_of_old around.entry.freezables.now k k)) }
{
    push_function(code, old_or_same(around, k as usize))
}

/// Adds the code of a network inside a network; its function.
#[cycle(emit)]
fn emit_part(
    f: &NetChild<Expr>,
    around: Around<'_>,
    code: &mut Vec<Function>,
) -> Result<usize, Memory>
    ensures { IfOk result (λ k. (code_in code.new.items
        ≡ emit f.now around.entry.params around.entry.freezables.now (code_in code.old.items))
        × (k ≡ latest (code_in code.new.items))) }
{
    emit_net(f.get(), around, code)?;
    Ok(latest_of(code))
}

/// The same with one parameter more in scope.
#[cycle(emit)]
fn emit_taker(
    t: &NetChild<Expr>,
    around: Around<'_>,
    code: &mut Vec<Function>,
) -> Result<usize, Memory>
    ensures { IfOk result (λ k. (code_in code.new.items
        ≡ emit t.now (suc around.entry.params) around.entry.freezables.now (code_in code.old.items))
        × (k ≡ latest (code_in code.new.items))) }
{
    let params = one_more(around.params)?;
    emit_part(
        t,
        Around {
            alloc: around.alloc,
            params,
            freezables: around.freezables,
        },
        code,
    )
}

/// The same with one parameter more and these functions, frozen, in scope.
#[cycle(emit)]
fn emit_resumer(
    t: &NetChild<Expr>,
    frozen: &[usize],
    around: Around<'_>,
    code: &mut Vec<Function>,
) -> Result<usize, Memory>
    ensures { IfOk result (λ k. (code_in code.new.items
        ≡ emit t.now (suc around.entry.params) (around.entry.freezables.now
        ++ map (freezable around.entry.params (length around.entry.freezables.now)) frozen.now)
        (code_in code.old.items)) × (k ≡ latest (code_in code.new.items))) }
{
    let params = one_more(around.params)?;
    let freezables = with_frozen(around, frozen)?;
    let inner = Around {
        alloc: around.alloc,
        params,
        freezables: freezables.as_slice(),
    };
    emit_part(t, inner, code)
}

/// The next number. `Memory` if there is none.
fn one_more(n: usize) -> Result<usize, Memory>
    ensures { IfOk result (λ m. m ≡ suc n) }
{
    match n.checked_add(1) {
        Some(m) => Ok(m),
        None => Err(Memory),
    }
}

/// What may be frozen, with these functions.
fn with_frozen(around: Around<'_>, frozen: &[usize]) -> Result<Vec<Freezable>, Memory>
    ensures { IfOk result (λ freezables. freezables.items ≡ around.entry.freezables.now
        ++ map (freezable around.entry.params (length around.entry.freezables.now)) frozen.now) }
{
    let mut freezables = Vec::new(around.alloc);
    freezables.extend_from_slice(around.freezables)?;
    for function in frozen {
        let freezable = Freezable {
            function: *function,
            params: around.params,
            olds: around.freezables.len(),
        };
        freezables.push(freezable)?;
    }
    Ok(freezables)
}

/// Adds the code of members; their functions.
#[cycle(emit)]
fn emit_all(
    fs: &Members<Expr>,
    around: Around<'_>,
    code: &mut Vec<Function>,
) -> Result<Vec<usize>, Memory>
    ensures { IfOk result (λ ks. emit_all fs.now around.entry.params around.entry.freezables.now
        (code_in code.old.items) ≡ (code_in code.new.items, ks.items)) }
{
    let mut functions = Vec::new(around.alloc);
    emit_members(fs.as_slice(), around, &mut functions, code)?;
    Ok(functions)
}

/// Adds the code of members, and their functions to others.
#[cycle(emit)]
fn emit_members(
    fs: &[Net<Expr>],
    around: Around<'_>,
    functions: &mut Vec<usize>,
    code: &mut Vec<Function>,
) -> Result<(), Memory>
    ensures { IfOk result (λ _. AddsFunctions
        (emit_all (members_of fs.now) around.entry.params around.entry.freezables.now
        (code_in code.old.items))
        (code_in code.new.items) functions.old.items functions.new.items) }
{
    match fs.split_first() {
        Some((f, others)) => {
            emit_net(f, around, code)?;
            functions.push(latest_of(code))?;
            emit_members(others, around, functions, code)
        }
        None => Ok(()),
    }
}

/// Adds a `>>>`.
#[cycle(emit)]
fn emit_seq(
    f: &NetChild<Expr>,
    g: &NetChild<Expr>,
    around: Around<'_>,
    code: &mut Vec<Function>,
) -> Result<(), Memory>
    ensures { IfOk result (λ _. code_in code.new.items
        ≡ emit (seq f.now g.now) around.entry.params around.entry.freezables.now
        (code_in code.old.items)) }
{
    let f = emit_part(f, around, code)?;
    let g = emit_part(g, around, code)?;
    push_function(code, Function::Seq(f, g))
}

/// Adds a `first`.
#[cycle(emit)]
fn emit_first(
    f: &NetChild<Expr>,
    around: Around<'_>,
    code: &mut Vec<Function>,
) -> Result<(), Memory>
    ensures { IfOk result (λ _. code_in code.new.items
        ≡ emit (first f.now) around.entry.params around.entry.freezables.now (code_in code.old.items)) }
{
    let f = emit_part(f, around, code)?;
    push_function(code, Function::First(f))
}

/// Adds a `parB`.
#[cycle(emit)]
fn emit_par(fs: &Members<Expr>, around: Around<'_>, code: &mut Vec<Function>) -> Result<(), Memory>
    ensures { IfOk result (λ _. code_in code.new.items
        ≡ emit (par fs.now) around.entry.params around.entry.freezables.now (code_in code.old.items)) }
{
    let fs = emit_all(fs, around, code)?;
    push_function(code, Function::Par(fs))
}

/// Adds a `loopPre`.
#[cycle(emit)]
fn emit_loop(
    c: &Expr,
    f: &NetChild<Expr>,
    around: Around<'_>,
    code: &mut Vec<Function>,
) -> Result<(), Memory>
    ensures { IfOk result (λ _. code_in code.new.items
        ≡ emit (loop_pre c.now f.now) around.entry.params around.entry.freezables.now
        (code_in code.old.items)) }
{
    let f = emit_part(f, around, code)?;
    let c = c.try_copy(around.alloc)?;
    push_function(code, Function::Loop(c, f))
}

/// Adds a `-->`.
#[cycle(emit)]
fn emit_out(
    c: &Expr,
    f: &NetChild<Expr>,
    around: Around<'_>,
    code: &mut Vec<Function>,
) -> Result<(), Memory>
    ensures { IfOk result (λ _. code_in code.new.items
        ≡ emit (initial_out c.now f.now) around.entry.params around.entry.freezables.now
        (code_in code.old.items)) }
{
    let f = emit_part(f, around, code)?;
    let c = c.try_copy(around.alloc)?;
    push_function(code, Function::InitialOut(c, f))
}

/// Adds a `>--`.
#[cycle(emit)]
fn emit_in(
    c: &Expr,
    f: &NetChild<Expr>,
    around: Around<'_>,
    code: &mut Vec<Function>,
) -> Result<(), Memory>
    ensures { IfOk result (λ _. code_in code.new.items
        ≡ emit (initial_in c.now f.now) around.entry.params around.entry.freezables.now
        (code_in code.old.items)) }
{
    let f = emit_part(f, around, code)?;
    let c = c.try_copy(around.alloc)?;
    push_function(code, Function::InitialIn(c, f))
}

/// Adds a `switch`.
#[cycle(emit)]
fn emit_switch(
    f: &NetChild<Expr>,
    t: &NetChild<Expr>,
    around: Around<'_>,
    code: &mut Vec<Function>,
) -> Result<(), Memory>
    ensures { IfOk result (λ _. code_in code.new.items
        ≡ emit (switch at_once f.now t.now) around.entry.params around.entry.freezables.now
        (code_in code.old.items)) }
{
    let f = emit_part(f, around, code)?;
    let t = emit_taker(t, around, code)?;
    push_function(code, Function::Switch(f, t))
}

/// Adds a `dSwitch`.
#[cycle(emit)]
fn emit_late_switch(
    f: &NetChild<Expr>,
    t: &NetChild<Expr>,
    around: Around<'_>,
    code: &mut Vec<Function>,
) -> Result<(), Memory>
    ensures { IfOk result (λ _. code_in code.new.items
        ≡ emit (switch delayed f.now t.now) around.entry.params around.entry.freezables.now
        (code_in code.old.items)) }
{
    let f = emit_part(f, around, code)?;
    let t = emit_taker(t, around, code)?;
    push_function(code, Function::DSwitch(f, t))
}

/// Adds an `rSwitch`.
#[cycle(emit)]
fn emit_restart(
    f: &NetChild<Expr>,
    t: &NetChild<Expr>,
    around: Around<'_>,
    code: &mut Vec<Function>,
) -> Result<(), Memory>
    ensures { IfOk result (λ _. code_in code.new.items
        ≡ emit (r_switch at_once f.now t.now) around.entry.params around.entry.freezables.now
        (code_in code.old.items)) }
{
    let f = emit_part(f, around, code)?;
    let t = emit_taker(t, around, code)?;
    push_function(code, Function::RSwitch(f, t))
}

/// Adds a `drSwitch`.
#[cycle(emit)]
fn emit_late_restart(
    f: &NetChild<Expr>,
    t: &NetChild<Expr>,
    around: Around<'_>,
    code: &mut Vec<Function>,
) -> Result<(), Memory>
    ensures { IfOk result (λ _. code_in code.new.items
        ≡ emit (r_switch delayed f.now t.now) around.entry.params around.entry.freezables.now
        (code_in code.old.items)) }
{
    let f = emit_part(f, around, code)?;
    let t = emit_taker(t, around, code)?;
    push_function(code, Function::DrSwitch(f, t))
}

/// Adds a `kSwitch`.
#[cycle(emit)]
fn emit_k_switch(
    f: &NetChild<Expr>,
    e: &NetChild<Expr>,
    t: &NetChild<Expr>,
    around: Around<'_>,
    code: &mut Vec<Function>,
) -> Result<(), Memory>
    ensures { IfOk result (λ _. code_in code.new.items
        ≡ emit (k_switch f.now e.now t.now) around.entry.params around.entry.freezables.now
        (code_in code.old.items)) }
{
    let f = emit_part(f, around, code)?;
    let e = emit_part(e, around, code)?;
    let t = emit_resumer(t, &[f], around, code)?;
    push_function(code, Function::KSwitch(f, e, t))
}

/// Adds a `pSwitch`.
#[cycle(emit)]
fn emit_p_switch(
    r: &Expr,
    fs: &Members<Expr>,
    e: &NetChild<Expr>,
    t: &NetChild<Expr>,
    around: Around<'_>,
    code: &mut Vec<Function>,
) -> Result<(), Memory>
    ensures { IfOk result (λ _. code_in code.new.items
        ≡ emit (p_switch r.now fs.now e.now t.now) around.entry.params around.entry.freezables.now
        (code_in code.old.items)) }
{
    let fs = emit_all(fs, around, code)?;
    let e = emit_part(e, around, code)?;
    let t = emit_resumer(t, fs.as_slice(), around, code)?;
    let r = r.try_copy(around.alloc)?;
    push_function(code, Function::PSwitch(r, fs, e, t))
}

/// Adds an `rpSwitchB`.
#[cycle(emit)]
fn emit_collection(
    fs: &Members<Expr>,
    m: &Expr,
    t: &NetChild<Expr>,
    around: Around<'_>,
    code: &mut Vec<Function>,
) -> Result<(), Memory>
    ensures { IfOk result (λ _. code_in code.new.items
        ≡ emit (rp_switch fs.now m.now t.now) around.entry.params around.entry.freezables.now
        (code_in code.old.items)) }
{
    let fs = emit_all(fs, around, code)?;
    let t = emit_taker(t, around, code)?;
    let m = m.try_copy(around.alloc)?;
    push_function(code, Function::Collection(fs, m, t))
}
