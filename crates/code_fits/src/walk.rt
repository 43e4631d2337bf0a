// The layouts of a network's functions, in the order in which `compile` makes these.

ghost use Rattle.std.specs.Prelude.{◌≡◌, IfOk, map};
ghost use Rattle.sample_core.specs.TypeView.{type_of};
ghost use Rattle.code_fits.specs.Tables.{trees_at};

use crate::around::same;
use crate::layout::Layout;
use crate::types::{TypeEntry, Types};
use leaf_core::{Expr, ExprFault, type_of_expr};
use net_syntax::TypedNet;
use net_tree::{Members, Net, NetChild};
use sample_core::{Memory, OutOfMemory, Ty};
use std::alloc::Global;
use thiserror::Error;

/// Why there are no layouts.
#[derive(Debug, Drop, Error)]
pub enum Unlaid {
    /// A part has not the type that it must have: of a typed network that was never seen.
    #[error("no layout")]
    Untyped,
    /// Allocation failed.
    #[error("memory")]
    Memory,
}

impl<E: OutOfMemory> From<E> for Unlaid {
    fn from(_: E) -> Unlaid {
        Unlaid::Memory
    }
}

/// A frozen network: its function, and its types.
#[derive(Clone, Copy)]
struct Old {
    function: usize,
    input: usize,
    output: usize,
}

/// Where a network stands, and what is in scope there.
#[derive(Clone, Copy)]
struct Frame<'a> {
    alloc: Global,
    position: &'a [u32],
    params: &'a [usize],
    olds: &'a [Old],
}

/// The layouts so far, and the types that occur.
#[derive(Drop)]
pub(crate) struct Layouts {
    pub(crate) types: Types,
    pub(crate) all: Vec<Layout>,
}

/// A part of a node: its function, its output type, and whether it keeps anything.
#[derive(Clone, Copy)]
struct Laid {
    function: usize,
    output: usize,
    keeps: bool,
}

/// The layouts of the functions that `compile` makes of the network, one a function.
pub(crate) fn lay_out(alloc: Global, net: &TypedNet) -> Result<Layouts, Unlaid> {
    let mut to = Layouts {
        types: Types::new(alloc),
        all: Vec::new(alloc),
    };
    let frame = Frame {
        alloc,
        position: &[],
        params: &[],
        olds: &[],
    };
    match lay_whole(frame, net, &mut to) {
        Ok(_) => Ok(to),
        Err(unlaid) => {
            drop(to);
            Err(unlaid)
        }
    }
}

/// Adds the layouts of a network with nothing in scope; its output type.
fn lay_whole(frame: Frame<'_>, net: &TypedNet, to: &mut Layouts) -> Result<usize, Unlaid> {
    let input = to.types.number(frame.alloc, net.input())?;
    lay(frame, net.net(), input, to)
}

/// The numbers, in a vector of their own.
fn numbers(alloc: Global, all: &[usize]) -> Result<Vec<usize>, Memory> {
    let mut copies = Vec::new(alloc);
    copies.extend_from_slice(all)?;
    Ok(copies)
}

/// Adds the layout of a node, whose statements' values have these types; the type of what it answers, that
/// of its last statement.
fn push(
    frame: Frame<'_>,
    input: usize,
    values: &[usize],
    kept: Option<usize>,
    keeps: bool,
    to: &mut Layouts,
) -> Result<usize, Unlaid> {
    let Some(output) = values.last() else {
        return Err(Unlaid::Untyped);
    };
    let layout = new_layout(frame, input, *output, values, kept, keeps)?;
    to.all.push(layout)?;
    Ok(*output)
}

/// The layout of a node.
fn new_layout(
    frame: Frame<'_>,
    input: usize,
    output: usize,
    values: &[usize],
    kept: Option<usize>,
    keeps: bool,
) -> Result<Layout, Memory> {
    let mut position = Vec::new(frame.alloc);
    position.extend_from_slice(frame.position)?;
    let mut olds = Vec::new(frame.alloc);
    for old in frame.olds {
        olds.push(old.function)?;
    }
    let params = numbers(frame.alloc, frame.params)?;
    let values = numbers(frame.alloc, values)?;
    Ok(Layout {
        position,
        params,
        olds,
        input,
        output,
        values,
        kept,
        keeps,
    })
}

/// The type of an expression at an input of the type.
fn leaf(frame: Frame<'_>, input: usize, e: &Expr, to: &mut Layouts) -> Result<usize, Unlaid> {
    let ty = leaf_tree(frame, input, e, &to.types)?;
    let number = to.types.number(frame.alloc, &ty);
    drop(ty);
    Ok(number?)
}

/// The same as a tree.
fn leaf_tree(frame: Frame<'_>, input: usize, e: &Expr, types: &Types) -> Result<Ty, Unlaid> {
    let params = trees(frame.alloc, frame.params, types)?;
    let input = match types.tree(frame.alloc, input) {
        Ok(input) => input,
        Err(Memory) => {
            drop(params);
            return Err(Unlaid::Memory);
        }
    };
    let found = type_of_expr(frame.alloc, params.as_slice(), &input, e);
    drop(input);
    drop(params);
    match found {
        Ok(ty) => Ok(ty),
        Err(ExprFault::Memory) => Err(Unlaid::Memory),
        Err(_) => Err(Unlaid::Untyped),
    }
}

/// Types as trees.
pub(crate) fn trees(alloc: Global, numbers: &[usize], types: &Types) -> Result<Vec<Ty>, Memory>
    ensures { IfOk result (λ all. map type_of all.items ≡ trees_at types.now numbers.now) }
{
    let mut all = Vec::new(alloc);
    for number in numbers {
        all.push(types.tree(alloc, *number)?)?;
    }
    Ok(all)
}

/// The type of a constant.
fn constant(frame: Frame<'_>, c: &Expr, to: &mut Layouts) -> Result<usize, Unlaid> {
    let unit = to.types.entry_number(frame.alloc, TypeEntry::Unit)?;
    leaf(frame, unit, c, to)
}

/// The type of pairs of these.
fn pair(frame: Frame<'_>, a: usize, b: usize, to: &mut Layouts) -> Result<usize, Memory> {
    to.types.entry_number(frame.alloc, TypeEntry::Pair(a, b))
}

/// The position of child k.
fn below(frame: Frame<'_>, k: u32) -> Result<Vec<u32>, Memory> {
    let mut position = Vec::new(frame.alloc);
    position.extend_from_slice(frame.position)?;
    position.push(k)?;
    Ok(position)
}

/// The parameters with one more.
fn and_param(frame: Frame<'_>, by: usize) -> Result<Vec<usize>, Memory> {
    let mut params = Vec::new(frame.alloc);
    params.extend_from_slice(frame.params)?;
    params.push(by)?;
    Ok(params)
}

/// Networks that are frozen together, the number of the child behind them, and their types.
#[derive(Clone, Copy)]
struct Frozen<'a> {
    functions: &'a [usize],
    behind: u32,
    input: usize,
    output: usize,
}

/// What watches the parts of a switch, and what takes over from it.
#[derive(Clone, Copy)]
struct Rest<'n> {
    watch: &'n Net<Expr>,
    over: &'n Net<Expr>,
}

/// The frozen networks in scope with these more.
fn and_olds(frame: Frame<'_>, frozen: Frozen<'_>) -> Result<Vec<Old>, Memory> {
    let mut olds = Vec::new(frame.alloc);
    olds.extend_from_slice(frame.olds)?;
    for function in frozen.functions {
        olds.push(Old {
            function: *function,
            input: frozen.input,
            output: frozen.output,
        })?;
    }
    Ok(olds)
}

/// Adds the layouts of a network; its function, its output type, and whether it keeps anything.
#[cycle(lay)]
fn lay_part(
    frame: Frame<'_>,
    f: &Net<Expr>,
    input: usize,
    to: &mut Layouts,
) -> Result<Laid, Unlaid> {
    let output = lay(frame, f, input, to)?;
    let keeps = match to.all.as_slice().last() {
        Some(layout) => layout.keeps,
        None => false,
    };
    Ok(Laid {
        function: to.all.len().saturating_sub(1),
        output,
        keeps,
    })
}

/// Adds the layouts of child k, with the same in scope.
#[cycle(lay)]
fn part(
    frame: Frame<'_>,
    k: u32,
    f: &Net<Expr>,
    input: usize,
    to: &mut Layouts,
) -> Result<Laid, Unlaid> {
    let position = below(frame, k)?;
    let inner = Frame {
        position: position.as_slice(),
        ..frame
    };
    lay_part(inner, f, input, to)
}

/// Adds the layouts of child k, which gets one parameter more.
#[cycle(lay)]
fn taker(
    frame: Frame<'_>,
    k: u32,
    t: &Net<Expr>,
    by: usize,
    input: usize,
    to: &mut Layouts,
) -> Result<Laid, Unlaid> {
    let params = and_param(frame, by)?;
    let inner = Frame {
        params: params.as_slice(),
        ..frame
    };
    part(inner, k, t, input, to)
}

/// Adds the layouts of what takes over, the second child behind frozen networks, which gets one
/// parameter more and these networks.
#[cycle(lay)]
fn resumer(
    frame: Frame<'_>,
    frozen: Frozen<'_>,
    t: &Net<Expr>,
    by: usize,
    input: usize,
    to: &mut Layouts,
) -> Result<Laid, Unlaid> {
    let olds = and_olds(frame, frozen)?;
    let inner = Frame {
        olds: olds.as_slice(),
        ..frame
    };
    taker(inner, frozen.behind.saturating_add(1), t, by, input, to)
}

/// Adds the layouts of a network; its output type.
#[cycle(lay)]
fn lay(frame: Frame<'_>, net: &Net<Expr>, input: usize, to: &mut Layouts) -> Result<usize, Unlaid> {
    match net {
        Net::Arr(e) => lay_arr(frame, e, input, to),
        Net::IPre(c) | Net::Delay(_, c) => lay_delayed(frame, c, input, to),
        Net::Hold(c) => lay_hold(frame, c, input, to),
        Net::AccumBy(g, z) => lay_accum(frame, g, z, input, to),
        Net::After(_, c) | Net::Repeatedly(_, c) => lay_timer(frame, c, input, to),
        Net::Time | Net::Integral => lay_clock(frame, input, to),
        Net::Old(k) => lay_old(frame, *k, input, to),
        Net::First(f) => lay_first(frame, f, input, to),
        Net::Par(fs) => lay_par(frame, fs, input, to),
        Net::LoopPre(c, f) => lay_loop(frame, c, f, input, to),
        Net::InitialOut(c, f) => lay_initial(frame, c, f, input, false, to),
        Net::InitialIn(c, f) => lay_initial(frame, c, f, input, true, to),
        Net::Seq(f, g) => lay_seq(frame, f, g, input, to),
        Net::Switch(f, t) => lay_switch(frame, f, t, input, false, to),
        Net::DSwitch(f, t) => lay_switch(frame, f, t, input, true, to),
        Net::RSwitch(f, t) => lay_restart(frame, f, t, input, false, to),
        Net::DrSwitch(f, t) => lay_restart(frame, f, t, input, true, to),
        Net::KSwitch(f, e, t) => lay_k_switch(frame, f, e, t, input, to),
        Net::PSwitch(r, fs, e, t) => {
            let rest = Rest {
                watch: e.get(),
                over: t.get(),
            };
            lay_p_switch(frame, r, fs, rest, input, to)
        }
        Net::RpSwitch(fs, m, t) => lay_collection(frame, fs, m, t, input, to),
    }
}

/// `arr`.
fn lay_arr(frame: Frame<'_>, e: &Expr, input: usize, to: &mut Layouts) -> Result<usize, Unlaid> {
    let output = leaf(frame, input, e, to)?;
    push(frame, input, &[output], None, false, to)
}

/// `iPre`, `delay`.
fn lay_delayed(
    frame: Frame<'_>,
    c: &Expr,
    input: usize,
    to: &mut Layouts,
) -> Result<usize, Unlaid> {
    let kept = constant(frame, c, to)?;
    same(kept, input)?;
    push(frame, input, &[kept, kept], Some(kept), true, to)
}

/// `hold`.
fn lay_hold(frame: Frame<'_>, c: &Expr, input: usize, to: &mut Layouts) -> Result<usize, Unlaid> {
    let kept = constant(frame, c, to)?;
    same(kept, to.types.carried(input)?)?;
    push(frame, input, &[kept, kept], Some(kept), true, to)
}

/// `accumBy`.
fn lay_accum(
    frame: Frame<'_>,
    g: &Expr,
    z: &Expr,
    input: usize,
    to: &mut Layouts,
) -> Result<usize, Unlaid> {
    let kept = constant(frame, z, to)?;
    let value = to.types.carried(input)?;
    let both = pair(frame, kept, value, to)?;
    same(leaf(frame, both, g, to)?, kept)?;
    let output = to.types.entry_number(frame.alloc, TypeEntry::Event(kept))?;
    push(frame, input, &[kept, output], Some(kept), true, to)
}

/// `after`, `repeatedly`.
fn lay_timer(frame: Frame<'_>, c: &Expr, input: usize, to: &mut Layouts) -> Result<usize, Unlaid> {
    let kept = constant(frame, c, to)?;
    let output = to.types.entry_number(frame.alloc, TypeEntry::Event(kept))?;
    push(frame, input, &[kept, output], Some(kept), true, to)
}

/// `time`, `integral`.
fn lay_clock(frame: Frame<'_>, input: usize, to: &mut Layouts) -> Result<usize, Unlaid> {
    let int = to.types.entry_number(frame.alloc, TypeEntry::Int)?;
    push(frame, input, &[int], None, true, to)
}

/// `old`.
fn lay_old(frame: Frame<'_>, k: u32, input: usize, to: &mut Layouts) -> Result<usize, Unlaid> {
    let Some(old) = frame.olds.get(k as usize) else {
        return Err(Unlaid::Untyped);
    };
    same(old.input, input)?;
    let Some(frozen) = to.all.get(old.function) else {
        return Err(Unlaid::Untyped);
    };
    let keeps = frozen.keeps;
    push(frame, input, &[old.output], None, keeps, to)
}

/// `first`.
#[cycle(lay)]
fn lay_first(
    frame: Frame<'_>,
    f: &NetChild<Expr>,
    input: usize,
    to: &mut Layouts,
) -> Result<usize, Unlaid> {
    let (a, c) = to.types.parts(input)?;
    let f = part(frame, 0, f.get(), a, to)?;
    let output = pair(frame, f.output, c, to)?;
    push(frame, input, &[a, f.output, c, output], None, f.keeps, to)
}

/// `>>>`.
#[cycle(lay)]
fn lay_seq(
    frame: Frame<'_>,
    f: &NetChild<Expr>,
    g: &NetChild<Expr>,
    input: usize,
    to: &mut Layouts,
) -> Result<usize, Unlaid> {
    let f = part(frame, 0, f.get(), input, to)?;
    let g = part(frame, 1, g.get(), f.output, to)?;
    push(
        frame,
        input,
        &[f.output, g.output],
        None,
        f.keeps || g.keeps,
        to,
    )
}

/// `loopPre`.
#[cycle(lay)]
fn lay_loop(
    frame: Frame<'_>,
    c: &Expr,
    f: &NetChild<Expr>,
    input: usize,
    to: &mut Layouts,
) -> Result<usize, Unlaid> {
    let fed = constant(frame, c, to)?;
    let both = pair(frame, input, fed, to)?;
    let f = part(frame, 1, f.get(), both, to)?;
    let (output, next) = to.types.parts(f.output)?;
    same(next, fed)?;
    let values = [fed, fed, both, f.output, fed, output];
    push(frame, input, &values, Some(fed), true, to)
}

/// `-->`, and `>--`, whose constant is an input.
#[cycle(lay)]
fn lay_initial(
    frame: Frame<'_>,
    c: &Expr,
    f: &NetChild<Expr>,
    input: usize,
    inside: bool,
    to: &mut Layouts,
) -> Result<usize, Unlaid> {
    let first = constant(frame, c, to)?;
    let f = part(frame, 1, f.get(), input, to)?;
    if inside {
        same(first, input)?;
        return push(frame, input, &[first, first, f.output], None, f.keeps, to);
    }
    same(first, f.output)?;
    push(frame, input, &[first, first, first], None, f.keeps, to)
}

/// `switch`, and `dSwitch`, which is late.
#[cycle(lay)]
fn lay_switch(
    frame: Frame<'_>,
    f: &NetChild<Expr>,
    t: &NetChild<Expr>,
    input: usize,
    late: bool,
    to: &mut Layouts,
) -> Result<usize, Unlaid> {
    let f = part(frame, 0, f.get(), input, to)?;
    let (b, event) = to.types.parts(f.output)?;
    let by = to.types.carried(event)?;
    let t = taker(frame, 1, t.get(), by, input, to)?;
    same(t.output, b)?;
    if late {
        let values = [b, f.output, b, event, b, b, b];
        return push(frame, input, &values, Some(by), true, to);
    }
    push(
        frame,
        input,
        &[b, f.output, b, event, b, b],
        Some(by),
        true,
        to,
    )
}

/// `rSwitch`, and `drSwitch`, which is late.
#[cycle(lay)]
fn lay_restart(
    frame: Frame<'_>,
    f: &NetChild<Expr>,
    t: &NetChild<Expr>,
    input: usize,
    late: bool,
    to: &mut Layouts,
) -> Result<usize, Unlaid> {
    let (d, event) = to.types.parts(input)?;
    let by = to.types.carried(event)?;
    let f = part(frame, 0, f.get(), d, to)?;
    let t = taker(frame, 1, t.get(), by, d, to)?;
    let b = f.output;
    same(t.output, b)?;
    if late {
        return push(frame, input, &[d, event, b, b, b, b], Some(by), true, to);
    }
    push(frame, input, &[d, event, b, b], Some(by), true, to)
}

/// `kSwitch`.
#[cycle(lay)]
fn lay_k_switch(
    frame: Frame<'_>,
    f: &NetChild<Expr>,
    e: &NetChild<Expr>,
    t: &NetChild<Expr>,
    input: usize,
    to: &mut Layouts,
) -> Result<usize, Unlaid> {
    let f = part(frame, 0, f.get(), input, to)?;
    let functions = [f.function];
    let frozen = Frozen {
        functions: &functions,
        behind: 1,
        input,
        output: f.output,
    };
    let rest = Rest {
        watch: e.get(),
        over: t.get(),
    };
    lay_frozen(frame, frozen, rest, f.output, input, to)
}

/// A switch that freezes its parts, which answer values of a type.
#[cycle(lay)]
fn lay_frozen(
    frame: Frame<'_>,
    frozen: Frozen<'_>,
    rest: Rest<'_>,
    b: usize,
    input: usize,
    to: &mut Layouts,
) -> Result<usize, Unlaid> {
    let both = pair(frame, input, b, to)?;
    let e = part(frame, frozen.behind, rest.watch, both, to)?;
    let by = to.types.carried(e.output)?;
    let t = resumer(frame, frozen, rest.over, by, input, to)?;
    same(t.output, b)?;
    push(
        frame,
        input,
        &[b, b, both, e.output, b, b],
        Some(by),
        true,
        to,
    )
}

/// `pSwitch`.
#[cycle(lay)]
fn lay_p_switch(
    frame: Frame<'_>,
    r: &Expr,
    fs: &Members<Expr>,
    rest: Rest<'_>,
    input: usize,
    to: &mut Layouts,
) -> Result<usize, Unlaid> {
    let int = to.types.entry_number(frame.alloc, TypeEntry::Int)?;
    let numbered = pair(frame, input, int, to)?;
    let routed = leaf(frame, numbered, r, to)?;
    let mut functions = Vec::new(frame.alloc);
    let members = lay_members(frame, 1, fs.as_slice(), routed, &mut functions, to)?;
    let frozen = Frozen {
        functions: functions.as_slice(),
        behind: members.behind,
        input: routed,
        output: members.output,
    };
    let b = to
        .types
        .entry_number(frame.alloc, TypeEntry::List(members.output))?;
    lay_frozen(frame, frozen, rest, b, input, to)
}

/// Members: the number of the child behind them, their one output type, and whether one keeps
/// anything.
#[derive(Clone, Copy)]
struct LaidMembers {
    behind: u32,
    output: usize,
    keeps: bool,
}

/// Adds the layouts of members, of which the first is child k, and their functions to others.
#[cycle(lay)]
fn lay_members(
    frame: Frame<'_>,
    k: u32,
    fs: &[Net<Expr>],
    input: usize,
    functions: &mut Vec<usize>,
    to: &mut Layouts,
) -> Result<LaidMembers, Unlaid> {
    let Some((f, others)) = fs.split_first() else {
        return Err(Unlaid::Untyped);
    };
    let first = part(frame, k, f, input, to)?;
    functions.push(first.function)?;
    let behind = k.saturating_add(1);
    if others.is_empty() {
        return Ok(LaidMembers {
            behind,
            output: first.output,
            keeps: first.keeps,
        });
    }
    let more = lay_members(frame, behind, others, input, functions, to)?;
    same(more.output, first.output)?;
    Ok(LaidMembers {
        behind: more.behind,
        output: more.output,
        keeps: first.keeps || more.keeps,
    })
}

/// `parB`.
#[cycle(lay)]
fn lay_par(
    frame: Frame<'_>,
    fs: &Members<Expr>,
    input: usize,
    to: &mut Layouts,
) -> Result<usize, Unlaid> {
    let mut functions = Vec::new(frame.alloc);
    let members = lay_members(frame, 0, fs.as_slice(), input, &mut functions, to)?;
    let output = to
        .types
        .entry_number(frame.alloc, TypeEntry::List(members.output))?;
    push(frame, input, &[output], None, members.keeps, to)
}

/// `rpSwitchB`.
#[cycle(lay)]
fn lay_collection(
    frame: Frame<'_>,
    fs: &Members<Expr>,
    m: &Expr,
    t: &NetChild<Expr>,
    input: usize,
    to: &mut Layouts,
) -> Result<usize, Unlaid> {
    let (d, event) = to.types.parts(input)?;
    let mut functions = Vec::new(frame.alloc);
    let members = lay_members(frame, 0, fs.as_slice(), d, &mut functions, to)?;
    let by = started(frame, event, m, to)?;
    let t = taker(frame, members.behind.saturating_add(1), t.get(), by, d, to)?;
    same(t.output, members.output)?;
    let output = to
        .types
        .entry_number(frame.alloc, TypeEntry::List(members.output))?;
    push(frame, input, &[output], Some(by), true, to)
}

/// The type of the values that the choice of an `rpSwitchB` starts new members with.
fn started(frame: Frame<'_>, event: usize, m: &Expr, to: &mut Layouts) -> Result<usize, Unlaid> {
    let value = to.types.carried(event)?;
    let chosen = leaf(frame, value, m, to)?;
    let (kept, made) = to.types.parts(chosen)?;
    let int = to.types.entry_number(frame.alloc, TypeEntry::Int)?;
    same(to.types.element(kept)?, int)?;
    to.types.element(made)
}
