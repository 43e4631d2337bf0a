// The network with another tree at a position.

ghost use Rattle.std.specs.Prelude.{◌≡◌, [], IfOk, Some, None, if◌then◌else◌, false, option_map, true};
ghost use Rattle.leaf_core.specs.{Expression.Expression, ExpressionView.expression_of};
ghost use Rattle.net_tree.specs.Network.{Network, p_switch, rp_switch};
ghost use Rattle.net_tree.specs.NetworkView.{network_of, tree, tree_of, trees};
ghost use Rattle.net_tree.specs.{LawStep.part_of, Place.a_leaf, Place.a_network};
ghost use Rattle.net_syntax.specs.{ChildParts.if_there, Placed.replaced, Placed.with_child, Placed.with_member};

use crate::place::{StandsBehind, child, kind_behind};
use leaf_core::{Expr, with_part_at};
use net_tree::{Members, Net, NetChild, Position, Tree, TreeRef};
use sample_core::Memory;
use std::alloc::Global;
use std::mem::replace as exchanged;

/// The network with the other tree at the position; `None` if the position isn't there, and where
/// what stands there is of another kind than the tree. The parts that stay are shared. `Memory` if
/// allocation fails.
pub fn replace(
    alloc: Global,
    net: &Net<Expr>,
    position: &Position,
    other: &Tree,
) -> Result<Option<Net<Expr>>, Memory>
    ensures { IfOk result (λ found. option_map (λ n. a_network (tree_of n)) found
        ≡ replaced (a_network (tree_of net.now)) position.now (part_of other.now)) }
{
    replaced_below(alloc, net, position.path(), other)
}

/// The network with the other tree at a path from it.
fn replaced_below(
    alloc: Global,
    net: &Net<Expr>,
    path: &[u32],
    other: &Tree,
) -> Result<Option<Net<Expr>>, Memory>
    ensures { IfOk result (λ found. option_map (λ n. a_network (tree_of n)) found
        ≡ replaced (a_network (tree_of net.now)) path.now (part_of other.now)) }
{
    let Some((k, rest)) = path.split_first() else {
        return whole(alloc, other);
    };
    match child(net, *k) {
        Some(TreeRef::Net(inner)) => match replaced_below(alloc, inner, rest, other)? {
            Some(changed) => with_child(alloc, net, *k, Tree::Net(changed)),
            None => Ok(None),
        },
        Some(TreeRef::Expr(inner)) => match replaced_in(alloc, inner, rest, other)? {
            Some(changed) => with_child(alloc, net, *k, Tree::Expr(changed)),
            None => Ok(None),
        },
        None => Ok(None),
    }
}

/// A copy of the tree, where it is a network.
fn whole(alloc: Global, other: &Tree) -> Result<Option<Net<Expr>>, Memory>
    ensures { (net : Network Expression) → IfOk result
        (λ found. option_map (λ n. a_network (tree_of n)) found
        ≡ replaced (a_network net) [] (part_of other.now)) }
{
    match other {
        Tree::Net(net) => Ok(Some(net.try_copy(alloc)?)),
        Tree::Expr(_) => Ok(None),
    }
}

/// The expression with the tree at a path in it, where the tree is an expression.
fn replaced_in(
    alloc: Global,
    expr: &Expr,
    path: &[u32],
    other: &Tree,
) -> Result<Option<Expr>, Memory>
    ensures { IfOk result (λ found. option_map (λ e. a_leaf (expression_of e)) found
        ≡ replaced (a_leaf (expression_of expr.now)) path.now (part_of other.now)) }
{
    match other {
        Tree::Expr(other) => with_part_at(alloc, expr, path, other),
        Tree::Net(_) => Ok(None),
    }
}

/// The network with the tree as child k; `None` if child k isn't there or is of another kind.
fn with_child(
    alloc: Global,
    net: &Net<Expr>,
    k: u32,
    other: Tree,
) -> Result<Option<Net<Expr>>, Memory>
    ensures { IfOk result (λ found. option_map tree_of found
        ≡ with_child (tree_of net.now) k (part_of other)) }
{
    let mut changed = net.try_copy(alloc)?;
    let is_there = match other {
        Tree::Net(other) => put_net(alloc, &mut changed, k, other)?,
        Tree::Expr(other) => put_leaf(&mut changed, k, other),
    };
    if is_there {
        return Ok(Some(changed));
    }
    Ok(None)
}

/// Puts the expression in place of child k; whether that is an expression.
fn put_leaf(net: &mut Net<Expr>, k: u32, other: Expr) -> bool
    ensures { if_there result (tree_of net.new)
        ≡ with_child (tree_of net.old) k (a_leaf (expression_of other)) }
{
    // Each arm returns, so that each is proved by itself.
    match (net, k) {
        (Net::Arr(e), 0) => return put(e, other),
        (Net::LoopPre(c, _), 0) => return put(c, other),
        (Net::IPre(c), 0) => return put(c, other),
        (Net::Delay(_, c), 0) => return put(c, other),
        (Net::Hold(c), 0) => return put(c, other),
        (Net::AccumBy(g, _), 0) => return put(g, other),
        (Net::AccumBy(_, z), 1) => return put(z, other),
        (Net::After(_, c), 0) => return put(c, other),
        (Net::Repeatedly(_, c), 0) => return put(c, other),
        (Net::PSwitch(r, _, _, _), 0) => return put(r, other),
        (Net::InitialOut(c, _), 0) => return put(c, other),
        (Net::InitialIn(c, _), 0) => return put(c, other),
        (Net::RpSwitch(fs, m, _), k) => return put_choice(fs, m, k, other),
        _ => return put_nowhere(other),
    }
}

/// Puts the expression in place of the choice of an `rpSwitchB`, where that is child k.
fn put_choice(fs: &Members<Expr>, m: &mut Expr, k: u32, other: Expr) -> bool
    ensures { (t : Network Expression)
        → if_there result (rp_switch (trees fs.now) (expression_of m.new) t)
        ≡ with_child (rp_switch (trees fs.now) (expression_of m.old) t) k
        (a_leaf (expression_of other)) }
{
    match kind_behind(fs, k) {
        StandsBehind::Event => put(m, other),
        _ => put_nowhere(other),
    }
}

/// Puts the network in place of child k; whether that is a network.
fn put_net(alloc: Global, net: &mut Net<Expr>, k: u32, other: Net<Expr>) -> Result<bool, Memory>
    ensures { IfOk result (λ is_there. if_there is_there (tree_of net.new)
        ≡ with_child (tree_of net.old) k (a_network (tree_of other))) }
{
    // Each arm returns, so that each is proved by itself.
    match (net, k) {
        (Net::Seq(f, _), 0) => return put_child(alloc, f, other),
        (Net::Seq(_, g), 1) => return put_child(alloc, g, other),
        (Net::First(f), 0) => return put_child(alloc, f, other),
        (Net::Par(fs), k) => return put_member(alloc, fs, k, other),
        (Net::LoopPre(_, f), 1) => return put_child(alloc, f, other),
        (Net::Switch(f, _), 0) => return put_child(alloc, f, other),
        (Net::Switch(_, t), 1) => return put_child(alloc, t, other),
        (Net::DSwitch(f, _), 0) => return put_child(alloc, f, other),
        (Net::DSwitch(_, t), 1) => return put_child(alloc, t, other),
        (Net::RSwitch(f, _), 0) => return put_child(alloc, f, other),
        (Net::RSwitch(_, t), 1) => return put_child(alloc, t, other),
        (Net::KSwitch(f, _, _), 0) => return put_child(alloc, f, other),
        (Net::KSwitch(_, e, _), 1) => return put_child(alloc, e, other),
        (Net::KSwitch(_, _, t), 2) => return put_child(alloc, t, other),
        (Net::PSwitch(_, fs, e, t), k) => return put_behind(alloc, fs, e, t, k, other),
        (Net::InitialOut(_, f), 1) => return put_child(alloc, f, other),
        (Net::InitialIn(_, f), 1) => return put_child(alloc, f, other),
        (Net::DrSwitch(f, _), 0) => return put_child(alloc, f, other),
        (Net::DrSwitch(_, t), 1) => return put_child(alloc, t, other),
        (Net::RpSwitch(fs, _, t), k) => return put_in_collection(alloc, fs, t, k, other),
        _ => return Ok(put_nowhere(other)),
    }
}

/// Puts the network in place of child k of a `pSwitch`, where that is a network.
fn put_behind(
    alloc: Global,
    fs: &mut Members<Expr>,
    e: &mut NetChild<Expr>,
    t: &mut NetChild<Expr>,
    k: u32,
    other: Net<Expr>,
) -> Result<bool, Memory>
    ensures { (r : Expression) → IfOk result (λ is_there.
        if_there is_there (p_switch r (trees fs.new) (tree e.new) (tree t.new))
        ≡ with_child (p_switch r (trees fs.old) (tree e.old) (tree t.old)) k
        (a_network (tree_of other))) }
{
    if k == 0 {
        return Ok(put_nowhere(other));
    }
    match kind_behind(fs, k - 1) {
        StandsBehind::Member => put_member(alloc, fs, k - 1, other),
        StandsBehind::Event => put_child(alloc, e, other),
        StandsBehind::Continuation => put_child(alloc, t, other),
        StandsBehind::Nothing => Ok(put_nowhere(other)),
    }
}

/// Puts the network in place of child k of an `rpSwitchB`, where that is a network.
fn put_in_collection(
    alloc: Global,
    fs: &mut Members<Expr>,
    t: &mut NetChild<Expr>,
    k: u32,
    other: Net<Expr>,
) -> Result<bool, Memory>
    ensures { (m : Expression) → IfOk result (λ is_there.
        if_there is_there (rp_switch (trees fs.new) m (tree t.new))
        ≡ with_child (rp_switch (trees fs.old) m (tree t.old)) k (a_network (tree_of other))) }
{
    match kind_behind(fs, k) {
        StandsBehind::Member => put_member(alloc, fs, k, other),
        StandsBehind::Continuation => put_child(alloc, t, other),
        StandsBehind::Event | StandsBehind::Nothing => Ok(put_nowhere(other)),
    }
}

/// Puts the network in place of member k, if there is one.
fn put_member(
    alloc: Global,
    fs: &mut Members<Expr>,
    k: u32,
    other: Net<Expr>,
) -> Result<bool, Memory>
    ensures { IfOk result (λ is_there. (if is_there then Some (trees fs.new) else None)
        ≡ with_member (trees fs.old) k (tree_of other)) }
{
    let all = fs.as_slice();
    let k = k as usize;
    if k >= all.len() {
        return Ok(put_nowhere(other));
    }
    let mut changed = copied_nets(alloc, all)?;
    drop(exchanged(&mut changed[k], other));
    let changed = Members::new(alloc, changed)?;
    drop(exchanged(fs, changed));
    Ok(true)
}

/// Copies of the networks, in order.
fn copied_nets(alloc: Global, nets: &[Net<Expr>]) -> Result<Vec<Net<Expr>>, Memory>
    ensures { IfOk result (λ copied. copied.items ≡ nets.now) }
{
    let mut copied = Vec::with_capacity(alloc, nets.len())?;
    for net in nets {
        let copy = net.try_copy(alloc)?;
        copied.push(copy)?;
    }
    Ok(copied)
}

/// Puts the network in place of another.
fn put_child(alloc: Global, place: &mut NetChild<Expr>, other: Net<Expr>) -> Result<bool, Memory>
    ensures { IfOk result (λ is_there. (is_there ≡ true) × (place.new ≡ network_of other)) }
{
    let other = NetChild::new(alloc, other)?;
    drop(exchanged(place, other));
    Ok(true)
}

/// Puts the expression in place of another.
fn put(place: &mut Expr, other: Expr) -> bool
    ensures there { result ≡ true }
    ensures put { place.new ≡ other }
{
    drop(exchanged(place, other));
    true
}

/// Drops what has no place.
fn put_nowhere<T: Drop>(other: T) -> bool
    ensures { result ≡ false }
{
    drop(other);
    false
}
