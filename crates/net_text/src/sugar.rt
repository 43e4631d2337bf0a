// Sugar, made of core forms.

ghost use Rattle.std.specs.Prelude.{◌≡◌, IfOk};
ghost use Rattle.leaf_core.specs.Expression.{input, fst, snd, and_expr, not_expr, pair_expr};
ghost use Rattle.leaf_core.specs.ExpressionView.{expression_of};
ghost use Rattle.net_tree.specs.{Network.arr, Network.hold, Network.map_network, NetworkView.tree_of};
ghost use Rattle.net_text.specs.Sugar.{swap_sides, rise};
ghost use Rattle.net_text.specs.Sugar as sugar;

use leaf_expr::{Expr, ExprChild, Literal};
use net_tree::{Net, NetChild};
use sample_core::{Memory, Ty};
use std::alloc::Global;

/// A network that was made, unless memory ran out.
pub(crate) type Made = Result<Net<Expr>, Memory>;

/// `(arr (then unit e))`.
pub(crate) fn constant(alloc: Global, e: Expr) -> Made
    ensures { IfOk result (λ net. tree_of net ≡ sugar.constant (expression_of e)) }
{
    let value = ExprChild::new(alloc, e)?;
    let unit = ExprChild::new(alloc, Expr::Literal(Literal::Unit))?;
    Ok(Net::Arr(Expr::Then(unit, value)))
}

/// `(arr (pair (snd x) (fst x)))`.
fn turned_round(alloc: Global) -> Result<NetChild<Expr>, Memory>
    ensures { IfOk result (λ f. map_network expression_of f ≡ arr swap_sides) }
{
    let x = ExprChild::new(alloc, Expr::Input)?;
    let same = x.try_copy()?;
    let left = ExprChild::new(alloc, Expr::Fst(x))?;
    let right = ExprChild::new(alloc, Expr::Snd(same))?;
    Ok(NetChild::new(alloc, Net::Arr(Expr::Pair(right, left)))?)
}

/// `(arr (pair x x))`.
fn doubled(alloc: Global) -> Result<NetChild<Expr>, Memory>
    ensures { IfOk result (λ f. map_network expression_of f ≡ arr (pair_expr input input)) }
{
    let x = ExprChild::new(alloc, Expr::Input)?;
    let same = x.try_copy()?;
    Ok(NetChild::new(alloc, Net::Arr(Expr::Pair(x, same)))?)
}

/// `(>>> (arr SWAP) (>>> (first f) (arr SWAP)))`, where SWAP is `(pair (snd x) (fst x))`.
pub(crate) fn second(alloc: Global, f: NetChild<Expr>) -> Made
    ensures { IfOk result (λ net. tree_of net ≡ sugar.second (map_network expression_of f)) }
{
    let front = turned_round(alloc)?;
    let back = front.try_copy()?;
    let left = NetChild::new(alloc, Net::First(f))?;
    let rest = NetChild::new(alloc, Net::Seq(left, back))?;
    Ok(Net::Seq(front, rest))
}

/// `(>>> (first f) (second g))`.
pub(crate) fn beside(alloc: Global, f: NetChild<Expr>, g: NetChild<Expr>) -> Made
    ensures { IfOk result
        (λ net. tree_of net
        ≡ sugar.beside (map_network expression_of f) (map_network expression_of g)) }
{
    let left = NetChild::new(alloc, Net::First(f))?;
    let right = second(alloc, g)?;
    let right = NetChild::new(alloc, right)?;
    Ok(Net::Seq(left, right))
}

/// `(>>> (arr (pair x x)) (*** f g))`.
pub(crate) fn fan_out(alloc: Global, f: NetChild<Expr>, g: NetChild<Expr>) -> Made
    ensures { IfOk result
        (λ net. tree_of net
        ≡ sugar.fan_out (map_network expression_of f) (map_network expression_of g)) }
{
    let pair = doubled(alloc)?;
    let sides = beside(alloc, f, g)?;
    let sides = NetChild::new(alloc, sides)?;
    Ok(Net::Seq(pair, sides))
}

/// `(and (fst x) (not (snd x)))`.
fn has_risen(alloc: Global) -> Result<ExprChild, Memory>
    ensures { IfOk result (λ e. e ≡ and_expr (fst input) (not_expr (snd input))) }
{
    let x = ExprChild::new(alloc, Expr::Input)?;
    let same = x.try_copy()?;
    let left = ExprChild::new(alloc, Expr::Fst(x))?;
    let right = ExprChild::new(alloc, Expr::Snd(same))?;
    let before = ExprChild::new(alloc, Expr::Not(right))?;
    Ok(ExprChild::new(alloc, Expr::And(left, before))?)
}

/// `(arr (if (and (fst x) (not (snd x))) (event unit) (none Unit)))`.
fn rises(alloc: Global) -> Result<NetChild<Expr>, Memory>
    ensures { IfOk result (λ f. map_network expression_of f ≡ arr rise) }
{
    let test = has_risen(alloc)?;
    let unit = ExprChild::new(alloc, Expr::Literal(Literal::Unit))?;
    let event = ExprChild::new(alloc, Expr::Event(unit))?;
    let none = ExprChild::new(alloc, Expr::NoEvent(Ty::Unit))?;
    Ok(NetChild::new(alloc, Net::Arr(Expr::If(test, event, none)))?)
}

/// `(>>> (&&& identity (iPre true)) (arr RISE))`, where RISE is
/// `(if (and (fst x) (not (snd x))) (event unit) (none Unit))`.
pub(crate) fn edge(alloc: Global) -> Made
    ensures { IfOk result (λ net. tree_of net ≡ sugar.edge) }
{
    let now = NetChild::new(alloc, Net::Arr(Expr::Input))?;
    let before = NetChild::new(alloc, Net::IPre(Expr::Literal(Literal::Bool(true))))?;
    let both = fan_out(alloc, now, before)?;
    let both = NetChild::new(alloc, both)?;
    let rises = rises(alloc)?;
    Ok(Net::Seq(both, rises))
}

/// `(hold z)`, of a copy of z.
fn held(alloc: Global, z: &Expr) -> Result<NetChild<Expr>, Memory>
    ensures { IfOk result (λ f. map_network expression_of f ≡ hold (expression_of z.now)) }
{
    let z = z.try_copy(alloc)?;
    Ok(NetChild::new(alloc, Net::Hold(z))?)
}

/// `(>>> (accumBy g z) (hold z))`.
pub(crate) fn accum_hold_by(alloc: Global, g: Expr, z: Expr) -> Made
    ensures { IfOk result
        (λ net. tree_of net ≡ sugar.accum_hold_by (expression_of g) (expression_of z)) }
{
    let held = held(alloc, &z);
    let accumulated = NetChild::new(alloc, Net::AccumBy(g, z))?;
    let held = held?;
    Ok(Net::Seq(accumulated, held))
}
