// Whether another tree may stand at a place of a network.

ghost use Rattle.std.specs.Prelude.{◌≡◌, IfOk, IsTrue};
ghost use Rattle.leaf_core.specs.ExpressionView.{expression_of};
ghost use Rattle.net_tree.specs.LawStep.{part_of};
ghost use Rattle.net_tree.specs.NetworkView.{tree_of};
ghost use Rattle.net_syntax.specs.{ChildParts.seen_place, StandingWalk.standing_of};
ghost use Rattle.net_meaning.specs.NetworkLimits.{WithinLimits};
ghost use Rattle.net_opt.specs.Walk.{Reached};
ghost use Rattle.net_view.specs.Spots.{GrowsLittle, IsAround, IsRoomy, MayStand, fits_there};

use crate::spot::Spot;
use leaf_core::{Expr, MOST_EXPR_HEIGHT, MOST_EXPR_NODES, expr_nodes_left};
use net_syntax::{Standing, TypedNet};
use net_tree::{
    MOST_HEIGHT, MOST_SIZE, MOST_WEIGHT, Measures, Net, Position, Tree, TreeRef, measured,
};
use net_types::{Rewritten, keeps_type_at, rewrite};
use sample_core::Memory;
use std::alloc::Global;

/// Whether the network with the tree at the path is typed within the limits, and has the type there
/// that it had.
pub(crate) fn may_stand(
    alloc: Global,
    net: &TypedNet,
    at: &Standing,
    spot: Spot<'_>,
    path: &[u32],
    new: &Tree,
) -> Result<bool, Memory>
    requires reached { Reached net.now path.now (seen_place spot.place) }
    requires around { IsAround net.now path.now (seen_place spot.place) (standing_of at.now)
        spot.height spot.more }
    ensures { IfOk result (MayStand net.now path.now (part_of new.now)) }
{
    match (spot.place.tree, new) {
        (TreeRef::Expr(before), Tree::Expr(after)) => {
            if !fits_there(spot.height, spot.more, before, after) {
                return Ok(false);
            }
            keeps_type_at(alloc, at, TreeRef::Expr(before), &[], new)
        }
        (TreeRef::Net(before), Tree::Net(after)) if spot.place.olds == 0 => {
            if !grows_little(alloc, net, before, after)? {
                return may_stand_in_whole(alloc, net, path, new);
            }
            keeps_type_at(alloc, at, TreeRef::Net(before), &[], new)
        }
        _ => may_stand_in_whole(alloc, net, path, new),
    }
}

/// The same, found of the whole.
fn may_stand_in_whole(
    alloc: Global,
    net: &TypedNet,
    path: &[u32],
    new: &Tree,
) -> Result<bool, Memory>
    ensures { IfOk result (MayStand net.now path.now (part_of new.now)) }
{
    let position = Position::of_node(alloc, path)?;
    let mut whole = net.try_copy(alloc)?;
    match new.try_copy(alloc) {
        Ok(tree) => {
            let found = rewrite(alloc, &mut whole, &position, tree);
            drop(whole);
            Ok(matches!(found?, Rewritten::Done))
        }
        Err(refused) => {
            drop(whole);
            Err(refused)
        }
    }
}

/// Whether the second expression is at most so high, and has at most so many nodes more than the
/// first.
fn fits_there(height: u32, more: u32, before: &Expr, after: &Expr) -> bool
    requires { IsRoomy (expression_of before.now) height more }
    ensures { result
        ≡ fits_there height more (expression_of before.now) (expression_of after.now) }
{
    let Some(others) = expr_nodes_left(before, MOST_EXPR_HEIGHT, MOST_EXPR_NODES) else {
        unreachable!()
    };
    expr_nodes_left(after, height, MOST_EXPR_NODES - others + more).is_some()
}

/// Whether the network may stand for the other one, with no frozen networks in scope: the whole gets
/// at most as many times heavier as the part, and at most as much higher.
fn grows_little(
    alloc: Global,
    net: &TypedNet,
    before: &Net<Expr>,
    after: &Net<Expr>,
) -> Result<bool, Memory>
    requires { WithinLimits net.now }
    ensures { IfOk result (λ little. IsTrue little
        → GrowsLittle net.now (tree_of before.now) (tree_of after.now)) }
{
    let most = Measures {
        size: MOST_SIZE,
        weight: MOST_WEIGHT,
        height: MOST_HEIGHT,
    };
    let before = measured(alloc, before, &most)?;
    let after = measured(alloc, after, &most)?;
    let (Some(before), Some(after)) = (before, after) else {
        return Ok(false);
    };
    let times = MOST_WEIGHT / net.weight().max(1);
    let rise = MOST_HEIGHT.saturating_sub(net.height());
    Ok(
        after.weight <= before.weight.saturating_mul(times)
            && after.height <= before.height.saturating_add(rise),
    )
}
