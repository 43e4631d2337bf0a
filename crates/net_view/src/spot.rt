// Where a walk over a network is, and what the limits leave there.

ghost use Rattle.std.specs.Prelude.{◌≡◌};
ghost use Rattle.leaf_core.specs.declared.limits.TheConstants.{MOST_EXPR_HEIGHT};
ghost use Rattle.net_tree.specs.LawStep.{seen};
ghost use Rattle.net_syntax.specs.{ChildParts.seen_place};
ghost use Rattle.net_view.specs.Spots.{IsNewRoom, IsRoomBelow};

use leaf_core::{MOST_EXPR_HEIGHT, MOST_EXPR_NODES, expr_nodes_left};
use net_syntax::Place;
use net_tree::TreeRef;

/// A place that the walk has come to.
#[derive(Clone, Copy)]
pub(crate) struct Spot<'n> {
    /// What stands there.
    pub(crate) place: Place<'n>,
    /// How high an expression may be there, by the limit of the whole one that it is in.
    pub(crate) height: u32,
    /// How many nodes more that one may have.
    pub(crate) more: u32,
}

/// A whole network, or a child of one.
pub(crate) fn spot_at(place: Place<'_>) -> Spot<'_>
    ensures place { seen_place result.place ≡ seen_place place.entry }
    ensures room { IsNewRoom (seen place.entry.tree) result.height result.more }
{
    Spot {
        place,
        height: MOST_EXPR_HEIGHT,
        more: room_of(place.tree),
    }
}

/// How many nodes an expression may have beside its own; 0 of a network.
fn room_of(tree: TreeRef<'_>) -> u32
    ensures { IsNewRoom (seen tree.entry) MOST_EXPR_HEIGHT result }
{
    match tree {
        TreeRef::Net(_) => 0,
        TreeRef::Expr(expr) => match expr_nodes_left(expr, MOST_EXPR_HEIGHT, MOST_EXPR_NODES) {
            Some(left) => left,
            None => 0,
        },
    }
}

/// The place inside another one.
pub(crate) fn spot_below<'n>(spot: Spot<'n>, inner: Place<'n>) -> Spot<'n>
    ensures place { seen_place result.place ≡ seen_place inner.entry }
    ensures room { IsRoomBelow (seen spot.entry.place.tree) (seen inner.entry.tree)
        spot.entry.height spot.entry.more result.height result.more }
{
    match spot.place.tree {
        TreeRef::Net(_) => spot_at(inner),
        TreeRef::Expr(_) => Spot {
            place: inner,
            height: spot.height.saturating_sub(1),
            more: spot.more,
        },
    }
}
