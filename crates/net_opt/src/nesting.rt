// Trees in which networks stand too deep in one another for where they are to stand.

ghost use Rattle.std.specs.Prelude.{IsTrue};
ghost use Rattle.net_tree.specs.{LawStep.part_of, NetworkView.tree_of};
ghost use Rattle.net_opt.specs.Nesting.{IsNested, IsTooHigh};

use leaf_core::Expr;
use net_syntax::child;
use net_tree::{MOST_HEIGHT, MOST_MEMBERS, Net, Tree, TreeRef};

/// The children that are looked at: a network has no more, but for a `parB` of too many members.
const CHILDREN: u32 = MOST_MEMBERS as u32 + 3;

/// Whether every network is too high in which the tree stands so deep, whatever else is in it.
pub(crate) fn is_too_high(tree: &Tree, depth: usize) -> bool
    ensures { IsTrue result → IsTooHigh depth (part_of tree.now) }
{
    match tree {
        Tree::Net(net) => is_nested(net, (MOST_HEIGHT as usize).saturating_sub(depth)),
        Tree::Expr(_) => false,
    }
}

/// Whether so many networks stand in one another inside this one. The last child comes first, since
/// chains nest to the right.
fn is_nested(net: &Net<Expr>, depth: usize) -> bool
    ensures { IsTrue result → IsNested depth (tree_of net.now) }
{
    if depth == 0 {
        return true;
    }
    for j in 0..CHILDREN {
        let k = if j < 3 { 2 - j } else { j };
        match child(net, k) {
            Some(TreeRef::Net(inner)) if is_nested(inner, depth - 1) => return true,
            None if j > 2 => return false,
            _ => {}
        }
    }
    false
}
