// The limits of types and of expressions.

ghost use Rattle.std.specs.Prelude.{◌≡◌, ◌+◌, max};
ghost use Rattle.sample_core.specs.{TypeTree.depth_of, TypeTree.nodes_of, TypeView.type_of};
ghost use Rattle.leaf_core.specs.ExpressionView.{expression_of};
ghost use Rattle.leaf_core.specs.Expression.{expressions_of, height_of, heights_of, nodes_in, nodes_in_all};
ghost use Rattle.leaf_core.specs.{TypeLimits.NodesLeft, TypeLimits.type_fits, ExpressionLimits.expression_fits};

use crate::contents::{Contents, inside};
use crate::expr::{Expr, ExprChild, Exprs};
use sample_core::Ty;

/// How many types may stand in one another; `Int` has depth 1.
pub const MOST_TYPE_DEPTH: u32 = 32;

/// How many types a type may be made of, itself counted.
pub const MOST_TYPE_NODES: u32 = 256;

/// How many expressions may stand in one another.
pub const MOST_EXPR_HEIGHT: u32 = 256;

/// How many expressions an expression may be made of, itself counted.
pub const MOST_EXPR_NODES: u32 = 100_000;

/// Whether the type is within the limits: depth 32 and 256 nodes, where `Int` has depth 1 and one
/// node. It takes no memory.
pub fn type_fits(ty: &Ty) -> bool
    ensures { result ≡ type_fits (type_of ty.now) }
{
    type_nodes_left(ty, MOST_TYPE_DEPTH, MOST_TYPE_NODES).is_some()
}

/// Whether the expression is within the limits: height 256 and 100,000 nodes, where `x` has height
/// 1 and one node, and types count nothing. It takes no memory.
pub fn expr_fits(expr: &Expr) -> bool
    ensures { result ≡ expression_fits (expression_of expr.now) }
{
    expr_nodes_left(expr, MOST_EXPR_HEIGHT, MOST_EXPR_NODES).is_some()
}

/// How many of `nodes` are left after those of the type, whose depth is at most `depth`; `None` if
/// it is deeper, or has more. It stops at the first type too many.
fn type_nodes_left(ty: &Ty, depth: u32, nodes: u32) -> Option<u32>
    ensures { NodesLeft result (depth_of (type_of ty.now)) (nodes_of (type_of ty.now)) depth nodes }
{
    let depth = depth.checked_sub(1)?;
    let nodes = nodes.checked_sub(1)?;
    match ty {
        Ty::Unit | Ty::Bool | Ty::Int => Some(nodes),
        Ty::Pair(a, b) => {
            let nodes = type_nodes_left(a.get(), depth, nodes)?;
            type_nodes_left(b.get(), depth, nodes)
        }
        Ty::Event(a) | Ty::List(a) => type_nodes_left(a.get(), depth, nodes),
    }
}

/// How many of `nodes` are left after those of the expression, whose height is at most `height`;
/// `None` if it is taller, or has more. It stops at the first expression too many.
#[cycle(left)]
pub fn expr_nodes_left(expr: &Expr, height: u32, nodes: u32) -> Option<u32>
    ensures { NodesLeft result (height_of (expression_of expr.now))
        (nodes_in (expression_of expr.now)) height nodes }
{
    let height = height.checked_sub(1)?;
    let nodes = nodes.checked_sub(1)?;
    match inside(expr) {
        Contents::Nothing | Contents::Index(_) | Contents::Number(_) | Contents::Type(_) => Some(
            nodes,
        ),
        Contents::One(a) => expr_nodes_left(a.get(), height, nodes),
        Contents::Two(a, b) => nodes_left_of_two(a, b, height, nodes),
        Contents::Three(a, b, c) => nodes_left_of_three(a, b, c, height, nodes),
        Contents::Elements(_, all) => nodes_left_of_all(all, height, nodes),
    }
}

/// How many of `nodes` two parts leave.
#[cycle(left)]
fn nodes_left_of_two(a: &ExprChild, b: &ExprChild, height: u32, nodes: u32) -> Option<u32>
    ensures { NodesLeft result (max (height_of a.now) (height_of b.now))
        (nodes_in a.now + nodes_in b.now) height nodes }
{
    let nodes = expr_nodes_left(a.get(), height, nodes)?;
    expr_nodes_left(b.get(), height, nodes)
}

/// How many of `nodes` three parts leave.
#[cycle(left)]
fn nodes_left_of_three(
    a: &ExprChild,
    b: &ExprChild,
    c: &ExprChild,
    height: u32,
    nodes: u32,
) -> Option<u32>
    ensures { NodesLeft result (max (max (height_of a.now) (height_of b.now)) (height_of c.now))
        (nodes_in a.now + nodes_in b.now + nodes_in c.now) height nodes }
{
    let nodes = nodes_left_of_two(a, b, height, nodes)?;
    expr_nodes_left(c.get(), height, nodes)
}

/// How many of `nodes` the elements of a list expression leave.
#[cycle(left)]
#[tactic(auto, using(crate::proofs::Places::element_smaller))]
fn nodes_left_of_all(all: &Exprs, height: u32, nodes: u32) -> Option<u32>
    ensures { NodesLeft result (heights_of (expressions_of all.now))
        (nodes_in_all (expressions_of all.now)) height nodes }
{
    let mut left = nodes;
    for element in all.as_slice() {
        left = expr_nodes_left(element, height, left)?;
    }
    Some(left)
}
