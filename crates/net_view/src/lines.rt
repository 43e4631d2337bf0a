// The outline of a network: what stands where, with its type and weight.

ghost use Rattle.std.specs.Prelude.{◌≡◌, IfOk, OnOk, map};
ghost use Rattle.net_tree.specs.LawStep.{seen};
ghost use Rattle.net_syntax.specs.ChildParts.{seen_place};
ghost use Rattle.net_syntax.specs.StandingWalk.{standing_of};
ghost use Rattle.net_view.specs.Listed.{IsInside};
ghost use Rattle.net_view.specs.Outline.{IsOutline, line_of, weight_in};
ghost use Rattle.net_view.specs.Walked.{AddsLines, IsLineBelow, IsWalked};

use crate::inner::{standing_inside, type_here};
use net_syntax::{Place, Standing, TypedNet, place_below};
use net_tree::{Position, Tree, TreeRef, weight};
use sample_core::{Memory, Ty};
use std::alloc::Global;

/// What stands at a position of a typed network.
#[derive(Drop)]
pub struct OutlineLine {
    /// The position.
    pub position: Position,
    /// The network or the expression, a copy whose parts are shared with the network's.
    pub tree: Tree,
    /// The network's output type, the expression's type, where it stands.
    pub output: Ty,
    /// The network's weight, as if it stood alone; none of an expression.
    pub weight: Option<u32>,
}

/// A line for each position of the network at which something stands, in preorder: a tree comes
/// before what is inside it, and that in the order of the child numbers. `Memory` if allocation
/// fails.
pub fn outline(alloc: Global, net: &TypedNet) -> Result<Vec<OutlineLine>, Memory>
    ensures { IfOk result (λ lines. IsOutline net.now (map line_of lines.items)) }
{
    let whole = Place {
        tree: TreeRef::Net(net.net()),
        params: 0,
        olds: 0,
    };
    let at = Standing::alone(alloc, net.input())?;
    let mut path = Vec::new(alloc);
    let mut lines = Vec::new(alloc);
    let added = add_lines(alloc, &at, whole, &mut path, &mut lines);
    drop(at);
    added?;
    Ok(lines)
}

/// Adds the lines of the positions at the path, where this stands, and below it.
fn add_lines(
    alloc: Global,
    at: &Standing,
    place: Place<'_>,
    path: &mut Vec<u32>,
    lines: &mut Vec<OutlineLine>,
) -> Result<(), Memory>
    requires { IsWalked path.old.items (standing_of at.now) (seen_place place) }
    ensures path { OnOk result (path.new.items ≡ path.old.items) }
    ensures added { OnOk result (AddsLines path.old.items (standing_of at.now)
        (seen_place place.entry) (IsInside (seen_place place.entry)) (map line_of lines.old.items)
        (map line_of lines.new.items)) }
{
    let line = line_here(alloc, at, place, path.as_slice())?;
    lines.push(line)?;
    let mut k = 0;
    while let Some(inner) = place_below(place, &[k]) {
        let Some(there) = standing_inside(alloc, at, place.tree, k)? else {
            unreachable!()
        };
        path.push(k)?;
        let added = add_lines(alloc, &there, inner, path, lines);
        drop(there);
        added?;
        path.pop();
        k += 1;
    }
    Ok(())
}

/// The line of what stands at the path.
fn line_here(
    alloc: Global,
    at: &Standing,
    place: Place<'_>,
    path: &[u32],
) -> Result<OutlineLine, Memory>
    requires { IsWalked path.now (standing_of at.now) (seen_place place) }
    ensures line { IfOk result (λ line. IsLineBelow path.now (standing_of at.now)
        (seen_place place.entry) (line_of line)) }
    ensures position { IfOk result (λ line. line.position ≡ path.now) }
{
    let Some(output) = type_here(alloc, at, place.tree)? else {
        unreachable!()
    };
    let position = Position::of_node(alloc, path)?;
    let weight = weight_of(alloc, place.tree)?;
    let tree = place.tree.try_copy(alloc)?;
    Ok(OutlineLine {
        position,
        tree,
        output,
        weight,
    })
}

/// The weight of a network; none of an expression.
fn weight_of(alloc: Global, tree: TreeRef) -> Result<Option<u32>, Memory>
    ensures { IfOk result (λ w. w ≡ weight_in (seen tree.entry)) }
{
    match tree {
        TreeRef::Net(net) => Ok(Some(weight(alloc, net)?)),
        TreeRef::Expr(_) => Ok(None),
    }
}
