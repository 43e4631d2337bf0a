// One step of a certificate.

ghost use Rattle.std.specs.Prelude.{◌≡◌, IfOk, option_map};
ghost use Rattle.leaf_core.specs.ExpressionView.{expression_of};
ghost use Rattle.net_tree.specs.Place.{a_leaf, a_network};
ghost use Rattle.net_tree.specs.NetworkView.{tree_of};
ghost use Rattle.net_syntax.specs.{ChildParts.seen_place, Placed.placed_at};
ghost use Rattle.net_tree.specs.LawStep.{step_of, seen};
ghost use Rattle.cert_check.specs.StepAnswers.{IsTreeAnswer, LawAnswer, StepAnswer, given_tree};

use crate::answer::CheckFault;
use expr_laws::apply_expr;
use law_rules::apply_law;
use leaf_core::Expr;
use net_syntax::{Place, TypedNet, at};
use net_tree::{Direction, Law, LawStep, Net, Position, Tree, TreeRef};
use net_types::{Rewritten, rewrite};
use sample_core::Memory;
use std::alloc::Global;

/// Takes step `number` of a certificate: its law's answer is put at its position, where the network
/// stays typed, within the limits, and the output type there is kept.
///
/// `NoPosition` where the step's position isn't there, `NoMatch` where its law has no answer at it,
/// `IllTyped` where the network with that answer is refused by the typing or a limit, or the output
/// type at the position changes, each with the number; `Memory` if allocation fails. The network is
/// then as before.
pub fn take_step(
    alloc: Global,
    net: &mut TypedNet,
    step: &LawStep,
    number: u32,
) -> Result<(), CheckFault>
    ensures { StepAnswer net.old (step_of step.now) number net.new result }
{
    let new = law_answer(alloc, net, step, number)?;
    match rewrite(alloc, net, &step.position, new)? {
        Rewritten::Done => Ok(()),
        Rewritten::NoPosition | Rewritten::IllTyped => Err(CheckFault::IllTyped { step: number }),
    }
}

/// What the law of step `number` answers at its position in the network.
fn law_answer(
    alloc: Global,
    net: &TypedNet,
    step: &LawStep,
    number: u32,
) -> Result<Tree, CheckFault>
    ensures { LawAnswer net.now (step_of step.now) number result }
{
    let Some(place) = place_in(net, &step.position) else {
        return Err(CheckFault::NoPosition { step: number });
    };
    match step_answer(alloc, step, place)? {
        Some(new) => Ok(new),
        None => Err(CheckFault::NoMatch { step: number }),
    }
}

/// What the step's law answers at a place.
fn step_answer(alloc: Global, step: &LawStep, place: Place) -> Result<Option<Tree>, Memory>
    ensures { IfOk result (IsTreeAnswer place.entry.olds step.now.law step.now.direction
        (seen place.entry.tree) (step_of step.now).given) }
{
    let given = match &step.given {
        Some(given) => Some(given),
        None => None,
    };
    answer_at(alloc, step.law, step.direction, place, given)
}

/// What stands at the position in the typed network; `None` if the position isn't there. It takes
/// no memory.
pub fn place_in<'n>(net: &'n TypedNet, position: &Position) -> Option<Place<'n>>
    ensures { option_map seen_place result
        ≡ placed_at 0 0 (a_network net.now.net) position.now }
{
    at(net.net(), position)
}

/// What a law that is taken in this direction answers at a place, where the tree is given, if one
/// is; `None` if it has no answer there, as where it, or what is given, is of the other kind than
/// what stands there. `Memory` if allocation fails.
pub fn answer_at(
    alloc: Global,
    law: Law,
    direction: Direction,
    place: Place<'_>,
    given: Option<&Tree>,
) -> Result<Option<Tree>, Memory>
    ensures { IfOk result (IsTreeAnswer place.entry.olds law direction (seen place.entry.tree)
        (given_tree given.entry)) }
{
    match place.tree {
        TreeRef::Net(net) => answer_at_net(alloc, law, direction, net, given, place.olds),
        TreeRef::Expr(expr) => answer_at_expr(alloc, law, direction, expr, given, place.olds),
    }
}

/// What a law answers at a network, with so many frozen networks in scope.
fn answer_at_net(
    alloc: Global,
    law: Law,
    direction: Direction,
    net: &Net<Expr>,
    given: Option<&Tree>,
    olds: u32,
) -> Result<Option<Tree>, Memory>
    ensures { IfOk result (IsTreeAnswer olds law direction (a_network (tree_of net.now))
        (given_tree given.entry)) }
{
    let given = match given {
        None => None,
        Some(Tree::Net(given)) => Some(given),
        Some(Tree::Expr(_)) => return Ok(None),
    };
    match apply_law(alloc, law, direction, net, given, olds)? {
        Some(new) => Ok(Some(Tree::Net(new))),
        None => Ok(None),
    }
}

/// What a law answers at an expression.
fn answer_at_expr(
    alloc: Global,
    law: Law,
    direction: Direction,
    expr: &Expr,
    given: Option<&Tree>,
    olds: u32,
) -> Result<Option<Tree>, Memory>
    ensures { IfOk result (IsTreeAnswer olds law direction (a_leaf (expression_of expr.now))
        (given_tree given.entry)) }
{
    let given = match given {
        None => None,
        Some(Tree::Expr(given)) => Some(given),
        Some(Tree::Net(_)) => return Ok(None),
    };
    match apply_expr(alloc, law, direction, expr, given)? {
        Some(new) => Ok(Some(Tree::Expr(new))),
        None => Ok(None),
    }
}
