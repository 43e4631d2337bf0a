// The steps that may be taken forward.

ghost use Rattle.std.specs.Prelude.{◌≡◌, ◌+◌, ◌<◌, IfOk, None, OnOk, Some, map, option_map};
ghost use Rattle.net_syntax.specs.{ChildParts.seen_place, StandingWalk.standing_of};
ghost use Rattle.net_tree.specs.LawStep.{part_of, seen};
ghost use Rattle.net_opt.specs.Optimising.{forward_step};
ghost use Rattle.net_opt.specs.Walk.{Reached};
ghost use Rattle.net_text.specs.CertificatePrinting.{IsLaw};
ghost use Rattle.net_view.specs.declared.possible.TheConstants.{LAWS};
ghost use Rattle.net_view.specs.Listed.{IsInside};
ghost use Rattle.net_view.specs.Possible.{ArePossible, ArePossibleAt, IsFoundBy, changing, law_rank, possible_of};
ghost use Rattle.net_view.specs.Spots.{AddsSteps, AddsStepsBelow, IsAround};

use crate::inner::standing_inside;
use crate::may_stand::may_stand;
use crate::spot::{Spot, spot_at, spot_below};
use crate::trace::Change;
use cert_check::answer_at;
use net_syntax::{Place, Standing, TypedNet, place_below};
use net_tree::{
    Direction, LAST_EXPRESSION_LAW, LAST_NETWORK_LAW, Law, LawStep, Position, Tree, TreeRef,
};
use sample_core::Memory;
use std::alloc::Global;

/// How many laws there are, of expressions and of networks.
const LAWS: u8 = LAST_EXPRESSION_LAW + LAST_NETWORK_LAW;

/// A step that a check would accept.
#[derive(Drop)]
pub struct PossibleStep {
    /// The step, forward and with no tree given.
    pub step: LawStep,
    /// What stands at its position, and what stands there once it is taken.
    pub change: Change,
}

/// The steps forward at or below the position that a check would accept, by the positions in
/// preorder and at each by the laws' numbers; none where the position isn't there. `Memory` if
/// allocation fails.
///
/// Types are found on the way down, and so is what the limits leave. Where a step's law fits, the
/// part that it changes is typed and measured; the whole network is measured only where one in it
/// may then be too heavy or too high, or frozen networks are in scope.
pub fn possible_steps(
    alloc: Global,
    net: &TypedNet,
    position: &Position,
) -> Result<Vec<PossibleStep>, Memory>
    ensures { IfOk result (λ steps. ArePossible net.now position.now (map possible_of steps.items)) }
{
    let whole = spot_at(Place {
        tree: TreeRef::Net(net.net()),
        params: 0,
        olds: 0,
    });
    let at = Standing::alone(alloc, net.input())?;
    let mut path = Vec::new(alloc);
    let found = steps_below(alloc, net, &at, whole, &mut path, position.path());
    drop(at);
    found
}

/// The steps at or below what stands at the rest of the path, from this place on, which the path
/// leads to.
fn steps_below(
    alloc: Global,
    net: &TypedNet,
    at: &Standing,
    spot: Spot<'_>,
    path: &mut Vec<u32>,
    rest: &[u32],
) -> Result<Vec<PossibleStep>, Memory>
    requires reached { Reached net.now path.old.items (seen_place spot.place) }
    requires around { IsAround net.now path.old.items (seen_place spot.place) (standing_of at.now)
        spot.height spot.more }
    ensures { IfOk result (λ steps. AddsStepsBelow net.now path.old.items
        (seen_place spot.entry.place) rest.now (map possible_of steps.items)) }
{
    let Some((k, rest)) = rest.split_first() else {
        let mut steps = Vec::new(alloc);
        add_steps(alloc, net, at, spot, path, &mut steps)?;
        return Ok(steps);
    };
    let Some(inner) = place_below(spot.place, &[*k]) else {
        return Ok(Vec::new(alloc));
    };
    let Some(there) = standing_inside(alloc, at, spot.place.tree, *k)? else {
        unreachable!()
    };
    path.push(*k)?;
    let found = steps_below(alloc, net, &there, spot_below(spot, inner), path, rest);
    drop(there);
    found
}

/// Adds the steps at the path, where this place is, and below it.
fn add_steps(
    alloc: Global,
    net: &TypedNet,
    at: &Standing,
    spot: Spot<'_>,
    path: &mut Vec<u32>,
    steps: &mut Vec<PossibleStep>,
) -> Result<(), Memory>
    requires reached { Reached net.now path.old.items (seen_place spot.place) }
    requires around { IsAround net.now path.old.items (seen_place spot.place) (standing_of at.now)
        spot.height spot.more }
    ensures path { OnOk result (path.new.items ≡ path.old.items) }
    ensures added { OnOk result (AddsSteps net.now path.old.items
        (IsInside (seen_place spot.entry.place)) (map possible_of steps.old.items)
        (map possible_of steps.new.items)) }
{
    let mut here = steps_at(alloc, net, at, spot, path.as_slice())?;
    steps.append(&mut here)?;
    let mut k = 0;
    while let Some(inner) = place_below(spot.place, &[k]) {
        let Some(there) = standing_inside(alloc, at, spot.place.tree, k)? else {
            unreachable!()
        };
        path.push(k)?;
        let inner = spot_below(spot, inner);
        let added = add_steps(alloc, net, &there, inner, path, steps);
        drop(there);
        added?;
        path.pop();
        k += 1;
    }
    Ok(())
}

/// The steps at the path itself.
fn steps_at(
    alloc: Global,
    net: &TypedNet,
    at: &Standing,
    spot: Spot<'_>,
    path: &[u32],
) -> Result<Vec<PossibleStep>, Memory>
    requires reached { Reached net.now path.now (seen_place spot.place) }
    requires around { IsAround net.now path.now (seen_place spot.place) (standing_of at.now)
        spot.height spot.more }
    ensures { IfOk result
        (λ steps. ArePossibleAt net.now path.now (map possible_of steps.items)) }
{
    let mut steps = Vec::new(alloc);
    for k in 0..LAWS {
        if let Some(step) = step_at(alloc, net, at, spot, path, law_number(k))? {
            steps.push(step)?;
        }
    }
    Ok(steps)
}

/// Law k, from 0: those of expressions, and then those of networks.
fn law_number(k: u8) -> Law
    requires { k < LAWS }
    ensures rank { law_rank result ≡ k + 1 }
    ensures law { IsLaw result }
{
    if k < LAST_EXPRESSION_LAW {
        Law::E(k + 1)
    } else {
        Law::L(k + 1 - LAST_EXPRESSION_LAW)
    }
}

/// The step by the law at the path, if a check would accept it.
fn step_at(
    alloc: Global,
    net: &TypedNet,
    at: &Standing,
    spot: Spot<'_>,
    path: &[u32],
    law: Law,
) -> Result<Option<PossibleStep>, Memory>
    requires reached { Reached net.now path.now (seen_place spot.place) }
    requires around { IsAround net.now path.now (seen_place spot.place) (standing_of at.now)
        spot.height spot.more }
    ensures { IfOk result (λ found. IsFoundBy net.now path.now law (option_map possible_of found)) }
{
    let Some(new) = answer_at(alloc, law, Direction::Forward, spot.place, None)? else {
        return Ok(None);
    };
    match may_stand(alloc, net, at, spot, path, &new) {
        Ok(true) => with_change(alloc, law, path, spot.place.tree, new),
        Ok(false) => {
            drop(new);
            Ok(None)
        }
        Err(refused) => {
            drop(new);
            Err(refused)
        }
    }
}

/// The step by the law, with what stands at the path and what stands there then.
fn with_change(
    alloc: Global,
    law: Law,
    path: &[u32],
    tree: TreeRef<'_>,
    after: Tree,
) -> Result<Option<PossibleStep>, Memory>
    ensures { IfOk result (λ found. option_map possible_of found
        ≡ Some (changing (forward_step law path.now) (seen tree.entry) (part_of after))) }
{
    match before_it(alloc, path, tree) {
        Ok((position, before)) => Ok(Some(PossibleStep {
            step: LawStep {
                law,
                direction: Direction::Forward,
                position,
                given: None,
            },
            change: Change { before, after },
        })),
        Err(refused) => {
            drop(after);
            Err(refused)
        }
    }
}

/// The position of the path, and a copy of what stands there.
fn before_it(alloc: Global, path: &[u32], tree: TreeRef<'_>) -> Result<(Position, Tree), Memory>
    ensures { IfOk result
        (λ found. (found.0 ≡ path.now) × (part_of found.1 ≡ seen tree.entry)) }
{
    let position = Position::of_node(alloc, path)?;
    let before = tree.try_copy(alloc)?;
    Ok((position, before))
}
