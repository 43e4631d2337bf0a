// A step at a place.

ghost use Rattle.std.specs.Prelude.{◌≡◌, IfOk, Some};
ghost use Rattle.net_syntax.specs.ChildParts.{seen_place};
ghost use Rattle.net_tree.specs.LawStep.{part_of, seen};
ghost use Rattle.net_tree.specs.Place.{a_network};
ghost use Rattle.net_syntax.specs.Placed.{placed_at};
ghost use Rattle.net_opt.specs.Optimising.{IsTried, forward_step};
ghost use Rattle.net_opt.specs.Search as S;
ghost use Rattle.net_opt.specs.Search.{FirstAt, FoundStep, Passed, PassedAt, Puts};
ghost use Rattle.net_opt.specs.Walk.{KeepsWalk};

use crate::nesting::is_too_high;
use crate::walk::Walk;
use cert_check::answer_at;
use net_syntax::{Place, TypedNet};
use net_tree::{Direction, Law, LawStep, Position, Tree, TreeRef};
use net_types::{Rewritten, rewrite};
use sample_core::Memory;
use std::alloc::Global;

/// The numbers of the laws of networks that are tried, in this order.
const NETWORK_LAWS: [u8; 22] = [
    1, 2, 20, 25, 3, 4, 10, 5, 8, 17, 18, 19, 21, 22, 23, 24, 31, 32, 35, 37, 38, 40,
];

/// The numbers of the laws of expressions that are tried, in this order.
const EXPRESSION_LAWS: [u8; 14] = [1, 2, 3, 6, 7, 8, 9, 10, 11, 12, 13, 14, 15, 18];

/// Takes the first step where the walk is, at this place.
pub(crate) fn step_at(
    alloc: Global,
    typed: &mut TypedNet,
    walk: &mut Walk,
    place: Place<'_>,
) -> Result<Option<LawStep>, Memory>
    requires { placed_at 0 0 (a_network typed.old.net) walk.old.path.items
        ≡ Some (seen_place place) }
    ensures keeps { KeepsWalk walk.old walk.new }
    ensures found { IfOk result (FoundStep
        (PassedAt walk.new.refused typed.old walk.old.path.items)
        (FirstAt walk.new.refused typed.old walk.old.path.items)
        typed.old typed.new) }
{
    for number in numbers_at(place.tree) {
        let law = law_at(place.tree, *number);
        if let Some(step) = step_by_law(alloc, typed, walk, place, law)? {
            return Ok(Some(step));
        }
    }
    Ok(None)
}

/// The numbers of the laws that are tried at such a tree, in this order.
fn numbers_at(tree: TreeRef<'_>) -> &'static [u8]
    ensures { result.now ≡ S.numbers_at (seen tree.entry) }
{
    match tree {
        TreeRef::Net(_) => &NETWORK_LAWS,
        TreeRef::Expr(_) => &EXPRESSION_LAWS,
    }
}

/// The law of the number among those of the tree's kind.
fn law_at(tree: TreeRef<'_>, number: u8) -> Law
    ensures { result ≡ S.law_at (seen tree.entry) number }
{
    match tree {
        TreeRef::Net(_) => Law::L(number),
        TreeRef::Expr(_) => Law::E(number),
    }
}

/// Takes the step by this law where the walk is, at this place.
fn step_by_law(
    alloc: Global,
    typed: &mut TypedNet,
    walk: &mut Walk,
    place: Place<'_>,
    law: Law,
) -> Result<Option<LawStep>, Memory>
    requires stands { placed_at 0 0 (a_network typed.old.net) walk.old.path.items
        ≡ Some (seen_place place) }
    requires tried { IsTried law }
    ensures keeps { KeepsWalk walk.old walk.new }
    ensures found { IfOk result (FoundStep
        (Passed walk.new.refused typed.old walk.old.path.items law)
        (λ s. s ≡ forward_step law walk.old.path.items)
        typed.old typed.new) }
{
    match answer_at(alloc, law, Direction::Forward, place, None)? {
        Some(right) => put(alloc, typed, walk, law, right),
        None => Ok(None),
    }
}

/// Puts the law's right side where the walk is, if a check would accept that, and returns the step.
/// One that is too high there is not tried: whatever else changes, it stays so.
fn put(
    alloc: Global,
    typed: &mut TypedNet,
    walk: &mut Walk,
    law: Law,
    right: Tree,
) -> Result<Option<LawStep>, Memory>
    ensures keeps { KeepsWalk walk.old walk.new }
    ensures puts { IfOk result (Puts law typed.old walk.old.path.items (part_of right)
        typed.new walk.old.refused walk.new.refused) }
{
    if is_too_high(&right, walk.path.len()) {
        drop(right);
        return Ok(None);
    }
    let position = Position::of_node(alloc, walk.path.as_slice())?;
    match rewrite(alloc, typed, &position, right)? {
        Rewritten::Done => Ok(Some(LawStep {
            law,
            direction: Direction::Forward,
            position,
            given: None,
        })),
        Rewritten::NoPosition | Rewritten::IllTyped => {
            walk.refused = true;
            Ok(None)
        }
    }
}
