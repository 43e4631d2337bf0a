// Applying a law at a network.

ghost use Rattle.std.specs.Prelude.{◌≡◌, IfOk, MatchOption};
ghost use Rattle.net_tree.specs.NetworkView.{tree_of};
ghost use Rattle.law_rules.specs.NetworkLaw.{NetworkLaw};
ghost use Rattle.law_patterns.specs.NetMatching.{held_network};
ghost use Rattle.law_rules.specs.Answer.{IsNetworkAnswer, IsNetworkRightSide};

use crate::collections::{before_members, elements_apart, members_apart, unchanging};
use crate::parts::{one_member, resumed, without_input};
use crate::table::{Rule, law_rule};
use law_patterns::rewrite_net;
use leaf_core::Expr;
use net_tree::{Direction, Law, Net, same_net};
use sample_core::Memory;
use std::alloc::Global;

/// What a law answers at a network, where so many frozen networks are in scope: forward, with none
/// given, the law's right side where the network is its left side; backward the network that is
/// given, where the law leads from it forward to exactly the one at hand; else `None`.
/// Types don't matter. `Memory` if allocation fails.
pub fn apply_law(
    alloc: Global,
    law: Law,
    direction: Direction,
    net: &Net<Expr>,
    given: Option<&Net<Expr>>,
    olds: u32,
) -> Result<Option<Net<Expr>>, Memory>
    ensures { IfOk result
        (IsNetworkAnswer law direction (tree_of net.now) (held_network given.entry) olds) }
{
    let Law::L(number) = law else {
        return Ok(None);
    };
    match (direction, given) {
        (Direction::Forward, None) => forward(alloc, number, net, olds),
        (Direction::Backward, Some(given)) => backward(alloc, number, net, given, olds),
        _ => Ok(None),
    }
}

/// What law L`number` makes of the network, read from left to right.
fn forward(
    alloc: Global,
    number: u8,
    net: &Net<Expr>,
    olds: u32,
) -> Result<Option<Net<Expr>>, Memory>
    ensures { IfOk result (IsNetworkRightSide number olds (tree_of net.now)) }
{
    let (rule, left, right) = law_rule(number);
    match rule {
        Rule::Nothing => Ok(None),
        Rule::Sides => rewrite_net(alloc, left, right, net),
        Rule::WithoutInput => without_input(alloc, net),
        Rule::Resumed => resumed(alloc, net, olds),
        Rule::MembersApart => members_apart(alloc, net),
        Rule::OneMember => one_member(alloc, net),
        Rule::BeforeMembers => before_members(alloc, net),
        Rule::ElementsApart => elements_apart(alloc, net),
        Rule::Unchanging => unchanging(alloc, net),
    }
}

/// The network that is given, where the law leads from it forward to exactly the one at hand.
fn backward(
    alloc: Global,
    number: u8,
    net: &Net<Expr>,
    given: &Net<Expr>,
    olds: u32,
) -> Result<Option<Net<Expr>>, Memory>
    ensures { IfOk result (λ o. MatchOption o
        (NetworkLaw number olds (tree_of given.now) (tree_of net.now) → ⊥)
        (λ r. NetworkLaw number olds (tree_of given.now) (tree_of net.now)
        × (tree_of r ≡ tree_of given.now))) }
{
    let Some(right) = forward(alloc, number, given, olds)? else {
        return Ok(None);
    };
    let same = same_net(&right, net);
    drop(right);
    if !same {
        return Ok(None);
    }
    let copy = given.try_copy(alloc)?;
    Ok(Some(copy))
}
