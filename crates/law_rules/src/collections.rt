// Laws that lead to a `parB`.

ghost use Rattle.std.specs.Prelude.{◌≡◌, ◌≤◌, IfOk, Some, length, map, option_map};
ghost use Rattle.leaf_core.specs.Expression.{expressions_of, list_expr};
ghost use Rattle.leaf_core.specs.ExpressionView.{expression_of};
ghost use Rattle.net_tree.specs.Network.{arr, networks_of, par, seq};
ghost use Rattle.net_tree.specs.NetworkView.{tree, tree_of, trees};
ghost use Rattle.net_tree.specs.declared.limits.TheConstants.{MOST_MEMBERS};
ghost use Rattle.law_rules.specs.NetworkLaw.{route_to};
ghost use Rattle.law_rules.specs.Forward.{beside_none, is_eventless, kept_apart, law39, law41, law42, law46, one_to_64, routed_apart, routed_each};

use leaf_core::{Expr, ExprChild, Exprs, Literal};
use net_tree::{MOST_MEMBERS, Members, Net, NetChild};
use sample_core::Memory;
use std::alloc::Global;

/// What goes before a `parB` goes before each of its members.
pub(crate) fn before_members(alloc: Global, net: &Net<Expr>) -> Result<Option<Net<Expr>>, Memory>
    ensures { IfOk result (λ o. option_map tree_of o ≡ law41 (tree_of net.now)) }
{
    match net {
        Net::Seq(h, all) => before_each(alloc, h, all.get()),
        _ => Ok(None),
    }
}

/// The `parB` of the members behind h, where the network is a `parB`.
fn before_each(
    alloc: Global,
    h: &NetChild<Expr>,
    all: &Net<Expr>,
) -> Result<Option<Net<Expr>>, Memory>
    ensures { IfOk result (λ o. option_map tree_of o ≡ law41 (seq (tree h.now) (tree_of all.now))) }
{
    match all {
        Net::Par(fs) => members_behind(alloc, h, fs),
        _ => Ok(None),
    }
}

/// The `parB` of the members behind h, where there are from 1 to 64.
fn members_behind(
    alloc: Global,
    h: &NetChild<Expr>,
    fs: &Members<Expr>,
) -> Result<Option<Net<Expr>>, Memory>
    ensures { IfOk result (λ o. option_map tree_of o ≡ law41 (seq (tree h.now) (par (trees fs.now)))) }
{
    let fs = fs.as_slice();
    if !is_1_to_64(fs.len()) {
        return Ok(None);
    }
    let all = each_behind(alloc, h, fs)?;
    gathered(alloc, all)
}

/// Whether there are from 1 to 64.
fn is_1_to_64(n: usize) -> bool
    ensures { result ≡ one_to_64 n }
{
    1 <= n && n <= MOST_MEMBERS
}

/// Each of the networks behind h.
fn each_behind(
    alloc: Global,
    h: &NetChild<Expr>,
    fs: &[Net<Expr>],
) -> Result<Vec<Net<Expr>>, Memory>
    ensures { IfOk result (λ all. map tree_of all.items
        ≡ map (λ f. seq (tree h.now) (tree_of f)) fs.now) }
{
    let mut all = Vec::with_capacity(alloc, fs.len())?;
    for f in fs {
        let one = behind(alloc, h, f)?;
        all.push(one)?;
    }
    Ok(all)
}

/// One network behind another.
fn behind(alloc: Global, h: &NetChild<Expr>, f: &Net<Expr>) -> Result<Net<Expr>, Memory>
    ensures { IfOk result (λ n. tree_of n ≡ seq (tree h.now) (tree_of f.now)) }
{
    let f = f.try_copy(alloc)?;
    let f = NetChild::new(alloc, f)?;
    match h.try_copy() {
        Ok(h) => Ok(Net::Seq(h, f)),
        Err(refused) => {
            drop(f);
            Err(refused)
        }
    }
}

/// The `parB` of these members, as an answer.
fn gathered(alloc: Global, all: Vec<Net<Expr>>) -> Result<Option<Net<Expr>>, Memory>
    ensures { IfOk result (λ o. option_map tree_of o
        ≡ Some (par (networks_of (map tree_of all.items)))) }
{
    let all = Members::new(alloc, all)?;
    Ok(Some(Net::Par(all)))
}

/// A list expression is the `parB` of its elements.
pub(crate) fn elements_apart(alloc: Global, net: &Net<Expr>) -> Result<Option<Net<Expr>>, Memory>
    ensures { IfOk result (λ o. option_map tree_of o ≡ law42 (tree_of net.now)) }
{
    match net {
        Net::Arr(e) => list_apart(alloc, e),
        _ => Ok(None),
    }
}

/// The expression of an `arr`, a list, as the `parB` of its elements.
fn list_apart(alloc: Global, e: &Expr) -> Result<Option<Net<Expr>>, Memory>
    ensures { IfOk result (λ o. option_map tree_of o ≡ law42 (arr (expression_of e.now))) }
{
    match e {
        Expr::List(_, es) => elements_each(alloc, es),
        _ => Ok(None),
    }
}

/// The `parB` of `arr` of the elements, where there are from 1 to 64.
fn elements_each(alloc: Global, es: &Exprs) -> Result<Option<Net<Expr>>, Memory>
    ensures { (T : _) → IfOk result (λ o. option_map tree_of o
        ≡ law42 (arr (list_expr T (expressions_of es.now)))) }
{
    let es = es.as_slice();
    if !is_1_to_64(es.len()) {
        return Ok(None);
    }
    let all = each_arr(alloc, es)?;
    gathered(alloc, all)
}

/// `arr` of each of the expressions.
fn each_arr(alloc: Global, es: &[Expr]) -> Result<Vec<Net<Expr>>, Memory>
    ensures { IfOk result (λ all. map tree_of all.items ≡ map (λ e. arr (expression_of e)) es.now) }
{
    let mut all = Vec::with_capacity(alloc, es.len())?;
    for e in es {
        let copy = e.try_copy(alloc)?;
        all.push(Net::Arr(copy))?;
    }
    Ok(all)
}

/// Members that no event ends are a `parB`, each behind its route.
pub(crate) fn members_apart(alloc: Global, net: &Net<Expr>) -> Result<Option<Net<Expr>>, Memory>
    ensures { IfOk result (λ o. option_map tree_of o ≡ law39 (tree_of net.now)) }
{
    match net {
        Net::PSwitch(r, fs, e, _) => {
            if is_eventless(e.get()) {
                members_routed(alloc, r, fs)
            } else {
                Ok(None)
            }
        }
        _ => Ok(None),
    }
}

/// Whether the network is `arr` of `none`.
fn is_eventless(net: &Net<Expr>) -> bool
    ensures { result ≡ is_eventless (tree_of net.now) }
{
    match net {
        Net::Arr(Expr::NoEvent(_)) => true,
        _ => false,
    }
}

/// The `parB` of the members behind their routes, where there are from 1 to 64.
fn members_routed(alloc: Global, r: &Expr, fs: &Members<Expr>) -> Result<Option<Net<Expr>>, Memory>
    ensures { IfOk result (λ o. option_map tree_of o
        ≡ routed_apart (expression_of r.now) (trees fs.now)) }
{
    let fs = fs.as_slice();
    if !is_1_to_64(fs.len()) {
        return Ok(None);
    }
    let r = r.try_copy(alloc)?;
    let r = ExprChild::new(alloc, r)?;
    let all = each_routed(alloc, &r, fs);
    drop(r);
    match all {
        Ok(all) => gathered(alloc, all),
        Err(refused) => Err(refused),
    }
}

/// Each of the networks behind its route.
fn each_routed(alloc: Global, r: &ExprChild, fs: &[Net<Expr>]) -> Result<Vec<Net<Expr>>, Memory>
    requires { length fs.now ≤ MOST_MEMBERS }
    ensures { IfOk result (λ all. map tree_of all.items
        ≡ routed_each r.now 0 (map tree_of fs.now)) }
{
    let mut all = Vec::with_capacity(alloc, fs.len())?;
    for i in 0..fs.len() {
        let one = routed(alloc, r, i, &fs[i])?;
        all.push(one)?;
    }
    Ok(all)
}

/// Network i behind its route.
fn routed(alloc: Global, r: &ExprChild, i: usize, f: &Net<Expr>) -> Result<Net<Expr>, Memory>
    requires { i ≤ MOST_MEMBERS }
    ensures { IfOk result (λ n. tree_of n ≡ seq (arr (route_to r.now i)) (tree_of f.now)) }
{
    let route = route_to(alloc, r, i)?;
    let route = NetChild::new(alloc, Net::Arr(route))?;
    let whole = behind(alloc, &route, f);
    drop(route);
    whole
}

/// What the route gives to member i.
fn route_to(alloc: Global, r: &ExprChild, i: usize) -> Result<Expr, Memory>
    requires { i ≤ MOST_MEMBERS }
    ensures { IfOk result (λ e. expression_of e ≡ route_to r.now i) }
{
    let input = ExprChild::new(alloc, Expr::Input)?;
    let number = ExprChild::new(alloc, Expr::Literal(Literal::Int(i as i64)))?;
    let pair = ExprChild::new(alloc, Expr::Pair(input, number))?;
    let r = r.try_copy()?;
    Ok(Expr::Then(pair, r))
}

/// Where no event comes, an `rpSwitchB` is the `parB` of the members that it begins with.
pub(crate) fn unchanging(alloc: Global, net: &Net<Expr>) -> Result<Option<Net<Expr>>, Memory>
    ensures { IfOk result (λ o. option_map tree_of o ≡ law46 (tree_of net.now)) }
{
    match net {
        Net::Seq(before, all) => unchanged(alloc, before.get(), all.get()),
        _ => Ok(None),
    }
}

/// The `parB` that an `rpSwitchB` begins with, behind what goes before, where no event comes.
fn unchanged(
    alloc: Global,
    before: &Net<Expr>,
    all: &Net<Expr>,
) -> Result<Option<Net<Expr>>, Memory>
    ensures { IfOk result (λ o. option_map tree_of o
        ≡ law46 (seq (tree_of before.now) (tree_of all.now))) }
{
    match (before, all) {
        (Net::Arr(e), Net::RpSwitch(fs, _, _)) => match beside_none(e) {
            Some(e) => kept_apart(alloc, e, fs),
            None => Ok(None),
        },
        _ => Ok(None),
    }
}

/// The expression that stands in a pair with `none`.
fn beside_none(e: &Expr) -> Option<&Expr>
    ensures { option_map (λ d. expression_of d.now) result ≡ beside_none (expression_of e.now) }
{
    match e {
        Expr::Pair(one, other) => match other.get() {
            Expr::NoEvent(_) => Some(one.get()),
            _ => None,
        },
        _ => None,
    }
}

/// The `parB` of the members behind `arr` of the expression, where there are from 1 to 64.
fn kept_apart(alloc: Global, e: &Expr, fs: &Members<Expr>) -> Result<Option<Net<Expr>>, Memory>
    ensures { IfOk result (λ o. option_map tree_of o
        ≡ kept_apart (trees fs.now) (Some (expression_of e.now))) }
{
    if !is_1_to_64(fs.as_slice().len()) {
        return Ok(None);
    }
    let fs = fs.try_copy()?;
    let all = NetChild::new(alloc, Net::Par(fs))?;
    match applied(alloc, e) {
        Ok(before) => Ok(Some(Net::Seq(before, all))),
        Err(refused) => {
            drop(all);
            Err(refused)
        }
    }
}

/// `arr` of the expression.
fn applied(alloc: Global, e: &Expr) -> Result<NetChild<Expr>, Memory>
    ensures { IfOk result (λ f. tree f ≡ arr (expression_of e.now)) }
{
    let e = e.try_copy(alloc)?;
    NetChild::new(alloc, Net::Arr(e))
}
