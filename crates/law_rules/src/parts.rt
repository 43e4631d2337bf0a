// Laws that lead to a part of the network.

ghost use Rattle.std.specs.Prelude.{◌≡◌, IfOk, Some, None, cond, option_map};
ghost use Rattle.leaf_core.specs.Expression.{input, int_expr, nth};
ghost use Rattle.leaf_core.specs.ExpressionView.{expression_of};
ghost use Rattle.net_tree.specs.Network.{k_switch, seq};
ghost use Rattle.net_tree.specs.NetworkView.{tree_of, trees};
ghost use Rattle.law_rules.specs.Forward.{law20, law38, law40, member_by, place_in};

use leaf_core::{Expr, Literal};
use net_tree::{MOST_MEMBERS, Members, Net};
use sample_core::Memory;
use std::alloc::Global;

/// Behind any network, what goes by the steps alone is itself.
pub(crate) fn without_input(alloc: Global, net: &Net<Expr>) -> Result<Option<Net<Expr>>, Memory>
    ensures { IfOk result (λ o. option_map tree_of o ≡ law20 (tree_of net.now)) }
{
    match net {
        Net::Seq(_, s) => alone(alloc, s.get()),
        _ => Ok(None),
    }
}

/// The network, where it goes by the steps alone.
fn alone(alloc: Global, s: &Net<Expr>) -> Result<Option<Net<Expr>>, Memory>
    ensures { (f : _) → IfOk result (λ o. option_map tree_of o ≡ law20 (seq f (tree_of s.now))) }
{
    match s {
        Net::After(..) | Net::Repeatedly(..) | Net::Time => copied(alloc, s),
        _ => Ok(None),
    }
}

/// A copy, as an answer.
fn copied(alloc: Global, net: &Net<Expr>) -> Result<Option<Net<Expr>>, Memory>
    ensures { IfOk result (λ o. option_map tree_of o ≡ Some (tree_of net.now)) }
{
    let copy = net.try_copy(alloc)?;
    Ok(Some(copy))
}

/// A network that is frozen and at once resumed goes on. So many frozen networks are in scope.
pub(crate) fn resumed(
    alloc: Global,
    net: &Net<Expr>,
    olds: u32,
) -> Result<Option<Net<Expr>>, Memory>
    ensures { IfOk result (λ o. option_map tree_of o ≡ law38 olds (tree_of net.now)) }
{
    match net {
        Net::KSwitch(f, _, t) => {
            if is_old(t.get(), olds) {
                copied(alloc, f.get())
            } else {
                Ok(None)
            }
        }
        _ => Ok(None),
    }
}

/// Whether the network is the frozen one of this number.
fn is_old(net: &Net<Expr>, number: u32) -> bool
    ensures { (f : _) (e : _)
        → cond result (Some f) None ≡ law38 number (k_switch f e (tree_of net.now)) }
{
    match net {
        Net::Old(k) => *k == number,
        _ => false,
    }
}

/// Of the list of what the members output, an element is what its member outputs.
pub(crate) fn one_member(alloc: Global, net: &Net<Expr>) -> Result<Option<Net<Expr>>, Memory>
    ensures { IfOk result (λ o. option_map tree_of o ≡ law40 (tree_of net.now)) }
{
    match net {
        Net::Seq(all, one) => picked(alloc, all.get(), one.get()),
        _ => Ok(None),
    }
}

/// The member whose output one network reads off what the other outputs.
fn picked(alloc: Global, all: &Net<Expr>, one: &Net<Expr>) -> Result<Option<Net<Expr>>, Memory>
    ensures { IfOk result (λ o. option_map tree_of o
        ≡ law40 (seq (tree_of all.now) (tree_of one.now))) }
{
    match (all, one) {
        (Net::Par(fs), Net::Arr(e)) => match place(e) {
            Some(i) => member_at(alloc, fs, i),
            None => Ok(None),
        },
        _ => Ok(None),
    }
}

/// The place that the expression reads off a list, where it is a number literal from 0.
fn place(e: &Expr) -> Option<usize>
    ensures { result ≡ place_in (expression_of e.now) }
{
    match e {
        Expr::Nth(all, at, _) => match (all.get(), at.get()) {
            (Expr::Input, Expr::Literal(Literal::Int(n))) => from_0(*n),
            _ => None,
        },
        _ => None,
    }
}

/// The number, where it isn't negative.
fn from_0(n: i64) -> Option<usize>
    ensures { (d : _) → result ≡ place_in (nth input (int_expr n) d) }
{
    match usize::try_from(n) {
        Ok(n) => Some(n),
        Err(_) => None,
    }
}

/// Member i, of no more than 64.
fn member_at(alloc: Global, fs: &Members<Expr>, i: usize) -> Result<Option<Net<Expr>>, Memory>
    ensures { IfOk result (λ o. option_map tree_of o ≡ member_by (trees fs.now) (Some i)) }
{
    let all = fs.as_slice();
    if all.len() > MOST_MEMBERS {
        return Ok(None);
    }
    if i >= all.len() {
        return Ok(None);
    }
    copied(alloc, &all[i])
}
