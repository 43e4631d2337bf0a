// Building the network that a pattern stands for.

ghost use Rattle.std.specs.Prelude.{◌≡◌, IfOk, MatchOption, ◌∷◌, Some, None, map};
ghost use Rattle.leaf_core.specs.ExpressionView.{expression_of};
ghost use Rattle.net_tree.specs.FormView.{fed_tree};
ghost use Rattle.net_tree.specs.Network.{accum_by, first, k_switch};
ghost use Rattle.net_tree.specs.NetworkView.{tree_of, tree};
ghost use Rattle.law_patterns.specs.Matching.{completed, found_of};
ghost use Rattle.law_patterns.specs.NetBuilding.{both_there, leaf_form, pair_form};
ghost use Rattle.law_patterns.specs.NetMatching.{net_completed, nets_found_of};
ghost use Rattle.law_patterns.specs.NetPattern.{both, net_filled, net_put_before, of_fed, of_leaf, of_leaves, only_net, with_exprs, with_nets};
ghost use Rattle.law_patterns.specs.Pattern.{around_one, around_two, around_three, put_before};

use crate::building;
use crate::letters::Letters;
use crate::net_letters::NetLetters;
use crate::net_sym::NetSym;
use crate::stack::Stack;
use crate::sym::Sym;
use leaf_core::{Expr, ExprChild};
use net_tree::{FedForm, LeafForm, Net, NetChild, PairForm};
use sample_core::Memory;
use std::alloc::Global;

/// The network that the pattern is with these trees for its letters, whose parts it shares; `None`
/// if it isn't one network. `Memory` if allocation fails.
pub(crate) fn build_net(
    alloc: Global,
    pattern: &[NetSym],
    letters: &NetLetters,
) -> Result<Option<Net<Expr>>, Memory>
    ensures { IfOk result (λ o. MatchOption o
        (net_filled (net_completed (nets_found_of letters.now)) pattern.now ≡ None)
        (λ n. net_filled (net_completed (nets_found_of letters.now)) pattern.now
        ≡ Some (tree_of n))) }
{
    let mut exprs = Stack::new(alloc);
    let mut nets = Stack::new(alloc);
    let mut left = pattern.len();
    while left > 0 {
        left -= 1;
        if !make(alloc, pattern[left], letters, &mut exprs, &mut nets)? {
            return Ok(None);
        }
    }
    only_net(alloc, &exprs, nets)
}

/// The network, where it is the only one and there are no expressions beside it.
fn only_net(
    alloc: Global,
    exprs: &Stack<ExprChild>,
    nets: Stack<NetChild<Expr>>,
) -> Result<Option<Net<Expr>>, Memory>
    ensures { IfOk result (λ o. MatchOption o (only_net (Some (both exprs.now (map tree nets))) ≡ None)
        (λ n. only_net (Some (both exprs.now (map tree nets))) ≡ Some (tree_of n))) }
{
    if !exprs.is_empty() {
        drop(nets);
        return Ok(None);
    }
    match nets.only() {
        None => Ok(None),
        Some(top) => {
            let copy = top.get().try_copy(alloc)?;
            Ok(Some(copy))
        }
    }
}

/// Puts on the stacks what the symbol makes: a letter's network, what an expression's symbol makes,
/// or the form with the expressions and networks that it takes off. Whether they were there.
fn make(
    alloc: Global,
    sym: NetSym,
    letters: &NetLetters,
    exprs: &mut Stack<ExprChild>,
    nets: &mut Stack<NetChild<Expr>>,
) -> Result<bool, Memory>
    ensures { IfOk result (λ b. both_there b exprs.new (map tree nets.new)
        ≡ net_put_before (net_completed (nets_found_of letters.now)) sym
        (both exprs.old (map tree nets.old))) }
{
    match sym {
        NetSym::Letter(k) => {
            let net = letters.copy_of(alloc, k)?;
            put(alloc, net, nets)
        }
        NetSym::Leaf(sym) => make_expr(alloc, sym, &letters.exprs, exprs),
        NetSym::Arr
        | NetSym::IPre
        | NetSym::Hold
        | NetSym::Delay
        | NetSym::After
        | NetSym::Now
        | NetSym::Repeatedly => make_leaf(alloc, sym, letters.number(), exprs, nets),
        NetSym::Time => put(alloc, Net::Time, nets),
        NetSym::Integral => put(alloc, Net::Integral, nets),
        NetSym::AccumBy => make_accum(alloc, exprs, nets),
        NetSym::LoopPre => make_fed(alloc, FedForm::LoopPre, exprs, nets),
        NetSym::InitialOut => make_fed(alloc, FedForm::InitialOut, exprs, nets),
        NetSym::InitialIn => make_fed(alloc, FedForm::InitialIn, exprs, nets),
        NetSym::First => make_first(alloc, nets),
        NetSym::Seq | NetSym::Switch | NetSym::DSwitch | NetSym::RSwitch | NetSym::DrSwitch =>
            make_pair(alloc, sym, nets),
        NetSym::KSwitch => make_freeze(alloc, nets),
    }
}

/// Puts the network on the stack, and answers true.
fn put(alloc: Global, net: Net<Expr>, nets: &mut Stack<NetChild<Expr>>) -> Result<bool, Memory>
    ensures { IfOk result (λ b. (es : _) → both_there b es (map tree nets.new)
        ≡ Some (both es (tree_of net ∷ map tree nets.old))) }
{
    let part = NetChild::new(alloc, net)?;
    nets.put(part)
}

/// Puts on the stack what an expression's symbol makes. Whether its parts were there.
fn make_expr(
    alloc: Global,
    sym: Sym,
    letters: &Letters,
    exprs: &mut Stack<ExprChild>,
) -> Result<bool, Memory>
    ensures { IfOk result (λ b. (fs : _) → both_there b exprs.new fs
        ≡ with_nets (put_before (completed (found_of letters.now)) sym exprs.old) fs) }
{
    building::make(alloc, sym, letters, exprs)
}

/// Puts the form around the expression on top of the stack. Whether it was there.
fn make_leaf(
    alloc: Global,
    form: NetSym,
    q: u64,
    exprs: &mut Stack<ExprChild>,
    nets: &mut Stack<NetChild<Expr>>,
) -> Result<bool, Memory>
    ensures { IfOk result (λ b. both_there b exprs.new (map tree nets.new)
        ≡ of_leaf (leaf_form form q) exprs.old (map tree nets.old)) }
{
    match building::pop_expr(alloc, exprs)? {
        None => Ok(false),
        Some(expr) => put(alloc, leaf(form, q, expr), nets),
    }
}

/// The form with this number, where it has one, and this expression.
fn leaf(form: NetSym, q: u64, expr: Expr) -> Net<Expr>
    ensures { tree_of result ≡ leaf_form form q (expression_of expr) }
{
    match form {
        NetSym::IPre => LeafForm::IPre.of(expr),
        NetSym::Hold => LeafForm::Hold.of(expr),
        NetSym::Delay => LeafForm::Delay(q).of(expr),
        NetSym::After => LeafForm::After(q).of(expr),
        NetSym::Now => LeafForm::After(0).of(expr),
        NetSym::Repeatedly => LeafForm::Repeatedly(q).of(expr),
        _ => LeafForm::Arr.of(expr),
    }
}

/// Puts `accumBy` around the two expressions on top of the stack. Whether they were there.
fn make_accum(
    alloc: Global,
    exprs: &mut Stack<ExprChild>,
    nets: &mut Stack<NetChild<Expr>>,
) -> Result<bool, Memory>
    ensures { IfOk result (λ b. both_there b exprs.new (map tree nets.new)
        ≡ of_leaves accum_by exprs.old (map tree nets.old)) }
{
    let Some(g) = building::pop_expr(alloc, exprs)? else {
        return Ok(false);
    };
    match building::pop_expr(alloc, exprs) {
        Ok(Some(z)) => put(alloc, Net::AccumBy(g, z), nets),
        Ok(None) => {
            drop(g);
            Ok(false)
        }
        Err(refused) => {
            drop(g);
            Err(refused)
        }
    }
}

/// Puts the form around the expression and the network on top of the stacks. Whether they were
/// there.
fn make_fed(
    alloc: Global,
    form: FedForm,
    exprs: &mut Stack<ExprChild>,
    nets: &mut Stack<NetChild<Expr>>,
) -> Result<bool, Memory>
    ensures { IfOk result (λ b. both_there b exprs.new (map tree nets.new)
        ≡ of_fed (fed_tree form) exprs.old (map tree nets.old)) }
{
    let Some(c) = building::pop_expr(alloc, exprs)? else {
        return Ok(false);
    };
    match nets.pop() {
        Some(f) => put(alloc, form.of(c, f), nets),
        None => {
            drop(c);
            Ok(false)
        }
    }
}

/// Puts `first` around the network on top of the stack. Whether it was there.
fn make_first(alloc: Global, nets: &mut Stack<NetChild<Expr>>) -> Result<bool, Memory>
    ensures { IfOk result (λ b. (es : _) → both_there b es (map tree nets.new)
        ≡ with_exprs es (around_one first (map tree nets.old))) }
{
    match nets.pop() {
        None => Ok(false),
        Some(f) => put(alloc, Net::First(f), nets),
    }
}

/// Puts the form around the two networks on top of the stack. Whether they were there.
fn make_pair(alloc: Global, form: NetSym, nets: &mut Stack<NetChild<Expr>>) -> Result<bool, Memory>
    ensures { IfOk result (λ b. (es : _) → both_there b es (map tree nets.new)
        ≡ with_exprs es (around_two (pair_form form) (map tree nets.old))) }
{
    match nets.pop_two() {
        None => Ok(false),
        Some((f, g)) => put(alloc, pair(form, f, g), nets),
    }
}

/// The form around its two networks.
fn pair(form: NetSym, f: NetChild<Expr>, g: NetChild<Expr>) -> Net<Expr>
    ensures { tree_of result ≡ pair_form form (tree f) (tree g) }
{
    match form {
        NetSym::Switch => PairForm::Switch.of(f, g),
        NetSym::DSwitch => PairForm::DSwitch.of(f, g),
        NetSym::RSwitch => PairForm::RSwitch.of(f, g),
        NetSym::DrSwitch => PairForm::DrSwitch.of(f, g),
        _ => PairForm::Seq.of(f, g),
    }
}

/// Puts `kSwitch` around the three networks on top of the stack. Whether they were there.
fn make_freeze(alloc: Global, nets: &mut Stack<NetChild<Expr>>) -> Result<bool, Memory>
    ensures { IfOk result (λ b. (es : _) → both_there b es (map tree nets.new)
        ≡ with_exprs es (around_three k_switch (map tree nets.old))) }
{
    let Some((f, e)) = nets.pop_two() else {
        return Ok(false);
    };
    match nets.pop() {
        None => {
            drop(f);
            drop(e);
            Ok(false)
        }
        Some(t) => put(alloc, Net::KSwitch(f, e, t), nets),
    }
}
