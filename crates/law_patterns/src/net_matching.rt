// Matching a network against a pattern.

ghost use Rattle.std.specs.Prelude.{◌≡◌, IfOk, MatchOption, ◌∷◌, [], Some, None, true, nat_eq};
ghost use Rattle.leaf_core.specs.ExpressionView.{expression_of};
ghost use Rattle.net_tree.specs.NetworkView.{tree_of, tree};
ghost use Rattle.law_patterns.specs.Matching.{todo_of};
ghost use Rattle.law_patterns.specs.NetMatching.{net_going, net_matching, net_met, next_met, net_step, net_fitted, no_nets_found, nets_found_of, nets_todo_of};

use crate::net_letters::NetLetters;
use crate::net_sym::NetSym;
use crate::stack::Stack;
use leaf_core::Expr;
use net_tree::{Net, NetChild};
use sample_core::Memory;
use std::alloc::Global;

/// The trees of the letters, where the pattern fits the network. `Memory` if allocation fails.
pub(crate) fn fit_net<'t>(
    alloc: Global,
    pattern: &[NetSym],
    net: &'t Net<Expr>,
) -> Result<Option<NetLetters<'t>>, Memory>
    ensures { IfOk result (λ o. MatchOption o
        (net_fitted pattern.now [] (tree_of net.now ∷ []) no_nets_found ≡ None)
        (λ s. net_fitted pattern.now [] (tree_of net.now ∷ []) no_nets_found
        ≡ Some (nets_found_of s))) }
{
    let mut letters = NetLetters::new();
    let mut exprs = Stack::new(alloc);
    let mut nets = Stack::new(alloc);
    nets.put(net)?;
    for sym in pattern {
        if !meet(*sym, &mut exprs, &mut nets, &mut letters)? {
            return Ok(None);
        }
    }
    match (exprs.pop(), nets.pop()) {
        (None, None) => Ok(Some(letters)),
        _ => Ok(None),
    }
}

/// Matches the symbol against what is next: whether they agree.
fn meet<'t>(
    sym: NetSym,
    exprs: &mut Stack<&'t Expr>,
    nets: &mut Stack<&'t Net<Expr>>,
    letters: &mut NetLetters<'t>,
) -> Result<bool, Memory>
    ensures { IfOk result (λ b. net_going b (todo_of exprs.new) (nets_todo_of nets.new) (nets_found_of letters.new)
        ≡ net_step sym (net_matching (todo_of exprs.old) (nets_todo_of nets.old) (nets_found_of letters.old))) }
{
    match sym {
        NetSym::Leaf(sym) => letters.meet_expr(sym, exprs),
        _ => meet_next(sym, exprs, nets, letters),
    }
}

/// Matches the symbol, a letter or a form, against the next network: whether they agree.
fn meet_next<'t>(
    sym: NetSym,
    exprs: &mut Stack<&'t Expr>,
    nets: &mut Stack<&'t Net<Expr>>,
    letters: &mut NetLetters<'t>,
) -> Result<bool, Memory>
    ensures { IfOk result (λ b. net_going b (todo_of exprs.new) (nets_todo_of nets.new) (nets_found_of letters.new)
        ≡ next_met sym (todo_of exprs.old) (nets_todo_of nets.old) (nets_found_of letters.old)) }
{
    match nets.pop() {
        None => Ok(false),
        Some(net) => meet_net(sym, net, exprs, nets, letters),
    }
}

/// Matches this network against the symbol: whether they agree.
fn meet_net<'t>(
    sym: NetSym,
    net: &'t Net<Expr>,
    exprs: &mut Stack<&'t Expr>,
    nets: &mut Stack<&'t Net<Expr>>,
    letters: &mut NetLetters<'t>,
) -> Result<bool, Memory>
    ensures { IfOk result (λ b. net_going b (todo_of exprs.new) (nets_todo_of nets.new) (nets_found_of letters.new)
        ≡ net_met sym (tree_of net.now) (todo_of exprs.old) (nets_todo_of nets.old) (nets_found_of letters.old)) }
{
    match (sym, net) {
        (NetSym::Letter(k), _) => Ok(letters.bind(k, net)),
        (NetSym::Arr, Net::Arr(e)) => exprs.put(e),
        (NetSym::IPre, Net::IPre(c)) => exprs.put(c),
        (NetSym::Hold, Net::Hold(c)) => exprs.put(c),
        (NetSym::Delay, Net::Delay(q, c)) => letters.meet_timed(*q, c, exprs),
        (NetSym::After, Net::After(q, c)) => letters.meet_timed(*q, c, exprs),
        (NetSym::Now, Net::After(q, c)) => meet_now(*q, c, exprs),
        (NetSym::Repeatedly, Net::Repeatedly(q, c)) => letters.meet_timed(*q, c, exprs),
        (NetSym::Time, Net::Time) => Ok(true),
        (NetSym::Integral, Net::Integral) => Ok(true),
        (NetSym::AccumBy, Net::AccumBy(g, z)) => exprs.put_two(g, z),
        (NetSym::LoopPre, Net::LoopPre(c, f)) => meet_fed(c, f, exprs, nets),
        (NetSym::InitialOut, Net::InitialOut(c, f)) => meet_fed(c, f, exprs, nets),
        (NetSym::InitialIn, Net::InitialIn(c, f)) => meet_fed(c, f, exprs, nets),
        (NetSym::First, Net::First(f)) => nets.put(f.get()),
        (NetSym::Seq, Net::Seq(f, g)) => nets.put_two(f.get(), g.get()),
        (NetSym::Switch, Net::Switch(f, t)) => nets.put_two(f.get(), t.get()),
        (NetSym::DSwitch, Net::DSwitch(f, t)) => nets.put_two(f.get(), t.get()),
        (NetSym::RSwitch, Net::RSwitch(f, t)) => nets.put_two(f.get(), t.get()),
        (NetSym::DrSwitch, Net::DrSwitch(f, t)) => nets.put_two(f.get(), t.get()),
        (NetSym::KSwitch, Net::KSwitch(f, e, t)) => nets.put_three(f.get(), e.get(), t.get()),
        _ => Ok(false),
    }
}

/// Puts the expression of an `after` first, whose number is to be 0: whether it is.
fn meet_now<'t>(q: u64, c: &'t Expr, exprs: &mut Stack<&'t Expr>) -> Result<bool, Memory>
    ensures { IfOk result (λ b. (b ≡ nat_eq q 0) × (todo_of exprs.new ≡ expression_of c.now ∷ todo_of exprs.old)) }
{
    exprs.put(c)?;
    Ok(q == 0)
}

/// Puts the parts of a form of an expression and a network first, and answers true.
fn meet_fed<'t>(
    c: &'t Expr,
    f: &'t NetChild<Expr>,
    exprs: &mut Stack<&'t Expr>,
    nets: &mut Stack<&'t Net<Expr>>,
) -> Result<bool, Memory>
    ensures { IfOk result (λ b. (b ≡ true) × (todo_of exprs.new ≡ expression_of c.now ∷ todo_of exprs.old)
        × (nets_todo_of nets.new ≡ tree f.now ∷ nets_todo_of nets.old)) }
{
    exprs.put(c)?;
    nets.put(f.get())
}
