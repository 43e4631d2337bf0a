// The trees that letters of patterns of networks stand for.

ghost use Rattle.std.specs.Prelude.{◌≡◌, ◌∷◌, IfOk};
ghost use Rattle.leaf_core.specs.ExpressionView.{expression_of};
ghost use Rattle.net_tree.specs.NetworkView.{tree_of};
ghost use Rattle.law_patterns.specs.NetPattern.{net_chosen};
ghost use Rattle.law_patterns.specs.NetMatching.{beside, no_nets_found, nets_found_of, net_found_at, net_found_with, held_network, net_going, net_bound, number_bound, net_completed, or_time, or_zero};
ghost use Rattle.law_patterns.specs.Matching.{matching, step, todo_of};

use crate::letters::Letters;
use crate::matching::meet;
use crate::net_sym::NetLetter;
use crate::stack::Stack;
use crate::sym::Sym;
use leaf_core::Expr;
use net_tree::{Net, same_net};
use sample_core::Memory;
use std::alloc::Global;

/// The trees that the letters of a pattern of networks have by now.
#[derive(Clone, Copy)]
pub(crate) struct NetLetters<'t> {
    pub f: Option<&'t Net<Expr>>,
    pub g: Option<&'t Net<Expr>>,
    pub h: Option<&'t Net<Expr>>,
    pub q: Option<u64>,
    pub exprs: Letters<'t>,
}

impl<'t> NetLetters<'t> {
    /// No letter has a tree.
    pub(crate) fn new() -> NetLetters<'t>
        ensures { nets_found_of result ≡ no_nets_found }
    {
        NetLetters {
            f: None,
            g: None,
            h: None,
            q: None,
            exprs: Letters::new(),
        }
    }

    /// The network of the letter, if it has one.
    pub(crate) fn get(&self, letter: NetLetter) -> Option<&'t Net<Expr>>
        ensures { held_network result ≡ net_found_at (nets_found_of self.now) letter }
    {
        match letter {
            NetLetter::F => self.f,
            NetLetter::G => self.g,
            NetLetter::H => self.h,
        }
    }

    /// Lets the letter stand for the network.
    fn set(&mut self, letter: NetLetter, net: &'t Net<Expr>)
        ensures { nets_found_of self.new
            ≡ net_found_with (nets_found_of self.old) letter (tree_of net.now) }
    {
        match letter {
            NetLetter::F => self.f = Some(net),
            NetLetter::G => self.g = Some(net),
            NetLetter::H => self.h = Some(net),
        }
    }

    /// Lets the letter stand for the network, where it stands for no other: whether it does.
    pub(crate) fn bind(&mut self, letter: NetLetter, net: &'t Net<Expr>) -> bool
        ensures { (es fs : _) → net_going result es fs (nets_found_of self.new)
            ≡ net_bound (net_found_at (nets_found_of self.old) letter) letter (tree_of net.now)
            es fs (nets_found_of self.old) }
    {
        match self.get(letter) {
            Some(earlier) => same_net(earlier, net),
            None => {
                self.set(letter, net);
                true
            }
        }
    }

    /// Lets the number letter stand for the number, where it stands for no other: whether it does.
    fn bind_number(&mut self, q: u64) -> bool
        ensures { (es fs : _) → net_going result es fs (nets_found_of self.new)
            ≡ number_bound (nets_found_of self.old).q q es fs (nets_found_of self.old) }
    {
        match self.q {
            Some(earlier) => earlier == q,
            None => {
                self.q = Some(q);
                true
            }
        }
    }

    /// Matches the symbol of an expression against the next expression: whether they agree.
    /// `Memory` if allocation fails.
    pub(crate) fn meet_expr(
        &mut self,
        sym: Sym,
        exprs: &mut Stack<&'t Expr>,
    ) -> Result<bool, Memory>
        ensures { IfOk result (λ b. (fs : _) → net_going b (todo_of exprs.new) fs (nets_found_of self.new)
            ≡ beside fs (nets_found_of self.old)
            (step sym (matching (todo_of exprs.old) (nets_found_of self.old).exprs))) }
    {
        meet(sym, exprs, &mut self.exprs)
    }

    /// Puts the expression of a form with a number first, where the number letter stands for that
    /// number, or for none: whether it does.
    pub(crate) fn meet_timed(
        &mut self,
        q: u64,
        expr: &'t Expr,
        exprs: &mut Stack<&'t Expr>,
    ) -> Result<bool, Memory>
        ensures { IfOk result (λ b. (fs : _) → net_going b (todo_of exprs.new) fs (nets_found_of self.new)
            ≡ number_bound (nets_found_of self.old).q q (expression_of expr.now ∷ todo_of exprs.old) fs
            (nets_found_of self.old)) }
    {
        exprs.put(expr)?;
        Ok(self.bind_number(q))
    }

    /// A copy of what the letter stands for; `time` where it stands for nothing. `Memory` if a
    /// count of references is full.
    pub(crate) fn copy_of(&self, alloc: Global, letter: NetLetter) -> Result<Net<Expr>, Memory>
        ensures { IfOk result
            (λ n. tree_of n ≡ net_chosen (net_completed (nets_found_of self.now)) letter) }
    {
        match letter {
            NetLetter::F => copy_or_time(alloc, self.f),
            NetLetter::G => copy_or_time(alloc, self.g),
            NetLetter::H => copy_or_time(alloc, self.h),
        }
    }

    /// What the number letter stands for; 0 where it stands for nothing.
    pub(crate) fn number(&self) -> u64
        ensures { result ≡ or_zero (nets_found_of self.now).q }
    {
        match self.q {
            Some(q) => q,
            None => 0,
        }
    }
}

/// A copy of the network; `time` if there is none.
fn copy_or_time(alloc: Global, net: Option<&Net<Expr>>) -> Result<Net<Expr>, Memory>
    ensures { IfOk result (λ n. tree_of n ≡ or_time (held_network net.entry)) }
{
    match net {
        Some(net) => net.try_copy(alloc),
        None => Ok(Net::Time),
    }
}
