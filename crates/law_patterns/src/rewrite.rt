// What a law makes of an expression.

ghost use Rattle.std.specs.Prelude.{◌≡◌, IfOk, MatchOption, Some, None};
ghost use Rattle.leaf_core.specs.Expression.{Expression};
ghost use Rattle.leaf_core.specs.ExpressionView.{expression_of};
ghost use Rattle.law_patterns.specs.Pattern.{PatternSides};
ghost use Rattle.law_patterns.specs.Matching.{rewritten};
ghost use Rattle.law_patterns.specs.NetMatching.{net_rewritten};
ghost use Rattle.law_patterns.specs.NetPattern.{NetPatternSides};
ghost use Rattle.net_tree.specs.Network.{Network};
ghost use Rattle.net_tree.specs.NetworkView.{tree_of};

use crate::building::build;
use crate::letters::Letters;
use crate::matching::fit;
use crate::net_building::build_net;
use crate::net_matching::fit_net;
use crate::net_sym::NetSym;
use crate::sym::Sym;
use leaf_core::Expr;
use net_tree::Net;
use sample_core::Memory;
use std::alloc::Global;

/// What the law whose sides are these patterns makes of the expression, read from left to right:
/// the right side, where a choice of trees for the letters fills the left side to the expression;
/// `None` if none does. `Memory` if allocation fails.
pub fn rewrite_expr(
    alloc: Global,
    left: &[Sym],
    right: &[Sym],
    expr: &Expr,
) -> Result<Option<Expr>, Memory>
    ensures { IfOk result (λ o. MatchOption o
        ((r : Expression) → PatternSides left.now right.now (expression_of expr.now) r → ⊥)
        (λ r. PatternSides left.now right.now (expression_of expr.now) (expression_of r))) }
{
    rewritten(alloc, left, right, expr)
}

/// The right side with the trees that matching the left side finds.
fn rewritten(
    alloc: Global,
    left: &[Sym],
    right: &[Sym],
    expr: &Expr,
) -> Result<Option<Expr>, Memory>
    ensures { IfOk result (λ o. MatchOption o
        (rewritten left.now right.now (expression_of expr.now) ≡ None)
        (λ r. rewritten left.now right.now (expression_of expr.now) ≡ Some (expression_of r))) }
{
    match fit(alloc, left, expr, Letters::new())? {
        None => Ok(None),
        Some(letters) => build(alloc, right, &letters),
    }
}

/// What the law whose sides are these patterns makes of the network, read from left to right: the
/// right side, where a choice of trees for the letters fills the left side to the network; `None`
/// if none does. `Memory` if allocation fails.
pub fn rewrite_net(
    alloc: Global,
    left: &[NetSym],
    right: &[NetSym],
    net: &Net<Expr>,
) -> Result<Option<Net<Expr>>, Memory>
    ensures { IfOk result (λ o. MatchOption o
        ((r : Network Expression) → NetPatternSides left.now right.now (tree_of net.now) r → ⊥)
        (λ r. NetPatternSides left.now right.now (tree_of net.now) (tree_of r))) }
{
    net_rewritten(alloc, left, right, net)
}

/// The right side with the trees that matching the left side finds.
fn net_rewritten(
    alloc: Global,
    left: &[NetSym],
    right: &[NetSym],
    net: &Net<Expr>,
) -> Result<Option<Net<Expr>>, Memory>
    ensures { IfOk result (λ o. MatchOption o
        (net_rewritten left.now right.now (tree_of net.now) ≡ None)
        (λ r. net_rewritten left.now right.now (tree_of net.now) ≡ Some (tree_of r))) }
{
    match fit_net(alloc, left, net)? {
        None => Ok(None),
        Some(letters) => build_net(alloc, right, &letters),
    }
}
