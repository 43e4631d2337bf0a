// Steps of certificates.

ghost use Rattle.std.specs.Prelude.{◌≡◌, IfOk};
ghost use Rattle.net_tree.specs.LawStep.{part_of, seen};
ghost use Rattle.net_tree.specs.declared.law_step.Tree.TheVariants as V;

use crate::net::Net;
use crate::position::Position;
use leaf_core::Expr;
use sample_core::Memory;
use std::alloc::Global;

/// The greatest number of a law of expressions.
pub const LAST_EXPRESSION_LAW: u8 = 55;

/// The greatest number of a law of networks.
pub const LAST_NETWORK_LAW: u8 = 65;

/// A law by its number, from 1 to `LAST_EXPRESSION_LAW` or to `LAST_NETWORK_LAW`. Any other number
/// is that of no law.
#[derive(Clone, Copy, PartialEq, Eq, Debug)]
pub enum Law {
    /// A law of expressions.
    E(u8),
    /// A law of networks.
    L(u8),
}

/// Which way a law is taken.
#[derive(Clone, Copy, PartialEq, Eq, Debug)]
pub enum Direction {
    /// From the left side to the right one.
    Forward,
    /// From the right side to the left one.
    Backward,
}

/// What can stand at a position: a network or an expression.
#[derive(Drop)]
pub enum Tree {
    /// A network.
    Net(Net<Expr>),
    /// An expression.
    Expr(Expr),
}

/// A reference to a network or an expression, which may stand in a larger network.
#[derive(Clone, Copy)]
pub enum TreeRef<'n> {
    /// A network.
    Net(&'n Net<Expr>),
    /// An expression.
    Expr(&'n Expr),
}

/// A step of a certificate: a law that is taken one way at a position.
#[derive(Drop)]
pub struct LawStep {
    /// The law.
    pub law: Law,
    /// Which way it is taken.
    pub direction: Direction,
    /// Where, from the root of the network.
    pub position: Position,
    /// For a step backward, the tree that is to stand there afterwards; none for a step forward.
    pub given: Option<Tree>,
}

impl TreeRef<'_> {
    /// A copy, whose parts are shared with it. It takes no memory; `Memory` only if a count of
    /// references is full.
    pub fn try_copy(self, alloc: Global) -> Result<Tree, Memory>
        ensures { IfOk result (λ copy. part_of copy ≡ seen self.entry) }
    {
        match self {
            TreeRef::Net(net) => Ok(Tree::Net(net.try_copy(alloc)?)),
            TreeRef::Expr(expr) => Ok(Tree::Expr(expr.try_copy(alloc)?)),
        }
    }
}

impl Tree {
    /// A reference to what it is.
    pub fn by_ref(&self) -> TreeRef<'_>
        ensures { seen result ≡ part_of self.now }
    {
        match self {
            Tree::Net(net) => TreeRef::Net(net),
            Tree::Expr(expr) => TreeRef::Expr(expr),
        }
    }

    /// A copy, whose parts are shared with it. It takes no memory; `Memory` only if a count of
    /// references is full.
    pub fn try_copy(&self, alloc: Global) -> Result<Tree, Memory>
        ensures { IfOk result (λ t. t ≡ self.now) }
    {
        match self {
            Tree::Net(net) => copied_net(alloc, net),
            Tree::Expr(expr) => copied_expr(alloc, expr),
        }
    }
}

/// A copy of a network as a tree.
fn copied_net(alloc: Global, net: &Net<Expr>) -> Result<Tree, Memory>
    ensures { IfOk result (λ t. t ≡ V.Net net.now) }
{
    let net = net.try_copy(alloc)?;
    Ok(Tree::Net(net))
}

/// A copy of an expression as a tree.
fn copied_expr(alloc: Global, expr: &Expr) -> Result<Tree, Memory>
    ensures { IfOk result (λ t. t ≡ V.Expr expr.now) }
{
    let expr = expr.try_copy(alloc)?;
    Ok(Tree::Expr(expr))
}
