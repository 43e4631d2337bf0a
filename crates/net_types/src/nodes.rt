// The walk at nodes without child networks, and at the expressions of nodes.

ghost use Rattle.sample_core.specs.{TypeTree.int_ty, TypeView.type_of};
ghost use Rattle.leaf_core.specs.ExpressionView.{expression_of};
ghost use Rattle.net_syntax.specs.{ArrowView.arrow_of};
ghost use Rattle.net_tree.specs.{Network.accum_by, Network.delay, Network.i_pre, Network.old};
ghost use Rattle.net_types.specs.{Walk.◌↓◌, Walk.expect_same, Walk.old_at, Check.GivesTyped};
ghost use Rattle.net_types.specs.WalkParts.{leaf_walk, route_walk, step_walk, timer_walk, walk_in};

use crate::fault::TypeFault;
use crate::site::Site;
use crate::types::{event_of, pair_of};
use crate::walk::Walk;
use leaf_core::{Expr, ExprFault, type_of_expr};
use net_syntax::Arrow;
use net_tree::{MOST_DELAY, MOST_WAIT, Position};
use sample_core::Ty;

impl Walk {
    /// The type of the expression that is child k of the node.
    pub(crate) fn leaf_type(&self, k: u32, input: &Ty, leaf: &Expr) -> Result<Ty, TypeFault>
        ensures { GivesTyped type_of result
            (leaf_walk (self.now.path.items ↓ k) self.now.scope (type_of input.now)
            (expression_of leaf.now)) }
    {
        match type_of_expr(self.alloc, self.scope.params(), input, leaf) {
            Ok(ty) => Ok(ty),
            Err(ExprFault::Memory) => Err(TypeFault::Memory),
            Err(fault) => {
                let position = Position::of_child(self.alloc, &self.path, k)?;
                Err(TypeFault::Expr { position, fault })
            }
        }
    }

    /// The output type of an `iPre` with that constant: that of its input.
    pub(crate) fn constant_type(&self, input: &Ty, c: &Expr) -> Result<Ty, TypeFault>
        ensures { GivesTyped type_of result
            (walk_in self.now.path.items self.now.scope (type_of input.now)
            (i_pre (expression_of c.now))) }
    {
        let first = self.leaf_type(0, &Ty::Unit, c)?;
        self.wanted_at(Site::Node, input, first)
    }

    /// The output type of a `delay`: that of its input.
    pub(crate) fn delay_type(&self, input: &Ty, q: u64, c: &Expr) -> Result<Ty, TypeFault>
        ensures { GivesTyped type_of result
            (walk_in self.now.path.items self.now.scope (type_of input.now)
            (delay q (expression_of c.now))) }
    {
        self.in_range(1, MOST_DELAY, q)?;
        self.constant_type(input, c)
    }

    /// The output type of an `accumBy`: events of its accumulator.
    pub(crate) fn accumulator_type(&self, input: &Ty, g: &Expr, z: &Expr) -> Result<Ty, TypeFault>
        ensures { GivesTyped type_of result
            (walk_in self.now.path.items self.now.scope (type_of input.now)
            (accum_by (expression_of g.now) (expression_of z.now))) }
    {
        let carried = self.event_at(Site::Node, input)?;
        let start = self.leaf_type(1, &Ty::Unit, z)?;
        let output = self.step_type(carried, &start, g);
        drop(start);
        output
    }

    /// The output type of an `accumBy` whose events carry the type and whose accumulator has the
    /// type.
    fn step_type(&self, carried: &Ty, accumulator: &Ty, g: &Expr) -> Result<Ty, TypeFault>
        ensures { GivesTyped type_of result
            (step_walk self.now.path.items self.now.scope (type_of carried.now)
            (type_of accumulator.now) (expression_of g.now)) }
    {
        let pair = pair_of(self.alloc, accumulator, carried)?;
        let found = self.leaf_type(0, &pair, g);
        drop(pair);
        let accumulator = self.wanted_at(Site::Node, accumulator, found?)?;
        event_of(self.alloc, accumulator)
    }

    /// The output type of an `after` or a `repeatedly` whose q is at least `low`: events of the
    /// constant.
    pub(crate) fn timer_type(&self, low: u64, q: u64, c: &Expr) -> Result<Ty, TypeFault>
        ensures { GivesTyped type_of result
            (timer_walk self.now.path.items self.now.scope low q (expression_of c.now)) }
    {
        self.in_range(low, MOST_WAIT, q)?;
        let carried = self.leaf_type(0, &Ty::Unit, c)?;
        event_of(self.alloc, carried)
    }

    /// The output type of an `integral`, whose input is of that type too.
    pub(crate) fn integral_type(&self, input: &Ty) -> Result<Ty, TypeFault>
        ensures { GivesTyped type_of result
            (expect_same self.now.path.items int_ty (type_of input.now)) }
    {
        self.same_at(Site::Node, &Ty::Int, input)?;
        Ok(Ty::Int)
    }

    /// The type of what a `pSwitch` routes to its members: that of its expression under the pair of
    /// the input and a number.
    pub(crate) fn route_type(&self, input: &Ty, r: &Expr) -> Result<Ty, TypeFault>
        ensures { GivesTyped type_of result
            (route_walk self.now.path.items self.now.scope (type_of input.now)
            (expression_of r.now)) }
    {
        let numbered = pair_of(self.alloc, input, &Ty::Int)?;
        let routed = self.leaf_type(0, &numbered, r);
        drop(numbered);
        routed
    }

    /// The output type of frozen network k, from 0, the outermost first.
    pub(crate) fn old_type(&self, input: &Ty, k: u32) -> Result<Ty, TypeFault>
        ensures { GivesTyped type_of result
            (walk_in self.now.path.items self.now.scope (type_of input.now) (old k)) }
    {
        let types = self.frozen_at(k)?;
        self.same_at(Site::Node, &types.input, input)?;
        let output = types.output.try_copy(self.alloc)?;
        Ok(output)
    }

    /// The types of frozen network k; else `NoOld` at the node.
    fn frozen_at(&self, k: u32) -> Result<&Arrow, TypeFault>
        ensures { GivesTyped (λ types. arrow_of types.now) result
            (old_at self.now.path.items self.now.scope.olds k) }
    {
        if let Some(types) = self.scope.olds().get(k as usize) {
            return Ok(types);
        }
        let position = Position::of_node(self.alloc, &self.path)?;
        Err(TypeFault::NoOld { position })
    }
}
