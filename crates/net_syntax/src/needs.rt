// The expressions of a network: what it needs stored closures for.

ghost use Rattle.std.specs.Prelude.{◌≡◌, ◌++◌, ◌∷◌, [], ◌+◌, ◌≤◌, IfOk, OnOk, Some, length, map, option_map, suc};
ghost use Rattle.sample_core.specs.{TypeTree.unit_ty, TypeView.type_of};
ghost use Rattle.leaf_core.specs.{ExpressionView.expression_of};
ghost use Rattle.net_tree.specs.Network.{accum_by, first as first_of, initial_in, k_switch, loop_pre, map_networks, p_switch, par, r_switch, rp_switch, seq, switch, at_once};
ghost use Rattle.net_tree.specs.NetworkView.{members_of, tree, tree_of, trees};
ghost use Rattle.net_syntax.specs.{ArrowView.arrow_of, FoundType.Finds, NeedView.need_of, Leaves.need_at, Leaves.LeavesOf};
ghost use Rattle.net_syntax.specs.Scopes.{and_param};
ghost use Rattle.net_syntax.specs.StandingWalk.{type_in};
ghost use Rattle.net_syntax.specs.LeafWalk.{Adds, SamePlace, add_leaf, as_event, few, needs_of, under_choice, under_event, under_switch, walk, walk_all, walk_chosen, walk_routed, walk_watched};
ghost use Rattle.net_tree.specs.declared.limits.TheConstants.{MOST_MEMBERS};

use crate::arrow::Arrow;
use crate::need::LeafNeed;
use crate::output::{
    Untyped, carried_in, leaf_type, left_in, list_under, old_output, right_carried_in,
    right_listed_in,
};
use crate::part_types::{arrow_from, event_with, list_of, pair_of, pair_under};
use crate::scope::ScopeTypes;
use crate::typed_net::TypedNet;
use leaf_core::{Expr, LeafKey};
use net_tree::{MOST_MEMBERS, Members, Net, NetChild, Position};
use sample_core::{Memory, Ty, try_copy_types};
use std::alloc::Global;
use std::mem::replace;

/// A walk over a network: the path to the node where it is, the types that are in scope there, and
/// the needs that it has found. After each part's answer it is where it was.
#[derive(Drop)]
struct Walk {
    alloc: Global,
    path: Vec<u32>,
    scope: ScopeTypes,
    needs: Vec<LeafNeed>,
}

/// Every expression that is a child of a network, from the root on, children in written order.
/// `Memory` if allocation fails.
pub fn leaves(alloc: Global, net: &TypedNet) -> Result<Vec<LeafNeed>, Memory>
    ensures { IfOk result (λ needs. LeavesOf net.now (map need_of needs.items)) }
{
    let mut walk = Walk {
        alloc,
        path: Vec::new(alloc),
        scope: ScopeTypes::new(alloc),
        needs: Vec::new(alloc),
    };
    match walk.network(net.input(), net.net()) {
        Ok(output) => {
            drop(output);
            Ok(walk.needs)
        }
        Err(Untyped::Memory) => Err(Memory),
        Err(Untyped::NoType) => unreachable!(),
    }
}

impl Walk {
    /// Adds the expressions of the network where the walk is. Answers its output type.
    #[cycle(walk)]
    fn network(&mut self, input: &Ty, net: &Net<Expr>) -> Result<Ty, Untyped>
        ensures added { Adds result self.new
            (walk self.old.path.items self.old.scope (type_of input.now) (tree_of net.now)
            (needs_of self.old)) }
        ensures kept { OnOk result (SamePlace self.old self.new) }
    {
        match net {
            Net::Arr(e) => self.leaf(0, input, e),
            Net::Seq(f, g) => self.both(input, f, g),
            Net::First(f) => self.on_left(input, f),
            Net::Par(fs) => self.par(input, fs),
            Net::LoopPre(c, f) => self.loop_pre(input, c, f),
            Net::InitialOut(c, f) | Net::InitialIn(c, f) => self.behind_constant(input, c, f),
            Net::IPre(c) | Net::Delay(_, c) | Net::Hold(c) => self.leaf(0, &Ty::Unit, c),
            Net::AccumBy(g, z) => self.accumulator(input, g, z),
            Net::After(_, c) | Net::Repeatedly(_, c) => self.event(0, c),
            Net::Time | Net::Integral => Ok(Ty::Int),
            Net::Switch(f, t) | Net::DSwitch(f, t) => self.switch(input, f, t),
            Net::RSwitch(f, t) | Net::DrSwitch(f, t) => self.r_switch(input, f, t),
            Net::KSwitch(f, e, t) => self.k_switch(input, f, e, t),
            Net::PSwitch(r, fs, e, t) => self.p_switch(input, r, fs, e, t),
            Net::RpSwitch(fs, m, t) => self.rp_switch(input, fs, m, t),
            Net::Old(k) => old_output(self.alloc, self.scope.olds(), *k),
        }
    }

    /// Adds those of two networks, the second of which gets what the first outputs.
    #[cycle(walk)]
    fn both(&mut self, input: &Ty, f: &NetChild<Expr>, g: &NetChild<Expr>) -> Result<Ty, Untyped>
        ensures added { Adds result self.new
            (walk self.old.path.items self.old.scope (type_of input.now)
            (seq (tree f.now) (tree g.now)) (needs_of self.old)) }
        ensures kept { OnOk result (SamePlace self.old self.new) }
    {
        let between = self.child(0, input, f.get())?;
        let output = self.child(1, &between, g.get());
        drop(between);
        output
    }

    /// Adds those of a network on the left components of pairs.
    #[cycle(walk)]
    fn on_left(&mut self, input: &Ty, f: &NetChild<Expr>) -> Result<Ty, Untyped>
        ensures added { Adds result self.new
            (walk self.old.path.items self.old.scope (type_of input.now) (first_of (tree f.now))
            (needs_of self.old)) }
        ensures kept { OnOk result (SamePlace self.old self.new) }
    {
        let Ty::Pair(left, right) = input else {
            return Err(Untyped::NoType);
        };
        let output = self.child(0, left.get(), f.get())?;
        Ok(pair_of(self.alloc, output, right.get())?)
    }

    /// Adds those of members that all get the input.
    #[cycle(walk)]
    fn par(&mut self, input: &Ty, fs: &Members<Expr>) -> Result<Ty, Untyped>
        ensures added { Adds result self.new
            (walk self.old.path.items self.old.scope (type_of input.now) (par (trees fs.now))
            (needs_of self.old)) }
        ensures kept { OnOk result (SamePlace self.old self.new) }
    {
        let members = fs.as_slice();
        few_members(members)?;
        let output = self.members(0, input, members, Ty::Unit)?;
        Ok(list_of(self.alloc, output)?)
    }

    /// Adds those of a network that also gets its own second output, at first the constant.
    #[cycle(walk)]
    fn loop_pre(&mut self, input: &Ty, c: &Expr, f: &NetChild<Expr>) -> Result<Ty, Untyped>
        ensures added { Adds result self.new
            (walk self.old.path.items self.old.scope (type_of input.now)
            (loop_pre (expression_of c.now) (tree f.now)) (needs_of self.old)) }
        ensures kept { OnOk result (SamePlace self.old self.new) }
    {
        let back = self.leaf(0, &Ty::Unit, c)?;
        let both = pair_under(self.alloc, input, back)?;
        let output = self.child(1, &both, f.get());
        drop(both);
        let output = output?;
        let left = left_in(self.alloc, &output);
        drop(output);
        left
    }

    /// Adds those of a network that at first gets or outputs the constant.
    #[cycle(walk)]
    fn behind_constant(&mut self, input: &Ty, c: &Expr, f: &NetChild<Expr>) -> Result<Ty, Untyped>
        ensures added { Adds result self.new
            (walk self.old.path.items self.old.scope (type_of input.now)
            (initial_in (expression_of c.now) (tree f.now)) (needs_of self.old)) }
        ensures kept { OnOk result (SamePlace self.old self.new) }
    {
        drop(self.leaf(0, &Ty::Unit, c)?);
        self.child(1, input, f.get())
    }

    /// Adds those of a network up to its first event, and then of the continuation; it is the same
    /// at either timing.
    #[cycle(walk)]
    fn switch(&mut self, input: &Ty, f: &NetChild<Expr>, t: &NetChild<Expr>) -> Result<Ty, Untyped>
        ensures added { Adds result self.new
            (walk self.old.path.items self.old.scope (type_of input.now)
            (switch at_once (tree f.now) (tree t.now)) (needs_of self.old)) }
        ensures kept { OnOk result (SamePlace self.old self.new) }
    {
        let output = self.child(0, input, f.get())?;
        let inner = self.under_switch(&output);
        drop(output);
        self.next(inner?, 1, input, t)
    }

    /// Adds those of a network, and from each event in the input on of the continuation; it is the
    /// same at either timing.
    #[cycle(walk)]
    fn r_switch(
        &mut self,
        input: &Ty,
        f: &NetChild<Expr>,
        t: &NetChild<Expr>,
    ) -> Result<Ty, Untyped>
        ensures added { Adds result self.new
            (walk self.old.path.items self.old.scope (type_of input.now)
            (r_switch at_once (tree f.now) (tree t.now)) (needs_of self.old)) }
        ensures kept { OnOk result (SamePlace self.old self.new) }
    {
        let Ty::Pair(sample, event) = input else {
            return Err(Untyped::NoType);
        };
        let Ty::Event(carried) = event.get() else {
            return Err(Untyped::NoType);
        };
        drop(self.child(0, sample.get(), f.get())?);
        let inner = self.scope.and_param(self.alloc, carried.get())?;
        self.next(inner, 1, sample.get(), t)
    }

    /// Adds those of a network up to an event of what watches it, and then of the continuation.
    #[cycle(walk)]
    fn k_switch(
        &mut self,
        input: &Ty,
        f: &NetChild<Expr>,
        e: &NetChild<Expr>,
        t: &NetChild<Expr>,
    ) -> Result<Ty, Untyped>
        ensures added { Adds result self.new
            (walk self.old.path.items self.old.scope (type_of input.now)
            (k_switch (tree f.now) (tree e.now) (tree t.now)) (needs_of self.old)) }
        ensures kept { OnOk result (SamePlace self.old self.new) }
    {
        let output = self.child(0, input, f.get())?;
        let types = arrow_from(self.alloc, input, output)?;
        let both = pair_of(self.alloc, input.try_copy(self.alloc)?, &types.output)?;
        let inner = self.watched(1, both, e, 1, types)?;
        self.next(inner, 2, input, t)
    }

    /// Adds those of members on what is routed to them, up to an event of what watches them, and
    /// then of the continuation.
    #[cycle(walk)]
    fn p_switch(
        &mut self,
        input: &Ty,
        r: &Expr,
        fs: &Members<Expr>,
        e: &NetChild<Expr>,
        t: &NetChild<Expr>,
    ) -> Result<Ty, Untyped>
        ensures added { Adds result self.new
            (walk self.old.path.items self.old.scope (type_of input.now)
            (p_switch (expression_of r.now) (trees fs.now) (tree e.now) (tree t.now))
            (needs_of self.old)) }
        ensures kept { OnOk result (SamePlace self.old self.new) }
    {
        let members = fs.as_slice();
        let count = few_members(members)?;
        let types = self.routed(input, r, members)?;
        let outputs = list_under(self.alloc, &types)?;
        let both = pair_under(self.alloc, input, outputs)?;
        let inner = self.watched(count + 1, both, e, count, types)?;
        self.next(inner, count + 2, input, t)
    }

    /// Adds those of the route and of members on what is routed to them. Answers the types of each
    /// member.
    #[cycle(walk)]
    fn routed(&mut self, input: &Ty, r: &Expr, members: &[Net<Expr>]) -> Result<Arrow, Untyped>
        requires { length members.now ≤ MOST_MEMBERS }
        ensures added { Finds (λ o. (arrow_of o, needs_of self.new)) result
            (walk_routed self.old.path.items self.old.scope (type_of input.now)
            (expression_of r.now) (map_networks expression_of (members_of members.now))
            (needs_of self.old)) }
        ensures kept { OnOk result (SamePlace self.old self.new) }
    {
        let numbered = pair_under(self.alloc, input, Ty::Int)?;
        let given = self.leaf(0, &numbered, r);
        drop(numbered);
        let given = given?;
        match self.members(1, &given, members, Ty::Unit) {
            Ok(output) => Ok(Arrow {
                input: given,
                output,
            }),
            Err(untyped) => {
                drop(given);
                Err(untyped)
            }
        }
    }

    /// Adds those of child k, which gets inputs of the type `both`. Answers the scope of the
    /// continuation behind it: with a parameter of what its events carry, and `count` frozen
    /// networks of the types.
    #[cycle(walk)]
    fn watched(
        &mut self,
        k: u32,
        both: Ty,
        e: &NetChild<Expr>,
        count: u32,
        types: Arrow,
    ) -> Result<ScopeTypes, Untyped>
        ensures added { Finds (λ inner. (inner, needs_of self.new)) result
            (walk_watched (self.old.path.items ++ k ∷ []) self.old.scope (type_of both) count
            (arrow_of types) (tree e.now) (needs_of self.old)) }
        ensures kept { OnOk result (SamePlace self.old self.new) }
    {
        let event = self.child(k, &both, e.get());
        drop(both);
        let inner = match event {
            Ok(event) => self.under_event(event, count, &types),
            Err(untyped) => Err(untyped),
        };
        drop(types);
        inner
    }

    /// Adds those of members, some of which go on at each event in the input, and of the
    /// continuation, which is started for each of the values that are chosen then.
    #[cycle(walk)]
    fn rp_switch(
        &mut self,
        input: &Ty,
        fs: &Members<Expr>,
        m: &Expr,
        t: &NetChild<Expr>,
    ) -> Result<Ty, Untyped>
        ensures added { Adds result self.new
            (walk self.old.path.items self.old.scope (type_of input.now)
            (rp_switch (trees fs.now) (expression_of m.now) (tree t.now)) (needs_of self.old)) }
        ensures kept { OnOk result (SamePlace self.old self.new) }
    {
        let members = fs.as_slice();
        let count = few_members(members)?;
        let Ty::Pair(sample, event) = input else {
            return Err(Untyped::NoType);
        };
        let Ty::Event(carried) = event.get() else {
            return Err(Untyped::NoType);
        };
        drop(self.members(0, sample.get(), members, Ty::Unit)?);
        let inner = self.chosen(count, carried.get(), m)?;
        let started = self.next(inner, count + 1, sample.get(), t)?;
        Ok(list_of(self.alloc, started)?)
    }

    /// Adds those of members that all get the input, the first of which is child `first` of the
    /// node. Answers the output type of the last; the one that is given where there is none.
    #[cycle(walk)]
    fn members(
        &mut self,
        first: u32,
        input: &Ty,
        members: &[Net<Expr>],
        given: Ty,
    ) -> Result<Ty, Untyped>
        requires { first + length members.now ≤ suc MOST_MEMBERS }
        ensures added { Adds result self.new
            (walk_all self.old.path.items first self.old.scope (type_of input.now)
            (map_networks expression_of (members_of members.now)) (type_of given)
            (needs_of self.old)) }
        ensures kept { OnOk result (SamePlace self.old self.new) }
    {
        let Some((f, others)) = members.split_first() else {
            return Ok(given);
        };
        drop(given);
        let output = self.child(first, input, f)?;
        self.members(first + 1, input, others, output)
    }

    /// Adds those of the continuation that is child k of the node, under this scope.
    #[cycle(walk)]
    fn next(
        &mut self,
        inner: ScopeTypes,
        k: u32,
        input: &Ty,
        t: &NetChild<Expr>,
    ) -> Result<Ty, Untyped>
        ensures added { Adds result self.new
            (walk (self.old.path.items ++ k ∷ []) inner (type_of input.now) (tree t.now)
            (needs_of self.old)) }
        ensures kept { OnOk result (SamePlace self.old self.new) }
    {
        let outer = replace(&mut self.scope, inner);
        let output = self.child(k, input, t.get());
        drop(replace(&mut self.scope, outer));
        output
    }

    /// Adds those of the network that is child k of the node.
    #[cycle(walk)]
    fn child(&mut self, k: u32, input: &Ty, net: &Net<Expr>) -> Result<Ty, Untyped>
        ensures added { Adds result self.new
            (walk (self.old.path.items ++ k ∷ []) self.old.scope (type_of input.now)
            (tree_of net.now) (needs_of self.old)) }
        ensures kept { OnOk result (SamePlace self.old self.new) }
    {
        self.path.push(k)?;
        let output = self.network(input, net);
        self.path.pop();
        output
    }

    /// Adds the constant that is child k of the node. Answers the type of events that carry it.
    fn event(&mut self, k: u32, c: &Expr) -> Result<Ty, Untyped>
        ensures added { Adds result self.new
            (option_map as_event (add_leaf self.old.path.items k self.old.scope unit_ty
            (expression_of c.now) (needs_of self.old))) }
        ensures kept { OnOk result (SamePlace self.old self.new) }
    {
        let value = self.leaf(k, &Ty::Unit, c)?;
        Ok(event_with(self.alloc, value)?)
    }

    /// Adds the step and the start of an `accumBy`, which stand in this order.
    fn accumulator(&mut self, input: &Ty, g: &Expr, z: &Expr) -> Result<Ty, Untyped>
        ensures added { Adds result self.new
            (walk self.old.path.items self.old.scope (type_of input.now)
            (accum_by (expression_of g.now) (expression_of z.now)) (needs_of self.old)) }
        ensures kept { OnOk result (SamePlace self.old self.new) }
    {
        let Ty::Event(value) = input else {
            return Err(Untyped::NoType);
        };
        let start = leaf_type(self.alloc, &self.scope, &Ty::Unit, z)?;
        let both = pair_of(self.alloc, start, value.get())?;
        let step = self.leaf(0, &both, g);
        drop(both);
        drop(step?);
        self.event(1, z)
    }

    /// Adds the choice of an `rpSwitchB`, which is child k of the node and gets what an event
    /// carries. Answers the scope of the continuation.
    fn chosen(&mut self, k: u32, carried: &Ty, m: &Expr) -> Result<ScopeTypes, Untyped>
        ensures added { Finds (λ inner. (inner, needs_of self.new)) result
            (walk_chosen self.old.path.items k self.old.scope (type_of carried.now)
            (expression_of m.now) (needs_of self.old)) }
        ensures kept { OnOk result (SamePlace self.old self.new) }
    {
        let choice = self.leaf(k, carried, m)?;
        let inner = self.under_choice(&choice);
        drop(choice);
        inner
    }

    /// Adds the expression that is child k of the node. Answers its type.
    fn leaf(&mut self, k: u32, input: &Ty, e: &Expr) -> Result<Ty, Untyped>
        ensures added { Adds result self.new
            (add_leaf self.old.path.items k self.old.scope (type_of input.now)
            (expression_of e.now) (needs_of self.old)) }
        ensures kept { OnOk result (SamePlace self.old self.new) }
    {
        let output = leaf_type(self.alloc, &self.scope, input, e)?;
        let need = self.need(k, input, e, &output)?;
        self.needs.push(need)?;
        Ok(output)
    }

    /// What the expression needs that is child k of the node and has that type.
    fn need(&self, k: u32, input: &Ty, e: &Expr, output: &Ty) -> Result<LeafNeed, Memory>
        requires { type_in self.now.scope (type_of input.now) (expression_of e.now)
            ≡ Some (type_of output.now) }
        ensures { IfOk result
            (λ n. need_of n ≡ need_at self.now.path.items k (expression_of e.now)
            self.now.scope.params (type_of input.now) (type_of output.now)) }
    {
        let output = output.try_copy(self.alloc)?;
        let position = Position::of_child(self.alloc, &self.path, k)?;
        let key = self.key(input, e)?;
        Ok(LeafNeed {
            position,
            key,
            output,
        })
    }

    /// What a stored closure for the expression is found by.
    fn key(&self, input: &Ty, e: &Expr) -> Result<LeafKey, Memory>
        ensures { IfOk result
            (λ k. k
            ≡ record {
              expr = expression_of e.now;
              params = self.now.scope.params;
              input =
                  type_of input.now;
            }) }
    {
        let params = try_copy_types(self.alloc, self.scope.params())?;
        let input = input.try_copy(self.alloc)?;
        let expr = e.try_copy(self.alloc)?;
        Ok(LeafKey {
            expr,
            params,
            input,
        })
    }

    /// The scope with a parameter of what the event carries, and with `count` frozen networks of
    /// the types.
    fn under_event(&self, event: Ty, count: u32, types: &Arrow) -> Result<ScopeTypes, Untyped>
        ensures { Finds (λ inner. (inner, needs_of self.now)) result
            (under_event self.now.scope count (arrow_of types.now)
            (type_of event, needs_of self.now)) }
    {
        let carried = carried_in(self.alloc, &event);
        drop(event);
        let mut inner = self.scope_under(carried?)?;
        inner.add_olds(self.alloc, count, types)?;
        Ok(inner)
    }

    /// The scope with a parameter of what the event carries in the right part of the type.
    fn under_switch(&self, output: &Ty) -> Result<ScopeTypes, Untyped>
        ensures { Finds (λ inner. (inner, needs_of self.now)) result
            (under_switch self.now.scope (type_of output.now, needs_of self.now)) }
    {
        let carried = right_carried_in(self.alloc, output)?;
        Ok(self.scope_under(carried)?)
    }

    /// The scope with a parameter of what a choice of the type starts members with.
    fn under_choice(&self, choice: &Ty) -> Result<ScopeTypes, Untyped>
        ensures { Finds (λ inner. (inner, needs_of self.now)) result
            (under_choice self.now.scope (type_of choice.now, needs_of self.now)) }
    {
        let started = right_listed_in(self.alloc, choice)?;
        Ok(self.scope_under(started)?)
    }

    /// The scope with one more parameter, of the type.
    fn scope_under(&self, param: Ty) -> Result<ScopeTypes, Memory>
        ensures { IfOk result (λ inner. inner ≡ and_param self.now.scope (type_of param)) }
    {
        let inner = self.scope.and_param(self.alloc, &param);
        drop(param);
        inner
    }
}

/// How many members there are, at most 64.
#[tactic(auto, using(std::proofs::lemmas::Grind::common_steps, crate::proofs::ChildNumbers::few_passed, crate::proofs::ChildNumbers::few_failed))]
fn few_members(members: &[Net<Expr>]) -> Result<u32, Untyped>
    ensures counted { IfOk result (λ n. n ≡ length members.now) }
    ensures few { IfOk result (λ n. n ≤ MOST_MEMBERS) }
    ensures answer { Finds (λ n. n) result
        (few (map_networks expression_of (members_of members.now))) }
{
    let count = members.len();
    if count > MOST_MEMBERS {
        return Err(Untyped::NoType);
    }
    Ok(count as u32)
}
