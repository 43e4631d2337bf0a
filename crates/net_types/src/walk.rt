// The walk over a network: its output type, or the first fault.

ghost use Rattle.std.specs.Prelude.{◌≡◌, ◌+◌, ◌≤◌, ◌++◌, [], Ok, OnOk, length, map, suc};
ghost use Rattle.sample_core.specs.{Answer.◌>>=◌ as on_ok, TypeTree.list_ty, TypeView.type_of};
ghost use Rattle.leaf_core.specs.ExpressionView.{expression_of};
ghost use Rattle.net_syntax.specs.ArrowView.{arrow_of};
ghost use Rattle.net_tree.specs.Network.{first as first_of, initial_in, initial_out, k_switch, loop_pre, map_network, map_networks, p_switch, par, r_switch, rp_switch, seq, switch, at_once};
ghost use Rattle.net_tree.specs.{NetworkView.members_of, NetworkView.tree_of};
ghost use Rattle.net_tree.specs.declared.limits.TheConstants.{MOST_MEMBERS};
ghost use Rattle.net_meaning.specs.{Typing.arrow};
ghost use Rattle.net_types.specs.{Walk.◌↓◌, Check.GivesTyped, Check.net_walk_all, Sites.SamePlace};
ghost use Rattle.net_types.specs.WalkParts.{choice_walk, freezing_walk, loop_output, loop_walk, members_walk, next_walk, routed_walk, started_walk, switched_walk, under_choice, under_event, walk_in, watch_walk};

use crate::fault::TypeFault;
use crate::site::Site;
use crate::types::{limited_list_of, pair_of};
use leaf_core::Expr;
use net_syntax::{Arrow, ScopeTypes, arrow_from, list_of};
use net_tree::{Members, Net, NetChild};
use sample_core::Ty;
use std::alloc::Global;
use std::mem::replace;

/// A walk over a network: the path to the node where it is, and the types that are in scope there.
/// After each part's answer it is where it was.
#[derive(Drop)]
pub(crate) struct Walk {
    pub(crate) alloc: Global,
    pub(crate) path: Vec<u32>,
    pub(crate) scope: ScopeTypes,
}

/// The output type of a whole network, under a scope and an input of this type.
pub(crate) fn output_type(
    alloc: Global,
    scope: ScopeTypes,
    input: &Ty,
    net: &Net<Expr>,
) -> Result<Ty, TypeFault>
    ensures { GivesTyped type_of result (walk_in [] scope (type_of input.now) (tree_of net.now)) }
{
    let mut walk = Walk {
        alloc,
        path: Vec::new(alloc),
        scope,
    };
    let output = walk.network(input, net);
    drop(walk);
    output
}

impl Walk {
    /// The output type of the network where the walk is.
    #[cycle(walk)]
    fn network(&mut self, input: &Ty, net: &Net<Expr>) -> Result<Ty, TypeFault>
        ensures answer { GivesTyped type_of result
            (walk_in self.old.path.items self.old.scope (type_of input.now) (tree_of net.now)) }
        ensures kept { OnOk result (SamePlace self.old self.new) }
    {
        match net {
            Net::Arr(e) => self.leaf_type(0, input, e),
            Net::Seq(f, g) => self.both(input, f, g),
            Net::First(f) => self.first(input, f),
            Net::Par(fs) => self.par(input, fs),
            Net::LoopPre(c, f) => self.loop_pre(input, c, f),
            Net::InitialOut(c, f) => self.initial_out(input, c, f),
            Net::InitialIn(c, f) => self.initial_in(input, c, f),
            Net::IPre(c) => self.constant_type(input, c),
            Net::Delay(q, c) => self.delay_type(input, *q, c),
            Net::Hold(c) => {
                let carried = self.event_at(Site::Node, input)?;
                self.constant_type(carried, c)
            }
            Net::AccumBy(g, z) => self.accumulator_type(input, g, z),
            Net::After(q, c) => self.timer_type(0, *q, c),
            Net::Repeatedly(q, c) => self.timer_type(1, *q, c),
            Net::Time => Ok(Ty::Int),
            Net::Integral => self.integral_type(input),
            Net::Switch(f, t) | Net::DSwitch(f, t) => self.switch(input, f, t),
            Net::RSwitch(f, t) | Net::DrSwitch(f, t) => self.r_switch(input, f, t),
            Net::KSwitch(f, e, t) => self.k_switch(input, f, e, t),
            Net::PSwitch(r, fs, e, t) => self.p_switch(input, r, fs, e, t),
            Net::RpSwitch(fs, m, t) => self.rp_switch(input, fs, m, t),
            Net::Old(k) => self.old_type(input, *k),
        }
    }

    /// The output type of two networks, the second of which gets what the first outputs.
    #[cycle(walk)]
    fn both(&mut self, input: &Ty, f: &NetChild<Expr>, g: &NetChild<Expr>) -> Result<Ty, TypeFault>
        ensures answer { GivesTyped type_of result
            (walk_in self.old.path.items self.old.scope (type_of input.now)
            (seq (map_network expression_of f.now) (map_network expression_of g.now))) }
        ensures kept { OnOk result (SamePlace self.old self.new) }
    {
        let between = self.child(0, input, f.get())?;
        let output = self.child(1, &between, g.get());
        drop(between);
        output
    }

    /// The output type of a network on the left components of pairs.
    #[cycle(walk)]
    fn first(&mut self, input: &Ty, f: &NetChild<Expr>) -> Result<Ty, TypeFault>
        ensures answer { GivesTyped type_of result
            (walk_in self.old.path.items self.old.scope (type_of input.now)
            (first_of (map_network expression_of f.now))) }
        ensures kept { OnOk result (SamePlace self.old self.new) }
    {
        let (left, right) = self.pair_at(Site::Node, input)?;
        let output = self.child(0, left, f.get())?;
        let pair = pair_of(self.alloc, &output, right);
        drop(output);
        pair
    }

    /// The output type of members that all get the input.
    #[cycle(walk)]
    fn par(&mut self, input: &Ty, fs: &Members<Expr>) -> Result<Ty, TypeFault>
        ensures answer { GivesTyped type_of result
            (walk_in self.old.path.items self.old.scope (type_of input.now)
            (par (map_networks expression_of fs.now))) }
        ensures kept { OnOk result (SamePlace self.old self.new) }
    {
        let members = fs.as_slice();
        self.count_members(members)?;
        let output = self.members_type(0, input, members)?;
        let list = limited_list_of(self.alloc, &output);
        drop(output);
        list
    }

    /// The output type of a network that also gets its own second output, at first the constant.
    #[cycle(walk)]
    fn loop_pre(&mut self, input: &Ty, c: &Expr, f: &NetChild<Expr>) -> Result<Ty, TypeFault>
        ensures answer { GivesTyped type_of result
            (walk_in self.old.path.items self.old.scope (type_of input.now)
            (loop_pre (expression_of c.now) (map_network expression_of f.now))) }
        ensures kept { OnOk result (SamePlace self.old self.new) }
    {
        let back = self.leaf_type(0, &Ty::Unit, c)?;
        let output = self.fed_back(input, &back, f);
        drop(back);
        output
    }

    /// The output type of a `loopPre` whose second output is of the type.
    #[cycle(walk)]
    fn fed_back(&mut self, input: &Ty, back: &Ty, f: &NetChild<Expr>) -> Result<Ty, TypeFault>
        ensures answer { GivesTyped type_of result
            (loop_walk self.old.path.items self.old.scope (type_of input.now) (type_of back.now)
            (map_network expression_of f.now)) }
        ensures kept { OnOk result (SamePlace self.old self.new) }
    {
        let pair = pair_of(self.alloc, input, back)?;
        let found = self.child(1, &pair, f.get());
        drop(pair);
        let found = found?;
        let output = self.loop_output(back, &found);
        drop(found);
        output
    }

    /// The output type of a loop whose network outputs what was found, where its second part is of
    /// the type that is fed back.
    fn loop_output(&self, back: &Ty, found: &Ty) -> Result<Ty, TypeFault>
        ensures { GivesTyped type_of result
            (loop_output self.now.path.items (type_of back.now) (type_of found.now)) }
    {
        let (output, second) = self.pair_at(Site::Child(1), found)?;
        self.same_at(Site::Child(1), back, second)?;
        let output = output.try_copy(self.alloc)?;
        Ok(output)
    }

    /// The output type of a network that at first outputs the constant.
    #[cycle(walk)]
    fn initial_out(&mut self, input: &Ty, c: &Expr, f: &NetChild<Expr>) -> Result<Ty, TypeFault>
        ensures answer { GivesTyped type_of result
            (walk_in self.old.path.items self.old.scope (type_of input.now)
            (initial_out (expression_of c.now) (map_network expression_of f.now))) }
        ensures kept { OnOk result (SamePlace self.old self.new) }
    {
        let first = self.leaf_type(0, &Ty::Unit, c)?;
        match self.child(1, input, f.get()) {
            Ok(found) => {
                let output = self.wanted_at(Site::Node, &found, first);
                drop(found);
                output
            }
            Err(fault) => {
                drop(first);
                Err(fault)
            }
        }
    }

    /// The output type of a network that at first gets the constant.
    #[cycle(walk)]
    fn initial_in(&mut self, input: &Ty, c: &Expr, f: &NetChild<Expr>) -> Result<Ty, TypeFault>
        ensures answer { GivesTyped type_of result
            (walk_in self.old.path.items self.old.scope (type_of input.now)
            (initial_in (expression_of c.now) (map_network expression_of f.now))) }
        ensures kept { OnOk result (SamePlace self.old self.new) }
    {
        let first = self.leaf_type(0, &Ty::Unit, c)?;
        let tested = self.same_at(Site::Node, input, &first);
        drop(first);
        tested?;
        self.child(1, input, f.get())
    }

    /// The output type of a network up to its first event, and then of the continuation; it is the
    /// same at either timing.
    #[cycle(walk)]
    fn switch(
        &mut self,
        input: &Ty,
        f: &NetChild<Expr>,
        t: &NetChild<Expr>,
    ) -> Result<Ty, TypeFault>
        ensures answer { GivesTyped type_of result
            (walk_in self.old.path.items self.old.scope (type_of input.now)
            (switch at_once (map_network expression_of f.now) (map_network expression_of t.now))) }
        ensures kept { OnOk result (SamePlace self.old self.new) }
    {
        let found = self.child(0, input, f.get())?;
        let output = self.switched(input, &found, t);
        drop(found);
        output
    }

    /// The output type of a switch whose network's outputs are of the type.
    #[cycle(walk)]
    fn switched(&mut self, input: &Ty, found: &Ty, t: &NetChild<Expr>) -> Result<Ty, TypeFault>
        ensures answer { GivesTyped type_of result
            (switched_walk self.old.path.items self.old.scope (type_of input.now)
            (type_of found.now) (map_network expression_of t.now)) }
        ensures kept { OnOk result (SamePlace self.old self.new) }
    {
        let (output, event) = self.pair_at(Site::Child(0), found)?;
        let carried = self.event_at(Site::Child(0), event)?;
        let inner = self.scope.and_param(self.alloc, carried)?;
        self.next(inner, 1, input, output, t)
    }

    /// The output type of a network, and from each event in the input on of the continuation; it is
    /// the same at either timing.
    #[cycle(walk)]
    fn r_switch(
        &mut self,
        input: &Ty,
        f: &NetChild<Expr>,
        t: &NetChild<Expr>,
    ) -> Result<Ty, TypeFault>
        ensures answer { GivesTyped type_of result
            (walk_in self.old.path.items self.old.scope (type_of input.now)
            (r_switch at_once (map_network expression_of f.now)
            (map_network expression_of t.now))) }
        ensures kept { OnOk result (SamePlace self.old self.new) }
    {
        let (sample, event) = self.pair_at(Site::Node, input)?;
        let carried = self.event_at(Site::Node, event)?;
        let inner = self.scope.and_param(self.alloc, carried)?;
        let output = self.child(0, sample, f.get())?;
        let next = self.next(inner, 1, sample, &output, t);
        drop(output);
        next
    }

    /// The output type of a network up to an event of what watches it, and then of the
    /// continuation.
    #[cycle(walk)]
    fn k_switch(
        &mut self,
        input: &Ty,
        f: &NetChild<Expr>,
        e: &NetChild<Expr>,
        t: &NetChild<Expr>,
    ) -> Result<Ty, TypeFault>
        ensures answer { GivesTyped type_of result
            (walk_in self.old.path.items self.old.scope (type_of input.now)
            (k_switch (map_network expression_of f.now) (map_network expression_of e.now)
            (map_network expression_of t.now))) }
        ensures kept { OnOk result (SamePlace self.old self.new) }
    {
        let output = self.child(0, input, f.get())?;
        let next = self.frozen(input, &output, e, t);
        drop(output);
        next
    }

    /// The output type of a `kSwitch` whose network's outputs are of the type.
    #[cycle(walk)]
    fn frozen(
        &mut self,
        input: &Ty,
        output: &Ty,
        e: &NetChild<Expr>,
        t: &NetChild<Expr>,
    ) -> Result<Ty, TypeFault>
        ensures answer { GivesTyped type_of result
            (freezing_walk self.old.path.items 1 self.old.scope (type_of input.now)
            (type_of output.now) 1 (arrow (type_of input.now) (type_of output.now))
            (map_network expression_of e.now) (map_network expression_of t.now)) }
        ensures kept { OnOk result (SamePlace self.old self.new) }
    {
        let mut inner = self.watched(1, input, output, e)?;
        let copy = output.try_copy(self.alloc)?;
        let types = arrow_from(self.alloc, input, copy)?;
        let added = inner.add_olds(self.alloc, 1, &types);
        drop(types);
        added?;
        self.next(inner, 2, input, output, t)
    }

    /// The scope with one more parameter, of the type that the events of child k carry; the child
    /// watches the input and the output.
    #[cycle(walk)]
    fn watched(
        &mut self,
        k: u32,
        input: &Ty,
        output: &Ty,
        e: &NetChild<Expr>,
    ) -> Result<ScopeTypes, TypeFault>
        ensures answer { GivesTyped (λ inner. inner) result
            (watch_walk (self.old.path.items ↓ k) self.old.scope (type_of input.now)
            (type_of output.now) (map_network expression_of e.now)) }
        ensures kept { OnOk result (SamePlace self.old self.new) }
    {
        let pair = pair_of(self.alloc, input, output)?;
        let event = self.child(k, &pair, e.get());
        drop(pair);
        let event = event?;
        let inner = self.under_event(k, &event);
        drop(event);
        inner
    }

    /// The scope with one more parameter, of the type that the events of child k carry.
    fn under_event(&self, k: u32, event: &Ty) -> Result<ScopeTypes, TypeFault>
        ensures { GivesTyped (λ inner. inner) result
            (under_event (self.now.path.items ↓ k) self.now.scope (type_of event.now)) }
    {
        let carried = self.event_at(Site::Child(k), event)?;
        let inner = self.scope.and_param(self.alloc, carried)?;
        Ok(inner)
    }

    /// The output type of members on what is routed to them, up to an event of what watches them,
    /// and then of the continuation.
    #[cycle(walk)]
    fn p_switch(
        &mut self,
        input: &Ty,
        r: &Expr,
        fs: &Members<Expr>,
        e: &NetChild<Expr>,
        t: &NetChild<Expr>,
    ) -> Result<Ty, TypeFault>
        ensures answer { GivesTyped type_of result
            (walk_in self.old.path.items self.old.scope (type_of input.now)
            (p_switch (expression_of r.now) (map_networks expression_of fs.now)
            (map_network expression_of e.now) (map_network expression_of t.now))) }
        ensures kept { OnOk result (SamePlace self.old self.new) }
    {
        let members = fs.as_slice();
        let count = self.count_members(members)?;
        let types = self.routed(input, r, members)?;
        let next = self.gathered(input, count, &types, e, t);
        drop(types);
        next
    }

    /// The types of each member, on what is routed to it.
    #[cycle(walk)]
    fn routed(&mut self, input: &Ty, r: &Expr, members: &[Net<Expr>]) -> Result<Arrow, TypeFault>
        requires { length members.now ≤ MOST_MEMBERS }
        ensures answer { GivesTyped arrow_of result
            (routed_walk self.old.path.items self.old.scope (type_of input.now)
            (expression_of r.now) (map_networks expression_of (members_of members.now))) }
        ensures kept { OnOk result (SamePlace self.old self.new) }
    {
        let routed = self.route_type(input, r)?;
        let output = self.members_type(1, &routed, members)?;
        Ok(Arrow {
            input: routed,
            output,
        })
    }

    /// The output type of a `pSwitch` whose members, `count` of them, have the types.
    #[cycle(walk)]
    fn gathered(
        &mut self,
        input: &Ty,
        count: u32,
        types: &Arrow,
        e: &NetChild<Expr>,
        t: &NetChild<Expr>,
    ) -> Result<Ty, TypeFault>
        requires { count ≤ MOST_MEMBERS }
        ensures answer { GivesTyped type_of result
            (freezing_walk self.old.path.items (suc count) self.old.scope (type_of input.now)
            (list_ty (type_of types.now.output)) count (arrow_of types.now)
            (map_network expression_of e.now) (map_network expression_of t.now)) }
        ensures kept { OnOk result (SamePlace self.old self.new) }
    {
        let output = types.output.try_copy(self.alloc)?;
        let list = list_of(self.alloc, output)?;
        let mut inner = self.watched(count + 1, input, &list, e)?;
        inner.add_olds(self.alloc, count, types)?;
        self.next(inner, count + 2, input, &list, t)
    }

    /// The output type of members, some of which go on at each event in the input, and of the
    /// continuation, which is started for each of the values that are chosen then.
    #[cycle(walk)]
    fn rp_switch(
        &mut self,
        input: &Ty,
        fs: &Members<Expr>,
        m: &Expr,
        t: &NetChild<Expr>,
    ) -> Result<Ty, TypeFault>
        ensures answer { GivesTyped type_of result
            (walk_in self.old.path.items self.old.scope (type_of input.now)
            (rp_switch (map_networks expression_of fs.now) (expression_of m.now)
            (map_network expression_of t.now))) }
        ensures kept { OnOk result (SamePlace self.old self.new) }
    {
        let members = fs.as_slice();
        let count = self.count_members(members)?;
        let (sample, event) = self.pair_at(Site::Node, input)?;
        let carried = self.event_at(Site::Node, event)?;
        let output = self.members_type(0, sample, members)?;
        match self.under_choice(count, carried, m) {
            Ok(inner) => {
                let list = self.started(inner, count + 1, sample, &output, t);
                drop(output);
                list
            }
            Err(fault) => {
                drop(output);
                Err(fault)
            }
        }
    }

    /// The scope with one more parameter, of the type of the values that the choice starts members
    /// with; it is child k of the node, and gets what an event carries.
    fn under_choice(&self, k: u32, carried: &Ty, m: &Expr) -> Result<ScopeTypes, TypeFault>
        ensures { GivesTyped (λ inner. inner) result
            (choice_walk (self.now.path.items ↓ k) self.now.scope (type_of carried.now)
            (expression_of m.now)) }
    {
        let choice = self.leaf_type(k, carried, m)?;
        let inner = self.under_chosen(k, &choice);
        drop(choice);
        inner
    }

    /// The scope with one more parameter, where the choice is of the type.
    fn under_chosen(&self, k: u32, choice: &Ty) -> Result<ScopeTypes, TypeFault>
        ensures { GivesTyped (λ inner. inner) result
            (under_choice (self.now.path.items ↓ k) self.now.scope (type_of choice.now)) }
    {
        let started = self.choice_at(Site::Child(k), choice)?;
        let inner = self.scope.and_param(self.alloc, started)?;
        Ok(inner)
    }

    /// The type of lists of what members output, where the continuation, child k of the node,
    /// outputs it too under the scope.
    #[cycle(walk)]
    fn started(
        &mut self,
        inner: ScopeTypes,
        k: u32,
        input: &Ty,
        output: &Ty,
        t: &NetChild<Expr>,
    ) -> Result<Ty, TypeFault>
        ensures answer { GivesTyped type_of result
            (started_walk (self.old.path.items ↓ k) inner (type_of input.now)
            (type_of output.now) (map_network expression_of t.now)) }
        ensures kept { OnOk result (SamePlace self.old self.new) }
    {
        let found = self.next(inner, k, input, output, t)?;
        drop(found);
        limited_list_of(self.alloc, output)
    }

    /// The one output type of members that all get the input, the first of which is child `first`
    /// of the node.
    #[cycle(walk)]
    fn members_type(
        &mut self,
        first: u32,
        input: &Ty,
        members: &[Net<Expr>],
    ) -> Result<Ty, TypeFault>
        requires { first + length members.now ≤ suc MOST_MEMBERS }
        ensures answer { GivesTyped type_of result
            (members_walk self.old.path.items first self.old.scope (type_of input.now)
            (map_networks expression_of (members_of members.now))) }
        ensures kept { OnOk result (SamePlace self.old self.new) }
    {
        let mut outputs = Vec::new(self.alloc);
        self.members(first, input, members, &mut outputs)?;
        self.one_type(first, &outputs)
    }

    /// Adds the output types of members that all get the input, the first of which is child `first`
    /// of the node.
    #[cycle(walk)]
    fn members(
        &mut self,
        first: u32,
        input: &Ty,
        members: &[Net<Expr>],
        outputs: &mut Vec<Ty>,
    ) -> Result<(), TypeFault>
        requires { first + length members.now ≤ suc MOST_MEMBERS }
        ensures answer { GivesTyped (λ _. map type_of outputs.new.items) result
            (on_ok (net_walk_all self.old.path.items first self.old.scope.params
            self.old.scope.olds (type_of input.now)
            (map_networks expression_of (members_of members.now)))
            (λ Bs. Ok (map type_of outputs.old.items ++ Bs))) }
        ensures count { OnOk result (length outputs.new.items
            ≡ length outputs.old.items + length members.now) }
        ensures kept { OnOk result (SamePlace self.old self.new) }
    {
        let Some((f, others)) = members.split_first() else {
            return Ok(());
        };
        let output = self.child(first, input, f)?;
        outputs.push(output)?;
        self.members(first + 1, input, others, outputs)
    }

    /// The output type of the continuation that is child k of the node, under this scope, where it
    /// is the one that is wanted; else `Joint` at the child.
    #[cycle(walk)]
    fn next(
        &mut self,
        inner: ScopeTypes,
        k: u32,
        input: &Ty,
        wanted: &Ty,
        t: &NetChild<Expr>,
    ) -> Result<Ty, TypeFault>
        ensures answer { GivesTyped type_of result
            (next_walk (self.old.path.items ↓ k) inner (type_of input.now) (type_of wanted.now)
            (map_network expression_of t.now)) }
        ensures kept { OnOk result (SamePlace self.old self.new) }
    {
        let outer = replace(&mut self.scope, inner);
        let output = self.child(k, input, t.get());
        drop(replace(&mut self.scope, outer));
        self.wanted_at(Site::Child(k), wanted, output?)
    }

    /// The output type of the network that is child k of the node.
    #[cycle(walk)]
    fn child(&mut self, k: u32, input: &Ty, net: &Net<Expr>) -> Result<Ty, TypeFault>
        ensures answer { GivesTyped type_of result
            (walk_in (self.old.path.items ↓ k) self.old.scope (type_of input.now)
            (tree_of net.now)) }
        ensures kept { OnOk result (SamePlace self.old self.new) }
    {
        self.path.push(k)?;
        let output = self.network(input, net);
        self.path.pop();
        output
    }
}
