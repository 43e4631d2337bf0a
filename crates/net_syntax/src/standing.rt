// Where the parts of a typed network stand, and their types.

ghost use Rattle.std.specs.Prelude.{◌≡◌, IfOk, MatchOption, None, Some, option_map};
ghost use Rattle.sample_core.specs.TypeView.{type_of};
ghost use Rattle.leaf_core.specs.ExpressionView.{expression_of};
ghost use Rattle.net_tree.specs.LawStep.{seen};
ghost use Rattle.net_syntax.specs.{ArrowView.arrow_of, FoundType.Finds};
ghost use Rattle.net_tree.specs.NetworkView.{tree, tree_of, trees};
ghost use Rattle.net_tree.specs.Place.{a_leaf, a_network, continuation_child, p_switch_child};
ghost use Rattle.net_syntax.specs.Scopes.{and_olds};
ghost use Rattle.net_syntax.specs.{Placed.placed_at, Standing.ChildFound, Standing.TypeAt, Standing.alone};
ghost use Rattle.net_syntax.specs.StandingWalk.{child_input, child_scope, collection_input, fed_input, freezing, frozen, frozen_members, frozen_of, frozen_types, inside, members_scope, routed_input, standing_of, started_type, step_input, switch_event, type_walk_at, under, watched_event, watched_input, with_scope};

use crate::arrow::Arrow;
use crate::output::{
    Untyped, carried_in, leaf_type, left_in, list_under, output_in, right_carried_in,
    right_listed_in, route_type, routed_types,
};
use crate::part_types::{arrow_from, pair_of, pair_under};
use crate::place::{StandsBehind, child, kind_behind};
use crate::scope::ScopeTypes;
use crate::typed_net::TypedNet;
use leaf_core::{Expr, part_type};
use net_tree::{Members, Net, NetChild, Position, TreeRef};
use sample_core::{Memory, Ty};
use std::alloc::Global;

/// The types of what is in scope, and of the input, where a part of a network stands.
#[derive(Drop)]
pub struct Standing {
    /// The types of the parameters and of the frozen networks.
    pub scope: ScopeTypes,
    /// The type of the input.
    pub input: Ty,
}

impl Standing {
    /// Where a whole network stands that gets inputs of the type. `Memory` if a count of references
    /// is full.
    pub fn alone(alloc: Global, input: &Ty) -> Result<Standing, Memory>
        ensures { IfOk result (λ s. standing_of s ≡ alone (type_of input.now)) }
    {
        let input = input.try_copy(alloc)?;
        Ok(Standing {
            scope: ScopeTypes::new(alloc),
            input,
        })
    }
}

/// The output type of the network, or the type of the expression, that stands at the position,
/// where it stands; `None` if the position isn't there. `Memory` if allocation fails.
pub fn type_at(alloc: Global, net: &TypedNet, position: &Position) -> Result<Option<Ty>, Memory>
    ensures { IfOk result
        (λ found. MatchOption found (placed_at 0 0 (a_network net.now.net) position.now ≡ None)
        (λ t. TypeAt (alone net.now.input) (a_network net.now.net) position.now (type_of t))) }
{
    let at = Standing::alone(alloc, net.input())?;
    match type_below(alloc, &at, TreeRef::Net(net.net()), position.path()) {
        Ok(found) => {
            drop(at);
            Ok(Some(found))
        }
        Err(Untyped::NoType) => {
            drop(at);
            Ok(None)
        }
        Err(Untyped::Memory) => {
            drop(at);
            Err(Memory)
        }
    }
}

/// Where child k stands of a network that stands there, typed within the limits. It goes by the
/// parts before the child that say what is in scope there and what it gets; `None` if one of these
/// has no type. `Memory` if allocation fails.
pub fn child_standing(
    alloc: Global,
    at: &Standing,
    net: &Net<Expr>,
    k: u32,
) -> Result<Option<Standing>, Memory>
    ensures found { IfOk result (λ found. option_map standing_of found
        ≡ inside (standing_of at.now) (tree_of net.now) k) }
    ensures stands { IfOk result (λ found.
        ChildFound (standing_of at.now) (tree_of net.now) k (option_map standing_of found)) }
{
    match inside(alloc, at, net, k) {
        Ok(found) => Ok(Some(found)),
        Err(Untyped::NoType) => Ok(None),
        Err(Untyped::Memory) => Err(Memory),
    }
}

/// The output type, or type, of what stands at the path below a tree that stands there.
fn type_below(alloc: Global, at: &Standing, tree: TreeRef<'_>, path: &[u32]) -> Result<Ty, Untyped>
    ensures { Finds type_of result (type_walk_at (standing_of at.now) (seen tree.entry) path.now) }
{
    match tree {
        TreeRef::Expr(e) => part_type_in(alloc, at, e, path),
        TreeRef::Net(net) => match path.split_first() {
            Some((k, rest)) => match child(net, *k) {
                Some(inner) => {
                    let there = inside(alloc, at, net, *k)?;
                    let found = type_below(alloc, &there, inner, rest);
                    drop(there);
                    found
                }
                None => Err(Untyped::NoType),
            },
            None => output_in(alloc, at, &at.input, net),
        },
    }
}

/// The type of what stands at the path in an expression that stands there.
fn part_type_in(alloc: Global, at: &Standing, e: &Expr, path: &[u32]) -> Result<Ty, Untyped>
    ensures { Finds type_of result
        (type_walk_at (standing_of at.now) (a_leaf (expression_of e.now)) path.now) }
{
    match part_type(alloc, at.scope.params(), &at.input, e, path)? {
        Some(found) => Ok(found),
        None => Err(Untyped::NoType),
    }
}

/// The types where child k of the network stands, or why there are none.
pub(crate) fn inside(
    alloc: Global,
    at: &Standing,
    net: &Net<Expr>,
    k: u32,
) -> Result<Standing, Untyped>
    ensures { Finds (λ s. standing_of s) result
        (inside (standing_of at.now) (tree_of net.now) k) }
{
    let input = child_input(alloc, at, net, k)?;
    match child_scope(alloc, at, net, k) {
        Ok(scope) => Ok(Standing { scope, input }),
        Err(untyped) => {
            drop(input);
            Err(untyped)
        }
    }
}

/// What child k gets.
fn child_input(alloc: Global, at: &Standing, net: &Net<Expr>, k: u32) -> Result<Ty, Untyped>
    ensures { Finds type_of result (child_input (standing_of at.now) (tree_of net.now) k) }
{
    match net {
        Net::Seq(f, _) if k > 0 => output_in(alloc, at, &at.input, f.get()),
        Net::First(_) | Net::RSwitch(..) | Net::DrSwitch(..) => left_in(alloc, &at.input),
        Net::LoopPre(c, _) if k > 0 => fed_input(alloc, at, c),
        Net::AccumBy(_, z) if k == 0 => step_input(alloc, at, z),
        Net::InitialOut(..) | Net::InitialIn(..) if k == 0 => Ok(Ty::Unit),
        Net::LoopPre(..)
        | Net::AccumBy(..)
        | Net::IPre(_)
        | Net::Delay(..)
        | Net::Hold(_)
        | Net::After(..)
        | Net::Repeatedly(..) => Ok(Ty::Unit),
        Net::KSwitch(f, _, _) if k == 1 => watched_input(alloc, at, f),
        Net::PSwitch(r, fs, _, _) => input_in_p_switch(alloc, at, r, fs, k),
        Net::RpSwitch(fs, _, _) => input_in_collection(alloc, at, fs, k),
        _ => Ok(at.input.try_copy(alloc)?),
    }
}

/// What the network of a `loopPre` gets.
fn fed_input(alloc: Global, at: &Standing, c: &Expr) -> Result<Ty, Untyped>
    ensures { Finds type_of result (fed_input (standing_of at.now) (expression_of c.now)) }
{
    let start = leaf_type(alloc, &at.scope, &Ty::Unit, c)?;
    Ok(pair_under(alloc, &at.input, start)?)
}

/// What the step of an `accumBy` gets.
fn step_input(alloc: Global, at: &Standing, z: &Expr) -> Result<Ty, Untyped>
    ensures { Finds type_of result (step_input (standing_of at.now) (expression_of z.now)) }
{
    let Ty::Event(value) = &at.input else {
        return Err(Untyped::NoType);
    };
    let start = leaf_type(alloc, &at.scope, &Ty::Unit, z)?;
    Ok(pair_of(alloc, start, value.get())?)
}

/// What the event of a `kSwitch` gets.
fn watched_input(alloc: Global, at: &Standing, f: &NetChild<Expr>) -> Result<Ty, Untyped>
    ensures { Finds type_of result (watched_input (standing_of at.now) (tree f.now)) }
{
    let output = output_in(alloc, at, &at.input, f.get())?;
    Ok(pair_under(alloc, &at.input, output)?)
}

/// What child k of a `pSwitch` gets.
fn input_in_p_switch(
    alloc: Global,
    at: &Standing,
    r: &Expr,
    fs: &Members<Expr>,
    k: u32,
) -> Result<Ty, Untyped>
    ensures { Finds type_of result
        (routed_input (standing_of at.now) (expression_of r.now) (trees fs.now) k) }
{
    if k == 0 {
        return Ok(pair_under(alloc, &at.input, Ty::Int)?);
    }
    match kind_behind(fs, k - 1) {
        StandsBehind::Member => route_type(alloc, at, &at.input, r),
        StandsBehind::Event => {
            let types = routed_types(alloc, at, &at.input, r, fs)?;
            let outputs = list_under(alloc, &types);
            drop(types);
            Ok(pair_under(alloc, &at.input, outputs?)?)
        }
        StandsBehind::Continuation => Ok(at.input.try_copy(alloc)?),
        StandsBehind::Nothing => Err(Untyped::NoType),
    }
}

/// What child k of an `rpSwitchB` gets.
fn input_in_collection(
    alloc: Global,
    at: &Standing,
    fs: &Members<Expr>,
    k: u32,
) -> Result<Ty, Untyped>
    ensures { Finds type_of result
        (collection_input (standing_of at.now) (p_switch_child (trees fs.now) k)) }
{
    match kind_behind(fs, k) {
        StandsBehind::Member | StandsBehind::Continuation => left_in(alloc, &at.input),
        StandsBehind::Event => right_carried_in(alloc, &at.input),
        StandsBehind::Nothing => Err(Untyped::NoType),
    }
}

/// What child k has in scope.
fn child_scope(alloc: Global, at: &Standing, net: &Net<Expr>, k: u32) -> Result<ScopeTypes, Untyped>
    ensures { Finds (λ s. with_scope (standing_of at.now) s) result
        (child_scope (standing_of at.now) (tree_of net.now) k) }
{
    match net {
        Net::Switch(f, _) | Net::DSwitch(f, _) if k > 0 => {
            let event = switch_event(alloc, at, f)?;
            scope_under(alloc, at, event)
        }
        Net::RSwitch(..) | Net::DrSwitch(..) if k > 0 => {
            let event = right_carried_in(alloc, &at.input)?;
            scope_under(alloc, at, event)
        }
        Net::KSwitch(f, e, _) if k > 1 => {
            let (types, outputs) = frozen_types(alloc, at, f)?;
            freezing(alloc, at, 1, types, outputs, e)
        }
        Net::PSwitch(r, fs, e, _) if k > 0 => match kind_behind(fs, k - 1) {
            StandsBehind::Continuation => scope_in_p_switch(alloc, at, r, fs, e, k - 1),
            _ => Ok(at.scope.try_copy(alloc)?),
        },
        Net::RpSwitch(fs, m, _) => match kind_behind(fs, k) {
            StandsBehind::Continuation => {
                let started = started_type(alloc, at, m)?;
                scope_under(alloc, at, started)
            }
            _ => Ok(at.scope.try_copy(alloc)?),
        },
        _ => Ok(at.scope.try_copy(alloc)?),
    }
}

/// The scope there with one more parameter, of the type.
fn scope_under(alloc: Global, at: &Standing, param: Ty) -> Result<ScopeTypes, Untyped>
    ensures { Finds (λ s. with_scope (standing_of at.now) s) result
        (Some (under (standing_of at.now) (type_of param))) }
{
    let inner = at.scope.and_param(alloc, &param);
    drop(param);
    Ok(inner?)
}

/// The type of what the events of the network carry.
fn switch_event(alloc: Global, at: &Standing, f: &NetChild<Expr>) -> Result<Ty, Untyped>
    ensures { Finds type_of result (switch_event (standing_of at.now) (tree f.now)) }
{
    let output = output_in(alloc, at, &at.input, f.get())?;
    let event = right_carried_in(alloc, &output);
    drop(output);
    event
}

/// The type of the values that the choice of an `rpSwitchB` starts new members with.
fn started_type(alloc: Global, at: &Standing, m: &Expr) -> Result<Ty, Untyped>
    ensures { Finds type_of result (started_type (standing_of at.now) (expression_of m.now)) }
{
    let event = right_carried_in(alloc, &at.input)?;
    let chosen = leaf_type(alloc, &at.scope, &event, m);
    drop(event);
    let chosen = chosen?;
    let started = right_listed_in(alloc, &chosen);
    drop(chosen);
    started
}

/// The types of the network that a `kSwitch` freezes, and its output type.
fn frozen_types(alloc: Global, at: &Standing, f: &NetChild<Expr>) -> Result<(Arrow, Ty), Untyped>
    ensures { Finds (λ p. frozen_of p) result (frozen_types (standing_of at.now) (tree f.now)) }
{
    let output = output_in(alloc, at, &at.input, f.get())?;
    let types = arrow_from(alloc, &at.input, output)?;
    match types.output.try_copy(alloc) {
        Ok(outputs) => Ok((types, outputs)),
        Err(Memory) => {
            drop(types);
            Err(Untyped::Memory)
        }
    }
}

/// What the continuation of a `pSwitch` has in scope, which stands at number k behind the route.
fn scope_in_p_switch(
    alloc: Global,
    at: &Standing,
    r: &Expr,
    fs: &Members<Expr>,
    e: &NetChild<Expr>,
    k: u32,
) -> Result<ScopeTypes, Untyped>
    requires { p_switch_child (trees fs.now) k ≡ continuation_child }
    ensures { Finds (λ s. with_scope (standing_of at.now) s) result
        (members_scope (standing_of at.now) (expression_of r.now) (trees fs.now) (tree e.now)) }
{
    let (types, outputs) = frozen_members(alloc, at, r, fs)?;
    freezing(alloc, at, k - 1, types, outputs, e)
}

/// The types of each member that a `pSwitch` freezes, and of the list of their outputs.
fn frozen_members(
    alloc: Global,
    at: &Standing,
    r: &Expr,
    fs: &Members<Expr>,
) -> Result<(Arrow, Ty), Untyped>
    ensures { Finds (λ p. frozen_of p) result
        (frozen_members (standing_of at.now) (expression_of r.now) (trees fs.now)) }
{
    let types = routed_types(alloc, at, &at.input, r, fs)?;
    match list_under(alloc, &types) {
        Ok(outputs) => Ok((types, outputs)),
        Err(Memory) => {
            drop(types);
            Err(Untyped::Memory)
        }
    }
}

/// What a continuation has in scope behind so many frozen networks of these types, whose outputs
/// are watched.
fn freezing(
    alloc: Global,
    at: &Standing,
    count: u32,
    types: Arrow,
    outputs: Ty,
    e: &NetChild<Expr>,
) -> Result<ScopeTypes, Untyped>
    ensures { Finds (λ s. with_scope (standing_of at.now) s) result
        (frozen (standing_of at.now) count (type_of outputs) (tree e.now) (arrow_of types)) }
{
    match watched_event(alloc, at, outputs, e) {
        Ok(event) => scope_behind(alloc, at, count, types, event),
        Err(untyped) => {
            drop(types);
            Err(untyped)
        }
    }
}

/// The type of what the events carry of a network that watches the input and these outputs.
fn watched_event(
    alloc: Global,
    at: &Standing,
    outputs: Ty,
    e: &NetChild<Expr>,
) -> Result<Ty, Untyped>
    ensures { Finds type_of result
        (watched_event (standing_of at.now) (type_of outputs) (tree e.now)) }
{
    let both = pair_under(alloc, &at.input, outputs)?;
    let watched = output_in(alloc, at, &both, e.get());
    drop(both);
    let watched = watched?;
    let event = carried_in(alloc, &watched);
    drop(watched);
    event
}

/// The scope there with so many further frozen networks of these types, and a parameter more.
fn scope_behind(
    alloc: Global,
    at: &Standing,
    count: u32,
    types: Arrow,
    param: Ty,
) -> Result<ScopeTypes, Untyped>
    ensures { Finds (λ s. with_scope (standing_of at.now) s) result
        (Some (freezing (standing_of at.now) count (arrow_of types) (type_of param))) }
{
    match scope_under(alloc, at, param) {
        Ok(inner) => {
            let inner = and_frozen(alloc, inner, count, &types);
            drop(types);
            Ok(inner?)
        }
        Err(untyped) => {
            drop(types);
            Err(untyped)
        }
    }
}

/// The scope with so many further frozen networks of these types.
fn and_frozen(
    alloc: Global,
    scope: ScopeTypes,
    count: u32,
    types: &Arrow,
) -> Result<ScopeTypes, Memory>
    ensures { IfOk result (λ s. s ≡ and_olds scope count (arrow_of types.now)) }
{
    let mut scope = scope;
    match scope.add_olds(alloc, count, types) {
        Ok(()) => Ok(scope),
        Err(refused) => {
            drop(scope);
            Err(refused)
        }
    }
}
