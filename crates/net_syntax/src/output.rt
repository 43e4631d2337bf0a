// The output types of typed networks.

ghost use Rattle.std.specs.Prelude.{◌≡◌, IfOk, map};
ghost use Rattle.sample_core.specs.TypeTree.{int_ty, list_ty, pair_ty};
ghost use Rattle.sample_core.specs.TypeView.{type_of};
ghost use Rattle.leaf_core.specs.ExpressionView.{expression_of};
ghost use Rattle.net_syntax.specs.{ArrowView.arrow_of, FoundType.Finds};
ghost use Rattle.net_tree.specs.Network.{first as first_of, loop_pre};
ghost use Rattle.net_tree.specs.NetworkView.{tree, tree_of, trees};
ghost use Rattle.net_syntax.specs.StandingWalk.{carried_of, collection_output, first_output, leaf_type, left_of, old_output, output_in, right_carried_of, right_listed_of, routed, standing_of, taking, type_in};
ghost use Rattle.net_syntax.specs.declared.output.Untyped.TheVariants as U;

use crate::arrow::Arrow;
use crate::part_types::{event_with, list_of, pair_of, pair_under};
use crate::scope::ScopeTypes;
use crate::standing::Standing;
use leaf_core::{Expr, ExprFault, type_of_expr};
use net_tree::{Members, Net, NetChild};
use sample_core::{Memory, OutOfMemory, Ty};
use std::alloc::Global;

/// Why no type was found.
#[derive(Clone, Copy)]
pub(crate) enum Untyped {
    NoType,
    Memory,
}

impl<E: OutOfMemory> From<E> for Untyped {
    ghost from_gives = { λ _ e. e ≡ U.Memory };

    fn from(_: E) -> Untyped {
        Untyped::Memory
    }
}

/// The output type of a typed network that stands there, with an input of this type. Only the parts
/// that it goes by are looked at.
#[cycle(output)]
pub(crate) fn output_in(
    alloc: Global,
    at: &Standing,
    input: &Ty,
    net: &Net<Expr>,
) -> Result<Ty, Untyped>
    ensures { Finds type_of result
        (output_in (taking (standing_of at.now) (type_of input.now)) (tree_of net.now)) }
{
    match net {
        Net::Arr(e) => leaf_type(alloc, &at.scope, input, e),
        Net::Seq(f, g) => {
            let between = output_in(alloc, at, input, f.get())?;
            let output = output_in(alloc, at, &between, g.get());
            drop(between);
            output
        }
        Net::First(f) => output_on_left(alloc, at, input, f),
        Net::Par(fs) => {
            let element = first_output(alloc, at, input, fs)?;
            Ok(list_of(alloc, element)?)
        }
        Net::LoopPre(c, f) => output_fed_back(alloc, at, input, c, f),
        Net::IPre(_) | Net::Delay(..) => Ok(input.try_copy(alloc)?),
        Net::Hold(_) => carried_in(alloc, input),
        Net::AccumBy(_, c) | Net::After(_, c) | Net::Repeatedly(_, c) => {
            let value = leaf_type(alloc, &at.scope, &Ty::Unit, c)?;
            Ok(event_with(alloc, value)?)
        }
        Net::Time | Net::Integral => Ok(Ty::Int),
        Net::Switch(f, _) | Net::DSwitch(f, _) => {
            let output = output_in(alloc, at, input, f.get())?;
            let left = left_in(alloc, &output);
            drop(output);
            left
        }
        Net::RSwitch(f, _) | Net::DrSwitch(f, _) => match input {
            Ty::Pair(sample, _) => output_in(alloc, at, sample.get(), f.get()),
            _ => Err(Untyped::NoType),
        },
        Net::KSwitch(f, _, _) | Net::InitialOut(_, f) | Net::InitialIn(_, f) => {
            output_in(alloc, at, input, f.get())
        }
        Net::PSwitch(r, fs, _, _) => {
            let types = routed_types(alloc, at, input, r, fs)?;
            let outputs = list_under(alloc, &types);
            drop(types);
            Ok(outputs?)
        }
        Net::Old(k) => old_output(alloc, at.scope.olds(), *k),
        Net::RpSwitch(fs, _, _) => output_of_collection(alloc, at, input, fs),
    }
}

/// The output type of a network on the left components of pairs.
#[cycle(output)]
fn output_on_left(
    alloc: Global,
    at: &Standing,
    input: &Ty,
    f: &NetChild<Expr>,
) -> Result<Ty, Untyped>
    ensures { Finds type_of result
        (output_in (taking (standing_of at.now) (type_of input.now)) (first_of (tree f.now))) }
{
    let Ty::Pair(left, right) = input else {
        return Err(Untyped::NoType);
    };
    let output = output_in(alloc, at, left.get(), f.get())?;
    Ok(pair_of(alloc, output, right.get())?)
}

/// The output type of a network that also gets its own second output.
#[cycle(output)]
fn output_fed_back(
    alloc: Global,
    at: &Standing,
    input: &Ty,
    c: &Expr,
    f: &NetChild<Expr>,
) -> Result<Ty, Untyped>
    ensures { Finds type_of result
        (output_in (taking (standing_of at.now) (type_of input.now))
        (loop_pre (expression_of c.now) (tree f.now))) }
{
    let start = leaf_type(alloc, &at.scope, &Ty::Unit, c)?;
    let both = pair_under(alloc, input, start)?;
    let output = output_in(alloc, at, &both, f.get());
    drop(both);
    let output = output?;
    let left = left_in(alloc, &output);
    drop(output);
    left
}

/// The output type of an `rpSwitchB` of these members.
#[cycle(output)]
fn output_of_collection(
    alloc: Global,
    at: &Standing,
    input: &Ty,
    fs: &Members<Expr>,
) -> Result<Ty, Untyped>
    ensures { Finds type_of result
        (collection_output (taking (standing_of at.now) (type_of input.now)) (trees fs.now)) }
{
    let Ty::Pair(sample, _) = input else {
        return Err(Untyped::NoType);
    };
    let element = first_output(alloc, at, sample.get(), fs)?;
    Ok(list_of(alloc, element)?)
}

/// The types of members on what the route gives them.
#[cycle(output)]
pub(crate) fn routed_types(
    alloc: Global,
    at: &Standing,
    input: &Ty,
    r: &Expr,
    fs: &Members<Expr>,
) -> Result<Arrow, Untyped>
    ensures { Finds arrow_of result
        (routed (taking (standing_of at.now) (type_of input.now)) (expression_of r.now)
        (trees fs.now)) }
{
    let given = route_type(alloc, at, input, r)?;
    match first_output(alloc, at, &given, fs) {
        Ok(output) => Ok(Arrow {
            input: given,
            output,
        }),
        Err(untyped) => {
            drop(given);
            Err(untyped)
        }
    }
}

/// The output type of the first member.
#[cycle(output)]
fn first_output(alloc: Global, at: &Standing, input: &Ty, fs: &Members<Expr>) -> Result<Ty, Untyped>
    ensures { Finds type_of result
        (first_output (taking (standing_of at.now) (type_of input.now)) (trees fs.now)) }
{
    match fs.as_slice().split_first() {
        Some((f, _)) => output_in(alloc, at, input, f),
        None => Err(Untyped::NoType),
    }
}

/// The type of what a route gives.
pub(crate) fn route_type(alloc: Global, at: &Standing, input: &Ty, r: &Expr) -> Result<Ty, Untyped>
    ensures { Finds type_of result
        (leaf_type (standing_of at.now) (pair_ty (type_of input.now) int_ty)
        (expression_of r.now)) }
{
    let numbered = pair_under(alloc, input, Ty::Int)?;
    let given = leaf_type(alloc, &at.scope, &numbered, r);
    drop(numbered);
    given
}

/// The type of an expression that is a child of a network.
pub(crate) fn leaf_type(
    alloc: Global,
    scope: &ScopeTypes,
    input: &Ty,
    e: &Expr,
) -> Result<Ty, Untyped>
    ensures { Finds type_of result
        (type_in scope.now (type_of input.now) (expression_of e.now)) }
{
    match type_of_expr(alloc, scope.params(), input, e) {
        Ok(found) => Ok(found),
        Err(ExprFault::Memory) => Err(Untyped::Memory),
        Err(_) => Err(Untyped::NoType),
    }
}

/// The type of lists of what the network outputs.
pub(crate) fn list_under(alloc: Global, types: &Arrow) -> Result<Ty, Memory>
    ensures { IfOk result (λ t. type_of t ≡ list_ty (type_of types.now.output)) }
{
    let output = types.output.try_copy(alloc)?;
    list_of(alloc, output)
}

/// The left part of a pair type.
pub(crate) fn left_in(alloc: Global, ty: &Ty) -> Result<Ty, Untyped>
    ensures { Finds type_of result (left_of (type_of ty.now)) }
{
    match ty {
        Ty::Pair(left, _) => Ok(left.get().try_copy(alloc)?),
        _ => Err(Untyped::NoType),
    }
}

/// The type of what an event carries.
pub(crate) fn carried_in(alloc: Global, ty: &Ty) -> Result<Ty, Untyped>
    ensures { Finds type_of result (carried_of (type_of ty.now)) }
{
    match ty {
        Ty::Event(carried) => Ok(carried.get().try_copy(alloc)?),
        _ => Err(Untyped::NoType),
    }
}

/// The type of what the event in the right part of a pair carries.
pub(crate) fn right_carried_in(alloc: Global, ty: &Ty) -> Result<Ty, Untyped>
    ensures { Finds type_of result (right_carried_of (type_of ty.now)) }
{
    match ty {
        Ty::Pair(_, right) => carried_in(alloc, right.get()),
        _ => Err(Untyped::NoType),
    }
}

/// The type of what the list in the right part of a pair holds.
pub(crate) fn right_listed_in(alloc: Global, ty: &Ty) -> Result<Ty, Untyped>
    ensures { Finds type_of result (right_listed_of (type_of ty.now)) }
{
    let Ty::Pair(_, right) = ty else {
        return Err(Untyped::NoType);
    };
    match right.get() {
        Ty::List(element) => Ok(element.get().try_copy(alloc)?),
        _ => Err(Untyped::NoType),
    }
}

/// The output type of frozen network k.
#[tactic(auto, using(std::proofs::lemmas::Grind::common_steps, crate::proofs::FoundOutputs::old_there, crate::proofs::FoundOutputs::old_missing))]
pub(crate) fn old_output(alloc: Global, olds: &[Arrow], k: u32) -> Result<Ty, Untyped>
    ensures { Finds type_of result (old_output (map arrow_of olds.now) k) }
{
    match olds.get(k as usize) {
        Some(old) => Ok(old.output.try_copy(alloc)?),
        None => Err(Untyped::NoType),
    }
}
