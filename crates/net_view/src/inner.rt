// Where what is inside a tree stands, and what types there are.

ghost use Rattle.std.specs.Prelude.{◌≡◌, [], IfOk, option_map};
ghost use Rattle.sample_core.specs.TypeView.{type_of};
ghost use Rattle.leaf_core.specs.ExpressionView.{expression_of};
ghost use Rattle.leaf_core.specs.PartWalk.{part_input, with_carried};
ghost use Rattle.net_tree.specs.{NetworkView.tree_of, Place.a_leaf};
ghost use Rattle.net_tree.specs.LawStep.{seen};
ghost use Rattle.net_syntax.specs.StandingWalk.{output_in, standing_of, type_walk_at};
ghost use Rattle.net_view.specs.Walked.{inside_tree};

use leaf_core::{Expr, part_type};
use net_syntax::{Standing, child_standing, pair_under};
use net_tree::{Net, NetChild, TreeRef};
use sample_core::{Memory, Ty};
use std::alloc::Global;

/// The output type of a network that stands there, or the type of an expression; `None` if there is
/// none.
pub(crate) fn type_here(
    alloc: Global,
    at: &Standing,
    tree: TreeRef<'_>,
) -> Result<Option<Ty>, Memory>
    ensures { IfOk result (λ found. option_map type_of found
        ≡ type_walk_at (standing_of at.now) (seen tree.entry) []) }
{
    match tree {
        TreeRef::Net(net) => output_of(alloc, at, net),
        TreeRef::Expr(expr) => part_type(alloc, at.scope.params(), &at.input, expr, &[]),
    }
}

/// The output type of a network that stands there: it is what a stage behind it gets.
fn output_of(alloc: Global, at: &Standing, net: &Net<Expr>) -> Result<Option<Ty>, Memory>
    ensures { IfOk result (λ found. option_map type_of found
        ≡ output_in (standing_of at.now) (tree_of net.now)) }
{
    let stage = net.try_copy(alloc)?;
    let stage = NetChild::new(alloc, stage)?;
    let behind = NetChild::new(alloc, Net::Time)?;
    let stages = Net::Seq(stage, behind);
    let found = child_standing(alloc, at, &stages, 1);
    drop(stages);
    Ok(input_there(found?))
}

/// What the input is there.
fn input_there(at: Option<Standing>) -> Option<Ty>
    ensures { option_map type_of result
        ≡ option_map (λ s. s.input) (option_map standing_of at) }
{
    match at {
        Some(there) => Some(there.input),
        None => None,
    }
}

/// Where what is inside a tree at this number stands; `None` if there is nothing, or no type.
pub(crate) fn standing_inside(
    alloc: Global,
    at: &Standing,
    tree: TreeRef<'_>,
    k: u32,
) -> Result<Option<Standing>, Memory>
    ensures { IfOk result (λ found. option_map standing_of found
        ≡ inside_tree (standing_of at.now) (seen tree.entry) k) }
{
    match tree {
        TreeRef::Net(net) => child_standing(alloc, at, net, k),
        TreeRef::Expr(expr) => part_standing(alloc, at, expr, k),
    }
}

/// Where part k of an expression stands.
fn part_standing(
    alloc: Global,
    at: &Standing,
    expr: &Expr,
    k: u32,
) -> Result<Option<Standing>, Memory>
    ensures { IfOk result (λ found. option_map standing_of found
        ≡ inside_tree (standing_of at.now) (a_leaf (expression_of expr.now)) k) }
{
    let Some(input) = part_input(alloc, at, expr, k)? else {
        return Ok(None);
    };
    match at.scope.try_copy(alloc) {
        Ok(scope) => Ok(Some(Standing { scope, input })),
        Err(refused) => {
            drop(input);
            Err(refused)
        }
    }
}

/// What part k of an expression gets.
fn part_input(alloc: Global, at: &Standing, expr: &Expr, k: u32) -> Result<Option<Ty>, Memory>
    ensures { IfOk result (λ found. option_map type_of found
        ≡ part_input (standing_of at.now).params (standing_of at.now).input
        (expression_of expr.now) k) }
{
    let params = at.scope.params();
    match expr {
        Expr::Then(f, _) if k > 0 => part_type(alloc, params, &at.input, f.get(), &[]),
        Expr::On(e, _, _) if k > 1 => match part_type(alloc, params, &at.input, e.get(), &[]) {
            Ok(Some(event)) => {
                let pair = with_carried(alloc, &at.input, &event);
                drop(event);
                pair
            }
            Ok(None) => Ok(None),
            Err(refused) => Err(refused),
        },
        _ => Ok(Some(at.input.try_copy(alloc)?)),
    }
}

/// The type of pairs of the input and what an event of the type carries.
fn with_carried(alloc: Global, input: &Ty, event: &Ty) -> Result<Option<Ty>, Memory>
    ensures { IfOk result (λ found. option_map type_of found
        ≡ with_carried (type_of input.now) (type_of event.now)) }
{
    let Ty::Event(carried) = event else {
        return Ok(None);
    };
    let carried = carried.get().try_copy(alloc)?;
    Ok(Some(pair_under(alloc, input, carried)?))
}
