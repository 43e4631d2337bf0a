// The types of the parts of an expression.

ghost use Rattle.std.specs.Prelude.{◌≡◌, IfOk, map, option_map};
ghost use Rattle.sample_core.specs.TypeView.{type_of};
ghost use Rattle.leaf_core.specs.ExpressionView.{expression_of};
ghost use Rattle.leaf_core.specs.PartWalk.{found_type, part_input, part_type_at, with_carried};

use crate::expr::Expr;
use crate::parts::part;
use crate::scope::TypeScope;
use crate::typing::{ExprFault, walk};
use sample_core::{Memory, Ty, TyChild};
use std::alloc::Global;

/// The type of what stands in the expression at the path of part numbers, where it stands, under
/// the types of the parameters and of the input; `None` if the path leads to no part, and where
/// there is no type within the limits. `Memory` if allocation fails.
pub fn part_type(
    alloc: Global,
    params: &[Ty],
    input: &Ty,
    expr: &Expr,
    path: &[u32],
) -> Result<Option<Ty>, Memory>
    ensures { IfOk result (λ found. option_map type_of found
        ≡ part_type_at (map type_of params.now) (type_of input.now) (expression_of expr.now)
        path.now) }
{
    let Some((k, rest)) = path.split_first() else {
        return found_type(alloc, params, input, expr);
    };
    let Some(inner) = part(expr, *k) else {
        return Ok(None);
    };
    match part_input(alloc, params, input, expr, *k) {
        Ok(Some(between)) => {
            let found = part_type(alloc, params, &between, inner, rest);
            drop(between);
            found
        }
        Ok(None) => Ok(None),
        Err(refused) => Err(refused),
    }
}

/// The type of what part k gets, under the types of the parameters and of the input of the whole.
fn part_input(
    alloc: Global,
    params: &[Ty],
    input: &Ty,
    expr: &Expr,
    k: u32,
) -> Result<Option<Ty>, Memory>
    ensures { IfOk result (λ found. option_map type_of found
        ≡ part_input (map type_of params.now) (type_of input.now) (expression_of expr.now) k) }
{
    match expr {
        Expr::Then(f, _) if k > 0 => found_type(alloc, params, input, f.get()),
        Expr::On(e, _, _) if k > 1 => match found_type(alloc, params, input, e.get()) {
            Ok(Some(event)) => {
                let pair = with_carried(alloc, input, &event);
                drop(event);
                pair
            }
            Ok(None) => Ok(None),
            Err(refused) => Err(refused),
        },
        _ => Ok(Some(input.try_copy(alloc)?)),
    }
}

/// The type of pairs of the input and what an event of the type carries.
fn with_carried(alloc: Global, input: &Ty, event: &Ty) -> Result<Option<Ty>, Memory>
    ensures { IfOk result (λ found. option_map type_of found
        ≡ with_carried (type_of input.now) (type_of event.now)) }
{
    let Ty::Event(carried) = event else {
        return Ok(None);
    };
    let input = input.try_copy(alloc)?;
    let input = TyChild::new(alloc, input)?;
    let carried = carried.get().try_copy(alloc)?;
    let carried = TyChild::new(alloc, carried)?;
    Ok(Some(Ty::Pair(input, carried)))
}

/// The type of the expression, under the types of the parameters and of the input; its height and
/// size are not tested.
fn found_type(alloc: Global, params: &[Ty], input: &Ty, expr: &Expr) -> Result<Option<Ty>, Memory>
    ensures { IfOk result (λ found. option_map type_of found
        ≡ found_type (map type_of params.now) (type_of input.now) (expression_of expr.now)) }
{
    let scope = TypeScope {
        alloc,
        params,
        input,
    };
    match walk(&scope, expr) {
        Ok(found) => Ok(Some(found)),
        Err(ExprFault::Memory) => Err(Memory),
        Err(_) => Ok(None),
    }
}
