// Types that are made of others.

ghost use Rattle.std.specs.Prelude.{◌≡◌, IfOk};
ghost use Rattle.sample_core.specs.{TypeTree.pair_ty, TypeTree.event_ty, TypeTree.list_ty, TypeView.type_of};
ghost use Rattle.net_syntax.specs.ArrowView.{arrow_of};
ghost use Rattle.net_meaning.specs.Typing.{arrow};

use crate::arrow::Arrow;
use sample_core::{Memory, Ty, TyChild};
use std::alloc::Global;

/// The type of pairs of these.
pub(crate) fn pair_of(alloc: Global, left: Ty, right: &Ty) -> Result<Ty, Memory>
    ensures { IfOk result (λ t. type_of t ≡ pair_ty (type_of left) (type_of right.now)) }
{
    let left = TyChild::new(alloc, left)?;
    let right = child_of(alloc, right)?;
    Ok(Ty::Pair(left, right))
}

/// The type of pairs of these, where the right one is given up, and not the left.
pub fn pair_under(alloc: Global, left: &Ty, right: Ty) -> Result<Ty, Memory>
    ensures { IfOk result (λ t. type_of t ≡ pair_ty (type_of left.now) (type_of right)) }
{
    let right = TyChild::new(alloc, right)?;
    let left = child_of(alloc, left)?;
    Ok(Ty::Pair(left, right))
}

/// The type, inside another.
fn child_of(alloc: Global, ty: &Ty) -> Result<TyChild, Memory>
    ensures { IfOk result (λ c. c ≡ type_of ty.now) }
{
    let copy = ty.try_copy(alloc)?;
    TyChild::new(alloc, copy)
}

/// The type of lists of it.
pub fn list_of(alloc: Global, element: Ty) -> Result<Ty, Memory>
    ensures { IfOk result (λ t. type_of t ≡ list_ty (type_of element)) }
{
    Ok(Ty::List(TyChild::new(alloc, element)?))
}

/// The type of events that carry it.
pub fn event_with(alloc: Global, value: Ty) -> Result<Ty, Memory>
    ensures { IfOk result (λ t. type_of t ≡ event_ty (type_of value)) }
{
    Ok(Ty::Event(TyChild::new(alloc, value)?))
}

/// The types of a frozen network, the first of which is copied.
pub fn arrow_from(alloc: Global, input: &Ty, output: Ty) -> Result<Arrow, Memory>
    ensures { IfOk result (λ o. arrow_of o ≡ arrow (type_of input.now) (type_of output)) }
{
    match input.try_copy(alloc) {
        Ok(input) => Ok(Arrow { input, output }),
        Err(refused) => {
            drop(output);
            Err(refused)
        }
    }
}
