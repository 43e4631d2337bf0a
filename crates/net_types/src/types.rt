// Types that a node makes, within the limits.

ghost use Rattle.sample_core.specs.{TypeTree.event_ty, TypeTree.list_ty, TypeTree.pair_ty, TypeView.type_of};
ghost use Rattle.net_types.specs.{Walk.within, Check.GivesTyped};

use crate::fault::TypeFault;
use leaf_core::type_fits;
use net_syntax::{event_with, list_of, pair_under};
use sample_core::Ty;
use std::alloc::Global;

/// The type, where it is within the limits; else `TooDeep`.
fn limited(ty: Ty) -> Result<Ty, TypeFault>
    ensures { GivesTyped type_of result (within (type_of ty)) }
{
    if type_fits(&ty) {
        return Ok(ty);
    }
    drop(ty);
    Err(TypeFault::TooDeep)
}

/// The type of pairs of the two; `TooDeep` over the limits.
pub(crate) fn pair_of(alloc: Global, left: &Ty, right: &Ty) -> Result<Ty, TypeFault>
    ensures { GivesTyped type_of result (within (pair_ty (type_of left.now) (type_of right.now))) }
{
    let right = right.try_copy(alloc)?;
    let pair = pair_under(alloc, left, right)?;
    limited(pair)
}

/// The type of events that carry the type; `TooDeep` over the limits.
pub(crate) fn event_of(alloc: Global, carried: Ty) -> Result<Ty, TypeFault>
    ensures { GivesTyped type_of result (within (event_ty (type_of carried))) }
{
    let event = event_with(alloc, carried)?;
    limited(event)
}

/// The type of lists of the type; `TooDeep` over the limits.
pub(crate) fn limited_list_of(alloc: Global, element: &Ty) -> Result<Ty, TypeFault>
    ensures { GivesTyped type_of result (within (list_ty (type_of element.now))) }
{
    let element = element.try_copy(alloc)?;
    let list = list_of(alloc, element)?;
    limited(list)
}
