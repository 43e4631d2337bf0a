// The check of a whole network.

ghost use Rattle.sample_core.specs.TypeView.{type_of};
ghost use Rattle.net_tree.specs.NetworkView.{tree_of};
ghost use Rattle.net_types.specs.Check.{check, GivesTyped};

use crate::fault::TypeFault;
use crate::walk::output_type;
use leaf_core::{Expr, type_fits};
use net_syntax::{ScopeTypes, TypedNet};
use net_tree::{MOST_HEIGHT, MOST_SIZE, MOST_WEIGHT, Measures, Net, measured};
use sample_core::Ty;
use std::alloc::Global;

/// The network with its input type, its output type, its weight and its height; else the first
/// fault.
///
/// The input type is tested first: `TooDeep` over depth 32 or 256 nodes. Then the walk: each node's
/// tests in their order, its parts in written order but for the members of `parB`, `pSwitch` and
/// `rpSwitchB`, which are walked before their outputs are compared, and for `accumBy`, whose start is
/// walked before its step.
///
/// - `Expr`, at an expression: it is refused, with its own fault.
/// - `Joint`, at the node or at the part whose output it is: two types differ, as that of an `iPre`
///   and of its input, of a `-->` and of its network, of a continuation and of the network before it,
///   or of two members; or the choice of an `rpSwitchB`, where it stands then, isn't of a list of
///   numbers and a list.
/// - `NoOld`, at an `old`: no frozen network in scope has its level.
/// - `NotEvent`, at the node for its input, at a part for its output: it isn't an event's type.
/// - `NotPair`, likewise: it isn't a pair's type.
/// - `Members`, at a `parB`, a `pSwitch` or an `rpSwitchB`: it has no members or more than 64.
/// - `Number`, at an `after`, a `repeatedly` or a `delay`: its q is outside the range.
/// - `TooDeep`: a type that a node makes, as its output or as a part's input, is over depth 32 or
///   256 nodes.
///
/// Then the height: `TooDeep` over 256. Last the weight: `TooHeavy` over 1,000,000. A network with
/// so many parts, shared ones counted each time, that by estimate no file could hold it and that it
/// is too heavy where it is typed is `TooHeavy` before the walk. `Memory` if allocation fails.
pub fn check_types(alloc: Global, input: Ty, net: Net<Expr>) -> Result<TypedNet, TypeFault>
    ensures { GivesTyped (λ typed. typed) result (check (type_of input) (tree_of net)) }
{
    if !type_fits(&input) {
        return Err(TypeFault::TooDeep);
    }
    let most = Measures {
        size: MOST_SIZE,
        weight: u32::MAX,
        height: u32::MAX,
    };
    let Some(found) = measured(alloc, &net, &most)? else {
        return Err(TypeFault::TooHeavy);
    };
    let output = output_type(alloc, ScopeTypes::new(alloc), &input, &net)?;
    if found.height > MOST_HEIGHT {
        return Err(TypeFault::TooDeep);
    }
    if found.weight > MOST_WEIGHT {
        return Err(TypeFault::TooHeavy);
    }
    Ok(TypedNet::new(input, output, net, found.weight, found.height))
}
