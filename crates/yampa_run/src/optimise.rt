// The command `optimise`.

ghost use Rattle.std.specs.Prelude.{◌≡◌, IfOk, map, string_bytes};
ghost use Rattle.sample_core.specs.TypeView.{type_of};
ghost use Rattle.net_tree.specs.LawStep.{step_of};
ghost use Rattle.net_tree.specs.NetworkView.{tree_of};
ghost use Rattle.net_opt.specs.Optimising.{Optimised};
ghost use Rattle.yampa_run.specs.NetworkCommands.{PrintsMade, wanted_text};

use command_line::Wanted;
use leaf_core::Expr;
use net_opt::optimise;
use net_syntax::TypedNet;
use net_text::{print_cert, print_net};
use net_tree::{LawStep, Net};
use sample_core::{Memory, Ty};
use std::alloc::Global;

/// What is wanted of the network that `optimise` makes, or of the steps to it.
pub(crate) fn optimised_text(
    alloc: Global,
    wanted: Wanted,
    net: &TypedNet,
) -> Result<String, Memory>
    ensures { IfOk result (λ text. PrintsMade Optimised net.now wanted (string_bytes text)) }
{
    made_text(alloc, wanted, net.input(), optimise(alloc, net)?)
}

/// What is wanted of a network that was made, with inputs of that type, and of the steps to it.
pub(crate) fn made_text(
    alloc: Global,
    wanted: Wanted,
    input: &Ty,
    made: (Net<Expr>, Vec<LawStep>),
) -> Result<String, Memory>
    ensures { IfOk result (λ text. string_bytes text
        ≡ wanted_text wanted (type_of input.now) (tree_of made.0) (map step_of made.1.items)) }
{
    let (net, steps) = made;
    let text = match wanted {
        Wanted::Network => print_net(alloc, input, &net),
        Wanted::Certificate => print_cert(alloc, &steps),
    };
    drop(net);
    drop(steps);
    text
}
