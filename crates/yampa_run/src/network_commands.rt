// The commands that print a text on the network of one file: `types`, `outline`, `optimise`.

ghost use Rattle.std.specs.Prelude.{IfErr, IfOk, string_bytes};
ghost use Rattle.yampa_run.specs.Loading.{HasNoNetwork};
ghost use Rattle.yampa_run.specs.NetworkCommands.{Prints, PrintsOf};

use crate::files::Files;
use crate::load::load;
use crate::optimise::optimised_text;
use crate::preparation::Refusal;
use crate::refused::Role;
use crate::types::types_text;
use command_line::Wanted;
use net_syntax::TypedNet;
use net_view::outline_text;
use sample_core::Memory;
use std::alloc::Global;

/// A command that prints a text on a network.
#[derive(Clone, Copy)]
pub(crate) enum NetworkCommand {
    /// Its types, its weight and its height.
    Types,
    /// A line on each of its parts.
    Outline,
    /// The network that `optimise` makes of it, or the steps to that.
    Optimise(Wanted),
}

/// What the command prints on the network of the file of that name.
pub(crate) fn network_text<F: Files>(
    alloc: Global,
    command: NetworkCommand,
    name: &str,
    files: &F,
) -> Result<String, Refusal>
    ensures text { IfOk result
        (λ text. Prints command (F.told files.now name.now) (string_bytes text)) }
    ensures refused { IfErr result (HasNoNetwork Role.Network (F.told files.now name.now)) }
{
    match load(alloc, Role::Network, name, files) {
        Ok(net) => {
            let text = text_of(alloc, command, &net);
            drop(net);
            Ok(text?)
        }
        Err(refusal) => Err(refusal),
    }
}

/// What the command prints on the network.
fn text_of(alloc: Global, command: NetworkCommand, net: &TypedNet) -> Result<String, Memory>
    ensures { IfOk result (λ text. PrintsOf command net.now (string_bytes text)) }
{
    match command {
        NetworkCommand::Types => types_text(alloc, net),
        NetworkCommand::Outline => outline_text(alloc, net),
        NetworkCommand::Optimise(wanted) => optimised_text(alloc, wanted, net),
    }
}
