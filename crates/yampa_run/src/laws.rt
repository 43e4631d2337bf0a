// The command `laws`: the steps that may be taken in the network of a file.

ghost use Rattle.std.specs.Prelude.{IfErr, IfOk, option_map, string_bytes};
ghost use Rattle.yampa_run.specs.Laws.{HasNoPlace, IsNotThere, TellsLaws, TellsSteps};

use crate::files::Files;
use crate::load::load;
use crate::preparation::Refusal;
use crate::refused::{Role, not_there_line};
use crate::words::place_of;
use net_syntax::TypedNet;
use net_tree::Position;
use net_view::{has_position, possible_text};
use std::alloc::Global;

/// The text of the command `laws` on the file of that name, at the place of a word and below; of
/// the whole network, if there is none.
pub(crate) fn possible<F: Files>(
    alloc: Global,
    name: &str,
    at: Option<&str>,
    files: &F,
) -> Result<String, Refusal>
    ensures lines { IfOk result (λ text. TellsLaws (F.told files.now name.now)
        (option_map (λ w. w.now) at.entry) (string_bytes text)) }
    ensures refused { IfErr result (HasNoPlace (F.told files.now name.now)
        (option_map (λ w. w.now) at.entry)) }
{
    let place = match place_of(alloc, at) {
        Ok(place) => place,
        Err(refusal) => return Err(refusal),
    };
    match load(alloc, Role::Network, name, files) {
        Ok(net) => {
            let text = possible_at(alloc, &net, &place);
            drop(net);
            text
        }
        Err(refusal) => Err(refusal),
    }
}

/// The lines on the steps that may be taken at the place and below.
fn possible_at(alloc: Global, net: &TypedNet, place: &Position) -> Result<String, Refusal>
    ensures lines { IfOk result (λ text. TellsSteps net.now place.now (string_bytes text)) }
    ensures refused { IfErr result (IsNotThere net.now place.now) }
{
    if has_position(net, place) {
        Ok(possible_text(alloc, net, place)?)
    } else {
        Err(Refusal::Line {
            status: 1,
            line: not_there_line(alloc, place)?,
        })
    }
}
