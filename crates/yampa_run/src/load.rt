// The network of a file.

ghost use Rattle.std.specs.Prelude.{IfErr, IfOk, Some};
ghost use Rattle.yampa_run.specs.Loading.{HasNoNetwork, IsNetworkIn, IsNetworkOf, RefusesText, RefusesTypes};

use crate::files::{Files, read_file};
use crate::preparation::Refusal;
use crate::refused::{Role, text_line, type_line};
use net_syntax::TypedNet;
use net_text::{NetTextFault, read_net};
use net_types::{TypeFault, check_types};
use sample_core::Memory;
use std::alloc::Global;

/// The network of the file of that name, with its types.
pub(crate) fn load<F: Files>(
    alloc: Global,
    role: Role,
    name: &str,
    files: &F,
) -> Result<TypedNet, Refusal>
    ensures network { IfOk result (IsNetworkOf (F.told files.now name.now)) }
    ensures refused { IfErr result (HasNoNetwork role (F.told files.now name.now)) }
{
    match read_file(alloc, role, name, files) {
        Ok(bytes) => network_of(alloc, role, &bytes),
        Err(refusal) => Err(refusal),
    }
}

/// The network of a file with those bytes, with its types.
fn network_of(alloc: Global, role: Role, bytes: &[u8]) -> Result<TypedNet, Refusal>
    ensures network { IfOk result (IsNetworkIn bytes.now) }
    ensures refused { IfErr result (HasNoNetwork role (Some bytes.now)) }
{
    let (input, net) = match read_net(alloc, bytes) {
        Ok(read) => read,
        Err(fault) => return Err(text_refusal(alloc, role, &fault)?),
    };
    match check_types(alloc, input, net) {
        Ok(typed) => Ok(typed),
        Err(fault) => {
            let refusal = type_refusal(alloc, role, &fault);
            drop(fault);
            Err(refusal?)
        }
    }
}

/// The refusal of a file for its text.
pub(crate) fn text_refusal(
    alloc: Global,
    role: Role,
    fault: &NetTextFault,
) -> Result<Refusal, Memory>
    ensures { IfOk result (RefusesText role fault.now) }
{
    match fault {
        NetTextFault::Memory => Ok(Refusal::Memory),
        fault => Ok(Refusal::Line {
            status: 1,
            line: text_line(alloc, role, fault)?,
        }),
    }
}

/// The refusal of a file for its network's types.
fn type_refusal(alloc: Global, role: Role, fault: &TypeFault) -> Result<Refusal, Memory>
    ensures { IfOk result (RefusesTypes role fault.now) }
{
    match fault {
        TypeFault::Memory => Ok(Refusal::Memory),
        fault => Ok(Refusal::Line {
            status: 1,
            line: type_line(alloc, role, fault)?,
        }),
    }
}
