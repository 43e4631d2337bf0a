// What the program does behind its table: binding, the run, and the status and line of what stops it.

ghost use Rattle.std.specs.Prelude.{◌≡◌, IfErr, map};
ghost use Rattle.leaf_table.specs.Rows.{rows_of};
ghost use Rattle.net_syntax.specs.{Leaves.LeavesOf, NeedView.need_of};
ghost use Rattle.yampa_run.specs.FaultLines.{EndsRun};
ghost use Rattle.yampa_run.specs.NetworkRun.{FailsAsTold, RefusesBinding, RefusesRun, RunsOver};
ghost use Rattle.yampa_run.specs.RefusalLines.{answer_status};

use crate::fault::{RunFault, RunReport};
use crate::preparation::{Refusal, refusal_with};
use crate::printed::fault_line;
use crate::stream_run::run;
use leaf_table::LeafTable;
use net_syntax::{LeafNeed, TypedNet};
use sample_core::Memory;
use std::alloc::Global;
use std::io::{Read, Write};
use step_core::{BindFault, bind_needs};
use stream_text::Device;

/// Runs the network, whose `leaves` are these needs, on the stream that the reader gives, over a
/// table of stored closures: binds it to the table, and then runs it as `run` does. Never flushes the
/// writer.
///
/// A refusal has the status and the line of what stopped it. `no row`, with status 3: the table has
/// no row for an expression of the network, and nothing is read or written. Else the line of the
/// run's fault, as `fault_line` has it; nothing but what begins the output is written. `Memory`:
/// allocation failed, also one for the line.
pub fn run_network<R: Read + Device, W: Write + Device>(
    alloc: Global,
    net: &TypedNet,
    needs: &[LeafNeed],
    table: &LeafTable,
    reader: &mut R,
    writer: &mut W,
) -> Result<RunReport, Refusal>
    requires { LeavesOf net.now (map need_of needs.now) }
    ensures ran { RunsOver (rows_of table.now) net.now (R.remaining reader.old)
        (R.remaining reader.new) (W.contents writer.old) (W.contents writer.new) result }
    ensures failed { IfErr result (FailsAsTold (R.count reader.old) (R.count reader.new)
        (W.count writer.old) (W.count writer.new)) }
{
    match bind_needs(alloc, net, needs, table) {
        Ok(bound) => {
            let ended = run(alloc, &bound, table, reader, writer);
            drop(bound);
            match ended {
                Ok(report) => Ok(report),
                Err(fault) => Err(run_refusal(alloc, &fault)),
            }
        }
        Err(fault) => {
            let refusal = bind_refusal(alloc, &fault);
            drop(fault);
            Err(refusal)
        }
    }
}

/// The exit status of a run, by what `run_network` answers: 0 for a report, else the refusal's.
pub fn run_status(answer: &Result<RunReport, Refusal>) -> u8
    ensures { result ≡ answer_status answer.now }
{
    match answer {
        Ok(_) => 0,
        Err(refusal) => refusal.status(),
    }
}

/// The refusal for a fault that a run answers: its status and line.
pub(crate) fn run_refusal(alloc: Global, fault: &RunFault) -> Refusal
    requires { EndsRun fault.now }
    ensures { RefusesRun fault.now result }
{
    match fault_line(alloc, fault) {
        Ok((status, line)) => Refusal::Line { status, line },
        Err(Memory) => Refusal::Memory,
    }
}

/// The refusal for a network that isn't bound: status 3 and the line `no row`, or `Memory`.
fn bind_refusal(alloc: Global, fault: &BindFault) -> Refusal
    ensures { RefusesBinding fault.now result }
{
    match fault {
        BindFault::MissingLeaf { position: _ } => refusal_with(alloc, 3, "no row"),
        BindFault::Memory => Refusal::Memory,
    }
}
