// Runs of whole networks on whole streams.

ghost use Rattle.std.specs.Prelude.{IfErr};
ghost use Rattle.leaf_table.specs.Rows.{rows_of};
ghost use Rattle.step_core.specs.Binding.{FitsTable};
ghost use Rattle.yampa_run.specs.FaultLines.{EndsRun};

use crate::commands::{refusal_told, status_told};
use crate::found::{Probe, all_are_found};
use crate::piecewise::{failure_tried, written_told};
use crate::scant_pushes::scant_stream_told;
use crate::scant_reads::runs_told;
use crate::tables::row_told;
use crate::visits::visits_told;
use leaf_table::{LeafTable, TableFault};
use net_rows::typed::network;
use net_syntax::{LeafNeed, TypedNet, leaves};
use row_texts::devices::Pieces;
use row_texts::texts::{parted, say, say_shown};
use sample_core::Sample;
use std::alloc::Global;
use step_core::{Bound, bind};
use yampa_run::{Counted, RunFault, RunReport, fault_line, fill_table, run_network, table_refusal};

/// What is tried of a network over a table of its closures.
#[derive(Clone, Copy)]
pub enum Trial<'a> {
    /// What binding and running it on this stream in one call writes.
    Whole(&'a str),
    /// What its run on this stream writes.
    Run(&'a str),
    /// What its run on a stream writes where a device fails: the failure, and the stream.
    Failing(&'a str, &'a str),
    /// How many of its nodes each sample of this stream visits.
    Visits(&'a str),
    /// What its pushes of this stream's samples answer, where allocations fail in turn.
    ScantStream(&'a str),
    /// What its run on this stream writes, and how runs end where memory is taken at some read.
    ScantReads(&'a str),
    /// What the row of this need answers on the value.
    Call(&'a LeafNeed, &'a Sample),
    /// Whether each of its expressions has a row.
    Rows,
}

/// Says what the network's run on a stream writes, `FILE | STREAM`, and behind it, where the run
/// ends early, the exit status and the line that tells why.
pub fn run_told(alloc: Global, given: &str, out: &mut String) {
    let (file, stream) = parted(given);
    file_told(alloc, file, Trial::Run(stream), out);
}

/// Says what binding and running the network in one call writes, `FILE | STREAM`, and behind it,
/// where that ends early, the exit status and the line that tells why.
pub fn whole_run_told(alloc: Global, given: &str, out: &mut String) {
    let (file, stream) = parted(given);
    file_told(alloc, file, Trial::Whole(stream), out);
}

/// Says how many nodes of the network each sample of the stream visits, `FILE | STREAM`.
pub fn visited_told(alloc: Global, given: &str, out: &mut String) {
    let (file, stream) = parted(given);
    file_told(alloc, file, Trial::Visits(stream), out);
}

/// Says what the network answers to the samples of the stream where allocations fail in turn, `FILE
/// | STREAM`.
pub fn scantly_told(alloc: Global, given: &str, out: &mut String) {
    let (file, stream) = parted(given);
    file_told(alloc, file, Trial::ScantStream(stream), out);
}

/// Says what the network's run on the stream writes, and how runs end where all memory is taken at
/// some read, `FILE | STREAM`.
pub fn scant_reads_told(alloc: Global, given: &str, out: &mut String) {
    let (file, stream) = parted(given);
    file_told(alloc, file, Trial::ScantReads(stream), out);
}

/// Says what the trial of the network of a file's text finds.
pub fn file_told(alloc: Global, text: &str, trial: Trial<'_>, out: &mut String) {
    match network(alloc, text) {
        Some(net) => trial_told(alloc, &net, trial, out),
        None => say(out, "no network"),
    }
}

/// Says what the trial of the network finds.
pub fn trial_told(alloc: Global, net: &TypedNet, trial: Trial<'_>, out: &mut String) {
    match leaves(alloc, net) {
        Ok(needs) => filled_told(alloc, net, &needs, trial, out),
        Err(memory) => say_shown(out, &memory),
    }
}

/// Stores a closure for each of the network's needs. Says what the trial then finds, or why the
/// table doesn't take the network.
fn filled_told(
    alloc: Global,
    net: &TypedNet,
    needs: &[LeafNeed],
    trial: Trial<'_>,
    out: &mut String,
) {
    let mut table = LeafTable::new(alloc);
    let filled = fill_table!(alloc, table, needs);
    match filled {
        Ok(()) => stored_told(alloc, net, &table, trial, out),
        Err(fault) => table_refused(alloc, fault, out),
    }
    drop(table);
}

fn table_refused(alloc: Global, fault: TableFault, out: &mut String) {
    let refusal = table_refusal(alloc, fault);
    refusal_told(&refusal, out);
    drop(refusal);
}

/// Says what the trial of the network finds over the table.
fn stored_told(
    alloc: Global,
    net: &TypedNet,
    table: &LeafTable,
    trial: Trial<'_>,
    out: &mut String,
) {
    match trial {
        Trial::Whole(stream) => whole_told(alloc, net, table, stream, out),
        trial => bound_told(alloc, net, table, trial, out),
    }
}

/// Says what binding the network to the table and running it writes, and why that ends early.
fn whole_told(alloc: Global, net: &TypedNet, table: &LeafTable, stream: &str, out: &mut String) {
    let Ok(needs) = leaves(alloc, net) else {
        return say(out, "memory");
    };
    let mut reader = Counted::new(Pieces::new(stream.as_bytes(), 4_096, 0));
    let mut writer = Counted::new(Vec::new(alloc));
    let ended = run_network(alloc, net, &needs, table, &mut reader, &mut writer);
    let written = writer.into_inner();
    say(out, str::from_utf8(&written).unwrap_or("no text"));
    if let Err(refusal) = &ended {
        refusal_told(refusal, out);
    }
    drop(ended);
    drop(needs);
}

/// Says what the trial of the network finds, bound to the table, or which expression has no row.
fn bound_told(
    alloc: Global,
    net: &TypedNet,
    table: &LeafTable,
    trial: Trial<'_>,
    out: &mut String,
) {
    match bind(alloc, net, table) {
        Ok(bound) => {
            tried(alloc, &bound, table, trial, out);
            drop(bound);
        }
        Err(fault) => say_shown(out, &fault),
    }
}

fn tried(alloc: Global, bound: &Bound, table: &LeafTable, trial: Trial<'_>, out: &mut String)
    requires { FitsTable (rows_of table.now) bound.now }
{
    match trial {
        Trial::Run(stream) => written_told(alloc, bound, table, stream, out),
        Trial::Failing(failure, stream) => {
            failure_tried(alloc, bound, table, failure, stream, out)
        }
        Trial::Visits(stream) => visits_told(alloc, bound, table, stream, out),
        Trial::ScantStream(stream) => scant_stream_told(alloc, bound, table, stream, out),
        Trial::ScantReads(stream) => runs_told(alloc, bound, table, stream, out),
        Trial::Call(need, x) => row_told(table, need, x, out),
        Trial::Whole(_) | Trial::Rows => say(out, "a row for each"),
    }
}

/// Says why a run ended early, where it did.
pub fn ended_told(alloc: Global, ended: Result<RunReport, RunFault>, out: &mut String)
    requires { IfErr ended EndsRun }
{
    if let Err(fault) = ended {
        failure_told(alloc, &fault, out);
    }
}

fn failure_told(alloc: Global, fault: &RunFault, out: &mut String)
    requires { EndsRun fault.now }
{
    match fault_line(alloc, fault) {
        Ok((status, line)) => {
            status_told(status, line.as_str(), out);
            shown_told(alloc, fault, line.as_str(), out);
        }
        Err(memory) => say_shown(out, &memory),
    }
}

/// Tells it where the fault is shown otherwise than by its line.
fn shown_told(alloc: Global, fault: &RunFault, line: &str, out: &mut String) {
    let mut shown = String::new(alloc);
    say_shown(&mut shown, fault);
    if shown.as_str() != line {
        say(out, ", shown otherwise");
    }
}

/// Says the position of the first expression of the network that has no row in an empty table, and
/// what a run over that table tells.
pub fn missing_told(alloc: Global, text: &str, out: &mut String) {
    match network(alloc, text) {
        Some(net) => unfilled_told(alloc, &net, out),
        None => say(out, "no network"),
    }
}

fn unfilled_told(alloc: Global, net: &TypedNet, out: &mut String) {
    let table = LeafTable::new(alloc);
    bound_told(alloc, net, &table, Trial::Rows, out);
    say(out, " ");
    whole_told(alloc, net, &table, "5", out);
    drop(table);
}

/// Networks, streams, and all that is written.
static RUNS: &str = "
§ Streams, and all that is written.
‹increment› | 5␤+1 6␤+1 7 => 0␤6␤7␤
‹increment› | 5␤+1 6␤+1 =␤+9223372036854775807 1␤ => 0␤6␤7␤7␤
‹successor› | 9223372036854775807 => -9223372036854775808␤
‹increment› |  =>
‹increment› | 5␤+1 6␤+0 7 => 0␤6␤status 1 stream: line 3: step
‹increment› | = => status 1 stream: line 1: nothing before
‹increment› | true => status 1 stream: line 1: other type at 0
‹increment› | 9223372036854775808 => status 1 stream: line 1: number range at 0
‹increment› | 007 => status 1 stream: line 1: no value at 0
‹increment› | -0 => status 1 stream: line 1: no value at 0
‹increment› | 5  => status 1 stream: line 1: no value at 1
‹increment› | +1 5 => status 1 stream: line 1: step
‹increment› | 5␤+9223372036854775808 6 => 0␤status 1 stream: line 2: step
‹increment› | 5␤+1  6 => 0␤status 1 stream: line 2: no value at 0
‹increment› | 5␤6 => 0␤status 1 stream: line 2: step
‹increment› | 5␤+1 == => 0␤status 1 stream: line 2: no value at 0
‹increment› | ␤ => status 1 stream: line 1: no value at 0
yampa 1 input (Pair Int Int) (>>> (iPre (pair 1 2)) (arr (sub (fst x) (mul (snd x) (neg 3))))) | (pair 10 -1)␤+2 (pair 0 0)␤+3 (pair 5 => 7␤7␤status 1 stream: line 3: no value at 7
§ One expression for each shape that has a closure of its own, and one for all others.
‹same› | 5␤+1 -6 => 5␤-6␤
yampa 1 input Int (arr 7) | 5␤+1 6 => 7␤7␤
yampa 1 input Int (arr true) | 5 => true␤
yampa 1 input Int (arr unit) | 5 => unit␤
‹successor› | 5␤+1 9223372036854775807 => 6␤-9223372036854775808␤
yampa 1 input Int (arr (mul x 3)) | 5␤+1 -9223372036854775808 => 15␤-9223372036854775808␤
yampa 1 input Int (arr (add (mul x 2) 5)) | -1␤+1 9223372036854775807 => 3␤3␤
yampa 1 input (Pair Int Bool) (arr (pair (snd x) (fst x))) | (pair 1 true) => (pair true 1)␤
yampa 1 input (Pair Int Int) (arr (fst x)) | (pair 1 2) => 1␤
‹second› | (pair 1 2) => 2␤
‹below six› | 5␤+1 6 => true␤false␤
‹wrap› | 5 => (event 5)␤
yampa 1 input Int (arr (neg x)) | 5 => -5␤
§ Sources that tell the time.
yampa 1 input Unit (repeatedly 3 unit) | unit␤+2 =␤+2 =␤+7 =␤+1 = => none␤none␤(event unit)␤(event unit)␤(event unit)␤
yampa 1 input Unit (after 5 7) | unit␤+9223372036854775807 =␤+1 = => none␤(event 7)␤none␤
yampa 1 input Unit (after 0 7) | unit => (event 7)␤
yampa 1 input Unit time | unit␤+9223372036854775807 =␤+9223372036854775807 = => 0␤9223372036854775807␤-2␤
§ Delays, loops, and forms on events.
yampa 1 input Int (delay 3 0) | 1␤+2 2␤+2 3␤+2 4 => 0␤0␤1␤2␤
yampa 1 input Int (loopPre 0 (arr (pair (add (fst x) (snd x)) (add (fst x) (snd x))))) | 1␤+1 2␤+1 3 => 1␤3␤6␤
yampa 1 input (Event Int) (accumHoldBy (add (fst x) (snd x)) 10) | none␤+1 (event 5)␤+1 none␤+1 (event 1) => 10␤15␤15␤16␤
yampa 1 input Bool edge | true␤+1 false␤+1 true => none␤none␤(event unit)␤
§ Switches, at a later sample, at the first one, and two at one sample.
yampa 1 input Int (switch ‹event above nine› ‹plus event›) | 1␤+1 20␤+1 3 => 1␤40␤23␤
yampa 1 input Int (dSwitch ‹event above nine› ‹plus event›) | 1␤+1 20␤+1 3 => 1␤20␤23␤
yampa 1 input Int (dSwitch ‹event above nine› time) | 1␤+1 20␤+1 3 => 1␤20␤1␤
yampa 1 input Int (switch ‹event always› ‹plus event›) | 5␤+1 6 => 10␤11␤
yampa 1 input Int ‹switched twice› | 1␤+1 20␤+1 3 => 1␤0␤-17␤
yampa 1 input (Pair Int (Event Int)) (rSwitch (iPre 0) (iPre (p 0))) | (pair 5 none)␤+1 (pair 6 (event 9))␤+1 (pair 7 (event 8))␤+1 (pair 4 none) => 0␤9␤8␤7␤
yampa 1 input (Pair Int (Event Int)) (rSwitch (iPre 0) (iPre (p 0))) | (pair 5 (event 3))␤+1 (pair 6 none) => 3␤5␤
§ Frozen networks: resumed later, at once, in another order, and twice, apart from one another.
yampa 1 input Int ‹resumed› | 0␤+4 0␤+5 1␤+6 0␤+7 2␤+1 0 => 0␤4␤-1␤-1␤9␤10␤
yampa 1 input Int ‹routed› | 2␤+3 2␤+4 7␤+1 0 => (list 0 0)␤(list 3 6)␤(list 14 7)␤(list 21 8)␤
yampa 1 input Int (kSwitch time ‹event at one› (old 0)) | 0␤+4 0␤+5 1␤+6 0␤+7 2␤+1 0 => 0␤4␤9␤15␤22␤23␤
yampa 1 input Int time | 0␤+4 0␤+5 1␤+6 0␤+7 2␤+1 0 => 0␤4␤9␤15␤22␤23␤
yampa 1 input Int (kSwitch (iPre 0) ‹event at one› (>>> (parB (old 0) (>>> (arr (neg x)) (old 0))) ‹hundreds›)) | 5␤+1 1␤+1 7␤+1 8 => 0␤495␤101␤707␤
yampa 1 input Int (kSwitch time ‹event at one› (>>> (parB (old 0) ‹old at two›) ‹hundreds›)) | 0␤+4 0␤+5 1␤+6 0␤+7 2␤+1 0 => 0␤4␤901␤1501␤2191␤2290␤
§ First outputs and first inputs.
yampa 2 input Int (--> 7 time) | 0␤+2 0␤+3 0 => 7␤2␤5␤
yampa 2 input Int (>-- 9 (iPre 0)) | 1␤+1 2␤+1 3 => 0␤9␤2␤
yampa 2 input Int (--> 7 (>-- 9 (arr (neg x)))) | 1␤+1 2 => 7␤-2␤
yampa 2 input Int (>-- 9 (--> 7 (>-- 8 integral))) | 1␤+2 2␤+3 3 => 7␤16␤22␤
yampa 2 input Int (switch (arr (pair x (event x))) (--> (p 0) (>-- (p 0) (iPre 6)))) | 5␤+1 7␤+1 8 => 5␤5␤7␤
yampa 2 input Int (switch ‹event above nine› (--> (p 0) (>-- 3 integral))) | 1␤+2 10␤+3 5␤+4 6 => 1␤10␤9␤29␤
§ Late restarts: what ran before is heard at the event's sample.
‹with events› ‹late restart› | ‹two events› => 0␤5␤6␤7␤
‹with events› ‹late restart› | (pair 5 (event 3))␤+1 (pair 6 none) => 0␤5␤
‹with events› ‹late stages› | ‹two events› => 0␤5␤6␤7␤
‹with events› ‹late stages› | (pair 5 (event 3))␤+1 (pair 6 none) => 0␤5␤
‹with events› ‹adjacent› | (pair 1 (event 100))␤+1 (pair 2 (event 200))␤+1 (pair 3 (event 300))␤+1 (pair 4 none) => 10␤101␤202␤303␤
‹with events› (switch (arr (pair (fst x) (event 4))) (drSwitch (arr (add x (p 0))) (arr (add (mul 100 (p 1)) (add x (p 0)))))) | (pair 1 (event 3))␤+1 (pair 2 none)␤+1 (pair 3 (event 5))␤+1 (pair 4 none) => 5␤306␤307␤508␤
§ Collections: members that are kept go on, others start.
‹with events› ‹collection› | (pair 2 none)␤+3 (pair 4 (event 9))␤+1 (pair 5 none) => (list 0)␤(list 6 6 9)␤(list 10 10 4)␤
‹with events› (rpSwitchB (col time) ‹none kept› time) | (pair 2 none)␤+1 (pair 2 (event 0))␤+1 (pair 2 none) => (list 0)␤(list)␤(list)␤
‹with lists› (rpSwitchB (col (arr x)) (pair x (list Int)) (arr x)) | (pair 7 (event (list{65* 0}))) => (list{64* 7})␤
‹with lists› (rpSwitchB (col (arr x)) (pair (list Int 0) x) (arr (p 0))) | (pair 7 (event (list{65* #})))␤+1 (pair 8 none) => (list 7{63* #})␤(list 8{63* #})␤
‹with lists› ‹chosen› | (pair 2 (event (list 1 1 0 2 -1 4294967296)))␤+3 (pair 4 none)␤+5 (pair 6 (event (list 3 0 3)))␤+7 (pair 8 (event (list 9223372036854775807 4)))␤+1 (pair 1 (event (list)))␤+2 (pair 3 none) => (list 7 7 0 5)␤(list 2 2 6 6)␤(list 26 4 26 5)␤(list 5)␤(list 5)␤(list 2)␤
yampa 2 input (Pair (Pair Int (Event Int)) (Event (List Int))) (rpSwitchB (col ‹late restart›) (pair x (list Int)) (arr (p 0))) | (pair (pair 1 (event 10)) none)␤+1 (pair (pair 2 none) (event (list 0 0)))␤+1 (pair (pair 3 (event 11)) (event (list 1)))␤+1 (pair (pair 4 none) none) => (list 0)␤(list 1 1)␤(list 2)␤(list 3)␤
‹with events› (rSwitch (arr x) (>>> (arr (pair (add x (p 0)) (if (less x 5) (event x) (none Int)))) (>>> (rpSwitchB (col (arr (add x (p 0)))) (pair (list Int 0) (list Int (mul x (p 0)))) (arr (add (p 0) (mul 1000 (p 1))))) (arr (nth x 1 -1))))) | (pair 9 none)␤+1 (pair 3 (event 2))␤+1 (pair 7 none)␤+1 (pair 4 none)␤+1 (pair 4 (event 5))␤+1 (pair 6 none) => 9␤6002␤6002␤8002␤20005␤20005␤
§ Forms of version 2 that are frozen and resumed.
yampa 2 input Int ‹opened› | 1␤+2 2␤+3 9␤+4 5 => 7␤200␤9␤242␤
yampa 2 input Int ‹opened› | 9␤+3 3␤+4 5 => 9␤300␤312␤
‹with events› ‹collection at seven› | (pair 1 none)␤+2 (pair 2 (event 50))␤+3 (pair 7 (event 60))␤+4 (pair 9 none) => (list 0)␤(list 2 50)␤(list 8 60)␤(list 36 7)␤
‹with events› ‹restarted twice› | (pair 1 none)␤+2 (pair 2 (event 5))␤+3 (pair 7 (event 6))␤+4 (pair 9 (event 8))␤+5 (pair 1 none) => 0␤2␤5006005006␤6028006028␤8045008045␤
§ The forms of version 2 in one network.
yampa 2 input Int ‹new forms› | 5␤+2 6␤+3 10␤+1 7 => (list 7 0 0 -5)␤(list 2 9 5 -6)␤(list 5 6 6 28)␤(list 6 10 10 38)␤
§ All forms at once, and switches in the parts of switches.
yampa 1 input Int ‹forms› | 5␤+1 6␤+5 7 => (list 6 0 0 0 0 5 5 1 1 -5 5 10 5 5 20 5)␤(list 7 5 0 1 5 6 11 1 1 -6 11 11 1 6 22 6)␤(list 8 6 6 6 35 7 18 1 1 -7 13 12 2 7 24 7)␤
yampa 1 input Int {250*(switch (arr (pair x (event x))) }(arr x){250*)} | 5␤+1 6 => 5␤6␤
yampa 1 input Int (kSwitch time (arr (event unit)) {200*(kSwitch (old 0) (arr (event unit)) }(old 0){200*)}) | 5␤+3 5 => 0␤3␤
";

/// Networks, and where the first expression without a row stands.
static MISSING: &str = "
§ The first expression without a row.
‹increment› => no row at (at 0 0) status 3 no row
";

/// Networks, streams, and all that is written where binding and running are one call.
static WHOLE_RUNS: &str = "
§ To the end, to the first faulty line, and on no sample.
‹increment› | 5␤+1 6␤+1 7 => 0␤6␤7␤
‹increment› | 5␤+1 6␤+0 7 => 0␤6␤status 1 stream: line 3: step
‹increment› |  =>
";

#[test]
fn runs_go_as_worked_out(rt: HostRuntime) {
    all_are_found(&rt, rt.alloc(), Probe::Run, RUNS);
    all_are_found(&rt, rt.alloc(), Probe::WholeRun, WHOLE_RUNS);
    all_are_found(&rt, rt.alloc(), Probe::Missing, MISSING);
}
