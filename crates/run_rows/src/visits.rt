// How many nodes of a running network each sample visits.

ghost use Rattle.leaf_table.specs.Rows.{rows_of};
ghost use Rattle.step_core.specs.Binding.{FitsTable};

use crate::found::{Probe, all_are_found};
use crate::running::WatchedRunner;
use leaf_table::LeafTable;
use row_texts::texts::{say, say_at};
use std::alloc::Global;
use step_core::Bound;

/// Says how many nodes of the network were visited before the stream's first sample, and by each of
/// its samples.
pub fn visits_told(alloc: Global, bound: &Bound, table: &LeafTable, stream: &str, out: &mut String)
    requires { FitsTable (rows_of table.now) bound.now }
{
    let mut running = WatchedRunner::new(alloc, bound, table);
    say_at(out, "at first", running.last_visits());
    for line in stream.lines() {
        visit_told(alloc, &mut running, line, out);
    }
    drop(running);
}

fn visit_told(alloc: Global, running: &mut WatchedRunner<'_>, line: &str, out: &mut String) {
    match running.line(alloc, line) {
        (step, Some(sample)) => {
            drop(running.push(step, &sample));
            say_at(out, ",", running.last_visits());
        }
        (_, None) => say(out, ", no value"),
    }
}

/// Networks, streams, and how many nodes each sample visits.
static VISITS: &str = "
§ A network without switches visits each node at each sample.
‹increment› | 5␤+1 6␤+1 7 => at first 0, 3, 3, 3
§ What has fired or has resumed isn't visited again; an `rSwitch` is.
yampa 1 input Int (switch ‹event above nine› ‹plus event›) | 1␤+1 20␤+1 3 => at first 0, 2, 3, 1
yampa 1 input Int (dSwitch ‹event above nine› ‹plus event›) | 1␤+1 20␤+1 3 => at first 0, 2, 3, 1
yampa 1 input Int ‹switched twice› | 1␤+1 20␤+1 3 => at first 0, 2, 5, 1
yampa 1 input Int ‹resumed› | 0␤+4 0␤+5 1␤+6 0␤+7 2␤+1 0 => at first 0, 3, 3, 5, 2, 4, 1
yampa 1 input Int ‹routed› | 2␤+3 2␤+4 7␤+1 0 => at first 0, 4, 4, 9, 3
yampa 1 input (Pair Int (Event Int)) (rSwitch (iPre 0) (iPre (p 0))) | (pair 5 none)␤+1 (pair 6 (event 9))␤+1 (pair 7 none) => at first 0, 2, 2, 2
§ First outputs and first inputs.
yampa 2 input Int (--> 7 time) | 0␤+2 0␤+3 0 => at first 0, 2, 1, 1
yampa 2 input Int (>-- 9 (iPre 0)) | 1␤+1 2␤+1 3 => at first 0, 2, 1, 1
yampa 2 input Int (--> 7 (>-- 9 (arr (neg x)))) | 1␤+1 2 => at first 0, 3, 1
yampa 2 input Int (>-- 9 (--> 7 (>-- 8 integral))) | 1␤+2 2␤+3 3 => at first 0, 4, 1, 1
yampa 2 input Int (switch (arr (pair x (event x))) (--> (p 0) (>-- (p 0) (iPre 6)))) | 5␤+1 7␤+1 8 => at first 0, 5, 1, 1
yampa 2 input Int (switch ‹event above nine› (--> (p 0) (>-- 3 integral))) | 1␤+2 10␤+3 5␤+4 6 => at first 0, 2, 5, 1, 1
§ Late restarts: what ran before is heard at the event's sample.
‹with events› ‹late restart› | ‹two events› => at first 0, 2, 3, 3, 2
‹with events› ‹late restart› | (pair 5 (event 3))␤+1 (pair 6 none) => at first 0, 3, 2
‹with events› ‹late stages› | ‹two events› => at first 0, 2, 5, 7, 4
‹with events› ‹late stages› | (pair 5 (event 3))␤+1 (pair 6 none) => at first 0, 5, 4
‹with events› ‹adjacent› | (pair 1 (event 100))␤+1 (pair 2 (event 200))␤+1 (pair 3 (event 300))␤+1 (pair 4 none) => at first 0, 5, 7, 7, 4
‹with events› (switch (arr (pair (fst x) (event 4))) (drSwitch (arr (add x (p 0))) (arr (add (mul 100 (p 1)) (add x (p 0)))))) | (pair 1 (event 3))␤+1 (pair 2 none)␤+1 (pair 3 (event 5))␤+1 (pair 4 none) => at first 0, 5, 2, 3, 2
§ Collections: members that are kept go on, others start.
‹with events› ‹collection› | (pair 2 none)␤+3 (pair 4 (event 9))␤+1 (pair 5 none) => at first 0, 2, 4, 4
‹with events› (rpSwitchB (col time) ‹none kept› time) | (pair 2 none)␤+1 (pair 2 (event 0))␤+1 (pair 2 none) => at first 0, 2, 1, 1
‹with lists› (rpSwitchB (col (arr x)) (pair x (list Int)) (arr x)) | (pair 7 (event (list{65* 0}))) => at first 0, 65
‹with lists› (rpSwitchB (col (arr x)) (pair (list Int 0) x) (arr (p 0))) | (pair 7 (event (list{65* #})))␤+1 (pair 8 none) => at first 0, 65, 65
‹with lists› ‹chosen› | (pair 2 (event (list 1 1 0 2 -1 4294967296)))␤+3 (pair 4 none)␤+5 (pair 6 (event (list 3 0 3)))␤+7 (pair 8 (event (list 9223372036854775807 4)))␤+1 (pair 1 (event (list)))␤+2 (pair 3 none) => at first 0, 6, 5, 6, 3, 3, 2
yampa 2 input (Pair (Pair Int (Event Int)) (Event (List Int))) (rpSwitchB (col ‹late restart›) (pair x (list Int)) (arr (p 0))) | (pair (pair 1 (event 10)) none)␤+1 (pair (pair 2 none) (event (list 0 0)))␤+1 (pair (pair 3 (event 11)) (event (list 1)))␤+1 (pair (pair 4 none) none) => at first 0, 4, 5, 4, 3
‹with events› (rSwitch (arr x) (>>> (arr (pair (add x (p 0)) (if (less x 5) (event x) (none Int)))) (>>> (rpSwitchB (col (arr (add x (p 0)))) (pair (list Int 0) (list Int (mul x (p 0)))) (arr (add (p 0) (mul 1000 (p 1))))) (arr (nth x 1 -1))))) | (pair 9 none)␤+1 (pair 3 (event 2))␤+1 (pair 7 none)␤+1 (pair 4 none)␤+1 (pair 4 (event 5))␤+1 (pair 6 none) => at first 0, 2, 8, 8, 8, 8, 8
§ Forms of version 2 that are frozen and resumed.
yampa 2 input Int ‹opened› | 1␤+2 2␤+3 9␤+4 5 => at first 0, 5, 3, 9, 3
yampa 2 input Int ‹opened› | 9␤+3 3␤+4 5 => at first 0, 13, 3, 3
‹with events› ‹collection at seven› | (pair 1 none)␤+2 (pair 2 (event 50))␤+3 (pair 7 (event 60))␤+4 (pair 9 none) => at first 0, 4, 5, 9, 3
‹with events› ‹restarted twice› | (pair 1 none)␤+2 (pair 2 (event 5))␤+3 (pair 7 (event 6))␤+4 (pair 9 (event 8))␤+5 (pair 1 none) => at first 0, 4, 7, 28, 17, 11
";

#[test]
fn visits_are_counted(rt: HostRuntime) {
    all_are_found(&rt, rt.alloc(), Probe::Visits, VISITS);
}
