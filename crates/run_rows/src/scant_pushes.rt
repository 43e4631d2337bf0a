// What a runner answers on whole streams where allocations fail in turn.

ghost use Rattle.leaf_table.specs.Rows.{rows_of};
ghost use Rattle.step_core.specs.Binding.{FitsTable};

use crate::found::{Probe, all_are_found};
use crate::running::WatchedRunner;
use leaf_table::LeafTable;
use row_texts::ballast::{ROOM, take_all};
use row_texts::refusing::{refuse, refuse_none};
use row_texts::texts::{answer_told, say, say_at};
use sample_core::{Memory, Sample};
use std::alloc::Global;
use step_core::Bound;

/// Says what the network answers to each sample of the stream, and how many nodes that visits,
/// where each is pushed again after each failure, with a later allocation that fails or a little
/// more memory left; and whether any push failed, or one that did changed what is told of the
/// samples before.
pub fn scant_stream_told(
    alloc: Global,
    bound: &Bound,
    table: &LeafTable,
    stream: &str,
    out: &mut String,
)
    requires { FitsTable (rows_of table.now) bound.now }
{
    let mut running = WatchedRunner::new(alloc, bound, table);
    let room = take_all(alloc, ROOM);
    for line in stream.lines() {
        line_told(alloc, &mut running, line, out);
    }
    drop(room);
    say(out, refusals_of(&running));
    drop(running);
}

fn refusals_of(running: &WatchedRunner<'_>) -> &'static str {
    match (running.changed(), running.refused()) {
        (true, _) => "changed by a refusal",
        (false, 0) => "never refused",
        (false, _) => "refused at first",
    }
}

fn line_told(alloc: Global, running: &mut WatchedRunner<'_>, line: &str, out: &mut String) {
    match running.line(alloc, line) {
        (step, Some(sample)) => {
            answer_told(scant_push(alloc, running, step, &sample), out);
            say_at(out, " visits", running.last_visits());
            say(out, "; ");
        }
        (_, None) => say(out, "no value; "),
    }
}

/// What the pushes of the sample are answered in the end.
fn scant_push(
    alloc: Global,
    running: &mut WatchedRunner<'_>,
    step: u64,
    sample: &Sample,
) -> Result<Sample, Memory> {
    for attempt in 0..ATTEMPTS {
        let ballast = refuse(alloc, attempt + 1, attempt.saturating_mul(16));
        let answer = running.push(step, sample);
        refuse_none(alloc, ballast);
        if answer.is_ok() {
            return answer;
        }
        drop(answer);
    }
    running.push(step, sample)
}

/// How many times a push is tried with little memory, before it is tried with ample memory.
const ATTEMPTS: usize = 1_000;

/// Networks, streams, and what is answered.
static PUSHES: &str = "
§ Pushes with little memory, each repeated until it is answered.
yampa 1 input Int (>>> (arr (list (Event Int){100* (event x)})) (iPre (list (Event Int)))) | 5␤+1 5 => (list) visits 3; (list{100* (event 5)}) visits 3; refused at first
yampa 1 input Int (switch ‹event above nine› ‹plus event›) | 1␤+1 20␤+1 3 => 1 visits 2; 40 visits 3; 23 visits 1; refused at first
yampa 1 input Int (dSwitch ‹event above nine› ‹plus event›) | 1␤+1 20␤+1 3 => 1 visits 2; 20 visits 3; 23 visits 1; refused at first
yampa 1 input Int ‹switched twice› | 1␤+1 20␤+1 3 => 1 visits 2; 0 visits 5; -17 visits 1; refused at first
yampa 1 input (Pair Int (Event Int)) (rSwitch (iPre 0) (iPre (p 0))) | (pair 5 none)␤+1 (pair 6 (event 9))␤+1 (pair 7 (event 8))␤+1 (pair 4 none) => 0 visits 2; 9 visits 2; 8 visits 2; 7 visits 2; refused at first
yampa 1 input (Pair Int (Event Int)) (rSwitch (iPre 0) (iPre (p 0))) | (pair 5 (event 3))␤+1 (pair 6 none) => 3 visits 2; 5 visits 2; refused at first
yampa 1 input Int ‹resumed› | 0␤+4 0␤+5 1␤+6 0␤+7 2␤+1 0 => 0 visits 3; 4 visits 3; -1 visits 5; -1 visits 2; 9 visits 4; 10 visits 1; refused at first
yampa 1 input Int ‹routed› | 2␤+3 2␤+4 7␤+1 0 => (list 0 0) visits 4; (list 3 6) visits 4; (list 14 7) visits 9; (list 21 8) visits 3; refused at first
§ The forms of version 2.
yampa 2 input Int (switch ‹event above nine› (--> (p 0) (>-- 3 integral))) | 1␤+2 10␤+3 5␤+4 6 => 1 visits 2; 10 visits 5; 9 visits 1; 29 visits 1; refused at first
‹with events› ‹late stages› | ‹two events› => 0 visits 2; 5 visits 5; 6 visits 7; 7 visits 4; refused at first
‹with events› ‹late stages› | (pair 5 (event 3))␤+1 (pair 6 none) => 0 visits 5; 5 visits 4; refused at first
‹with events› ‹collection› | (pair 2 none)␤+3 (pair 4 (event 9))␤+1 (pair 5 none) => (list 0) visits 2; (list 6 6 9) visits 4; (list 10 10 4) visits 4; refused at first
‹with lists› ‹chosen› | (pair 2 (event (list 1 1 0 2 -1 4294967296)))␤+3 (pair 4 none)␤+5 (pair 6 (event (list 3 0 3)))␤+7 (pair 8 (event (list 9223372036854775807 4)))␤+1 (pair 1 (event (list)))␤+2 (pair 3 none) => (list 7 7 0 5) visits 6; (list 2 2 6 6) visits 5; (list 26 4 26 5) visits 6; (list 5) visits 3; (list 5) visits 3; (list 2) visits 2; refused at first
‹with events› ‹collection at seven› | (pair 1 none)␤+2 (pair 2 (event 50))␤+3 (pair 7 (event 60))␤+4 (pair 9 none) => (list 0) visits 4; (list 2 50) visits 5; (list 8 60) visits 9; (list 36 7) visits 3; refused at first
‹with events› ‹restarted twice› | (pair 1 none)␤+2 (pair 2 (event 5))␤+3 (pair 7 (event 6))␤+4 (pair 9 (event 8))␤+5 (pair 1 none) => 0 visits 4; 2 visits 7; 5006005006 visits 28; 6028006028 visits 17; 8045008045 visits 11; refused at first
";

#[test]
fn pushes_are_repeated(rt: HostRuntime) {
    all_are_found(&rt, rt.alloc(), Probe::ScantStream, PUSHES);
}
