// Runs over readers that give pieces and fail, and writers that take little and fail.

ghost use Rattle.std.specs.Prelude.{IfErr};
ghost use Rattle.leaf_table.specs.Rows.{rows_of};
ghost use Rattle.step_core.specs.Binding.{FitsTable};
ghost use Rattle.yampa_run.specs.FaultLines.{EndsRun};

use crate::found::{Probe, all_are_found};
use crate::runs::{Trial, ended_told, file_told};
use leaf_table::LeafTable;
use row_texts::devices::{Pieces, Repeats, Shared, Sink, Small, Witness};
use row_texts::texts::{parted, say, say_at};
use std::alloc::Global;
use std::cell::RefCell;
use step_core::Bound;
use yampa_run::{Counted, RunFault, RunReport, run};

/// Says what a run on the stream writes, read in pieces of 4,096 bytes, and why it ends early; and
/// behind it `differs`, where smaller pieces lead to something else.
pub fn written_told(alloc: Global, bound: &Bound, table: &LeafTable, stream: &str, out: &mut String)
    requires { FitsTable (rows_of table.now) bound.now }
{
    piece_told(alloc, bound, table, stream, 4_096, out);
    for most in 1..4usize {
        let mut again = String::new(alloc);
        piece_told(alloc, bound, table, stream, most, &mut again);
        if again.as_str() != out.as_str() {
            say(out, "differs");
        }
    }
}

/// Says what a run on the stream writes, read in pieces of at most so many bytes, and why it ends
/// early.
fn piece_told(
    alloc: Global,
    bound: &Bound,
    table: &LeafTable,
    stream: &str,
    most: usize,
    out: &mut String,
)
    requires { FitsTable (rows_of table.now) bound.now }
{
    let mut reader = Counted::new(Pieces::new(stream.as_bytes(), most, 0));
    let mut writer = Counted::new(Vec::new(alloc));
    let ended = run(alloc, bound, table, &mut reader, &mut writer);
    let written = writer.into_inner();
    say(out, str::from_utf8(&written).unwrap_or("no text"));
    ended_told(alloc, ended, out);
}

/// Says what a run of the network on the stream writes where a device fails, `FILE | FAILURE |
/// STREAM`: `read N` for the read of that number, one byte a read; `write M N` for the write of
/// that number, M bytes a write; `quiet M N` where it takes 0 bytes in place of failing. For
/// `most`, where none fails, how many nodes a sample visits at most.
pub fn failing_told(alloc: Global, given: &str, out: &mut String) {
    let (file, behind) = parted(given);
    let (failure, stream) = parted(behind);
    file_told(alloc, file, Trial::Failing(failure, stream), out);
}

/// Says what a run of a bound network writes there.
pub fn failure_tried(
    alloc: Global,
    bound: &Bound,
    table: &LeafTable,
    failure: &str,
    stream: &str,
    out: &mut String,
)
    requires { FitsTable (rows_of table.now) bound.now }
{
    let (kind, numbers) = failure.split_once(' ').unwrap_or((failure, ""));
    let (first, second) = numbers.split_once(' ').unwrap_or((numbers, ""));
    let (a, b) = (number_of(first), number_of(second));
    match kind {
        "read" => unread_told(alloc, bound, table, stream, a, out),
        "write" => unwritten_told(alloc, bound, table, stream, (a, b, false), out),
        "quiet" => unwritten_told(alloc, bound, table, stream, (a, b, true), out),
        "most" => most_told(alloc, bound, table, stream, out),
        "witness" => witness_told(alloc, bound, table, stream, out),
        _ => repeats_told(alloc, bound, table, a, out),
    }
}

fn number_of(word: &str) -> usize {
    word.parse::<usize>().unwrap_or(0)
}

fn unread_told(
    alloc: Global,
    bound: &Bound,
    table: &LeafTable,
    stream: &str,
    fails_at: usize,
    out: &mut String,
)
    requires { FitsTable (rows_of table.now) bound.now }
{
    let mut reader = Counted::new(Pieces::new(stream.as_bytes(), 1, fails_at));
    let mut writer = Counted::new(Vec::new(alloc));
    let ended = run(alloc, bound, table, &mut reader, &mut writer);
    let written = writer.into_inner();
    run_told(alloc, ended, &written, out);
}

fn unwritten_told(
    alloc: Global,
    bound: &Bound,
    table: &LeafTable,
    stream: &str,
    takes: (usize, usize, bool),
    out: &mut String,
)
    requires { FitsTable (rows_of table.now) bound.now }
{
    let (most, fails_at, quiet) = takes;
    let mut reader = Counted::new(stream.as_bytes());
    let mut writer = Counted::new(Small::new(Vec::new(alloc), most, fails_at, quiet));
    let ended = run(alloc, bound, table, &mut reader, &mut writer);
    let written = writer.into_inner().into_kept();
    run_told(alloc, ended, &written, out);
}

/// Says how many lines a run counts, what it wrote, and why it ends early.
fn run_told(alloc: Global, ended: Result<RunReport, RunFault>, written: &[u8], out: &mut String)
    requires { IfErr ended EndsRun }
{
    say_at(out, "lines", lines_of(&ended));
    say(out, ":");
    say(out, str::from_utf8(written).unwrap_or("no text"));
    ended_told(alloc, ended, out);
}

/// Says how many nodes a run visits at most at a sample.
fn most_told(alloc: Global, bound: &Bound, table: &LeafTable, stream: &str, out: &mut String)
    requires { FitsTable (rows_of table.now) bound.now }
{
    let mut reader = Counted::new(stream.as_bytes());
    let mut writer = Counted::new(Vec::new(alloc));
    let ended = run(alloc, bound, table, &mut reader, &mut writer);
    drop(writer);
    match ended {
        Ok(report) => say_at(out, "most", report.most_visits as usize),
        Err(fault) => drop(fault),
    }
}

/// How many lines a run counts.
fn lines_of(ended: &Result<RunReport, RunFault>) -> usize {
    match ended {
        Ok(report) => report.lines as usize,
        Err(RunFault::Stream { lines, .. }) => *lines as usize,
        Err(RunFault::Write { lines }) => *lines as usize,
        Err(RunFault::Memory { lines }) => *lines as usize,
    }
}

/// Says what was written before each read, each read as `.`, of a reader of single bytes.
fn witness_told(alloc: Global, bound: &Bound, table: &LeafTable, stream: &str, out: &mut String)
    requires { FitsTable (rows_of table.now) bound.now }
{
    let written = RefCell::new(String::new(alloc));
    let seen = RefCell::new(String::new(alloc));
    let mut reader = Counted::new(Witness::new(stream.as_bytes(), &written, &seen));
    let mut writer = Counted::new(Shared { written: &written });
    drop(run(alloc, bound, table, &mut reader, &mut writer));
    drop(reader);
    drop(writer);
    if let Ok(seen) = seen.try_borrow() {
        say(out, seen.as_str());
    }
}

/// Says how many lines a run counts on a value and lines that repeat it, so many bytes in all, and
/// why it ends early.
fn repeats_told(alloc: Global, bound: &Bound, table: &LeafTable, bytes: usize, out: &mut String)
    requires { FitsTable (rows_of table.now) bound.now }
{
    let mut reader = Counted::new(Repeats {
        left: bytes,
        first: true,
    });
    let mut writer = Counted::new(Sink);
    let ended = run(alloc, bound, table, &mut reader, &mut writer);
    say_at(out, "lines", lines_of(&ended));
    say(out, ":");
    ended_told(alloc, ended, out);
}

/// Networks, failures and streams, and what is written.
static FAILURES: &str = "
§ Each read fails in turn, one byte a read.
‹increment› | read 1 | 5␤+1 6␤+1 7 => lines 0:status 3 stream: cannot be read
‹increment› | read 2 | 5␤+1 6␤+1 7 => lines 0:status 3 stream: cannot be read
‹increment› | read 3 | 5␤+1 6␤+1 7 => lines 1:0␤status 3 stream: cannot be read
‹increment› | read 7 | 5␤+1 6␤+1 7 => lines 1:0␤status 3 stream: cannot be read
‹increment› | read 8 | 5␤+1 6␤+1 7 => lines 2:0␤6␤status 3 stream: cannot be read
‹increment› | read 12 | 5␤+1 6␤+1 7 => lines 2:0␤6␤status 3 stream: cannot be read
‹increment› | read 13 | 5␤+1 6␤+1 7 => lines 3:0␤6␤7␤
‹increment› | read 9 | 5␤+0 6␤+1 7 => lines 1:0␤status 1 stream: line 2: step
yampa 1 input Int ‹resumed› | read 1 | 0␤+4 0␤+5 1␤+6 0␤+7 2␤+1 0 => lines 0:status 3 stream: cannot be read
yampa 1 input Int ‹resumed› | read 2 | 0␤+4 0␤+5 1␤+6 0␤+7 2␤+1 0 => lines 0:status 3 stream: cannot be read
yampa 1 input Int ‹resumed› | read 3 | 0␤+4 0␤+5 1␤+6 0␤+7 2␤+1 0 => lines 1:0␤status 3 stream: cannot be read
yampa 1 input Int ‹resumed› | read 4 | 0␤+4 0␤+5 1␤+6 0␤+7 2␤+1 0 => lines 1:0␤status 3 stream: cannot be read
yampa 1 input Int ‹resumed› | read 5 | 0␤+4 0␤+5 1␤+6 0␤+7 2␤+1 0 => lines 1:0␤status 3 stream: cannot be read
yampa 1 input Int ‹resumed› | read 6 | 0␤+4 0␤+5 1␤+6 0␤+7 2␤+1 0 => lines 1:0␤status 3 stream: cannot be read
yampa 1 input Int ‹resumed› | read 7 | 0␤+4 0␤+5 1␤+6 0␤+7 2␤+1 0 => lines 1:0␤status 3 stream: cannot be read
yampa 1 input Int ‹resumed› | read 8 | 0␤+4 0␤+5 1␤+6 0␤+7 2␤+1 0 => lines 2:0␤4␤status 3 stream: cannot be read
yampa 1 input Int ‹resumed› | read 9 | 0␤+4 0␤+5 1␤+6 0␤+7 2␤+1 0 => lines 2:0␤4␤status 3 stream: cannot be read
yampa 1 input Int ‹resumed› | read 10 | 0␤+4 0␤+5 1␤+6 0␤+7 2␤+1 0 => lines 2:0␤4␤status 3 stream: cannot be read
yampa 1 input Int ‹resumed› | read 11 | 0␤+4 0␤+5 1␤+6 0␤+7 2␤+1 0 => lines 2:0␤4␤status 3 stream: cannot be read
yampa 1 input Int ‹resumed› | read 12 | 0␤+4 0␤+5 1␤+6 0␤+7 2␤+1 0 => lines 2:0␤4␤status 3 stream: cannot be read
yampa 1 input Int ‹resumed› | read 13 | 0␤+4 0␤+5 1␤+6 0␤+7 2␤+1 0 => lines 3:0␤4␤-1␤status 3 stream: cannot be read
yampa 1 input Int ‹resumed› | read 14 | 0␤+4 0␤+5 1␤+6 0␤+7 2␤+1 0 => lines 3:0␤4␤-1␤status 3 stream: cannot be read
yampa 1 input Int ‹resumed› | read 15 | 0␤+4 0␤+5 1␤+6 0␤+7 2␤+1 0 => lines 3:0␤4␤-1␤status 3 stream: cannot be read
yampa 1 input Int ‹resumed› | read 16 | 0␤+4 0␤+5 1␤+6 0␤+7 2␤+1 0 => lines 3:0␤4␤-1␤status 3 stream: cannot be read
yampa 1 input Int ‹resumed› | read 17 | 0␤+4 0␤+5 1␤+6 0␤+7 2␤+1 0 => lines 3:0␤4␤-1␤status 3 stream: cannot be read
yampa 1 input Int ‹resumed› | read 18 | 0␤+4 0␤+5 1␤+6 0␤+7 2␤+1 0 => lines 4:0␤4␤-1␤-1␤status 3 stream: cannot be read
yampa 1 input Int ‹resumed› | read 19 | 0␤+4 0␤+5 1␤+6 0␤+7 2␤+1 0 => lines 4:0␤4␤-1␤-1␤status 3 stream: cannot be read
yampa 1 input Int ‹resumed› | read 20 | 0␤+4 0␤+5 1␤+6 0␤+7 2␤+1 0 => lines 4:0␤4␤-1␤-1␤status 3 stream: cannot be read
yampa 1 input Int ‹resumed› | read 21 | 0␤+4 0␤+5 1␤+6 0␤+7 2␤+1 0 => lines 4:0␤4␤-1␤-1␤status 3 stream: cannot be read
yampa 1 input Int ‹resumed› | read 22 | 0␤+4 0␤+5 1␤+6 0␤+7 2␤+1 0 => lines 4:0␤4␤-1␤-1␤status 3 stream: cannot be read
yampa 1 input Int ‹resumed› | read 23 | 0␤+4 0␤+5 1␤+6 0␤+7 2␤+1 0 => lines 5:0␤4␤-1␤-1␤9␤status 3 stream: cannot be read
yampa 1 input Int ‹resumed› | read 24 | 0␤+4 0␤+5 1␤+6 0␤+7 2␤+1 0 => lines 5:0␤4␤-1␤-1␤9␤status 3 stream: cannot be read
yampa 1 input Int ‹resumed› | read 25 | 0␤+4 0␤+5 1␤+6 0␤+7 2␤+1 0 => lines 5:0␤4␤-1␤-1␤9␤status 3 stream: cannot be read
yampa 1 input Int ‹resumed› | read 26 | 0␤+4 0␤+5 1␤+6 0␤+7 2␤+1 0 => lines 5:0␤4␤-1␤-1␤9␤status 3 stream: cannot be read
yampa 1 input Int ‹resumed› | read 27 | 0␤+4 0␤+5 1␤+6 0␤+7 2␤+1 0 => lines 5:0␤4␤-1␤-1␤9␤status 3 stream: cannot be read
yampa 1 input Int ‹resumed› | read 28 | 0␤+4 0␤+5 1␤+6 0␤+7 2␤+1 0 => lines 6:0␤4␤-1␤-1␤9␤10␤
§ Each write fails in turn, one byte a write or three.
‹increment› | write 3 2 | 5␤+1 6␤+1 7 => lines 1:0␤status 3 output: cannot be written
‹increment› | write 1 1 | 5␤+1 6␤+1 7 => lines 0:status 3 output: cannot be written
‹increment› | write 1 2 | 5␤+1 6␤+1 7 => lines 0:0status 3 output: cannot be written
‹increment› | write 1 4 | 5␤+1 6␤+1 7 => lines 1:0␤6status 3 output: cannot be written
‹increment› | write 1 0 | 5␤+1 6␤+1 7 => lines 3:0␤6␤7␤
‹increment› | quiet 1 4 | 5␤+1 6␤+1 7 => lines 1:0␤6status 3 output: cannot be written
‹increment› | quiet 0 0 | 5␤+1 6␤+1 7 => lines 0:status 3 output: cannot be written
yampa 1 input Int ‹resumed› | write 1 1 | 0␤+4 0␤+5 1␤+6 0␤+7 2␤+1 0 => lines 0:status 3 output: cannot be written
yampa 1 input Int ‹resumed› | write 1 2 | 0␤+4 0␤+5 1␤+6 0␤+7 2␤+1 0 => lines 0:0status 3 output: cannot be written
yampa 1 input Int ‹resumed› | write 1 3 | 0␤+4 0␤+5 1␤+6 0␤+7 2␤+1 0 => lines 1:0␤status 3 output: cannot be written
yampa 1 input Int ‹resumed› | write 1 4 | 0␤+4 0␤+5 1␤+6 0␤+7 2␤+1 0 => lines 1:0␤4status 3 output: cannot be written
yampa 1 input Int ‹resumed› | write 1 5 | 0␤+4 0␤+5 1␤+6 0␤+7 2␤+1 0 => lines 2:0␤4␤status 3 output: cannot be written
yampa 1 input Int ‹resumed› | write 1 6 | 0␤+4 0␤+5 1␤+6 0␤+7 2␤+1 0 => lines 2:0␤4␤-status 3 output: cannot be written
yampa 1 input Int ‹resumed› | write 1 7 | 0␤+4 0␤+5 1␤+6 0␤+7 2␤+1 0 => lines 2:0␤4␤-1status 3 output: cannot be written
yampa 1 input Int ‹resumed› | write 1 8 | 0␤+4 0␤+5 1␤+6 0␤+7 2␤+1 0 => lines 3:0␤4␤-1␤status 3 output: cannot be written
yampa 1 input Int ‹resumed› | write 1 9 | 0␤+4 0␤+5 1␤+6 0␤+7 2␤+1 0 => lines 3:0␤4␤-1␤-status 3 output: cannot be written
yampa 1 input Int ‹resumed› | write 1 10 | 0␤+4 0␤+5 1␤+6 0␤+7 2␤+1 0 => lines 3:0␤4␤-1␤-1status 3 output: cannot be written
yampa 1 input Int ‹resumed› | write 1 11 | 0␤+4 0␤+5 1␤+6 0␤+7 2␤+1 0 => lines 4:0␤4␤-1␤-1␤status 3 output: cannot be written
yampa 1 input Int ‹resumed› | write 1 12 | 0␤+4 0␤+5 1␤+6 0␤+7 2␤+1 0 => lines 4:0␤4␤-1␤-1␤9status 3 output: cannot be written
yampa 1 input Int ‹resumed› | write 1 13 | 0␤+4 0␤+5 1␤+6 0␤+7 2␤+1 0 => lines 5:0␤4␤-1␤-1␤9␤status 3 output: cannot be written
yampa 1 input Int ‹resumed› | write 1 14 | 0␤+4 0␤+5 1␤+6 0␤+7 2␤+1 0 => lines 5:0␤4␤-1␤-1␤9␤1status 3 output: cannot be written
yampa 1 input Int ‹resumed› | write 1 15 | 0␤+4 0␤+5 1␤+6 0␤+7 2␤+1 0 => lines 5:0␤4␤-1␤-1␤9␤10status 3 output: cannot be written
yampa 1 input Int ‹resumed› | write 1 16 | 0␤+4 0␤+5 1␤+6 0␤+7 2␤+1 0 => lines 6:0␤4␤-1␤-1␤9␤10␤
yampa 1 input Int ‹resumed› | quiet 1 7 | 0␤+4 0␤+5 1␤+6 0␤+7 2␤+1 0 => lines 2:0␤4␤-1status 3 output: cannot be written
yampa 1 input Int ‹resumed› | quiet 0 0 | 0␤+4 0␤+5 1␤+6 0␤+7 2␤+1 0 => lines 0:status 3 output: cannot be written
§ Each line is written before the next byte is asked for.
‹increment› | witness | 5␤+1 6␤+1 7 => ..0␤.....6␤.....
§ The most nodes that a sample visits.
‹increment› | most | 5␤+1 6␤+1 7 => most 3
‹increment› | most | => most 0
yampa 1 input Int ‹switched twice› | most | 1␤+1 20␤+1 3 => most 5
yampa 1 input Int ‹resumed› | most | 0␤+4 0␤+5 1␤+6 0␤+7 2␤+1 0 => most 5
yampa 1 input Int ‹routed› | most | 2␤+3 2␤+4 7␤+1 0 => most 9
§ The last sample that a run may have, and one line more.
‹increment› | repeats 4999997 | => lines 1000000:
‹increment› | repeats 4999998 | => lines 1000000:status 1 stream: line 1000001: too many samples
§ The longest line, and one that is longer.
yampa 1 input (List Int) (arr (len x)) | read 0 | (list{32765* 1}) => lines 1:32765␤
yampa 1 input (List Int) (arr (len x)) | read 0 | (list{32766* 1}) => lines 0:status 1 stream: line 1: too long
yampa 1 input (Pair Int (Event Int)) (rSwitch (iPre 0) (iPre (p 0))) | read 0 | (pair 5 no => lines 0:status 1 stream: line 1: no value at 8
";

#[test]
fn devices_fail_as_worked_out(rt: HostRuntime) {
    all_are_found(&rt, rt.alloc(), Probe::Failing, FAILURES);
}
