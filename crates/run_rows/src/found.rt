// What is asked of what is given, and what tells it.

use crate::piecewise::failing_told;
use crate::runs::{
    missing_told, run_told, scant_reads_told, scantly_told, visited_told, whole_run_told,
};
use crate::scant_commands::scant_command_told;
use crate::scant_fillings::filling_told;
use crate::tables::{added_told, called_told, filled_told};
use row_texts::first_wrong;
use std::alloc::Global;
use std::process::Abort;

/// What is asked of what is given.
#[derive(Clone, Copy)]
pub enum Probe {
    /// What a network's run on a stream writes: `FILE | STREAM`.
    Run,
    /// What it writes where binding and running are one call: `FILE | STREAM`.
    WholeRun,
    /// What is written where a device fails: `FILE | FAILURE | STREAM`.
    Failing,
    /// How many nodes each sample visits: `FILE | STREAM`.
    Visits,
    /// The first expression of a network without a row in an empty table.
    Missing,
    /// What the filling of a table tells with 4,096 different expressions and one more.
    Filled,
    /// What a table with 4,096 rows answers to one more expression.
    Added,
    /// What the row of a network's expression answers on a value: `FILE | VALUE`.
    Called,
    /// Whether the filling of a table for a network fails to allocate at first, and succeeds in the
    /// end.
    ScantFilling,
    /// What a command line leads to, on files called `src`, `tgt` and `cert`, and whether it fails
    /// to allocate at first: `WORDS | SOURCE | TARGET | CERTIFICATE`.
    ScantCommand,
    /// What the pushes of a stream's samples answer, with allocations refused: `FILE | STREAM`.
    ScantStream,
    /// What a network's run on a stream writes, and how runs end where all memory is taken at some
    /// read: `FILE | STREAM`.
    ScantReads,
}

/// Adds to the text what the probe finds.
fn tell(alloc: Global, probe: Probe, given: &str, out: &mut String) {
    match probe {
        Probe::Run => run_told(alloc, given, out),
        Probe::WholeRun => whole_run_told(alloc, given, out),
        Probe::Failing => failing_told(alloc, given, out),
        Probe::Visits => visited_told(alloc, given, out),
        Probe::Missing => missing_told(alloc, given, out),
        Probe::Filled => filled_told(alloc, given, out),
        Probe::Added => added_told(alloc, given, out),
        Probe::Called => called_told(alloc, given, out),
        Probe::ScantFilling => filling_told(alloc, given, out),
        Probe::ScantCommand => scant_command_told(alloc, given, out),
        Probe::ScantStream => scantly_told(alloc, given, out),
        Probe::ScantReads => scant_reads_told(alloc, given, out),
    }
}

/// Asserts that the probe finds what is wanted of each row.
pub fn all_are_found(rt: &impl Abort, alloc: Global, probe: Probe, rows: &str) {
    let telling = |alloc: Global, given: &str, out: &mut String| tell(alloc, probe, given, out);
    let wrong = first_wrong(alloc, rows, telling);
    assert!(rt; wrong.is_empty(), "{wrong}");
}
