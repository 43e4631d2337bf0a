// What runs write where memory is short from some read on.

ghost use Rattle.leaf_table.specs.Rows.{rows_of};
ghost use Rattle.step_core.specs.Binding.{FitsTable};

use crate::found::{Probe, all_are_found};
use leaf_table::LeafTable;
use row_texts::ballast::{ROOM, take_all};
use row_texts::refusing::refuse_none;
use row_texts::scarce::{Ending, MOST_TRIES, Scarce, Shortage, Tries};
use row_texts::texts::say;
use std::alloc::Global;
use step_core::Bound;
use yampa_run::{Counted, RunFault, RunReport, run};

/// A network over its table, a stream, and all that is written of it with ample memory.
#[derive(Clone, Copy)]
struct Given<'a> {
    bound: &'a Bound,
    table: &'a LeafTable,
    stream: &'a str,
    whole: &'a [u8],
}

/// Says what a run on the stream writes with ample memory, and how runs end that are short of it at
/// some read.
pub fn runs_told(alloc: Global, bound: &Bound, table: &LeafTable, stream: &str, out: &mut String)
    requires { FitsTable (rows_of table.now) bound.now }
{
    let mut reader = Counted::new(stream.as_bytes());
    let mut writer = Counted::new(Vec::new(alloc));
    drop(run(alloc, bound, table, &mut reader, &mut writer));
    let whole = writer.into_inner();
    say(out, str::from_utf8(&whole).unwrap_or("no text"));
    let given = Given {
        bound,
        table,
        stream,
        whole: &whole,
    };
    runs_tried(alloc, given, out);
}

fn runs_tried(alloc: Global, given: Given<'_>, out: &mut String)
    requires { FitsTable (rows_of given.table.now) given.bound.now }
{
    let mut tries = Tries::new(given.stream.len().saturating_add(1));
    let room = take_all(alloc, ROOM);
    for _ in 0..MOST_TRIES {
        if let Some(shortage) = tries.next() {
            tries.note(run_tried(alloc, given, shortage));
        }
    }
    drop(room);
    tries.tell(out);
}

/// How a run ends that is so short of memory.
fn run_tried(alloc: Global, given: Given<'_>, shortage: Shortage) -> Ending
    requires { FitsTable (rows_of given.table.now) given.bound.now }
{
    let Ok(kept) = Vec::with_capacity(alloc, 1_000) else {
        return Ending::Other;
    };
    let mut writer = Counted::new(kept);
    let mut reader = Counted::new(Scarce::new(alloc, given.stream.as_bytes(), shortage));
    let ended = run(alloc, given.bound, given.table, &mut reader, &mut writer);
    drop(reader);
    refuse_none(alloc, None);
    let written = writer.into_inner();
    run_ending(&ended, &written, given.whole)
}

/// Whether the run wrote the whole, or failed to allocate behind some of its lines, which it
/// counts.
fn run_ending(ended: &Result<RunReport, RunFault>, written: &[u8], whole: &[u8]) -> Ending {
    let lines = count_of(b'\n', written);
    match ended {
        Ok(report) if report.lines as usize == lines && written == whole => Ending::Whole,
        Err(RunFault::Memory { lines: counted })
            if *counted as usize == lines && whole.starts_with(written) => {
            Ending::Refused(lines)
        }
        _ => Ending::Other,
    }
}

/// How often the byte stands among the bytes.
fn count_of(byte: u8, bytes: &[u8]) -> usize {
    let mut count = 0usize;
    for other in bytes {
        if *other == byte {
            count = count.saturating_add(1);
        }
    }
    count
}

/// Networks, streams, what is written, and how runs with little memory end.
static RUNS: &str = "
§ Memory is refused from each read on in turn.
‹increment› | 5␤+1 6␤+1 7 => 0␤6␤7␤refused, also behind lines
§ Networks that switch.
yampa 1 input Int ‹resumed› | 0␤+4 0␤+5 1␤+6 0␤+7 2␤+1 0 => 0␤4␤-1␤-1␤9␤10␤refused, also behind lines
yampa 1 input Int ‹routed› | 2␤+3 2␤+4 7␤+1 0 => (list 0 0)␤(list 3 6)␤(list 14 7)␤(list 21 8)␤refused, also behind lines
";

#[test]
fn runs_are_short_of_memory(rt: HostRuntime) {
    all_are_found(&rt, rt.alloc(), Probe::ScantReads, RUNS);
}
