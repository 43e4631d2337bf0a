// Runs of a network from a reader to a writer.

ghost use Rattle.std.specs.Prelude.{◌≡◌, ◌<◌, ◌≤◌, ◌^◌, ℕ, List, Option, [], IfErr, IfOk, OnErr, OnOk, length, string_bytes, take};
ghost use Rattle.std.specs.Io.KnownBytes.{Appends};
ghost use Rattle.sample_core.specs.{HasType.HasType, TypeView.type_of, ValueView.datum_of};
ghost use Rattle.leaf_table.specs.Rows.{rows_of};
ghost use Rattle.step_core.specs.{Binding.FitsTable, RowTyping.network_by};
ghost use Rattle.step_core.specs.{RunnerState.StandsFor, RunnerState.network_in, RunnerView.runner_state};
ghost use Rattle.stream_text.specs.{Failures.Rose, Answers.IsFresh, ReaderState.reader_state};
ghost use Rattle.yampa_run.specs.{FaultLines.EndsRun, Output.line_of_value};
ghost use Rattle.yampa_run.specs.Runs.{Answers, Breaks, BreaksOff, FailsByDevice, RunsToEnd, StopsRun, run_fault_of, stream_fault_of};
ghost use Rattle.yampa_run.specs.declared.stream_run.WriteStop.TheVariants as T;

use crate::fault::{RunFault, RunReport};
use leaf_table::LeafTable;
use sample_core::{Memory, Sample, Ty, push_value};
use std::alloc::Global;
use std::io::{Read, Write};
use step_core::{Bound, Runner};
use stream_text::{Device, LineState, StreamFault, has_failed};

/// Why a line of output isn't written whole.
#[derive(Clone, Copy)]
pub(crate) enum WriteStop {
    /// A write failed.
    Write,
    /// Allocation failed.
    Memory,
}

/// Runs the network on the stream that the reader gives, over the table that it was bound to or
/// that table with more rows. Writes a line for each sample, before it asks for the next: the
/// spelling of what the network outputs, and a line feed. Never flushes the writer.
///
/// A refusal counts the lines that were wholly written; nothing but what begins the output is.
/// `Stream`: the stream's first fault, as `LineState::next` answers it; the lines of the samples
/// before it are all written. `Write`: a write failed or took no byte. `Memory`: allocation failed.
pub fn run<R: Read + Device, W: Write + Device>(
    alloc: Global,
    bound: &Bound,
    table: &LeafTable,
    reader: &mut R,
    writer: &mut W,
) -> Result<RunReport, RunFault>
    requires { FitsTable (rows_of table.now) bound.now }
    ensures done { IfOk result (λ report. RunsToEnd bound.now.input
        (network_by (rows_of table.now) bound.now.rows) (R.remaining reader.old)
        (R.remaining reader.new) (W.contents writer.old) (W.contents writer.new) report.lines
        report.most_visits) }
    ensures stopped { IfErr result (StopsRun bound.now.input
        (network_by (rows_of table.now) bound.now.rows) (R.remaining reader.old)
        (R.remaining reader.new) (W.contents writer.old) (W.contents writer.new)) }
    ensures failed { IfErr result (FailsByDevice (R.count reader.old) (R.count reader.new)
        (W.count writer.old) (W.count writer.new)) }
    ensures answered { IfErr result EndsRun }
{
    let Ok(mut stream) = LineState::new(alloc) else {
        return Err(RunFault::Memory { lines: 0 });
    };
    let mut runner = Runner::new(alloc, bound, table);
    let mut text = String::new(alloc);
    let ended = run_on(
        bound.input(),
        &mut stream,
        &mut runner,
        &mut text,
        reader,
        writer,
    );
    drop(runner);
    drop(stream);
    ended
}

/// Runs a network that has not started, with inputs of the type, on a stream of which nothing was
/// read. `text` is room for a line.
fn run_on<R: Read + Device, W: Write + Device>(
    ty: &Ty,
    stream: &mut LineState,
    runner: &mut Runner<'_>,
    text: &mut String,
    reader: &mut R,
    writer: &mut W,
) -> Result<RunReport, RunFault>
    requires fresh { IsFresh (reader_state stream.old) }
    requires ready { StandsFor (runner_state runner.old) [] }
    requires of_type { (runner_state runner.old).input ≡ type_of ty.now }
    ensures done { IfOk result (λ report. RunsToEnd (type_of ty.now)
        (network_in (runner_state runner.old)) (R.remaining reader.old) (R.remaining reader.new)
        (W.contents writer.old) (W.contents writer.new) report.lines report.most_visits) }
    ensures stopped { IfErr result (StopsRun (type_of ty.now)
        (network_in (runner_state runner.old)) (R.remaining reader.old) (R.remaining reader.new)
        (W.contents writer.old) (W.contents writer.new)) }
    ensures failed { IfErr result (FailsByDevice (R.count reader.old) (R.count reader.new)
        (W.count writer.old) (W.count writer.new)) }
    ensures answered { IfErr result EndsRun }
{
    let failed_reads = reader.failures();
    let failed_writes = writer.failures();
    let mut lines: u64 = 0;
    let mut most_visits: u32 = 0;
    loop {
        match stream.next_step(reader, failed_reads, ty) {
            Ok(Some(step)) => {
                let Some(sample) = stream.last() else {
                    unreachable!()
                };
                match answer(step, sample, runner, text, failed_writes, writer) {
                    Ok(()) => {}
                    Err(stop) => return Err(stopped(lines, stop)),
                }
                lines += 1;
                most_visits = most_visits.max(runner.last_visits());
            }
            Ok(None) => return Ok(RunReport { lines, most_visits }),
            Err(fault) => return Err(ended(lines, fault)),
        }
    }
}

/// What a line that isn't written whole ends a run with.
fn stopped(lines: u64, stop: WriteStop) -> RunFault
    ensures { result ≡ run_fault_of lines stop }
{
    match stop {
        WriteStop::Write => RunFault::Write { lines },
        WriteStop::Memory => RunFault::Memory { lines },
    }
}

/// What a fault of the stream ends a run with.
fn ended(lines: u64, fault: StreamFault) -> RunFault
    ensures { result ≡ stream_fault_of lines fault }
{
    match fault {
        StreamFault::Memory => RunFault::Memory { lines },
        fault => RunFault::Stream { lines, fault },
    }
}

/// Runs the network on one sample, and writes the line of its answer.
#[inline(always)]
fn answer<W: Write + Device>(
    step: u64,
    sample: &Sample,
    runner: &mut Runner<'_>,
    text: &mut String,
    failures: u64,
    writer: &mut W,
) -> Result<(), WriteStop>
    requires typed { HasType (datum_of sample.now) (runner_state runner.old).input }
    requires later { 0 < (runner_state runner.old).samples → (1 ≤ step) × (step < 2 ^ 63) }
    requires room { (runner_state runner.old).samples < 2 ^ 63 }
    ensures answers { OnOk result
        (Answers (runner_state runner.old) (step, datum_of sample.now) (W.contents writer.old)
        (runner_state runner.new) (W.contents writer.new)) }
    ensures breaks { OnErr result
        (Breaks (runner_state runner.old) (step, datum_of sample.now) (W.contents writer.old)
        (runner_state runner.new) (W.contents writer.new)) }
    ensures failed { IfErr result (λ stop. stop ≡ T.Write
        → Rose failures (W.count writer.new)) }
{
    let Ok(answer) = runner.push(step, sample) else {
        return Err(WriteStop::Memory);
    };
    match spell(text, &answer) {
        Ok(()) => {
            answer.let_go();
            put(writer, failures, text.as_bytes())
        }
        Err(Memory) => {
            drop(answer);
            Err(WriteStop::Memory)
        }
    }
}

/// Puts the line of a value into the text, in place of what stands there.
#[inline(always)]
fn spell(text: &mut String, value: &Sample) -> Result<(), Memory>
    ensures { OnOk result (string_bytes text.new ≡ line_of_value (datum_of value.now)) }
{
    text.clear();
    push_value(text, value)?;
    text.push_str("\n")?;
    Ok(())
}

/// Writes all of the bytes, or a part as a prefix. `Write`: a write failed or took no byte, so that
/// the writer has failed more often than `failures`. A failure that the writer doesn't count is
/// none, and the write is made again; `Memory` after 2^64 of these.
#[inline(always)]
fn put<W: Write + Device>(writer: &mut W, failures: u64, bytes: &[u8]) -> Result<(), WriteStop>
    ensures all { OnOk result (Appends (W.contents writer.old) (W.contents writer.new)
        bytes.now) }
    ensures part { OnErr result (BreaksOff (W.contents writer.old) (W.contents writer.new)
        bytes.now) }
    ensures failed { IfErr result (λ stop. stop ≡ T.Write
        → Rose failures (W.count writer.new)) }
{
    // Mostly the first write takes all.
    let taken = write_some(writer, bytes);
    if taken == bytes.len() {
        Ok(())
    } else {
        put_on(writer, failures, bytes, taken)
    }
}

/// Writes the rest of the bytes, where a first write took so many, but not all.
#[inline(never)]
fn put_on<W: Write + Device>(
    writer: &mut W,
    failures: u64,
    bytes: &[u8],
    first: usize,
) -> Result<(), WriteStop>
    requires less { first < length bytes.now }
    ensures all { (from : Option (List ℕ)) → Appends from (W.contents writer.old)
        (take first bytes.now) → OnOk result (Appends from (W.contents writer.new) bytes.now) }
    ensures part { (from : Option (List ℕ)) → Appends from (W.contents writer.old)
        (take first bytes.now) → OnErr result (BreaksOff from (W.contents writer.new) bytes.now) }
    ensures failed { IfErr result (λ stop. stop ≡ T.Write
        → Rose failures (W.count writer.new)) }
{
    if first == 0 && has_failed(writer, failures) {
        return Err(WriteStop::Write);
    }
    let mut done = first;
    for _turn in 0..u64::MAX {
        if done >= bytes.len() {
            return Ok(());
        }
        let taken = write_some(writer, &bytes[done..]);
        if taken == 0 && has_failed(writer, failures) {
            return Err(WriteStop::Write);
        }
        done += taken;
    }
    if done >= bytes.len() {
        return Ok(());
    }
    Err(WriteStop::Memory)
}

/// Writes once. Answers how many bytes were taken, none where the write failed.
#[inline(always)]
fn write_some<W: Write>(writer: &mut W, bytes: &[u8]) -> usize
    ensures within { result ≤ length bytes.now }
    ensures taken { Appends (W.contents writer.old) (W.contents writer.new)
        (take result bytes.now) }
{
    match writer.write(bytes) {
        Ok(taken) => taken,
        Err(_) => 0,
    }
}
