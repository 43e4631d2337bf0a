//! The program: hands the words, the files and the standard streams to `yampa_run`, and prints
//! what it answers.
//!
//!     $ yampa run net < stream
//!
//! No contract can describe the host's files and streams, so `main` stays thin: it reads the words,
//! asks `prepare` for the job, stores a closure for each expression of the network (`fill_table!`),
//! runs it by `run_network`, and prints a refusal's line. What it ends with, `job_ending` and
//! `run_ending` say. Output goes through a `Held`, which holds lines back until more input is asked
//! for. `tests/examples` tries it.
//!
//! First this file; the host's files are `src/host.rt`.
#![tactic(auto)]

mod host;

ghost use Rattle.std.specs.Prelude.{map};
ghost use Rattle.net_syntax.specs.{Leaves.LeavesOf, NeedView.need_of};

use host::HostFiles;
use leaf_table::LeafTable;
use net_syntax::{LeafNeed, TypedNet, leaves};
use sample_core::Memory;
use std::alloc::Global;
use std::cell::RefCell;
use std::env;
use std::io::{self, BufReader, ErrorKind, Stdout, Write};
use std::process::ExitCode;
use yampa_run::{
    Asking, Counted, Ending, Held, Job, Printer, ROOM, Refusal, RunReport, fill_table, is_given,
    job_ending, prepare, run_ending, run_network, table_refusal,
};

fn main(rt: HostRuntime) -> ExitCode {
    let ending = match job(&rt) {
        Ok(job) => perform(&rt, job),
        Err(refusal) => Ending::Refused(refusal),
    };
    if let Some(refusal) = ending.refusal() {
        complain(&rt, refusal.line());
    }
    let status = ending.status();
    drop(ending);
    ExitCode::from(status)
}

/// What the command line asks for.
fn job(rt: &HostRuntime) -> Result<Job, Refusal> {
    let words = match words(rt) {
        Ok(words) => words,
        Err(error) => return Err(unread_words(rt.alloc(), &error)),
    };
    let mut borrowed = Vec::new(rt.alloc());
    for word in &words {
        if borrowed.push(word.as_str()).is_err() {
            return Err(Refusal::Memory);
        }
    }
    prepare(rt.alloc(), &borrowed, &HostFiles::new(rt))
}

/// The words of the command line; the first is the program's name.
fn words(rt: &HostRuntime) -> io::Result<Vec<String>> {
    let mut words = Vec::new(rt.alloc());
    for word in env::args(rt)? {
        words.push(word)?;
    }
    Ok(words)
}

fn unread_words(alloc: Global, error: &io::Error) -> Refusal {
    match (
        error.kind(),
        String::from_str(alloc, "the words are not UTF-8"),
    ) {
        (ErrorKind::InvalidData, Ok(line)) => Refusal::Line { status: 2, line },
        _ => Refusal::Memory,
    }
}

/// Does what is to be done.
fn perform(rt: &HostRuntime, job: Job) -> Ending {
    let is_printed = match &job {
        Job::Print(text) | Job::PrintAndRefuse { text, line: _ } => prints(rt, text),
        Job::Run(net) => return run(rt, net),
    };
    job_ending(rt.alloc(), job, is_printed)
}

/// Runs the network on standard input.
fn run(rt: &HostRuntime, net: &TypedNet) -> Ending {
    match leaves(rt.alloc(), net) {
        Ok(needs) => run_filled(rt, net, &needs),
        Err(Memory) => Ending::Refused(Refusal::Memory),
    }
}

/// Stores a closure for each of the network's needs, and runs it on standard input.
fn run_filled(rt: &HostRuntime, net: &TypedNet, needs: &[LeafNeed]) -> Ending
    requires { LeavesOf net.now (map need_of needs.now) }
{
    let mut table = LeafTable::new(rt.alloc());
    let filled = fill_table!(rt.alloc(), table, needs);
    let ending = match filled {
        Ok(()) => run_on(rt, net, needs, &table),
        Err(fault) => Ending::Refused(table_refusal(rt.alloc(), fault)),
    };
    drop(table);
    ending
}

/// Runs the network on standard input, over a table of its closures, and prints the lines of its
/// answers.
fn run_on(rt: &HostRuntime, net: &TypedNet, needs: &[LeafNeed], table: &LeafTable) -> Ending
    requires { LeavesOf net.now (map need_of needs.now) }
{
    match Held::new(rt.alloc(), rt.stdout()) {
        Ok(output) => {
            let output = RefCell::new(output);
            let answer = run_printed(rt, net, needs, table, &output);
            run_ending(rt.alloc(), answer, is_given(&output))
        }
        Err(Memory) => Ending::Refused(Refusal::Memory),
    }
}

/// Runs the network, and prints on the output that is held back.
fn run_printed(
    rt: &HostRuntime,
    net: &TypedNet,
    needs: &[LeafNeed],
    table: &LeafTable,
    output: &RefCell<Held<Stdout>>,
) -> Result<RunReport, Refusal>
    requires { LeavesOf net.now (map need_of needs.now) }
{
    let input = Asking::new(rt.stdin(), output);
    let Ok(input) = BufReader::with_capacity(rt.alloc(), ROOM, input) else {
        return Err(Refusal::Memory);
    };
    let mut reader = Counted::new(input);
    let mut writer = Counted::new(Printer::new(output));
    let answer = run_network(rt.alloc(), net, needs, table, &mut reader, &mut writer);
    drop(reader);
    drop(writer);
    answer
}

/// Prints the text on standard output. Answers whether the host took it.
fn prints(rt: &HostRuntime, text: &str) -> bool {
    let mut stdout = rt.stdout();
    stdout
        .write_all(text.as_bytes())
        .and_then(|()| stdout.flush())
        .is_ok()
}

/// Prints a line on standard error.
fn complain(rt: &HostRuntime, line: &str) {
    let mut stderr = rt.stderr();
    // Where standard error can't be written, the status is all that can be told.
    let _ = stderr.write_all(line.as_bytes());
    let _ = stderr.write_all(b"\n");
}
