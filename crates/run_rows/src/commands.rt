// Command lines, and what they lead to.

use net_syntax::TypedNet;
use net_text::push_net;
use row_texts::texts::{say, say_at, say_shown};
use std::alloc::Global;
use yampa_run::{Job, Refusal};

/// Says what a command line leads to; of a run the network that is to be run.
pub fn answer_told(asked: &Result<Job, Refusal>, out: &mut String) {
    match asked {
        Ok(Job::Run(net)) => run_told(net, out),
        Ok(job) => job_told(job, out),
        Err(refusal) => refusal_told(refusal, out),
    }
}

/// Says the network that is to be run.
fn run_told(net: &TypedNet, out: &mut String) {
    say(out, "run ");
    drop(push_net(out, net.net()));
}

/// The words of the line; none where it is empty.
pub fn words_of(alloc: Global, line: &str) -> Vec<&str> {
    let mut words = Vec::new(alloc);
    if !line.is_empty() {
        for word in line.split(' ') {
            drop(words.push(word));
        }
    }
    words
}

/// Says the text that is to be printed, and the status and line behind it, if there is one; or that
/// it is a run.
fn job_told(job: &Job, out: &mut String) {
    match job {
        Job::Print(text) => say(out, text.as_str()),
        Job::Run(_net) => say(out, "run"),
        Job::PrintAndRefuse { text, line } => {
            say(out, text.as_str());
            status_told(1, line.as_str(), out)
        }
    }
}

/// Says the refusal's status and its line; of wrong words, that they are.
pub fn refusal_told(refusal: &Refusal, out: &mut String) {
    match refusal {
        Refusal::Line { status: 2, .. } => say(out, "wrong words"),
        Refusal::Line { status, .. } => {
            say_at(out, "status", *status as usize);
            say(out, " ");
            say_shown(out, refusal)
        }
        Refusal::Memory => say_shown(out, refusal),
    }
}

/// Says the exit status and the line with it.
pub fn status_told(status: u8, line: &str, out: &mut String) {
    say_at(out, "status", status as usize);
    say(out, " ");
    say(out, line);
}
