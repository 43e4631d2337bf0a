// From the words of a command line to what is to be done.

ghost use Rattle.std.specs.Prelude.{◌≡◌, ℕ, List, Err, IfErr, IfOk, map};
ghost use Rattle.command_line.specs.CommandLine.{ReadsWords, request_view};
ghost use Rattle.yampa_run.specs.RefusalLines.{job_status, refusal_line, refusal_status};
ghost use Rattle.yampa_run.specs.KnownFiles.{KnownFiles};
ghost use Rattle.yampa_run.specs.Loading.{RefusesWith};
ghost use Rattle.yampa_run.specs.Preparation.{Fails, IsRequested, IsRefusal, Meets};

use crate::apply::applied;
use crate::check::{accepted, derived};
use crate::compile::{compiled, compiled_checked};
use crate::files::Files;
use crate::laws::possible;
use crate::load::load;
use crate::network_commands::{NetworkCommand, network_text};
use crate::refused::Role;
use command_line::{Reply, Request, parse};
use net_syntax::TypedNet;
use sample_core::Memory;
use std::alloc::Global;
use thiserror::Error;

/// What is to be done.
#[derive(Drop)]
pub enum Job {
    /// The text is to be printed.
    Print(String),
    /// The network is to be run.
    Run(TypedNet),
    /// The text is to be printed, and the line on standard error.
    PrintAndRefuse { text: String, line: String },
}

impl Job {
    /// The exit status once it is done: 0, and 1 where a line is printed behind its text. That of a run
    /// is `run_status`.
    pub fn status(&self) -> u8
        ensures { result ≡ job_status self.now }
    {
        match self {
            Job::PrintAndRefuse { .. } => 1,
            Job::Print(_) | Job::Run(_) => 0,
        }
    }
}

/// Why nothing is to be done, or a run stopped before the end of its stream.
#[derive(Debug, Drop, Error)]
pub enum Refusal {
    /// The exit status, and the line that says why, without its line feed.
    #[error("{line}")]
    Line { status: u8, line: String },
    /// Allocation failed.
    #[error("memory")]
    Memory,
}

impl Refusal {
    /// The exit status: 3 where memory was short.
    pub fn status(&self) -> u8
        ensures { result ≡ refusal_status self.now }
    {
        match self {
            Refusal::Line { status, .. } => *status,
            Refusal::Memory => 3,
        }
    }

    /// The line that says why, without its line feed.
    pub fn line(&self) -> &str
        ensures { result.now ≡ refusal_line self.now }
    {
        match self {
            Refusal::Line { line, .. } => line.as_str(),
            Refusal::Memory => "memory",
        }
    }
}

/// The refusal with that status and line, or `Memory`.
pub(crate) fn refusal_with(alloc: Global, status: u8, line: &str) -> Refusal
    ensures { RefusesWith status line.now result }
{
    match String::from_str(alloc, line) {
        Ok(line) => Refusal::Line { status, line },
        Err(_) => Refusal::Memory,
    }
}

impl From<Memory> for Refusal {
    ghost use Rattle.std.specs.Prelude.{◌≡◌};
    ghost use Rattle.yampa_run.specs.declared.preparation.Refusal.TheVariants as Refused;

    ghost from_gives = { λ _ e. e ≡ Refused.Memory };

    fn from(_: Memory) -> Refusal {
        Refusal::Memory
    }
}

/// Reads the words of a command line, of which the first is the program's name, and the files that
/// they name. Answers the text that is to be printed or the network that is to be run; else the
/// first refusal.
pub fn prepare<F: Files>(alloc: Global, words: &[&str], files: &F) -> Result<Job, Refusal>
    // A network is run only where the words ask for it, and is the typed network of its file's
    // bytes, where these are told: that of a run, or the target of a certificate that derives it.
    // What is printed is help that is asked for, or lines on such networks.
    ensures asked { IfOk result (IsRequested (F.told files.now) (map (λ w. w.now) words.now)) }
    ensures refused { IfErr result (IsRefusal (F.told files.now) (map (λ w. w.now) words.now)) }
{
    match parse(alloc, words) {
        Ok(request) => job_of(alloc, request, files),
        Err(reply) => told_by(reply),
    }
}

/// What a request asks for.
fn job_of<F: Files>(alloc: Global, request: Request<'_>, files: &F) -> Result<Job, Refusal>
    ensures asked { IfOk result (Meets (F.told files.now) (request_view request.entry)) }
    ensures refused { IfErr result (Fails (F.told files.now) (request_view request.entry)) }
{
    match request {
        Request::Types { net } => match network_text(alloc, NetworkCommand::Types, net, files) {
            Ok(text) => Ok(Job::Print(text)),
            Err(refusal) => Err(refusal),
        },
        Request::Run { net } => match load(alloc, Role::Network, net, files) {
            Ok(net) => Ok(Job::Run(net)),
            Err(refusal) => Err(refusal),
        },
        Request::Outline { net } => match network_text(alloc, NetworkCommand::Outline, net, files) {
            Ok(text) => Ok(Job::Print(text)),
            Err(refusal) => Err(refusal),
        },
        Request::Laws { net, at } => match possible(alloc, net, at, files) {
            Ok(text) => Ok(Job::Print(text)),
            Err(refusal) => Err(refusal),
        },
        Request::Optimise { net, wanted } => match network_text(
            alloc,
            NetworkCommand::Optimise(wanted),
            net,
            files,
        ) {
            Ok(text) => Ok(Job::Print(text)),
            Err(refusal) => Err(refusal),
        },
        Request::Check(names) => match accepted(alloc, names, files) {
            Ok(text) => Ok(Job::Print(text)),
            Err(refusal) => Err(refusal),
        },
        Request::RunChecked(names) => match derived(alloc, names, files) {
            Ok((target, _)) => Ok(Job::Run(target)),
            Err(refusal) => Err(refusal),
        },
        Request::Apply(names) => applied(alloc, names, files),
        Request::Compile { net, printing } => match compiled(alloc, net, printing, files) {
            Ok(text) => Ok(Job::Print(text)),
            Err(refusal) => Err(refusal),
        },
        Request::CompileChecked { names, printing } => {
            match compiled_checked(alloc, names, printing, files) {
                Ok(text) => Ok(Job::Print(text)),
                Err(refusal) => Err(refusal),
            }
        }
    }
}

/// What a reply to the words leads to.
fn told_by(reply: Reply) -> Result<Job, Refusal>
    ensures asked { IfOk result (λ job. (told : KnownFiles) (words : List (List ℕ))
        → ReadsWords words (Err reply) → IsRequested told words job) }
    ensures refused { IfErr result (λ e. (told : KnownFiles) (words : List (List ℕ))
        → ReadsWords words (Err reply) → IsRefusal told words e) }
{
    match reply {
        Reply::Help(text) => Ok(Job::Print(text)),
        Reply::Wrong(line) => Err(Refusal::Line { status: 2, line }),
        Reply::Memory => Err(Refusal::Memory),
    }
}
